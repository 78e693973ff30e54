//! The changes that writes are.

ghost use Rattle.std.specs.Prelude.{◌≡◌, ◌∷◌, [], ◌++◌, map, IfOk, OnOk};
ghost use Rattle.std.specs.List.{flat_map};
ghost use Rattle.row_keys.specs.declared.row_key.RowKey.{RowKey};
ghost use Rattle.table_items.specs.Outcomes.{row_key_if};
ghost use Rattle.table_model.specs.Batches.{write_key, write_keys, write_image};
ghost use Rattle.numbered_tables.specs.Tables.{table_in};
ghost use Rattle.table_batches.specs.Answers.{tables_alone};
ghost use Rattle.table_batches.specs.Refusals.{RefusesOr};
ghost use Rattle.table_batches.specs.Keys.{IsAsked, AreAsked, keys_refusal};
ghost use Rattle.table_batches.specs.Writes.{changes_of, changes_in};

use crate::keys::{Keyed, has_twice};
use attr_value::Item;
use base_types::{Seq, Text};
use item_keys::KeyFault;
use numbered_tables::{NumberedTable, TableChange};
use row_keys::RowKey;
use std::alloc::{AllocError as NoMemory, Global};
use std::collections::BTreeMap;
use table_items::{key_of_item, key_of_key};
use table_model::{Invalid, Refusal};
use table_request::{TableWrites, WriteRequest};

impl Keyed for TableChange {
    ghost key_of = { λ change. change.key };

    fn key(&self) -> &RowKey {
        &self.key
    }
}

/// The key of the row that is written, or its first fault.
pub(crate) fn write_key(
    table: &NumberedTable,
    alloc: Global,
    write: &WriteRequest,
) -> Result<Result<RowKey, KeyFault>, NoMemory>
    ensures { IfOk result (λ key. key ≡ row_key_if (write_key (table_in table.now) write.now)) }
{
    match write {
        WriteRequest::Put(item) => key_of_item(alloc, table.rows.schema(), item),
        WriteRequest::Delete(key) => key_of_key(alloc, table.rows.schema(), key),
    }
}

/// The item that is there after the write.
fn write_image(write: WriteRequest) -> Option<Item>
    ensures { result ≡ write_image write }
{
    match write {
        WriteRequest::Put(item) => Some(item),
        WriteRequest::Delete(key) => {
            drop(key);
            None
        }
    }
}

/// Adds the change that a write at a key is.
fn push_change(
    changes: &mut Seq<TableChange>,
    name: &Text,
    key: RowKey,
    write: WriteRequest,
) -> Result<(), NoMemory>
    ensures { OnOk result (changes.new ≡ changes.old ++ record { table = name.now; key = key; new = write_image write } ∷ []) }
{
    let table = name.try_clone()?;
    let new = write_image(write);
    changes.push(TableChange { table, key, new })?;
    Ok(())
}

/// Adds the changes that the writes of a table are, or answers the first fault of a key.
fn push_changes(
    table: &NumberedTable,
    alloc: Global,
    name: &Text,
    writes: Seq<WriteRequest>,
    changes: &mut Seq<TableChange>,
) -> Result<Result<(), KeyFault>, NoMemory>
    ensures { IfOk result (λ made. AreAsked (map (write_key (table_in table.now)) writes) made
        (changes.new ≡ changes.old ++ changes_of (table_in table.now) name.now writes)) }
{
    for write in Vec::from(writes) {
        match write_key(table, alloc, &write)? {
            Ok(key) => push_change(changes, name, key, write)?,
            Err(fault) => return Ok(Err(fault)),
        }
    }
    Ok(Ok(()))
}

/// Adds the changes that the writes of a table are, and answers whether a key stands twice, or the first fault of a key.
/// To a table that is not there nothing is written.
fn changes_of(
    tables: &BTreeMap<Text, NumberedTable>,
    alloc: Global,
    asked: TableWrites,
    changes: &mut Seq<TableChange>,
) -> Result<Result<bool, KeyFault>, NoMemory>
    ensures { IfOk result (λ made. IsAsked (write_keys (tables_alone tables.now.entries) asked) made
        (changes.new ≡ changes.old ++ changes_in (tables_alone tables.now.entries) asked)) }
{
    let TableWrites {
        table: name,
        writes,
    } = asked;
    let Some(table) = tables.get(&name) else {
        return Ok(Ok(false));
    };
    let before = changes.len();
    match push_changes(table, alloc, &name, writes, changes)? {
        Ok(()) => Ok(Ok(has_twice(alloc, &changes.as_slice()[before..])?)),
        Err(fault) => Ok(Err(fault)),
    }
}

/// The changes that all writes are, or the refusal of a key.
pub(crate) fn changes_of_all(
    tables: &BTreeMap<Text, NumberedTable>,
    alloc: Global,
    requests: Seq<TableWrites>,
) -> Result<Result<Seq<TableChange>, Refusal>, NoMemory>
    ensures { let db = tables_alone tables.now.entries in IfOk result (RefusesOr (keys_refusal (write_keys db) requests)
        (λ changes. changes ≡ flat_map (changes_in db) requests)) }
{
    let mut changes = Seq::new(alloc);
    let mut twice = false;
    for asked in Vec::from(requests) {
        match changes_of(tables, alloc, asked, &mut changes)? {
            Ok(repeats) => twice |= repeats,
            Err(fault) => return Ok(Err(Refusal::Invalid(Invalid::Key(fault)))),
        }
    }
    if twice {
        return Ok(Err(Refusal::Invalid(Invalid::Twice)));
    }
    Ok(Ok(changes))
}
