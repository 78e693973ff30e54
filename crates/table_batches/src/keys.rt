//! Keys of rows.

ghost use Rattle.std.specs.Prelude.{◌≡◌, map, IfOk};
ghost use Rattle.item_keys.specs.ItemKey.{key_alone};
ghost use Rattle.row_keys.specs.declared.row_key.RowKey.{RowKey};
ghost use Rattle.table_model.specs.Batches.{asked_keys, has_twice, write_key, write_keys};
ghost use Rattle.numbered_tables.specs.Tables.{table_in};
ghost use Rattle.table_batches.specs.Answers.{tables_alone};
ghost use Rattle.table_batches.specs.Keys.{gathered};

use crate::change::write_key;
use attr_value::Item;
use base_types::{Seq, Text};
use item_keys::KeyFault;
use numbered_tables::NumberedTable;
use row_keys::RowKey;
use std::alloc::{AllocError as NoMemory, Global};
use std::collections::{BTreeMap, BTreeSet};
use table_items::key_of_key;
use table_request::{TableKeys, TableWrites, WriteRequest};
use table_schema::Schema;

/// The keys of the rows that these are the keys of, or the first fault of one.
pub(crate) fn row_keys(
    alloc: Global,
    schema: &Schema,
    keys: &[Item],
) -> Result<Result<Seq<RowKey>, KeyFault>, NoMemory>
    ensures { IfOk result (λ rows. rows ≡ gathered (map (λ key. key_alone schema.now schema.now.keys key) keys.now)) }
{
    let mut rows = Seq::with_capacity(alloc, keys.len())?;
    for key in keys {
        match key_of_key(alloc, schema, key)? {
            Ok(row) => rows.push(row)?,
            Err(fault) => return Ok(Err(fault)),
        }
    }
    Ok(Ok(rows))
}

/// The keys of the rows that a BatchGetItem asks of one table, or the first fault of one.
pub(crate) fn asked_keys(
    tables: &BTreeMap<Text, NumberedTable>,
    alloc: Global,
    asked: &TableKeys,
) -> Result<Result<Seq<RowKey>, KeyFault>, NoMemory>
    ensures { IfOk result (λ keys. keys ≡ gathered (asked_keys (tables_alone tables.now.entries) asked.now)) }
{
    let Some(table) = tables.get(&asked.table) else {
        return Ok(Ok(Seq::new(alloc)));
    };
    row_keys(alloc, table.rows.schema(), asked.keys.as_slice())
}

/// The keys of the rows that these writes are at, or the first fault of one.
fn row_keys_of(
    table: &NumberedTable,
    alloc: Global,
    writes: &[WriteRequest],
) -> Result<Result<Seq<RowKey>, KeyFault>, NoMemory>
    ensures { IfOk result (λ rows. rows ≡ gathered (map (write_key (table_in table.now)) writes.now)) }
{
    let mut rows = Seq::with_capacity(alloc, writes.len())?;
    for write in writes {
        match write_key(table, alloc, write)? {
            Ok(row) => rows.push(row)?,
            Err(fault) => return Ok(Err(fault)),
        }
    }
    Ok(Ok(rows))
}

/// The keys of the rows that a BatchWriteItem writes in one table, or the first fault of one.
pub(crate) fn write_keys(
    tables: &BTreeMap<Text, NumberedTable>,
    alloc: Global,
    asked: &TableWrites,
) -> Result<Result<Seq<RowKey>, KeyFault>, NoMemory>
    ensures { IfOk result (λ keys. keys ≡ gathered (write_keys (tables_alone tables.now.entries) asked.now)) }
{
    let Some(table) = tables.get(&asked.table) else {
        return Ok(Ok(Seq::new(alloc)));
    };
    row_keys_of(table, alloc, asked.writes.as_slice())
}

/// What is on one row.
pub(crate) trait Keyed {
    ghost key_of: { Self → RowKey };

    /// The key of the row.
    fn key(&self) -> &RowKey
        ensures { result.now ≡ key_of self.now };
}

impl Keyed for RowKey {
    ghost key_of = { λ key. key };

    fn key(&self) -> &RowKey {
        self
    }
}

/// Whether some key stands twice among those of these rows.
pub(crate) fn has_twice<T: Keyed>(alloc: Global, rows: &[T]) -> Result<bool, NoMemory>
    ensures { IfOk result (λ twice. twice ≡ has_twice (map T.key_of rows.now)) }
{
    let mut seen = BTreeSet::new(alloc);
    for row in rows {
        if !seen.insert(row.key())? {
            return Ok(true);
        }
    }
    Ok(false)
}
