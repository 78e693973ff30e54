//! Reads with their tables and their keys.

ghost use Rattle.std.specs.Prelude.{◌≡◌, IfOk, map};
ghost use Rattle.table_model.specs.Database.{first};
ghost use Rattle.table_model.specs.Batches.{missing};
ghost use Rattle.transact_reads.specs.Found.{target_of, item_of, IsFound, AreFound, database_of};
ghost use Rattle.transact_reads.specs.Checked.{place_of};

use crate::targets::Targeted;
use crate::told::ItemRead;
use attr_value::SharedItem;
use base_types::{Seq, Text};
use numbered_tables::NumberedTable;
use row_keys::RowKey;
use std::alloc::{AllocError as NoMemory, Global};
use std::collections::BTreeMap;
use table_items::key_of_key;
use table_model::{Invalid, Refusal};
use table_request::TransactRead;

/// Where the item of a read is: the number of its table, and its key.
#[derive(Drop)]
pub struct ReadAt {
    pub table: u64,
    pub key: RowKey,
}

/// A read with its table and the key of its item.
#[derive(Drop)]
pub(crate) struct FoundRead<'a> {
    read: &'a TransactRead,
    table: &'a NumberedTable,
    key: RowKey,
}

impl<'a> Targeted for FoundRead<'a> {
    ghost target_of = { target_of };

    fn table(&self) -> &Text {
        &self.read.table
    }

    fn key(&self) -> &RowKey {
        &self.key
    }
}

impl<'a> ItemRead for FoundRead<'a> {
    ghost read_in = { λ found. found.read.now };

    ghost item_in = { item_of };

    fn read(&self) -> &TransactRead {
        self.read
    }

    fn item(&self) -> Option<&SharedItem> {
        self.table.rows.get(&self.key)
    }
}

impl<'a> FoundRead<'a> {
    /// Where its item is.
    pub(crate) fn into_place(self) -> ReadAt
        ensures { result ≡ place_of (target_of self.entry) }
    {
        let FoundRead {
            read: _,
            table,
            key,
        } = self;
        ReadAt {
            table: table.number,
            key,
        }
    }
}

/// The first table that is not there, refused.
pub(crate) fn missing_table(
    tables: &BTreeMap<Text, NumberedTable>,
    reads: &[TransactRead],
) -> Result<Option<Refusal>, NoMemory>
    ensures { IfOk result (λ refusal. refusal ≡ first (map (λ read. missing (database_of tables.now.entries) read.table) reads.now)) }
{
    for read in reads {
        if !tables.contains_key(&read.table) {
            return Ok(Some(Refusal::NoTable(read.table.try_clone()?)));
        }
    }
    Ok(None)
}

/// The table and the key of a read, or its refusal: NoTable, or the first fault of its key.
fn find<'a>(
    tables: &'a BTreeMap<Text, NumberedTable>,
    alloc: Global,
    read: &'a TransactRead,
) -> Result<Result<FoundRead<'a>, Refusal>, NoMemory>
    ensures { IfOk result (IsFound (database_of tables.now.entries) read.now) }
{
    let Some(table) = tables.get(&read.table) else {
        return Ok(Err(Refusal::NoTable(read.table.try_clone()?)));
    };
    match key_of_key(alloc, table.rows.schema(), &read.key)? {
        Ok(key) => Ok(Ok(FoundRead { read, table, key })),
        Err(fault) => Ok(Err(Refusal::Invalid(Invalid::Key(fault)))),
    }
}

/// The tables and the keys of all reads, or the first refusal.
pub(crate) fn find_all<'a>(
    tables: &'a BTreeMap<Text, NumberedTable>,
    alloc: Global,
    reads: &'a [TransactRead],
) -> Result<Result<Seq<FoundRead<'a>>, Refusal>, NoMemory>
    ensures { IfOk result (AreFound (database_of tables.now.entries) reads.now) }
{
    let mut all = Seq::with_capacity(alloc, reads.len())?;
    for read in reads {
        match find(tables, alloc, read)? {
            Ok(found) => all.push(found)?,
            Err(refusal) => return Ok(Err(refusal)),
        }
    }
    Ok(Ok(all))
}
