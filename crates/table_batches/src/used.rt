//! What the writes of a BatchWriteItem use of the tables' capacity.

ghost use Rattle.std.specs.Prelude.{◌≡◌, ◌∷◌, [], ◌++◌, sum_by, IfOk, OnOk};
ghost use Rattle.std.specs.Option.{option_copied};
ghost use Rattle.capacity.specs.Units.{counted};
ghost use Rattle.table_model.specs.Batches.{used_by_writes, write_halves_in, write_image};
ghost use Rattle.table_model.specs.Consumed.{used_by_all, where_asked};
ghost use Rattle.numbered_tables.specs.Tables.{table_in};
ghost use Rattle.table_batches.specs.Answers.{tables_alone};

use crate::change::write_key;
use attr_value::{Item, lent};
use base_types::{Seq, Text};
use numbered_tables::NumberedTable;
use std::alloc::{AllocError as NoMemory, Global};
use std::collections::BTreeMap;
use table_items::halves_written;
use table_request::{Consumed, TableWrites, WriteRequest};

/// The item that is there after the write, lent.
fn image(write: &WriteRequest) -> Option<&Item>
    ensures { option_copied result ≡ write_image write.now }
{
    match write {
        WriteRequest::Put(item) => Some(item),
        WriteRequest::Delete(_) => None,
    }
}

/// The halves of a unit that a write uses, none where its key has a fault.
fn halves_of(table: &NumberedTable, alloc: Global, write: &WriteRequest) -> Result<u64, NoMemory>
    ensures { IfOk result (λ halves. halves ≡ write_halves_in (table_in table.now) write.now) }
{
    match write_key(table, alloc, write)? {
        Ok(key) => {
            let old = table.rows.get(&key);
            Ok(halves_written(lent(old), image(write)))
        }
        Err(_fault) => Ok(0),
    }
}

/// The halves of a unit that these writes use, each by itself.
fn halves_in(table: &NumberedTable, alloc: Global, writes: &[WriteRequest]) -> Result<u64, NoMemory>
    ensures { IfOk result (λ halves. halves ≡ counted (sum_by (write_halves_in (table_in table.now)) writes.now)) }
{
    let mut halves = 0u64;
    for write in writes {
        let one = halves_of(table, alloc, write)?;
        halves = halves.saturating_add(one);
    }
    Ok(halves)
}

/// What the writes of a table use.
fn used_in(table: &NumberedTable, alloc: Global, asked: &TableWrites) -> Result<Consumed, NoMemory>
    ensures { IfOk result (λ used. used ≡ used_by_all asked.now.table (write_halves_in (table_in table.now)) asked.now.writes) }
{
    let halves = halves_in(table, alloc, asked.writes.as_slice())?;
    let name = asked.table.try_clone()?;
    Ok(Consumed {
        table: name,
        halves,
    })
}

/// Adds what the writes of a table use, where it is there.
fn push_used(
    tables: &BTreeMap<Text, NumberedTable>,
    alloc: Global,
    asked: &TableWrites,
    all: &mut Seq<Consumed>,
) -> Result<(), NoMemory>
    ensures { OnOk result (all.new ≡ all.old ++ used_by_writes (tables_alone tables.now.entries) (asked.now ∷ [])) }
{
    let Some(table) = tables.get(&asked.table) else {
        return Ok(());
    };
    all.push(used_in(table, alloc, asked)?)?;
    Ok(())
}

/// What the writes use of each table that is there.
fn used(
    tables: &BTreeMap<Text, NumberedTable>,
    alloc: Global,
    requests: &[TableWrites],
) -> Result<Seq<Consumed>, NoMemory>
    ensures { IfOk result (λ used. used ≡ used_by_writes (tables_alone tables.now.entries) requests.now) }
{
    let mut all = Seq::with_capacity(alloc, requests.len())?;
    for asked in requests {
        push_used(tables, alloc, asked, &mut all)?;
    }
    Ok(all)
}

/// The same where it is told. Else nothing is measured.
pub(crate) fn used_if(
    capacity: bool,
    tables: &BTreeMap<Text, NumberedTable>,
    alloc: Global,
    requests: &[TableWrites],
) -> Result<Option<Seq<Consumed>>, NoMemory>
    ensures { IfOk result (λ used. used ≡ where_asked capacity (used_by_writes (tables_alone tables.now.entries) requests.now)) }
{
    if !capacity {
        return Ok(None);
    }
    Ok(Some(used(tables, alloc, requests)?))
}
