//! Items that are expired, taken out of every table.

ghost use Rattle.std.specs.Prelude.{◌≡◌, ◌++◌, IfOk, OnOk, OnErr, IsTrue};
ghost use Rattle.std.specs.Ordering.{nat_cmp};
ghost use Rattle.std.specs.Cmp.Lexicographic.{slice_cmp};
ghost use Rattle.std.specs.List.Sorted.{IsStrictlySortedBy};
ghost use Rattle.std.specs.Map.{keys_of};
ghost use Rattle.row_keys.specs.Keys.{row_order};
ghost use Rattle.table_model.specs.Expired.{swept_tables};
ghost use Rattle.numbered_tables.specs.Tables.{AreIdle, table_in, tables_in};
ghost use Rattle.numbered_tables.specs.Swept.{removals, removals_of, AreInOrder};

use crate::change::TableChange;
use crate::made::change_all;
use crate::table::NumberedTable;
use base_types::{Seq, Text};
use std::alloc::{AllocError as NoMemory, Global};
use std::collections::BTreeMap;

/// Adds the removals of a table's rows that are expired at a second.
fn add_removals(
    alloc: Global,
    changes: &mut Seq<TableChange>,
    name: &Text,
    table: &NumberedTable,
    second: u64,
) -> Result<(), NoMemory>
    ensures added { OnOk result (changes.new ≡ changes.old ++ removals_of second (name.now, table_in table.now)) }
    ensures ordered { IsStrictlySortedBy row_order (keys_of table.now.rows.rows) }
{
    table.rows.are_in_order();
    for key in Vec::from(table.rows.expired_keys(alloc, second)?) {
        let table = name.try_clone()?;
        changes.push(TableChange {
            table,
            key,
            new: None,
        })?;
    }
    Ok(())
}

/// The removals of all rows that are expired at a second.
fn removals(
    alloc: Global,
    tables: &BTreeMap<Text, NumberedTable>,
    second: u64,
) -> Result<Seq<TableChange>, NoMemory>
    ensures changes { IfOk result (λ changes. changes ≡ removals second (tables_in tables.now.entries)) }
    ensures rows { OnOk result (AreInOrder tables.now.entries) }
    ensures names { IsStrictlySortedBy (slice_cmp nat_cmp) (keys_of tables.now.entries) }
{
    // What `len` tells of a map: that its keys ascend.
    let _ = tables.len();
    let mut changes = Seq::new(alloc);
    for (name, table) in tables.iter() {
        add_removals(alloc, &mut changes, name, table, second)?;
    }
    Ok(changes)
}

/// Whether it is known without a look at the rows that none is expired at a second.
fn are_quiet(tables: &BTreeMap<Text, NumberedTable>, second: u64) -> bool
    ensures { IsTrue result → swept_tables second (tables_in tables.now.entries) ≡ tables_in tables.now.entries }
{
    for (_name, table) in tables.iter() {
        if !table.rows.is_quiet(second) {
            return false;
        }
    }
    true
}

/// Lets each table find out until when none of its rows is expired.
fn look_out(tables: &mut BTreeMap<Text, NumberedTable>, second: u64)
    ensures { tables.new.entries ≡ tables.old.entries }
{
    // A loop over the values would tell nothing of what is written to them.
    tables.retain(|_, table| {
        table.rows.look_out(second);
        true
    });
}

/// Takes all items out of the tables that are expired at a second (API Reference: UpdateTimeToLive).
///
/// Of a table in which nothing can be expired no row is looked at. Where memory is refused nothing changes.
pub fn sweep(
    tables: &mut BTreeMap<Text, NumberedTable>,
    alloc: Global,
    second: u64,
) -> Result<(), NoMemory>
    requires idle { AreIdle tables.old.entries }
    ensures idle { AreIdle tables.new.entries }
    ensures ok { OnOk result (tables_in tables.new.entries ≡ swept_tables second (tables_in tables.old.entries)) }
    ensures err { OnErr result (tables.new.entries ≡ tables.old.entries) }
{
    if are_quiet(tables, second) {
        return Ok(());
    }
    let changes = removals(alloc, tables, second)?;
    change_all(tables, alloc, changes)?;
    look_out(tables, second);
    Ok(())
}
