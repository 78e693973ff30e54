//! Changes prepared, and then made or dropped together.

ghost use Rattle.std.specs.Prelude.{◌≡◌, false, OnOk, OnErr};
ghost use Rattle.std.specs.Ordering.{nat_cmp};
ghost use Rattle.std.specs.Cmp.Lexicographic.{slice_cmp};
ghost use Rattle.std.specs.List.Sorted.{IsStrictlySortedBy};
ghost use Rattle.std.specs.Map.{keys_of};
ghost use Rattle.numbered_tables.specs.Tables.{AreIdle};
ghost use Rattle.numbered_tables.specs.Changes.{IsChanged, has_repeat};
ghost use Rattle.numbered_tables.specs.Prepared.{prepared, prepared_one, is_pending_in, committed_all, aborted_all};

use crate::change::TableChange;
use crate::table::NumberedTable;
use attr_value::kept;
use base_types::{Seq, Text};
use std::alloc::{AllocError as NoMemory, Global};
use std::collections::BTreeMap;

/// Prepares a change in the table that it names, where that is there. Where memory is refused nothing changes.
fn prepare(
    tables: &mut BTreeMap<Text, NumberedTable>,
    alloc: Global,
    change: TableChange,
) -> Result<(), NoMemory>
    requires { is_pending_in tables.old.entries change ≡ false }
    ensures ok { OnOk result (tables.new.entries ≡ prepared_one change tables.old.entries) }
    ensures err { OnErr result (tables.new.entries ≡ tables.old.entries) }
{
    let TableChange { table, key, new } = change;
    let new = kept(alloc, new)?;
    let Some(table) = tables.get_mut(&table) else {
        return Ok(());
    };
    table.rows.prepare(alloc, key, new)
}

/// Prepares changes, the last one first, since a table makes what is prepared in it from its end.
///
/// Where memory is refused some of them are prepared.
fn prepare_all(
    tables: &mut BTreeMap<Text, NumberedTable>,
    alloc: Global,
    mut changes: Seq<TableChange>,
) -> Result<(), NoMemory>
    requires idle { AreIdle tables.old.entries }
    requires apart { has_repeat changes ≡ false }
    ensures ok { OnOk result (tables.new.entries ≡ prepared changes tables.old.entries) }
    ensures err { OnErr result (aborted_all tables.new.entries ≡ tables.old.entries) }
{
    while let Some(change) = changes.pop() {
        prepare(tables, alloc, change)?;
    }
    Ok(())
}

/// Makes what is prepared, in every table. It takes no memory.
fn commit_all(tables: &mut BTreeMap<Text, NumberedTable>)
    ensures ordered { IsStrictlySortedBy (slice_cmp nat_cmp) (keys_of tables.old.entries) }
    ensures entries { tables.new.entries ≡ committed_all tables.old.entries }
{
    // A loop over the values would tell nothing of what is written to them.
    tables.retain(|_, table| {
        table.rows.commit();
        true
    });
}

/// Drops what is prepared, in every table. It takes no memory.
fn abort_all(tables: &mut BTreeMap<Text, NumberedTable>)
    ensures { tables.new.entries ≡ aborted_all tables.old.entries }
{
    tables.retain(|_, table| {
        table.rows.abort();
        true
    });
}

/// Makes changes of items together: each item becomes what its change says. A change whose table is not there changes
/// nothing. No item is changed twice.
///
/// Each costs the logarithm of its table's rows, and all of them a look at every table. Where memory is refused nothing
/// changes.
pub fn change_all(
    tables: &mut BTreeMap<Text, NumberedTable>,
    alloc: Global,
    changes: Seq<TableChange>,
) -> Result<(), NoMemory>
    requires idle { AreIdle tables.old.entries }
    requires apart { has_repeat changes ≡ false }
    ensures idle { AreIdle tables.new.entries }
    ensures ok { OnOk result (IsChanged tables.old.entries changes tables.new.entries) }
    ensures err { OnErr result (tables.new.entries ≡ tables.old.entries) }
{
    match prepare_all(tables, alloc, changes) {
        Ok(()) => {
            commit_all(tables);
            Ok(())
        }
        Err(refused) => {
            abort_all(tables);
            Err(refused)
        }
    }
}
