//! The items that come with a table that a command makes.

ghost use Rattle.std.specs.Prelude.{◌≡◌, ◌≤◌, ◌&&◌, ℕ, None, not, nat_eq, IfOk, OnOk, if◌then◌else◌};
ghost use Rattle.std.specs.BTreeMap.{IsOrdered, get, is_at};
ghost use Rattle.item_store.specs.Slots.{committed_at, slot_of};
ghost use Rattle.index_changes.specs.Bringing.{ComesAt, brought_over, over};
ghost use Rattle.index_changes.specs.Plans.{brought};

use crate::rules::CellRules;
use item_store::{Committed, TableItems};
use std::alloc::{AllocError as NoMemory, Global};
use txn_core::Stamp;

/// Whether an item of this key lives in this cell, and its table is there after a change of the catalog and was not before.
fn comes<R: CellRules>(
    partitions: u32,
    here: u32,
    before: &R::Catalog,
    after: &R::Catalog,
    key: &R::Key,
) -> bool
    requires { 1 ≤ partitions }
    ensures { result ≡ (nat_eq ((R.protocol partitions).core.cell_of key.now) here
        && (not ((R.protocol partitions).core.there before.now key.now) && (R.protocol partitions).core.there after.now key.now)) }
{
    if R::cell_of(partitions, key) != here {
        return false;
    }
    if R::is_there(before, key) {
        return false;
    }
    R::is_there(after, key)
}

/// Puts the item that a command brings at a key, where it brings one.
fn put_brought<R: CellRules>(
    alloc: Global,
    command: &R::Command,
    before: &R::Catalog,
    key: &R::Key,
    stamp: Stamp,
    version: u64,
    items: &mut TableItems<R::Key, R::Value>,
) -> Result<(), NoMemory>
    requires { items.old.held ≡ 0 }
    ensures slots { OnOk result ((n : ℕ) → ComesAt R.Key.cmp items.old.slots items.new.slots key.now
        (slot_of (committed_at ((R.protocol n).core.adds command.now before.now key.now) stamp version) None)) }
    ensures held { items.new.held ≡ 0 }
{
    let Some(item) = R::adds(alloc, command, before, key)? else {
        return Ok(());
    };
    let key = R::copy_of_key(alloc, key)?;
    let committed = Committed {
        item,
        stamp,
        version,
    };
    drop(items.put(key, committed)?);
    Ok(())
}

/// Puts the item that a command brings at a key, where it brings one to this cell with a table that is new.
fn bring<R: CellRules>(
    alloc: Global,
    partitions: u32,
    here: u32,
    command: &R::Command,
    before: &R::Catalog,
    after: &R::Catalog,
    key: &R::Key,
    stamp: Stamp,
    version: u64,
    items: &mut TableItems<R::Key, R::Value>,
) -> Result<(), NoMemory>
    requires some { 1 ≤ partitions }
    requires free { items.old.held ≡ 0 }
    ensures slots { OnOk result (ComesAt R.Key.cmp items.old.slots items.new.slots key.now
        (brought (R.protocol partitions) here command.now before.now after.now stamp version key.now)) }
    ensures held { items.new.held ≡ 0 }
{
    if !comes::<R>(partitions, here, before, after, key) {
        return Ok(());
    }
    put_brought::<R>(alloc, command, before, key, stamp, version, items)
}

/// The items that a command brings to this cell with a table that is new, at a stamp and under a version.
pub(crate) fn brought_items<R: CellRules>(
    alloc: Global,
    partitions: u32,
    here: u32,
    command: &R::Command,
    before: &R::Catalog,
    after: &R::Catalog,
    stamp: Stamp,
    version: u64,
) -> Result<TableItems<R::Key, R::Value>, NoMemory>
    requires { 1 ≤ partitions }
    ensures slots { IfOk result (λ items. (q : R.Key) → get R.Key.cmp items.slots q
        ≡ brought (R.protocol partitions) here command.now before.now after.now stamp version q) }
    ensures held { IfOk result (λ items. items.held ≡ 0) }
    ensures order { IfOk result (λ items. IsOrdered R.Key.cmp items.slots) }
{
    let keys = R::brings(alloc, command, before)?;
    let mut items = TableItems::new(alloc);
    for key in keys.as_slice() {
        bring::<R>(
            alloc, partitions, here, command, before, after, key, stamp, version, &mut items,
        )?;
    }
    items.are_in_order();
    Ok(items)
}
