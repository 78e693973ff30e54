//! Changes of one item of a cell's tables.

ghost use Rattle.std.specs.Prelude.{◌≡◌, ◌+◌, ◌<◌, ◌^◌, None, Some, IsTrue, IfOk, OnOk, OnErr, false, not, ◌&&◌, ◌||◌, if◌then◌else◌};
ghost use Rattle.std.specs.Option.{option_copied};
ghost use Rattle.std.specs.Ordering.{nat_cmp};
ghost use Rattle.std.specs.BTreeMap.{get, is_at};
ghost use Rattle.txn_core.specs.Answers.{is_holder};
ghost use Rattle.txn_core.specs.Stamps.{later};
ghost use Rattle.item_store.specs.Counts.{tally};
ghost use Rattle.item_store.specs.Ends.{committed_after, counted_after};
ghost use Rattle.item_store.specs.Slots.{committed_at, committed_of, holder_of, last_of, pending_of, row_of, slot_of};
ghost use Rattle.item_store.specs.Tables.{PlacesUnder, Same, has_table, held_of, held_under, slot_under};

use crate::counts::Counts;
use crate::slot::{Committed, End, Pending, Slot};
use crate::table::TableItems;
use std::alloc::{AllocError as NoMemory, Global};
use std::collections::BTreeMap;
use std::mem;
use txn_core::Stamp;

/// What is kept of an item.
pub(crate) fn slot_under<'t, K: Ord, V>(
    tables: &'t BTreeMap<u64, TableItems<K, V>>,
    table: u64,
    key: &K,
) -> Option<&'t Slot<V>>
    ensures { option_copied result ≡ slot_under tables.now table key.now }
{
    match tables.get(&table) {
        None => None,
        Some(items) => items.get(key),
    }
}

/// Writes an item that no transaction holds, at the stamp of what is committed, or at the later one of the item that is there or
/// of the floor, and hands that item out.
pub(crate) fn write_under<K: Ord + Drop, V: Drop>(
    tables: &mut BTreeMap<u64, TableItems<K, V>>,
    table: u64,
    key: K,
    floor: Stamp,
    committed: Committed<V>,
) -> Result<Option<V>, NoMemory>
    requires there { IsTrue (has_table tables.old table) }
    requires free { pending_of (slot_under tables.old table key) ≡ None }
    ensures old { IfOk result (λ old. old ≡ row_of (slot_under tables.old table key)) }
    ensures new { OnOk result (PlacesUnder tables.old tables.new table key
        (slot_of (committed_at (Some committed.item) (later (last_of floor (slot_under tables.old table key)) committed.stamp)
        committed.version) None)) }
    ensures held { held_under tables.new ≡ held_under tables.old }
    ensures err { OnErr result (Same tables.old tables.new) }
{
    match tables.get_mut(&table) {
        Some(items) => items.write(key, floor, committed),
        None => unreachable!(),
    }
}

/// Takes out a slot that no transaction holds. It takes no memory.
pub(crate) fn remove_under<K: Ord + Drop, V>(
    tables: &mut BTreeMap<u64, TableItems<K, V>>,
    table: u64,
    key: &K,
) -> Option<Slot<V>>
    requires there { IsTrue (has_table tables.old table) }
    requires free { pending_of (slot_under tables.old table key.now) ≡ None }
    ensures old { result ≡ slot_under tables.old table key.now }
    ensures new { PlacesUnder tables.old tables.new table key.now None }
    ensures held { held_under tables.new ≡ held_under tables.old }
{
    match tables.get_mut(&table) {
        Some(items) => items.remove(key),
        None => unreachable!(),
    }
}

/// Holds an item that no transaction holds.
pub(crate) fn hold_under<K: Ord + Drop, V: Drop>(
    tables: &mut BTreeMap<u64, TableItems<K, V>>,
    table: u64,
    key: K,
    pending: Pending<V>,
) -> Result<(), NoMemory>
    requires there { IsTrue (has_table tables.old table) }
    requires free { pending_of (slot_under tables.old table key) ≡ None }
    requires room { held_under tables.old + 1 < 2 ^ 64 }
    ensures new { OnOk result (PlacesUnder tables.old tables.new table key
        (slot_of (committed_of (slot_under tables.old table key)) (Some pending))) }
    ensures held { OnOk result (held_under tables.new ≡ held_under tables.old + 1) }
    ensures err { OnErr result (Same tables.old tables.new) }
    ensures err_held { OnErr result (held_under tables.new ≡ held_under tables.old) }
{
    match tables.get_mut(&table) {
        Some(items) => {
            items.hold(key, pending)?;
            Ok(())
        }
        None => unreachable!(),
    }
}

/// Ends the transaction on an item, if it is the one of this number that holds it, and tells whether it is. It takes no memory.
pub(crate) fn end_under<K: Ord + Drop, V: Drop>(
    tables: &mut BTreeMap<u64, TableItems<K, V>>,
    table: u64,
    key: &K,
    number: u64,
    end: End,
    counts: &mut Counts,
) -> bool
    requires { IsTrue (is_holder (holder_of (slot_under tables.old table key.now)) number) → counts.old.count + 1 < 2 ^ 64 }
    ensures answer { result ≡ is_holder (holder_of (slot_under tables.old table key.now)) number }
    ensures new { IsTrue result → PlacesUnder tables.old tables.new table key.now
        (slot_of (committed_after end (tally counts.old) (slot_under tables.old table key.now)) None) }
    ensures counts { IsTrue result →
        tally counts.new ≡ counted_after end (tally counts.old) (slot_under tables.old table key.now) }
    ensures held { IsTrue result → held_under tables.new + 1 ≡ held_under tables.old }
    ensures same { result ≡ false → Same tables.old tables.new }
    ensures same_held { result ≡ false → held_under tables.new ≡ held_under tables.old }
    ensures same_counts { result ≡ false → tally counts.new ≡ tally counts.old }
{
    match tables.get_mut(&table) {
        Some(items) => items.end(key, number, end, counts),
        None => false,
    }
}

/// Adds a table without items.
pub(crate) fn open_table<K: Ord + Drop, V: Drop>(
    alloc: Global,
    tables: &mut BTreeMap<u64, TableItems<K, V>>,
    table: u64,
) -> Result<(), NoMemory>
    requires new { has_table tables.old table ≡ false }
    ensures slots { (v : _) (q : K) → slot_under tables.new v q ≡ slot_under tables.old v q }
    ensures tables { OnOk result ((v : _) → has_table tables.new v ≡ (is_at (nat_cmp table) v || has_table tables.old v)) }
    ensures held { held_under tables.new ≡ held_under tables.old }
    ensures err { OnErr result (tables.new.entries ≡ tables.old.entries) }
{
    match tables.insert(table, TableItems::new(alloc)) {
        Ok(_) => Ok(()),
        Err(refused) => {
            drop(refused);
            Err(NoMemory)
        }
    }
}

/// Takes out a table with its items, and tells how many of them were held. It takes no memory.
pub(crate) fn close_table<K: Ord + Drop, V: Drop>(
    tables: &mut BTreeMap<u64, TableItems<K, V>>,
    table: u64,
) -> u64
    ensures freed { result ≡ held_of (get nat_cmp tables.old table) }
    ensures slots { (v : _) (q : K) → slot_under tables.new v q ≡ (if is_at (nat_cmp table) v then None else slot_under tables.old v q) }
    ensures tables { (v : _) → has_table tables.new v ≡ (not (is_at (nat_cmp table) v) && has_table tables.old v) }
    ensures held { held_under tables.new + result ≡ held_under tables.old }
{
    match tables.remove(&table) {
        None => 0,
        Some(items) => {
            let held = items.held();
            drop(items);
            held
        }
    }
}

/// Puts items of which none is held in place of those of a table that is there, and tells how many of these were held. It takes
/// no memory.
pub(crate) fn fill_table<K: Ord + Drop, V: Drop>(
    tables: &mut BTreeMap<u64, TableItems<K, V>>,
    table: u64,
    items: TableItems<K, V>,
) -> u64
    requires there { IsTrue (has_table tables.old table) }
    requires none { items.held ≡ 0 }
    ensures slots { (v : _) (q : K) → slot_under tables.new v q
        ≡ (if is_at (nat_cmp table) v then get K.cmp items.slots q else slot_under tables.old v q) }
    ensures tables { (v : _) → has_table tables.new v ≡ has_table tables.old v }
    ensures held { held_under tables.new + result ≡ held_under tables.old }
{
    match tables.get_mut(&table) {
        Some(place) => {
            let old = mem::replace(place, items);
            let held = old.held();
            drop(old);
            held
        }
        None => unreachable!(),
    }
}
