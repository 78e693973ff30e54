//! Changes of one slot of a map.

ghost use Rattle.std.specs.Prelude.{◌≡◌, ◌+◌, ◌<◌, ◌^◌, Some, None, IsTrue, false, OnOk, IfOk, OnErr};
ghost use Rattle.std.specs.BTreeMap.{get};
ghost use Rattle.txn_core.specs.Answers.{is_holder};
ghost use Rattle.txn_core.specs.Stamps.{later};
ghost use Rattle.item_store.specs.Counts.{tally};
ghost use Rattle.item_store.specs.Ends.{committed_after, counted_after};
ghost use Rattle.item_store.specs.Slots.{committed_at, committed_of, held_in, holder_of, last_of, pending_of, row_of, slot_of};
ghost use Rattle.item_store.specs.Maps.{Places, held_among};

use crate::counts::Counts;
use crate::slot::{Committed, End, Pending, Slot};
use std::alloc::AllocError as NoMemory;
use std::collections::BTreeMap;
use txn_core::Stamp;

/// Takes out a slot that no transaction holds. It takes no memory.
pub(crate) fn take_out<K: Ord + Drop, V>(
    slots: &mut BTreeMap<K, Slot<V>>,
    key: &K,
) -> Option<Slot<V>>
    requires { pending_of (get K.cmp slots.old key.now) ≡ None }
    ensures old { result ≡ get K.cmp slots.old key.now }
    ensures new { Places K.cmp slots.old slots.new key.now None }
    ensures held { held_among slots.new ≡ held_among slots.old }
{
    slots.remove(key)
}

/// Puts a slot where there is none, or one that no transaction holds, and hands that one out.
pub(crate) fn put_in<K: Ord + Drop, V: Drop>(
    slots: &mut BTreeMap<K, Slot<V>>,
    key: K,
    slot: Slot<V>,
) -> Result<Option<Slot<V>>, NoMemory>
    requires { pending_of (get K.cmp slots.old key) ≡ None }
    ensures old { IfOk result (λ old. old ≡ get K.cmp slots.old key) }
    ensures new { OnOk result (Places K.cmp slots.old slots.new key (Some slot)) }
    ensures held { OnOk result (held_among slots.new ≡ held_among slots.old + held_in slot) }
    ensures err { OnErr result (slots.new.entries ≡ slots.old.entries) }
{
    match slots.insert(key, slot) {
        Ok(old) => Ok(old),
        Err(refused) => {
            drop(refused);
            Err(NoMemory)
        }
    }
}

/// Holds a slot for a transaction, or makes one that is held.
pub(crate) fn hold_in<K: Ord + Drop, V: Drop>(
    slots: &mut BTreeMap<K, Slot<V>>,
    key: K,
    pending: Pending<V>,
) -> Result<(), NoMemory>
    requires { pending_of (get K.cmp slots.old key) ≡ None }
    ensures new { OnOk result (Places K.cmp slots.old slots.new key (slot_of (committed_of (get K.cmp slots.old key)) (Some pending))) }
    ensures held { OnOk result (held_among slots.new ≡ held_among slots.old + 1) }
    ensures err { OnErr result (slots.new.entries ≡ slots.old.entries) }
{
    if let Some(slot) = slots.get_mut(&key) {
        slot.pending = Some(pending);
        return Ok(());
    }
    let slot = Slot {
        committed: None,
        pending: Some(pending),
    };
    put_in(slots, key, slot)?;
    Ok(())
}

/// Writes an item that no transaction holds, at the stamp of what is committed, or at the later one of the item that is there or
/// of the floor, and hands that item out.
pub(crate) fn write_in<K: Ord + Drop, V: Drop>(
    slots: &mut BTreeMap<K, Slot<V>>,
    key: K,
    floor: Stamp,
    committed: Committed<V>,
) -> Result<Option<V>, NoMemory>
    requires { pending_of (get K.cmp slots.old key) ≡ None }
    ensures old { IfOk result (λ old. old ≡ row_of (get K.cmp slots.old key)) }
    ensures new { OnOk result (Places K.cmp slots.old slots.new key
        (slot_of (committed_at (Some committed.item) (later (last_of floor (get K.cmp slots.old key)) committed.stamp) committed.version)
        None)) }
    ensures held { OnOk result (held_among slots.new ≡ held_among slots.old) }
    ensures err { OnErr result (slots.new.entries ≡ slots.old.entries) }
{
    if let Some(slot) = slots.get_mut(&key) {
        return Ok(slot.write(floor, committed));
    }
    let Committed {
        item,
        stamp,
        version,
    } = committed;
    let committed = Committed {
        item,
        stamp: floor.later(stamp),
        version,
    };
    let slot = Slot {
        committed: Some(committed),
        pending: None,
    };
    put_in(slots, key, slot)?;
    Ok(None)
}

/// Ends the transaction on an item, if it is the one of this number that holds it, and tells whether it is. It takes no memory.
pub(crate) fn end_in<K: Ord + Drop, V: Drop>(
    slots: &mut BTreeMap<K, Slot<V>>,
    key: &K,
    number: u64,
    end: End,
    counts: &mut Counts,
) -> bool
    requires { IsTrue (is_holder (holder_of (get K.cmp slots.old key.now)) number) → counts.old.count + 1 < 2 ^ 64 }
    ensures answer { result ≡ is_holder (holder_of (get K.cmp slots.old key.now)) number }
    ensures new { IsTrue result → Places K.cmp slots.old slots.new key.now
        (slot_of (committed_after end (tally counts.old) (get K.cmp slots.old key.now)) None) }
    ensures counts { IsTrue result → tally counts.new ≡ counted_after end (tally counts.old) (get K.cmp slots.old key.now) }
    ensures held { IsTrue result → held_among slots.new + 1 ≡ held_among slots.old }
    ensures same { result ≡ false → (q : K) → get K.cmp slots.new q ≡ get K.cmp slots.old q }
    ensures same_held { result ≡ false → held_among slots.new ≡ held_among slots.old }
    ensures same_counts { result ≡ false → tally counts.new ≡ tally counts.old }
{
    let Some(slot) = slots.get_mut(key) else {
        return false;
    };
    if !slot.is_held_by(number) {
        return false;
    }
    slot.end(end, counts);
    if slot.committed.is_some() {
        return true;
    }
    drop(take_out(slots, key));
    true
}
