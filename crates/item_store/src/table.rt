//! The items of one table.

ghost use Rattle.std.specs.Prelude.{◌≡◌, ◌+◌, ◌<◌, ◌^◌, None, Some, IsTrue, false, IfOk, OnOk, OnErr};
ghost use Rattle.std.specs.Option.{option_copied};
ghost use Rattle.std.specs.BTreeMap.{IsOrdered, get};
ghost use Rattle.txn_core.specs.Answers.{is_holder};
ghost use Rattle.txn_core.specs.Stamps.{later};
ghost use Rattle.item_store.specs.Counts.{tally};
ghost use Rattle.item_store.specs.Ends.{committed_after, counted_after};
ghost use Rattle.item_store.specs.Slots.{committed_at, committed_of, holder_of, last_of, pending_of, row_of, slot_of};
ghost use Rattle.item_store.specs.Maps.{Places, held_among};

use crate::counts::Counts;
use crate::slot::{Committed, End, Pending, Slot};
use crate::slots::{end_in, hold_in, put_in, take_out, write_in};
use std::alloc::{AllocError as NoMemory, Global};
use std::collections::BTreeMap;
use txn_core::Stamp;

/// The items of a table that are there or held, in the order of their keys.
#[derive(Drop)]
pub struct TableItems<K: Ord, V> {
    slots: BTreeMap<K, Slot<V>>,
    held: u64,
    ghost counted: { held ≡ held_among slots },
}

impl<K: Ord, V> TableItems<K, V> {
    /// No item.
    pub fn new(alloc: Global) -> TableItems<K, V>
        ensures slots { (q : K) → get K.cmp result.slots q ≡ None }
        ensures held { result.held ≡ 0 }
    {
        TableItems {
            slots: BTreeMap::new(alloc),
            held: 0,
        }
    }

    /// What is kept of an item.
    pub fn get(&self, key: &K) -> Option<&Slot<V>>
        ensures { option_copied result ≡ get K.cmp self.now.slots key.now }
    {
        self.slots.get(key)
    }

    /// What is kept of all items, in the order of their keys.
    pub fn slots(&self) -> &BTreeMap<K, Slot<V>>
        ensures { result.now ≡ self.now.slots }
    {
        &self.slots
    }

    /// Tells of the slots that they are in the order of their keys. It costs nothing.
    pub fn are_in_order(&self)
        ensures { IsOrdered K.cmp self.now.slots }
    {
        let _count = self.slots.len();
    }

    /// How many items are held.
    pub fn held(&self) -> u64
        ensures { result ≡ self.now.held }
    {
        self.held
    }

    /// Puts what is committed in the place of a slot that no transaction holds, and hands that one out.
    pub fn put(&mut self, key: K, committed: Committed<V>) -> Result<Option<Slot<V>>, NoMemory>
    where
        K: Drop,
        V: Drop,
        requires free { pending_of (get K.cmp self.old.slots key) ≡ None }
        ensures old { IfOk result (λ old. old ≡ get K.cmp self.old.slots key) }
        ensures new { OnOk result (Places K.cmp self.old.slots self.new.slots key (slot_of (Some committed) None)) }
        ensures held { self.new.held ≡ self.old.held }
        ensures err { OnErr result (self.new.slots.entries ≡ self.old.slots.entries) }
    {
        let slot = Slot {
            committed: Some(committed),
            pending: None,
        };
        put_in(&mut self.slots, key, slot)
    }

    /// Takes out a slot that no transaction holds. It takes no memory.
    pub(crate) fn remove(&mut self, key: &K) -> Option<Slot<V>>
    where
        K: Drop,
        requires free { pending_of (get K.cmp self.old.slots key.now) ≡ None }
        ensures old { result ≡ get K.cmp self.old.slots key.now }
        ensures new { Places K.cmp self.old.slots self.new.slots key.now None }
        ensures held { self.new.held ≡ self.old.held }
    {
        take_out(&mut self.slots, key)
    }

    /// Writes an item that no transaction holds, at the stamp of what is committed, or at the later one of the item that is there
    /// or of the floor, and hands that item out.
    pub(crate) fn write(
        &mut self,
        key: K,
        floor: Stamp,
        committed: Committed<V>,
    ) -> Result<Option<V>, NoMemory>
    where
        K: Drop,
        V: Drop,
        requires free { pending_of (get K.cmp self.old.slots key) ≡ None }
        ensures old { IfOk result (λ old. old ≡ row_of (get K.cmp self.old.slots key)) }
        ensures new { OnOk result (Places K.cmp self.old.slots self.new.slots key
            (slot_of (committed_at (Some committed.item) (later (last_of floor (get K.cmp self.old.slots key)) committed.stamp)
            committed.version) None)) }
        ensures held { self.new.held ≡ self.old.held }
        ensures err { OnErr result (self.new.slots.entries ≡ self.old.slots.entries) }
    {
        write_in(&mut self.slots, key, floor, committed)
    }

    /// Holds an item that no transaction holds.
    pub(crate) fn hold(&mut self, key: K, pending: Pending<V>) -> Result<(), NoMemory>
    where
        K: Drop,
        V: Drop,
        requires free { pending_of (get K.cmp self.old.slots key) ≡ None }
        requires room { self.old.held + 1 < 2 ^ 64 }
        ensures new { OnOk result (Places K.cmp self.old.slots self.new.slots key
            (slot_of (committed_of (get K.cmp self.old.slots key)) (Some pending))) }
        ensures held { OnOk result (self.new.held ≡ self.old.held + 1) }
        ensures err { OnErr result (self.new.slots.entries ≡ self.old.slots.entries) }
        ensures err_held { OnErr result (self.new.held ≡ self.old.held) }
    {
        hold_in(&mut self.slots, key, pending)?;
        self.held += 1;
        Ok(())
    }

    /// Ends the transaction on an item, if it is the one of this number that holds it, and tells whether it is. It takes no
    /// memory.
    pub(crate) fn end(&mut self, key: &K, number: u64, end: End, counts: &mut Counts) -> bool
    where
        K: Drop,
        V: Drop,
        requires { IsTrue (is_holder (holder_of (get K.cmp self.old.slots key.now)) number) → counts.old.count + 1 < 2 ^ 64 }
        ensures answer { result ≡ is_holder (holder_of (get K.cmp self.old.slots key.now)) number }
        ensures new { IsTrue result → Places K.cmp self.old.slots self.new.slots key.now
            (slot_of (committed_after end (tally counts.old) (get K.cmp self.old.slots key.now)) None) }
        ensures counts { IsTrue result →
            tally counts.new ≡ counted_after end (tally counts.old) (get K.cmp self.old.slots key.now) }
        ensures held { IsTrue result → self.new.held + 1 ≡ self.old.held }
        ensures same { result ≡ false → (q : K) → get K.cmp self.new.slots q ≡ get K.cmp self.old.slots q }
        ensures same_held { result ≡ false → self.new.held ≡ self.old.held }
        ensures same_counts { result ≡ false → tally counts.new ≡ tally counts.old }
    {
        let ended = end_in(&mut self.slots, key, number, end, counts);
        if ended {
            self.held -= 1;
        }
        ended
    }
}
