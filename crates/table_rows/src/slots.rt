//! The rows of a table with room for rows that are prepared.

ghost use Rattle.std.specs.Prelude.{◌≡◌, [], true, false, None, Some, is_some, OnOk, OnErr};
ghost use Rattle.std.specs.Option.{option_copied};
ghost use Rattle.std.specs.List.Sorted.{IsStrictlySortedBy};
ghost use Rattle.std.specs.Map.{keys_of};
ghost use Rattle.std.specs.BTreeMap.Range.{entries_between};
ghost use Rattle.std.specs.Range.Bound.{bound_map};
ghost use Rattle.row_keys.specs.Keys.{row_order};
ghost use Rattle.row_keys.specs.Rows.{item_at, with_item};
ghost use Rattle.table_rows.specs.Slots.{rows_of, has_slot, KeepsOtherSlots};

use attr_value::SharedItem;
use paging::MapRange;
use row_keys::RowKey;
use std::alloc::{AllocError as NoMemory, Global};
use std::collections::BTreeMap;
use std::collections::btree_map::Iter;
use std::marker::Model;
use std::ops::Bound;

/// A map from keys to items in which a key may have a slot without an item, so that an item is written there without
/// memory.
pub(crate) struct Slots {
    slots: BTreeMap<RowKey, Option<SharedItem>>,
}

// By hand, so that no crate above proves it again.
impl Drop for Slots {
    fn drop(self) {
        let Slots { slots: _ } = self;
    }
}

impl Model for Slots {
    ghost use Rattle.std.specs.List.Sorted.{IsStrictlySortedBy};
    ghost use Rattle.std.specs.Map.{keys_of};
    ghost use Rattle.row_keys.specs.Keys.{row_order};
    ghost use Rattle.table_rows.specs.Slots.{SlotList};
    ghost use Rattle.table_rows.specs.Codes.{slots_code};

    ghost Value = { SlotList };

    ghost coded = { slots_code };

    ghost view = { λ s. s.slots.entries };

    ghost invariant = { λ s. IsStrictlySortedBy row_order (keys_of s.slots.entries) };
}

impl Slots {
    /// No slot.
    pub fn new(alloc: Global) -> Slots
        ensures { result ≡ [] }
    {
        Slots {
            slots: BTreeMap::new(alloc),
        }
    }

    /// The item at a key.
    pub fn get(&self, key: &RowKey) -> Option<&SharedItem>
        ensures { option_copied result ≡ item_at (rows_of self.now) key.now }
    {
        match self.slots.get(key) {
            Some(slot) => slot.as_ref(),
            None => None,
        }
    }

    /// The slots between two ends.
    pub fn between<'a>(
        &'a self,
        low: Bound<&'a RowKey>,
        high: Bound<&'a RowKey>,
    ) -> MapRange<'a, RowKey, Option<SharedItem>>
        ensures slots { result ≡ entries_between row_order (bound_map (λ end. end.now) low.entry) (bound_map (λ end. end.now) high.entry) self.now }
        ensures ordered { IsStrictlySortedBy row_order (keys_of self.now) }
    {
        MapRange::new(&self.slots, low, high)
    }

    /// The slots in the order of their keys.
    pub fn iter(&self) -> Iter<'_, RowKey, Option<SharedItem>>
        ensures { result ≡ self.now }
    {
        self.slots.iter()
    }

    /// Makes a slot for a key, where it has none. The key is copied only then. Where memory is refused nothing changes.
    pub fn reserve(&mut self, key: &RowKey) -> Result<(), NoMemory>
        ensures rows { rows_of self.new ≡ rows_of self.old }
        ensures slot { OnOk result (has_slot self.new key.now ≡ true) }
        ensures err { OnErr result (self.new ≡ self.old) }
        ensures others { KeepsOtherSlots key.now self.old self.new }
    {
        if self.slots.contains_key(key) {
            return Ok(());
        }
        let copy = key.try_clone()?;
        self.add(copy)
    }

    /// Makes a slot for a key that has none. Where memory is refused nothing changes.
    fn add(&mut self, key: RowKey) -> Result<(), NoMemory>
        requires { has_slot self.old key ≡ false }
        ensures rows { rows_of self.new ≡ rows_of self.old }
        ensures slot { OnOk result (has_slot self.new key ≡ true) }
        ensures err { OnErr result (self.new ≡ self.old) }
        ensures others { KeepsOtherSlots key self.old self.new }
    {
        match self.slots.insert(key, None) {
            Ok(_) => Ok(()),
            Err(refused) => {
                drop(refused);
                Err(NoMemory)
            }
        }
    }

    /// Writes the item at a key that has a slot. It takes no memory.
    pub fn write(&mut self, key: RowKey, item: SharedItem)
        requires { has_slot self.old key ≡ true }
        ensures rows { rows_of self.new ≡ with_item (rows_of self.old) key (Some item) }
        ensures slot { has_slot self.new key ≡ true }
        ensures others { KeepsOtherSlots key self.old self.new }
    {
        // Only a key without a slot can want memory.
        drop(self.slots.insert(key, Some(item)));
    }

    /// Takes out the item at a key, with its slot.
    pub fn clear(&mut self, key: &RowKey)
        ensures rows { rows_of self.new ≡ with_item (rows_of self.old) key.now None }
        ensures slot { has_slot self.new key.now ≡ false }
        ensures others { KeepsOtherSlots key.now self.old self.new }
    {
        drop(self.slots.remove(key));
    }

    /// Takes out the slot of a key, where it has no item.
    pub fn release(&mut self, key: &RowKey)
        ensures rows { rows_of self.new ≡ rows_of self.old }
        ensures slot { has_slot self.new key.now ≡ is_some (item_at (rows_of self.old) key.now) }
        ensures others { KeepsOtherSlots key.now self.old self.new }
    {
        if self.get(key).is_some() {
            return;
        }
        drop(self.slots.remove(key));
    }
}
