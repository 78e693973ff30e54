//! The changes of each held item.

ghost use Rattle.std.specs.Prelude.{◌≡◌, ◌+◌, [], Some, IfOk, OnOk, OnErr, length, if◌then◌else◌};
ghost use Rattle.std.specs.BTreeMap.{is_at};
ghost use Rattle.index_changes.specs.Prepared.{moves_in, moves_of, no_moves, places_in, prepared_in, rows_of, SameLists};

use crate::change::IndexChanges;
use std::alloc::{AllocError as NoMemory, Global};
use std::collections::BTreeMap;

/// What is prepared, of each item: changes of rows in their order, and moves of local entries. An item without any costs nothing.
#[derive(Drop)]
pub struct PreparedChanges<K: Ord, V, N> {
    lists: BTreeMap<K, IndexChanges<K, V, N>>,
}

impl<K: Ord, V, N> PreparedChanges<K, V, N> {
    /// Nothing is prepared.
    pub fn new(alloc: Global) -> PreparedChanges<K, V, N>
        ensures lists { (q : K) → prepared_in K.cmp result.lists q ≡ [] }
        ensures moves { (q : K) → moves_in K.cmp result.lists q ≡ no_moves }
        ensures places { places_in result.lists ≡ 0 }
    {
        PreparedChanges {
            lists: BTreeMap::new(alloc),
        }
    }

    /// Prepares changes for an item, in place of those that were prepared for it, and hands these out.
    pub fn prepare(
        &mut self,
        key: K,
        changes: IndexChanges<K, V, N>,
    ) -> Result<Option<IndexChanges<K, V, N>>, NoMemory>
    where
        K: Drop,
        V: Drop,
        N: Drop,
        ensures old { IfOk result (λ old. rows_of old ≡ prepared_in K.cmp self.old.lists key) }
        ensures lists { OnOk result ((q : K) → prepared_in K.cmp self.new.lists q
            ≡ (if is_at (K.cmp key) q then changes.rows.items else prepared_in K.cmp self.old.lists q)) }
        ensures moves { OnOk result ((q : K) → moves_in K.cmp self.new.lists q
            ≡ (if is_at (K.cmp key) q then moves_of (Some changes) else moves_in K.cmp self.old.lists q)) }
        ensures places { IfOk result (λ old.
            places_in self.new.lists + length (rows_of old) ≡ places_in self.old.lists + length changes.rows.items) }
        ensures err { OnErr result (SameLists K.cmp self.old.lists self.new.lists) }
    {
        match self.lists.insert(key, changes) {
            Ok(old) => Ok(old),
            Err(refused) => {
                drop(refused);
                Err(NoMemory)
            }
        }
    }

    /// The local entries that an item will have, as they are prepared: none, where nothing is.
    pub fn entries_after(&self, key: &K) -> &[N]
        ensures { result.now ≡ (moves_in K.cmp self.now.lists key.now).new }
    {
        match self.lists.get(key) {
            Some(changes) => changes.new.as_slice(),
            None => &[],
        }
    }

    /// Takes the changes of an item out. It takes no memory.
    pub fn take(&mut self, key: &K) -> Option<IndexChanges<K, V, N>>
    where
        K: Drop,
        ensures taken { rows_of result ≡ prepared_in K.cmp self.old.lists key.now }
        ensures moved { moves_of result ≡ moves_in K.cmp self.old.lists key.now }
        ensures lists { (q : K) → prepared_in K.cmp self.new.lists q
            ≡ (if is_at (K.cmp key.now) q then [] else prepared_in K.cmp self.old.lists q) }
        ensures moves { (q : K) → moves_in K.cmp self.new.lists q
            ≡ (if is_at (K.cmp key.now) q then no_moves else moves_in K.cmp self.old.lists q) }
        ensures places { places_in self.new.lists + length (rows_of result) ≡ places_in self.old.lists }
    {
        self.lists.remove(key)
    }
}
