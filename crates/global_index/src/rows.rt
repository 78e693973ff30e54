//! The rows of indexes.

ghost use Rattle.std.specs.Prelude.{◌≡◌, ℕ, IsTrue, OnOk, OnErr, None, Some, false, not, ◌&&◌, ◌||◌, if◌then◌else◌};
ghost use Rattle.std.specs.Option.{option_copied};
ghost use Rattle.std.specs.Ordering.{nat_cmp};
ghost use Rattle.std.specs.BTreeMap.{get, is_at};
ghost use Rattle.global_index.specs.Rows.{Puts, SameRows, has_index, row_under};

use std::alloc::{AllocError as NoMemory, Global};
use std::collections::BTreeMap;

/// The rows of global indexes that live in a cell, of each index in the order of their keys.
#[derive(Drop)]
pub struct IndexRows<K: Ord, V> {
    indexes: BTreeMap<u64, BTreeMap<K, V>>,
}

impl<K: Ord, V> IndexRows<K, V> {
    /// No index.
    pub fn new(alloc: Global) -> IndexRows<K, V>
        ensures { (index : ℕ) → has_index result.indexes index ≡ false }
    {
        IndexRows {
            indexes: BTreeMap::new(alloc),
        }
    }

    /// Adds an index without rows, which is not there yet.
    pub fn open(&mut self, alloc: Global, index: u64) -> Result<(), NoMemory>
    where
        K: Drop,
        V: Drop,
        requires new { has_index self.old.indexes index ≡ false }
        ensures rows { (h : ℕ) (q : K) → row_under K.cmp self.new.indexes h q ≡ row_under K.cmp self.old.indexes h q }
        ensures opened { OnOk result ((h : ℕ) → has_index self.new.indexes h
            ≡ (is_at (nat_cmp index) h || has_index self.old.indexes h)) }
        ensures err { OnErr result (SameRows K.cmp self.old.indexes self.new.indexes) }
    {
        match self.indexes.insert(index, BTreeMap::new(alloc)) {
            Ok(_) => Ok(()),
            Err(refused) => {
                drop(refused);
                Err(NoMemory)
            }
        }
    }

    /// Drops an index with its rows. It costs no walk over others, and takes no memory.
    pub fn close(&mut self, index: u64)
    where
        K: Drop,
        V: Drop,
        ensures rows { (h : ℕ) (q : K) → row_under K.cmp self.new.indexes h q
            ≡ (if is_at (nat_cmp index) h then None else row_under K.cmp self.old.indexes h q) }
        ensures closed { (h : ℕ) → has_index self.new.indexes h ≡ (not (is_at (nat_cmp index) h) && has_index self.old.indexes h) }
    {
        drop(self.indexes.remove(&index));
    }

    /// The rows of an index, in the order of their keys.
    pub fn index(&self, index: u64) -> Option<&BTreeMap<K, V>>
        ensures { option_copied result ≡ get nat_cmp self.now.indexes index }
    {
        self.indexes.get(&index)
    }

    /// The row of an index at a key.
    pub fn row(&self, index: u64, key: &K) -> Option<&V>
        ensures { option_copied result ≡ row_under K.cmp self.now.indexes index key.now }
    {
        match self.indexes.get(&index) {
            None => None,
            Some(rows) => rows.get(key),
        }
    }

    /// Makes or replaces a row of an index that is there.
    pub fn put(&mut self, index: u64, key: K, row: V) -> Result<(), NoMemory>
    where
        K: Drop,
        V: Drop,
        requires there { IsTrue (has_index self.old.indexes index) }
        ensures put { OnOk result (Puts K.cmp self.old.indexes self.new.indexes index key (Some row)) }
        ensures err { OnErr result (SameRows K.cmp self.old.indexes self.new.indexes) }
    {
        match self.indexes.get_mut(&index) {
            Some(rows) => put_in(rows, key, row),
            None => unreachable!(),
        }
    }

    /// Removes a row of an index, where it is there. It takes no memory.
    pub fn remove(&mut self, index: u64, key: &K)
    where
        K: Drop,
        V: Drop,
        ensures { Puts K.cmp self.old.indexes self.new.indexes index key.now None }
    {
        if let Some(rows) = self.indexes.get_mut(&index) {
            drop(rows.remove(key));
        }
    }
}

/// Makes or replaces a row.
fn put_in<K: Ord + Drop, V: Drop>(rows: &mut BTreeMap<K, V>, key: K, row: V) -> Result<(), NoMemory>
    ensures put { OnOk result ((q : K) → get K.cmp rows.new q ≡ (if is_at (K.cmp key) q then Some row else get K.cmp rows.old q)) }
    ensures err { OnErr result (rows.new.entries ≡ rows.old.entries) }
{
    match rows.insert(key, row) {
        Ok(_) => Ok(()),
        Err(refused) => {
            drop(refused);
            Err(NoMemory)
        }
    }
}
