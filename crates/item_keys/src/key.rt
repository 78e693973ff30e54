//! Keys, and keys with their places.

ghost use Rattle.std.specs.Prelude.{◌≡◌, IfOk, OnErr};
ghost use Rattle.item_keys.specs.KeyBytes.{IsNumber};
ghost use Rattle.item_keys.specs.Place.{place_of};

use crate::places::place;
use crate::value::KeyValue;
use std::alloc::{AllocError as NoMemory, Global};

/// The key of an item in a table or in an index: the value of the partition key and, where there is one, of the sort
/// key. Keys are ordered by the partition key's value and then by the sort key's (Developer Guide: Core components).
#[derive(Debug, PartialEq, Eq, PartialOrd, Ord, Drop)]
pub struct Key {
    pub partition: KeyValue,
    pub sort: Option<KeyValue>,
}

impl Key {
    /// An equal key.
    pub fn try_clone(&self) -> Result<Key, NoMemory>
        ensures { IfOk result (λ copy. copy ≡ self.now) }
    {
        let partition = self.partition.try_clone()?;
        let sort = match &self.sort {
            Some(value) => Some(value.try_clone()?),
            None => None,
        };
        Ok(Key { partition, sort })
    }

    /// The key with its place. Memory is taken for the place of a number alone.
    pub fn placed(self, alloc: Global) -> Result<PlacedKey, NoMemory>
        ensures key { IfOk result (λ placed. placed.key ≡ self) }
        ensures place { IfOk result (λ placed. placed.place ≡ place_of self.partition) }
        ensures memory { OnErr result (IsNumber self.partition) }
    {
        Ok(PlacedKey {
            place: place(alloc, &self.partition)?,
            key: self,
        })
    }
}

impl Clone for Key {
    ghost is_clone = { λ key copy. copy ≡ key };

    fn clone(&self) -> Result<Key, NoMemory> {
        self.try_clone()
    }
}

/// A key and the place of its partition key, as [`Key::placed`] gives it. Its order is that in which a Scan gives items:
/// by place, then by the partition key's value, then by the sort key's.
#[derive(Debug, PartialEq, Eq, PartialOrd, Ord, Drop)]
pub struct PlacedKey {
    pub place: u64,
    pub key: Key,
}

impl PlacedKey {
    /// An equal key at the same place.
    pub fn try_clone(&self) -> Result<PlacedKey, NoMemory>
        ensures { IfOk result (λ copy. copy ≡ self.now) }
    {
        Ok(PlacedKey {
            place: self.place,
            key: self.key.try_clone()?,
        })
    }
}

impl Clone for PlacedKey {
    ghost is_clone = { λ key copy. copy ≡ key };

    fn clone(&self) -> Result<PlacedKey, NoMemory> {
        self.try_clone()
    }
}
