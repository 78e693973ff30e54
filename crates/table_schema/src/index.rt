ghost use Rattle.std.specs.Prelude.{◌≡◌, IfOk, IsTrue, ◌↔◌};
ghost use Rattle.table_schema.specs.Index.{IsProjection};

use crate::keys::KeyNames;
use base_types::{Seq, Text};
use std::alloc::AllocError as NoMemory;

/// The attributes of an item that an index keeps: those of the keys, those and the named ones, or all
/// (API Reference: Projection).
#[derive(Debug, PartialEq, Eq)]
pub enum Projection {
    KeysOnly,
    Include(Seq<Text>),
    All,
}

// By hand, so that no crate above proves it again.
impl Drop for Projection {
    fn drop(self) {
        match self {
            Projection::KeysOnly | Projection::Include(_) | Projection::All => {}
        }
    }
}

impl Projection {
    /// An equal projection.
    pub fn try_clone(&self) -> Result<Projection, NoMemory>
        ensures { IfOk result (λ copy. copy ≡ self.now) }
    {
        Ok(match self {
            Projection::KeysOnly => Projection::KeysOnly,
            Projection::Include(names) => Projection::Include(names.try_clone()?),
            Projection::All => Projection::All,
        })
    }

    /// Whether the attributes are named by 1 to 20 names, or not named.
    pub(crate) fn is_valid(&self) -> bool
        ensures { IsTrue result ↔ IsProjection self.now }
    {
        match self {
            Projection::KeysOnly | Projection::All => true,
            Projection::Include(names) => matches!(names.len(), 1..=20),
        }
    }
}

impl Clone for Projection {
    ghost is_clone = { λ projection copy. copy ≡ projection };

    fn clone(&self) -> Result<Projection, NoMemory> {
        self.try_clone()
    }
}

/// An index that shares the table's partition key and sorts by an attribute of its own
/// (API Reference: LocalSecondaryIndex).
#[derive(Debug, PartialEq, Eq)]
pub struct LocalIndex {
    pub name: Text,
    pub keys: KeyNames,
    pub projection: Projection,
}

// By hand, so that no crate above proves it again.
impl Drop for LocalIndex {
    fn drop(self) {
        let LocalIndex {
            name: _,
            keys: _,
            projection: _,
        } = self;
    }
}

impl LocalIndex {
    /// An equal index.
    pub fn try_clone(&self) -> Result<LocalIndex, NoMemory>
        ensures { IfOk result (λ copy. copy ≡ self.now) }
    {
        Ok(LocalIndex {
            name: self.name.try_clone()?,
            keys: self.keys.try_clone()?,
            projection: self.projection.try_clone()?,
        })
    }
}

impl Clone for LocalIndex {
    ghost is_clone = { λ index copy. copy ≡ index };

    fn clone(&self) -> Result<LocalIndex, NoMemory> {
        self.try_clone()
    }
}

/// An index with a key of its own, which may differ from the table's in both parts
/// (API Reference: GlobalSecondaryIndex).
#[derive(Debug, PartialEq, Eq)]
pub struct GlobalIndex {
    pub name: Text,
    pub keys: KeyNames,
    pub projection: Projection,
}

// By hand, so that no crate above proves it again.
impl Drop for GlobalIndex {
    fn drop(self) {
        let GlobalIndex {
            name: _,
            keys: _,
            projection: _,
        } = self;
    }
}

impl GlobalIndex {
    /// An equal index.
    pub fn try_clone(&self) -> Result<GlobalIndex, NoMemory>
        ensures { IfOk result (λ copy. copy ≡ self.now) }
    {
        Ok(GlobalIndex {
            name: self.name.try_clone()?,
            keys: self.keys.try_clone()?,
            projection: self.projection.try_clone()?,
        })
    }
}

impl Clone for GlobalIndex {
    ghost is_clone = { λ index copy. copy ≡ index };

    fn clone(&self) -> Result<GlobalIndex, NoMemory> {
        self.try_clone()
    }
}
