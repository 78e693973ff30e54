//! Keys of rows.

ghost use Rattle.std.specs.Prelude.{◌≡◌, IfOk};

use crate::point::SortPoint;
use item_keys::{Key, KeyValue, PlacedKey};
use std::alloc::AllocError as NoMemory;

/// The key of a row of a table or an index, or an end of a range of them. Its order is that in which a Scan gives rows: by
/// place, then by the partition key's value, then by the sort key's.
#[derive(PartialEq, Eq, PartialOrd, Ord)]
pub struct RowKey {
    /// The place of the partition key.
    pub place: u64,
    pub partition: KeyValue,
    pub sort: SortPoint,
}

// By hand, so that no crate above proves it again.
impl Drop for RowKey {
    fn drop(self) {
        let RowKey {
            place: _,
            partition: _,
            sort: _,
        } = self;
    }
}

impl RowKey {
    /// An equal key.
    pub fn try_clone(&self) -> Result<RowKey, NoMemory>
        ensures { IfOk result (λ copy. copy ≡ self.now) }
    {
        Ok(RowKey {
            place: self.place,
            partition: self.partition.try_clone()?,
            sort: self.sort.try_clone()?,
        })
    }
}

impl Clone for RowKey {
    ghost is_clone = { λ key copy. copy ≡ key };

    fn clone(&self) -> Result<RowKey, NoMemory> {
        self.try_clone()
    }
}

/// The key of a row, or of what an item of this key would be.
impl From<PlacedKey> for RowKey {
    ghost use Rattle.row_keys.specs.Keys.{placed_row_key};

    ghost from_gives = { λ placed key. key ≡ placed_row_key placed };

    fn from(placed: PlacedKey) -> RowKey {
        let PlacedKey { place, key } = placed;
        let Key { partition, sort } = key;
        let sort = match sort {
            Some(value) => SortPoint::At(value),
            None => SortPoint::Least,
        };
        RowKey {
            place,
            partition,
            sort,
        }
    }
}
