//! Where items stand in local indexes.

ghost use Rattle.std.specs.Prelude.{◌≡◌, IfOk};

use row_keys::Position;
use std::alloc::AllocError as NoMemory;

/// An entry of a local index: the number of its table, the place of the index among the table's, and where an item stands there. So
/// the entries of one index stand next to one another, in the order of the index.
#[derive(PartialEq, Eq, PartialOrd, Ord)]
pub struct LocalEntry {
    pub table: u64,
    pub index: u64,
    /// The index's key, followed by the key of the item.
    pub at: Position,
}

// By hand, so that no crate above proves it again.
impl Drop for LocalEntry {
    fn drop(self) {
        let LocalEntry {
            table: _,
            index: _,
            at: _,
        } = self;
    }
}

impl LocalEntry {
    /// An equal entry.
    pub fn try_clone(&self) -> Result<LocalEntry, NoMemory>
        ensures { IfOk result (λ copy. copy ≡ self.now) }
    {
        Ok(LocalEntry {
            table: self.table,
            index: self.index,
            at: self.at.try_clone()?,
        })
    }
}

impl Clone for LocalEntry {
    ghost is_clone = { λ entry copy. copy ≡ entry };

    fn clone(&self) -> Result<LocalEntry, NoMemory> {
        self.try_clone()
    }
}
