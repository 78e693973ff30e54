//! Keys of items and of index rows, over all tables.

ghost use Rattle.std.specs.Prelude.{◌≡◌, IfOk};

use row_keys::{Position, RowKey};
use std::alloc::AllocError as NoMemory;
use std::cmp::Ordering;

/// Which item: its table's number, and its key there. Items of one table stand in the order of a Scan.
#[derive(PartialEq, Eq, PartialOrd, Ord)]
pub struct ItemKey {
    pub table: u64,
    pub key: RowKey,
}

// By hand, so that no crate above proves it again.
impl Drop for ItemKey {
    fn drop(self) {
        let ItemKey { table: _, key: _ } = self;
    }
}

/// Which row of a global index: the numbers of the table and of the index, and where the row stands.
#[derive(PartialEq, Eq, PartialOrd, Ord)]
pub struct IndexRowKey {
    pub table: u64,
    pub index: u64,
    /// The index's key, followed by the key of the item.
    pub at: Position,
}

// By hand, so that no crate above proves it again.
impl Drop for IndexRowKey {
    fn drop(self) {
        let IndexRowKey {
            table: _,
            index: _,
            at: _,
        } = self;
    }
}

/// What a cell keeps something for. Items stand before rows of indexes.
pub enum CellKey {
    Item(ItemKey),
    Row(IndexRowKey),
}

// By hand, so that no crate above proves it again.
impl Drop for CellKey {
    fn drop(self) {
        match self {
            CellKey::Item(_) | CellKey::Row(_) => {}
        }
    }
}

impl ItemKey {
    /// An equal key.
    pub fn try_clone(&self) -> Result<ItemKey, NoMemory>
        ensures { IfOk result (λ copy. copy ≡ self.now) }
    {
        Ok(ItemKey {
            table: self.table,
            key: self.key.try_clone()?,
        })
    }
}

impl IndexRowKey {
    /// An equal key.
    pub fn try_clone(&self) -> Result<IndexRowKey, NoMemory>
        ensures { IfOk result (λ copy. copy ≡ self.now) }
    {
        Ok(IndexRowKey {
            table: self.table,
            index: self.index,
            at: self.at.try_clone()?,
        })
    }
}

impl CellKey {
    /// An equal key.
    pub fn try_clone(&self) -> Result<CellKey, NoMemory>
        ensures { IfOk result (λ copy. copy ≡ self.now) }
    {
        match self {
            CellKey::Item(key) => Ok(CellKey::Item(key.try_clone()?)),
            CellKey::Row(key) => Ok(CellKey::Row(key.try_clone()?)),
        }
    }
}

impl Clone for CellKey {
    ghost is_clone = { λ key copy. copy ≡ key };

    fn clone(&self) -> Result<CellKey, NoMemory> {
        self.try_clone()
    }
}

impl PartialEq for CellKey {
    ghost use Rattle.std.specs.Cmp.{partial_equiv_from_equiv, eq_by_cmp_equiv};
    ghost use Rattle.std.specs.Ordering.{eq_by_cmp};
    ghost use Rattle.cell_model.specs.Keys.{key_order};
    ghost use Rattle.cell_model.specs.KeyLaws.{key_total};

    ghost eq = { eq_by_cmp key_order };

    ghost laws = { partial_equiv_from_equiv (eq_by_cmp_equiv key_total) };

    fn eq(&self, other: &CellKey) -> bool {
        self.cmp(other).is_eq()
    }
}

impl Eq for CellKey {
    ghost use Rattle.std.specs.Cmp.{eq_by_cmp_equiv};
    ghost use Rattle.cell_model.specs.KeyLaws.{key_total};

    ghost laws = { eq_by_cmp_equiv key_total };
}

impl PartialOrd for CellKey {
    ghost use Rattle.std.specs.Cmp.{partial_order_from_total};
    ghost use Rattle.std.specs.Ordering.{as_partial_cmp};
    ghost use Rattle.cell_model.specs.Keys.{key_order};
    ghost use Rattle.cell_model.specs.KeyLaws.{key_total};

    ghost partial_cmp = { as_partial_cmp key_order };

    ghost laws = { partial_order_from_total key_total };

    fn partial_cmp(&self, other: &CellKey) -> Option<Ordering> {
        Some(self.cmp(other))
    }
}

impl Ord for CellKey {
    ghost use Rattle.std.specs.Prelude.{refl};
    ghost use Rattle.cell_model.specs.Keys.{key_order};
    ghost use Rattle.cell_model.specs.KeyLaws.{key_total};

    ghost cmp = { key_order };

    ghost total = { key_total };

    ghost matches_partial_cmp = { λ x y. refl };

    ghost matches_eq = { λ x y. refl };

    #[tactic(auto, unfolding(crate::specs::Keys::key_order))]
    fn cmp(&self, other: &CellKey) -> Ordering {
        match (self, other) {
            (CellKey::Item(a), CellKey::Item(b)) => a.cmp(b),
            (CellKey::Row(a), CellKey::Row(b)) => a.cmp(b),
            (CellKey::Item(_), CellKey::Row(_)) => Ordering::Less,
            (CellKey::Row(_), CellKey::Item(_)) => Ordering::Greater,
        }
    }
}
