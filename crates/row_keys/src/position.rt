//! Where rows stand in an index.

ghost use Rattle.std.specs.Prelude.{◌≡◌, IfOk};

use crate::row_key::RowKey;
use std::alloc::AllocError as NoMemory;
use std::cmp::Ordering;

/// Where a row stands in an index: by the index's key, and where these tie by the table's key. Of the latter the place
/// decides nothing (Developer Guide: Global secondary indexes).
pub struct Position {
    /// The key in what is read.
    pub read: RowKey,
    /// The key of the item in the table.
    pub item: RowKey,
}

// By hand, so that no crate above proves it again.
impl Drop for Position {
    fn drop(self) {
        let Position { read: _, item: _ } = self;
    }
}

impl Position {
    /// The key in what is read.
    pub fn into_read(self) -> RowKey
        ensures { result ≡ self.read }
    {
        let Position { read, item: _ } = self;
        read
    }

    /// An equal position.
    pub fn try_clone(&self) -> Result<Position, NoMemory>
        ensures { IfOk result (λ copy. copy ≡ self.now) }
    {
        Ok(Position {
            read: self.read.try_clone()?,
            item: self.item.try_clone()?,
        })
    }
}

impl Clone for Position {
    ghost is_clone = { λ position copy. copy ≡ position };

    fn clone(&self) -> Result<Position, NoMemory> {
        self.try_clone()
    }
}

impl PartialEq for Position {
    ghost use Rattle.std.specs.Cmp.{partial_equiv_from_equiv, eq_by_cmp_equiv};
    ghost use Rattle.std.specs.Ordering.{eq_by_cmp};
    ghost use Rattle.row_keys.specs.Keys.{position_order};
    ghost use Rattle.row_keys.specs.KeyLaws.{position_total};

    ghost eq = { eq_by_cmp position_order };

    ghost laws = { partial_equiv_from_equiv (eq_by_cmp_equiv position_total) };

    fn eq(&self, other: &Position) -> bool {
        self.cmp(other).is_eq()
    }
}

impl Eq for Position {
    ghost use Rattle.std.specs.Cmp.{eq_by_cmp_equiv};
    ghost use Rattle.row_keys.specs.KeyLaws.{position_total};

    ghost laws = { eq_by_cmp_equiv position_total };
}

impl PartialOrd for Position {
    ghost use Rattle.std.specs.Cmp.{partial_order_from_total};
    ghost use Rattle.std.specs.Ordering.{as_partial_cmp};
    ghost use Rattle.row_keys.specs.Keys.{position_order};
    ghost use Rattle.row_keys.specs.KeyLaws.{position_total};

    ghost partial_cmp = { as_partial_cmp position_order };

    ghost laws = { partial_order_from_total position_total };

    fn partial_cmp(&self, other: &Position) -> Option<Ordering> {
        Some(self.cmp(other))
    }
}

impl Ord for Position {
    ghost use Rattle.std.specs.Prelude.{refl};
    ghost use Rattle.row_keys.specs.Keys.{position_order};
    ghost use Rattle.row_keys.specs.KeyLaws.{position_total};

    ghost cmp = { position_order };

    ghost total = { position_total };

    ghost matches_partial_cmp = { λ x y. refl };

    ghost matches_eq = { λ x y. refl };

    #[tactic(auto, unfolding(crate::specs::Keys::position_order))]
    fn cmp(&self, other: &Position) -> Ordering {
        let (one, with) = (&self.item, &other.item);
        self.read
            .cmp(&other.read)
            .then_with(|| one.partition.cmp(&with.partition))
            .then_with(|| one.sort.cmp(&with.sort))
            .then_with(|| one.place.cmp(&with.place))
    }
}
