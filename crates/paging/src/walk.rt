ghost use Rattle.std.specs.Prelude.{◌≡◌, ◌+◌, ◌^◌, ◌<◌, List, length, slice_get};
ghost use Rattle.std.specs.Option.{option_copied, option_map};
ghost use Rattle.std.specs.List.Sorted.{IsStrictlySortedBy};
ghost use Rattle.std.specs.Map.{keys_of};
ghost use Rattle.std.specs.Map.Iter.{deref_pair};
ghost use Rattle.paging.specs.Rows.{rows_after};

use crate::steps::Steps;
use std::cmp::Ord;
use std::sync::ledger::Ledger;

/// A list of fewer than 2^64 rows in ascending order of their places, such as the rows of a range of keys.
pub trait Walk {
    type Place: Ord;

    type Row;

    /// The rows, each at its place.
    ghost listed: { Self → List (Self.Place × Self.Row) };

    /// The first row strictly after a place, or of all rows, in the direction asked; or `None` where there is no such
    /// row. The place need not be that of a row. It is one step, and takes no memory.
    fn next<'a, L: Ledger>(
        &'a self,
        after: Option<&'a Self::Place>,
        forward: bool,
        steps: &mut Steps<L>,
    ) -> Option<(&'a Self::Place, &'a Self::Row)>
        ensures first { option_map deref_pair result
            ≡ slice_get (rows_after Self.Place.cmp forward (option_copied after.entry) (listed self.now)) 0 }
        ensures step { steps.new ≡ steps.old + 1 }
        ensures ordered { IsStrictlySortedBy Self.Place.cmp (keys_of (listed self.now)) }
        ensures few { length (listed self.now) < 2 ^ 64 };
}
