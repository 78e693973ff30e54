//! Rows of an index, as pages walk them.

ghost use Rattle.std.specs.Prelude.{◌≡◌};
ghost use Rattle.table_rows.specs.Slots.{rows_of};
ghost use Rattle.table_rows.specs.Looked.{looked, AllThere};

use crate::slots::Slots;
use attr_value::SharedItem;
use paging::{MapRange, Steps, Walk};
use row_keys::Position;
use std::marker::Model;
use std::sync::ledger::Ledger;

/// The rows of an index between two ends, in its order: each is the whole item that stands at its place. What a global
/// index does not keep is left out where a row is shown.
///
/// Contracts see the rows, each at its place. A step of a walk looks up one place and one item, whose cost is the
/// logarithm of the table's size, and takes no memory.
pub struct IndexRange<'a> {
    places: MapRange<'a, Position, ()>,
    slots: &'a Slots,
}

// By hand, so that no crate above proves it again.
impl Drop for IndexRange<'_> {
    fn drop(self) {
        let IndexRange {
            places: _,
            slots: _,
        } = self;
    }
}

impl<'a> Model for IndexRange<'a> {
    ghost use Rattle.row_keys.specs.Rows.{Entries};
    ghost use Rattle.table_rows.specs.Slots.{rows_of};
    ghost use Rattle.table_rows.specs.Looked.{looked, AllThere};
    ghost use Rattle.table_rows.specs.Codes.{entries_code};

    ghost Value = { Entries };

    ghost coded = { entries_code };

    ghost view = { λ r. looked (rows_of r.slots.now) r.places };

    ghost invariant = { λ r. AllThere (rows_of r.slots.now) r.places };
}

impl<'a> IndexRange<'a> {
    /// The rows at these places, at each of which an item stands.
    pub(crate) fn new(places: MapRange<'a, Position, ()>, slots: &'a Slots) -> IndexRange<'a>
        requires { AllThere (rows_of slots.now) places }
        ensures { result ≡ looked (rows_of slots.now) places.entry }
    {
        IndexRange { places, slots }
    }
}

impl<'a> Walk for IndexRange<'a> {
    type Place = Position;

    type Row = SharedItem;

    ghost listed = { λ rows. rows };

    fn next<'b, L: Ledger>(
        &'b self,
        after: Option<&'b Position>,
        forward: bool,
        steps: &mut Steps<L>,
    ) -> Option<(&'b Position, &'b SharedItem)> {
        let Some((place, _)) = self.places.next(after, forward, steps) else {
            return None;
        };
        let Some(item) = self.slots.get(&place.item) else {
            return None;
        };
        Some((place, item))
    }
}
