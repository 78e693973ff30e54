//! Rows of a table, as pages walk them.

ghost use Rattle.std.specs.Prelude.{◌≡◌};
ghost use Rattle.table_rows.specs.Slots.{rows_of, AllFilled};

use attr_value::SharedItem;
use paging::{MapRange, Steps, Walk};
use row_keys::RowKey;
use std::marker::Model;
use std::sync::ledger::Ledger;

/// The rows of a table between two ends, in the order of a Scan.
///
/// Contracts see the rows, each under its key. A step of a walk looks up one key, whose cost is the logarithm of the
/// table's size, and takes no memory.
pub struct RowRange<'a> {
    slots: MapRange<'a, RowKey, Option<SharedItem>>,
}

// By hand, so that no crate above proves it again.
impl Drop for RowRange<'_> {
    fn drop(self) {
        let RowRange { slots: _ } = self;
    }
}

impl<'a> Model for RowRange<'a> {
    ghost use Rattle.row_keys.specs.Rows.{Rows};
    ghost use Rattle.table_rows.specs.Slots.{rows_of, AllFilled};
    ghost use Rattle.table_rows.specs.Codes.{rows_code};

    ghost Value = { Rows };

    ghost coded = { rows_code };

    ghost view = { λ r. rows_of r.slots };

    ghost invariant = { λ r. AllFilled r.slots };
}

impl<'a> RowRange<'a> {
    /// The rows in these slots, in each of which there is an item.
    pub(crate) fn new(slots: MapRange<'a, RowKey, Option<SharedItem>>) -> RowRange<'a>
        requires { AllFilled slots }
        ensures { result ≡ rows_of slots.entry }
    {
        RowRange { slots }
    }
}

impl<'a> Walk for RowRange<'a> {
    type Place = RowKey;

    type Row = SharedItem;

    ghost listed = { λ rows. rows };

    fn next<'b, L: Ledger>(
        &'b self,
        after: Option<&'b RowKey>,
        forward: bool,
        steps: &mut Steps<L>,
    ) -> Option<(&'b RowKey, &'b SharedItem)> {
        let Some((key, slot)) = self.slots.next(after, forward, steps) else {
            return None;
        };
        let Some(item) = slot else {
            return None;
        };
        Some((key, item))
    }
}
