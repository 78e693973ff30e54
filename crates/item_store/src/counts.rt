//! A cell's floor and numbers.

ghost use Rattle.std.specs.Prelude.{◌≡◌, ◌+◌, ◌<◌, ◌^◌};
ghost use Rattle.item_store.specs.Counts.{fresh, tally};
ghost use Rattle.item_store.specs.Slots.{left_absent};

use txn_core::Stamp;

/// A cell's floor, how many changes its items had, and which of them left an item absent last.
#[derive(Clone, Copy, Drop)]
pub struct Counts {
    /// The latest stamp at which an item became absent.
    pub floor: Stamp,
    /// How many changes there were.
    pub count: u64,
    /// The number of the last change that left an item absent.
    pub gone: u64,
}

impl Counts {
    /// Before any change.
    pub(crate) fn new() -> Counts
        ensures { tally result ≡ fresh }
    {
        let floor = Stamp {
            moment: 0,
            number: 0,
        };
        Counts {
            floor,
            count: 0,
            gone: 0,
        }
    }

    /// After a change at a stamp that left an item absent, which was changed last at another.
    pub(crate) fn left_absent(self, last: Stamp, own: Stamp) -> Counts
        requires { self.count + 1 < 2 ^ 64 }
        ensures { tally result ≡ left_absent (tally self) last own }
    {
        let count = self.count + 1;
        Counts {
            floor: self.floor.later(last).later(own),
            count,
            gone: count,
        }
    }
}
