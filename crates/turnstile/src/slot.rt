//! Where the value of a cell lies while no one has its turn.
ghost use Rattle.std.specs.Prelude.{◌≡◌};

use crossbeam_utils::CachePadded;
use std::marker::Model;
use std::mem;

/// A value or none, which contracts see as just that. Nothing else lies on its cache lines, so that
/// threads that have turns of different cells do not slow each other.
pub struct Slot<C> {
    padded: CachePadded<Option<C>>,
}

impl<C> Model for Slot<C> {
    ghost use Rattle.std.specs.Prelude.{Option};
    ghost use Rattle.crossbeam_utils.specs.Padded.{padded_value};

    ghost Value = { Option C };

    ghost view = { λ s. padded_value s.padded };
}

impl<C> Slot<C> {
    pub fn new(value: Option<C>) -> Slot<C>
        ensures { result ≡ value }
    {
        Slot {
            padded: CachePadded::new(value),
        }
    }

    /// Puts a value in, and gives what was there.
    pub fn replace(&mut self, value: Option<C>) -> Option<C>
        ensures was { result ≡ self.old }
        ensures is { self.new ≡ value }
    {
        mem::replace(&mut *self.padded, value)
    }

    pub fn into_inner(self) -> Option<C>
        ensures { result ≡ self }
    {
        let Slot { padded } = self;
        padded.into_inner()
    }
}

impl<C: Drop> Drop for Slot<C> {
    fn drop(self) {
        let Self { padded: _ } = self;
    }
}
