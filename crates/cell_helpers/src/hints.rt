//! What sessions tell helpers, and where helpers are told.

use crossbeam_channel::{Receiver, Sender, bounded};
use std::alloc::{AllocError as NoMemory, Global};
use std::marker::Model;
use std::sync::Wait;

/// Where sessions tell helpers that there is something to do. Each session has a copy, and helpers end once no copy is left.
///
/// A hint carries the moment of the session that sends it, in microseconds, which a helper goes by in place of a clock. No call here
/// waits for a helper, and none fails. Of each kind one hint waits at most: where one does, the helper is still to begin a round that will
/// see all that was done by now, and a further hint is passed over.
#[derive(Clone, Drop)]
pub struct Hints {
    feeds: Sender<u64, Global>,
    sweeps: Sender<u64, Global>,
    removals: Sender<u64, Global>,
    // Wakes the recovery worker, which then looks for hints of both kinds.
    wakes: Sender<(), Global>,
}

impl Model for Hints {
    ghost use Rattle.std.specs.Prelude.{⊤};

    ghost Value = { ⊤ };

    ghost view = { λ hints. tt };
}

impl Hints {
    /// Tells the feeder that a change waits for an index, or may.
    pub fn feed<R: Wait>(&self, rt: &R, moment: u64) {
        let _ = self.feeds.try_send(rt, moment);
    }

    /// Tells the recovery worker that a transaction may have been left in the middle, as where one was found to hold an item.
    pub fn recover<R: Wait>(&self, rt: &R, moment: u64) {
        let _ = self.sweeps.try_send(rt, moment);
        let _ = self.wakes.try_send(rt, ());
    }

    /// Tells the recovery worker that items may be expired by now.
    pub fn expire<R: Wait>(&self, rt: &R, moment: u64) {
        let _ = self.removals.try_send(rt, moment);
        let _ = self.wakes.try_send(rt, ());
    }
}

/// Where the recovery worker is told. It can wait on one channel alone: so it waits to be woken, and looks into the others then.
#[derive(Drop)]
pub(crate) struct Calls {
    pub(crate) wakes: Receiver<(), Global>,
    pub(crate) sweeps: Receiver<u64, Global>,
    pub(crate) removals: Receiver<u64, Global>,
}

/// Hints, with where the feeder is told and where the recovery worker is.
pub(crate) fn make_hints(alloc: Global) -> Result<(Hints, Receiver<u64, Global>, Calls), NoMemory> {
    let (feeds, told) = bounded(alloc, 1)?;
    let (sweeps, sweeps_told) = bounded(alloc, 1)?;
    let (removals, removals_told) = bounded(alloc, 1)?;
    let (wakes, wakes_told) = bounded(alloc, 1)?;
    let hints = Hints {
        feeds,
        sweeps,
        removals,
        wakes,
    };
    let calls = Calls {
        wakes: wakes_told,
        sweeps: sweeps_told,
        removals: removals_told,
    };
    Ok((hints, told, calls))
}
