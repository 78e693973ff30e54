//! The cells and entries of a cluster, and which histories are legal.

use crate::cell::CellOf;
use partition::PageRules;
use std::marker::{Brand, PhantomData};
use turnstile::{EntryOf, World};
use txn_core::{Entry, Event};

/// The world of a cluster under these rules: some partitions, and the control cell, which is the last one. A history is legal by the
/// protocol of transactions. A cell lies in a box, so that a turn moves a pointer.
pub struct TableWorld<R> {
    rules: PhantomData<R>,
}

impl<R: PageRules> World for TableWorld<R> {
    ghost use Rattle.std.specs.Prelude.{◌-◌, reverse};
    ghost use Rattle.cluster.specs.Events.{pass_of, moment_of, cell_of};
    ghost use Rattle.cluster.specs.Standing.{StandsFor};
    ghost use Rattle.cluster.specs.World.{IsLegalLog, IsRight, MaySend, may_still, goes_on};

    type Cell = Box<CellOf<R>>;

    type Entry = Event<R>;

    ghost by = { pass_of };

    ghost moment = { moment_of };

    ghost cell = { cell_of };

    ghost stands = { λ n i cell es. StandsFor (R.protocol (n - 1)) R.locals i cell.value (reverse es) };

    ghost legal = { λ n log. IsLegalLog (R.protocol (n - 1)) log };

    ghost may = { λ n log e. MaySend (R.protocol (n - 1)) log e };

    ghost answers = { λ n seen e. IsRight (R.protocol (n - 1)) n seen e };

    ghost starts = { λ n. tt };

    ghost may_still = { λ n. may_still (R.protocol (n - 1)) };

    ghost goes_on = { λ n. goes_on (R.protocol (n - 1)) n };
}

// Without a bound, so that a call can pick the event.
impl<R, K, V, A, F, D, Q, B> EntryOf<TableWorld<R>, Entry<K, V, A, F, D, Q, B>> for Brand {
    ghost use Rattle.cluster.specs.Events.{some_event};

    ghost entry = { some_event };
}
