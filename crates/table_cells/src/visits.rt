//! Cells that are lent to several threads, each of which has a pass of its own.

ghost use Rattle.std.specs.Prelude.{ℕ, ◌<◌, All, length, slice_index_or};
ghost use Rattle.turnstile.specs.Passes.{PassView};
ghost use Rattle.table_history.specs.Entries.{TableEvent};
ghost use Rattle.table_cells.specs.Visits.{Visits};

use cell_asks::Asks;
use std::thread;
use std::thread::Threads;

/// A pass, and what its thread has beside it.
#[derive(Drop)]
pub struct Seat<P, S> {
    pub pass: P,
    pub state: S,
}

/// What each thread does that cells are lent to, with a pass and a state of its own.
pub trait Visitor<C: Asks> {
    type State;

    // What it goes by: the state, after what its pass has seen.
    ghost starts: { Self → PassView TableEvent → Self.State → Type 0 };

    // What it does, on so many partitions: pass and state before, and afterwards.
    ghost does: { Self → ℕ → PassView TableEvent → Self.State → PassView TableEvent → Self.State → Type 0 };

    /// Works on the cells.
    fn visit(&self, cells: &C, pass: &mut C::Pass, state: &mut Self::State)
        requires fits { C.fits cells.now pass.old }
        requires starts { starts self.now (C.seen pass.old) state.old }
        ensures does { does self.now (C.count cells.now) (C.seen pass.old) state.old (C.seen pass.new) state.new }
        ensures fits { C.fits cells.now pass.new };
}

/// Lends cells to several threads, one for each seat, and waits for them all. Each does from its seat what the visitor does.
///
/// Where no thread can be made, visits are made one after the other: so none may wait for another.
pub fn visit_all<R, C, V>(rt: &R, cells: &C, visitor: &V, seats: &mut [Seat<C::Pass, V::State>])
where
    R: Threads + Sync,
    C: Asks + Sync,
    C::Pass: Send,
    V: Visitor<C> + Sync,
    V::State: Send,
    requires fits { All (λ s. C.fits cells.now s.pass) seats.old }
    requires starts { All (λ s. V.starts visitor.now (C.seen s.pass) s.state) seats.old }
    ensures does { (i : ℕ) (d : _) → i < length seats.old
        → Visits C.seen (V.does visitor.now (C.count cells.now)) (slice_index_or seats.old i d) (slice_index_or seats.new i d) }
    ensures fits { All (λ s. C.fits cells.now s.pass) seats.new }
{
    if seats.is_empty() {
        return;
    }
    let threads = seats.len();
    thread::for_each_mut(
        rt,
        seats,
        threads,
        &|_, seat: &mut Seat<C::Pass, V::State>|
            requires fits { C.fits cells.now seat.now.pass }
            requires starts { V.starts visitor.now (C.seen seat.now.pass) seat.now.state }
            ensures does { Visits C.seen (V.does visitor.entry.now (C.count cells.entry.now)) seat.entry.now seat.exit.now }
            ensures fits { C.fits cells.entry.now seat.exit.now.pass }
        { visit_from(cells, visitor, seat) },
    );
}

/// A visit from one seat.
fn visit_from<C: Asks, V: Visitor<C>>(cells: &C, visitor: &V, seat: &mut Seat<C::Pass, V::State>)
    requires fits { C.fits cells.now seat.old.pass }
    requires starts { V.starts visitor.now (C.seen seat.old.pass) seat.old.state }
    ensures does { Visits C.seen (V.does visitor.now (C.count cells.now)) seat.old seat.new }
    ensures fits { C.fits cells.now seat.new.pass }
{
    visitor.visit(cells, &mut seat.pass, &mut seat.state);
}
