//! A seat for each thread of a crew. Helpers sit in front of workers: of two threads that can't both be made the one behind runs
//! first, and a helper may wait for all workers, where no worker waits for a helper.

ghost use Rattle.std.specs.Prelude.{◌≡◌, ◌≤◌, ◌+◌, [], length, vec_capacity};
ghost use Rattle.http_workers.specs.Steps.{workers_of, helpers_of, states_of, clocks_of, shares_of, has_failed, joint_end};

use crate::serve::ServeEnd;
use crate::share::ShareEnd;
use crate::worker::Worker;
use http_front::Reader;
use std::collections::VecDeque;

/// A worker or a helper, who has a thread of its own.
#[derive(Drop)]
pub enum Seat<S, C, L, H> {
    Worker(Worker<S, C, L>),
    Helper(H),
}

/// Seats the helpers, and behind them a worker for each state, with a clock, a share and a reader, all in order.
pub fn gather<S: Drop, C: Drop, L: Drop, H: Drop>(
    states: Vec<S>,
    clocks: Vec<C>,
    shares: Vec<L>,
    readers: Vec<Reader>,
    helpers: Vec<H>,
    seats: &mut Vec<Seat<S, C, L, H>>,
)
    requires clocks { length clocks.items ≡ length states.items }
    requires shares { length shares.items ≡ length states.items }
    requires readers { length readers.items ≡ length states.items }
    requires empty { seats.old.items ≡ [] }
    requires room { length helpers.items + length states.items ≤ vec_capacity seats.old }
    ensures states { states_of (workers_of seats.new.items) ≡ states.items }
    ensures clocks { clocks_of (workers_of seats.new.items) ≡ clocks.items }
    ensures shares { shares_of (workers_of seats.new.items) ≡ shares.items }
    ensures helpers { helpers_of seats.new.items ≡ helpers.items }
{
    seat_helpers(helpers, seats);
    seat_workers(states, clocks, shares, readers, seats);
}

/// Seats the helpers, where nobody sits yet.
fn seat_helpers<S: Drop, C: Drop, L: Drop, H: Drop>(
    helpers: Vec<H>,
    seats: &mut Vec<Seat<S, C, L, H>>,
)
    requires empty { seats.old.items ≡ [] }
    requires room { length helpers.items ≤ vec_capacity seats.old }
    ensures workers { workers_of seats.new.items ≡ [] }
    ensures helpers { helpers_of seats.new.items ≡ helpers.items }
    ensures taken { length seats.new.items ≡ length helpers.items }
    ensures capacity { vec_capacity seats.old ≤ vec_capacity seats.new }
{
    let mut helpers = VecDeque::from(helpers);
    while let Some(helper) = helpers.pop_front() {
        let Ok(()) = seats.push(Seat::Helper(helper)) else {
            unreachable!()
        };
    }
}

/// Seats the workers behind those who sit, where none is among them.
fn seat_workers<S: Drop, C: Drop, L: Drop, H: Drop>(
    states: Vec<S>,
    clocks: Vec<C>,
    shares: Vec<L>,
    readers: Vec<Reader>,
    seats: &mut Vec<Seat<S, C, L, H>>,
)
    requires clocks { length clocks.items ≡ length states.items }
    requires shares { length shares.items ≡ length states.items }
    requires readers { length readers.items ≡ length states.items }
    requires none { workers_of seats.old.items ≡ [] }
    requires room { length seats.old.items + length states.items ≤ vec_capacity seats.old }
    ensures states { states_of (workers_of seats.new.items) ≡ states.items }
    ensures clocks { clocks_of (workers_of seats.new.items) ≡ clocks.items }
    ensures shares { shares_of (workers_of seats.new.items) ≡ shares.items }
    ensures helpers { helpers_of seats.new.items ≡ helpers_of seats.old.items }
{
    let mut states = VecDeque::from(states);
    let mut clocks = VecDeque::from(clocks);
    let mut shares = VecDeque::from(shares);
    let mut readers = readers;
    while let Some(state) = states.pop_front() {
        let (Some(clock), Some(share), Some(reader)) = (
            clocks.pop_front(),
            shares.pop_front(),
            readers.pop(),
        ) else {
            unreachable!()
        };
        let worker = Worker {
            state,
            reader,
            clock,
            share,
            end: ShareEnd::Done,
        };
        let Ok(()) = seats.push(Seat::Worker(worker)) else {
            unreachable!()
        };
    }
}

/// How serving ended, by how the workers did.
pub fn end_of<S, C, L, H>(seats: &[Seat<S, C, L, H>]) -> ServeEnd
    ensures { result ≡ joint_end (workers_of seats.now) }
{
    if seats.iter().any(|seat| has_failed(seat)) {
        return ServeEnd::NetFault;
    }
    ServeEnd::Done
}

/// Whether a worker sits there that ended by failures.
fn has_failed<S, C, L, H>(seat: &Seat<S, C, L, H>) -> bool
    ensures { result ≡ has_failed seat.now }
{
    match seat {
        Seat::Worker(worker) => worker.end == ShareEnd::NetFault,
        Seat::Helper(_) => false,
    }
}

/// Takes states and shares from workers and each helper from its seat, in order.
pub fn disband<S: Drop, C: Drop, L: Drop, H: Drop>(
    seats: Vec<Seat<S, C, L, H>>,
    states: &mut Vec<S>,
    shares: &mut Vec<L>,
    helpers: &mut Vec<H>,
)
    requires no_states { states.old.items ≡ [] }
    requires no_shares { shares.old.items ≡ [] }
    requires no_helpers { helpers.old.items ≡ [] }
    requires room_for_states { length (workers_of seats.items) ≤ vec_capacity states.old }
    requires room_for_shares { length (workers_of seats.items) ≤ vec_capacity shares.old }
    requires room_for_helpers { length (helpers_of seats.items) ≤ vec_capacity helpers.old }
    ensures states { states.new.items ≡ states_of (workers_of seats.items) }
    ensures shares { shares.new.items ≡ shares_of (workers_of seats.items) }
    ensures helpers { helpers.new.items ≡ helpers_of seats.items }
{
    let mut seats = VecDeque::from(seats);
    while let Some(seat) = seats.pop_front() {
        match seat {
            Seat::Worker(worker) => {
                let (Ok(()), Ok(())) = (states.push(worker.state), shares.push(worker.share)) else {
                    unreachable!()
                };
            }
            Seat::Helper(helper) => {
                let Ok(()) = helpers.push(helper) else {
                    unreachable!()
                };
            }
        }
    }
}
