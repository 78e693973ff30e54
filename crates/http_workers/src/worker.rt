//! What a worker or a helper does in a thread of its own.

ghost use Rattle.std.specs.Prelude.{◌≡◌, ◌<◌, ℕ, All, length, slice_index_or};
ghost use Rattle.std.specs.List.{AllZip};
ghost use Rattle.http_workers.specs.Steps.{Works, CanBegin, DoesItsPart, workers_of, helpers_of};

use crate::crew::Crew;
use crate::seat::Seat;
use crate::share::{ShareEnd, serve_share};
use ddb_outside::{Clock, Listener};
use http_front::Reader;
use std::alloc::Global;
use std::sync::Wait;
use std::thread;
use std::thread::Threads;

/// What a worker works with, and how it ended.
#[derive(Drop)]
pub struct Worker<S, C, L> {
    pub state: S,
    pub reader: Reader,
    pub clock: C,
    pub share: L,
    pub end: ShareEnd,
}

/// Does the parts of all workers and helpers, each in a thread of its own.
pub fn work_all<R, V, C, L>(
    rt: &R,
    alloc: Global,
    service: &V,
    seats: &mut Vec<Seat<V::State, C, L, V::Helper>>,
)
where
    R: Threads + Wait + Sync,
    V: Crew<R> + Sync,
    V::State: Send,
    V::Helper: Send,
    C: Clock + Send,
    L: Listener + Send,
    requires states { All (λ w. V.fits service.now w.state) (workers_of seats.old.items) }
    requires helpers { All (λ h. V.suits service.now h) (helpers_of seats.old.items) }
    ensures works { AllZip (Works V.ways C.coming L.connections L.faults L.ends) (workers_of seats.old.items) (workers_of seats.new.items) }
    ensures fits { All (λ w. V.fits service.now w.state) (workers_of seats.new.items) }
    ensures helps { AllZip (V.helps service.now) (helpers_of seats.old.items) (helpers_of seats.new.items) }
{
    work_each(rt, alloc, service, seats.as_mut_slice());
}

/// The same, where the seats are lent.
fn work_each<R, V, C, L>(
    rt: &R,
    alloc: Global,
    service: &V,
    seats: &mut [Seat<V::State, C, L, V::Helper>],
)
where
    R: Threads + Wait + Sync,
    V: Crew<R> + Sync,
    V::State: Send,
    V::Helper: Send,
    C: Clock + Send,
    L: Listener + Send,
    requires { All (CanBegin (V.fits service.now) (V.suits service.now)) seats.old }
    ensures { (i : ℕ) (d : _) → i < length seats.old
        → DoesItsPart (Works V.ways C.coming L.connections L.faults L.ends) (V.fits service.now) (V.helps service.now)
        (slice_index_or seats.old i d) (slice_index_or seats.new i d) }
{
    if seats.is_empty() {
        return;
    }
    let threads = seats.len();
    thread::for_each_mut(
        rt,
        seats,
        threads,
        &|_, seat: &mut Seat<V::State, C, L, V::Helper>|
            requires { CanBegin (V.fits service.now) (V.suits service.now) seat.now }
            ensures { DoesItsPart (Works V.ways C.coming L.connections L.faults L.ends) (V.fits service.entry.now) (V.helps service.entry.now)
                seat.entry.now seat.exit.now }
        { do_part(rt, alloc, service, seat) },
    );
}

/// Does the part of the worker or helper that sits there.
fn do_part<R: Wait, V: Crew<R>, C: Clock, L: Listener>(
    rt: &R,
    alloc: Global,
    service: &V,
    seat: &mut Seat<V::State, C, L, V::Helper>,
)
    requires { CanBegin (V.fits service.now) (V.suits service.now) seat.old }
    ensures { DoesItsPart (Works V.ways C.coming L.connections L.faults L.ends) (V.fits service.now) (V.helps service.now) seat.old seat.new }
{
    match seat {
        Seat::Worker(worker) => work(rt, alloc, service, worker),
        Seat::Helper(helper) => service.help(rt, alloc, helper),
    }
}

/// Serves the share of a worker, and brings its state to rest.
fn work<R: Wait, V: Crew<R>, C: Clock, L: Listener>(
    rt: &R,
    alloc: Global,
    service: &V,
    worker: &mut Worker<V::State, C, L>,
)
    requires { V.fits service.now worker.old.state }
    ensures works { Works V.ways C.coming L.connections L.faults L.ends worker.old worker.new }
    ensures fits { V.fits service.now worker.new.state }
{
    worker.end = serve_share(
        rt,
        alloc,
        service,
        &mut worker.state,
        &mut worker.reader,
        &mut worker.clock,
        &mut worker.share,
    );
    service.rest(&mut worker.state);
}
