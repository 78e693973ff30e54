//! All connections of a listener, by many workers, with helpers beside them.

ghost use Rattle.std.specs.Prelude.{◌≡◌, ◌<◌, ◌≤◌, All, length};
ghost use Rattle.ddb_outside.specs.Causes.{Rose};
ghost use Rattle.http_workers.specs.Crews.{ServesAll, AllHelped};

use crate::crew::Crew;
use crate::lending::{make_shares, take_back};
use crate::seat::{disband, end_of, gather};
use crate::stock::Stock;
use crate::worker::work_all;
use base_types::Seq;
use ddb_outside::{Clock, Listener};
use std::alloc::Global;
use std::mem;
use std::sync::Wait;
use std::thread::Threads;

/// How serving ended.
#[derive(Clone, Copy, Debug, PartialEq, Eq)]
pub enum ServeEnd {
    /// No connection will come any more.
    Done,
    /// A share was refused, or accepting failed 16 times in a row.
    NetFault,
    /// Memory was refused.
    NoMemory,
}

/// Serves the connections of a listener by as many workers as there are states, each in a thread of its own with a share of the
/// listener, a twin of the clock and a reader of its own. The shares come back to the listener in order of worker, and each
/// state to its place. Beside the workers each helper helps the service, once and in a thread of its own, and comes back to its
/// place. Where no thread can be made for a helper, its turn comes when the workers have served and their states are at rest.
///
/// All memory is taken first: after [`ServeEnd::NoMemory`] nothing was done. [`ServeEnd::NetFault`] comes where a share was
/// refused, and then those before it come back unserved and no helper is called; or where a worker has failed 16 times in a row
/// to accept, and then the others still serve all of theirs.
pub fn serve_all<R, V, C, L>(
    rt: &R,
    alloc: Global,
    service: &V,
    states: &mut Seq<V::State>,
    helpers: &mut Seq<V::Helper>,
    clock: &C,
    listener: &mut L,
) -> ServeEnd
where
    R: Threads + Wait + Sync,
    V: Crew<R> + Sync,
    V::State: Send + Drop,
    V::Helper: Send + Drop,
    C: Clock + Send + Drop,
    L: Listener + Send + Drop,
    requires fits { All (λ s. V.fits service.now s) states.old }
    requires suits { All (λ h. V.suits service.now h) helpers.old }
    ensures served { ServesAll V.ways result (C.coming clock.now) (L.connections listener.old) (L.connections listener.new)
        states.old states.new }
    ensures fits { All (λ s. V.fits service.now s) states.new }
    ensures count { length states.new ≡ length states.old }
    ensures helped { AllHelped (V.helps service.now) result helpers.old helpers.new }
    ensures memory { result ≡ ServeEnd.NoMemory → (states.new ≡ states.old) × (listener.new ≡ listener.old) }
    ensures fault { result ≡ ServeEnd.NetFault → Rose (L.faults listener.old) (L.faults listener.new) }
    ensures done { result ≡ ServeEnd.Done → 0 < length states.old → Rose (L.ends listener.old) (L.ends listener.new) }
    ensures faults { L.faults listener.old ≤ L.faults listener.new }
    ensures ends { L.ends listener.old ≤ L.ends listener.new }
{
    let count = states.len();
    let Ok(stock) = Stock::make(alloc, clock, count, helpers.len()) else {
        return ServeEnd::NoMemory;
    };
    let Stock {
        readers,
        clocks,
        mut made,
        mut seats,
        states: mut kept,
        mut served,
        helpers: mut done,
    } = stock;
    if make_shares(listener, &mut made, count).is_err() {
        take_back(listener, made);
        return ServeEnd::NetFault;
    }
    let idle = mem::replace(states, Seq::new(alloc));
    let coming = mem::replace(helpers, Seq::new(alloc));
    gather(
        idle.into(),
        clocks,
        made,
        readers,
        coming.into(),
        &mut seats,
    );
    work_all(rt, alloc, service, &mut seats);
    let end = end_of(seats.as_slice());
    disband(seats, &mut kept, &mut served, &mut done);
    take_back(listener, served);
    *states = Seq::from(kept);
    *helpers = Seq::from(done);
    end
}
