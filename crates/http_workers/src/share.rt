//! The connections of one thread, one after the other.

ghost use Rattle.std.specs.Prelude.{◌≡◌, ◌≤◌};
ghost use Rattle.ddb_outside.specs.Causes.{Rose};
ghost use Rattle.ddb_outside.specs.Listeners.{HasOut};
ghost use Rattle.http_workers.specs.Shares.{place, max_failures, RoseBy, Serves, ServesOne, IsServedOut};

use ddb_outside::{Clock, Failed, Joined, Listener};
use http_front::Reader;
use http_session::{Service, serve_session};
use std::alloc::Global;
use std::sync::Wait;

/// How often accepting fails in a row before a share is given up.
const MAX_FAILURES: u32 = 16;

/// How a share ended.
#[derive(Clone, Copy, Debug, PartialEq, Eq)]
pub enum ShareEnd {
    /// No connection will come any more.
    Done,
    /// Accepting failed 16 times in a row.
    NetFault,
}

/// Accepts the connections of a share one after the other, serves the session of each and hangs up, whatever the session's end
/// was.
///
/// [`ShareEnd::Done`] comes at the first accept that tells of no connection any more, and then every connection that was to
/// come was served. [`ShareEnd::NetFault`] comes where accepting has failed 16 times in a row, and then the first of them were
/// served. What the reader held before is dropped.
pub fn serve_share<R: Wait, V: Service<R>, C: Clock, L: Listener>(
    rt: &R,
    alloc: Global,
    service: &V,
    state: &mut V::State,
    reader: &mut Reader,
    clock: &mut C,
    share: &mut L,
) -> ShareEnd
    requires { V.fits service.now state.old }
    ensures served { Serves V.ways (L.connections share.old) (L.connections share.new)
        (place (C.coming clock.old) state.old) (place (C.coming clock.new) state.new) }
    ensures all { result ≡ ShareEnd.Done → IsServedOut (L.connections share.new) }
    ensures fits { V.fits service.now state.new }
    ensures done { result ≡ ShareEnd.Done → Rose (L.ends share.old) (L.ends share.new) }
    ensures fault { result ≡ ShareEnd.NetFault → RoseBy max_failures (L.faults share.old) (L.faults share.new) }
    ensures ends { L.ends share.old ≤ L.ends share.new }
    ensures faults { L.faults share.old ≤ L.faults share.new }
{
    let mut failures = 0;
    for _ in rt.forever() {
        match share.accept() {
            Ok(Some(joined)) => {
                failures = 0;
                serve_connection(rt, alloc, service, state, reader, clock, share, joined);
            }
            Ok(None) => return ShareEnd::Done,
            Err(Failed) => {
                failures += 1;
                if failures == MAX_FAILURES {
                    return ShareEnd::NetFault;
                }
            }
        }
    }
    unreachable!()
}

/// Serves the session of a connection and hangs up.
fn serve_connection<R, V: Service<R>, C: Clock, L: Listener>(
    rt: &R,
    alloc: Global,
    service: &V,
    state: &mut V::State,
    reader: &mut Reader,
    clock: &mut C,
    share: &mut L,
    joined: Joined<L::S, L::K>,
)
    requires fits { V.fits service.now state.old }
    requires out { HasOut (L.connections share.old) }
    ensures served { ServesOne V.ways (L.S.left joined.source) (L.K.written joined.sink) (L.connections share.old) (L.connections share.new)
        (place (C.coming clock.old) state.old) (place (C.coming clock.new) state.new) }
    ensures fits { V.fits service.now state.new }
    ensures ends { L.ends share.old ≤ L.ends share.new }
    ensures faults { L.faults share.old ≤ L.faults share.new }
{
    let Joined {
        mut source,
        mut sink,
    } = joined;
    let _ = serve_session(
        rt,
        alloc,
        service,
        state,
        reader,
        &mut source,
        &mut sink,
        clock,
    );
    share.hang_up(Joined { source, sink });
}
