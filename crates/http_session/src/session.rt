//! A whole session.

ghost use Rattle.std.specs.Prelude.{◌≡◌, ◌≤◌, IfSome};
ghost use Rattle.ddb_outside.specs.Causes.{Rose};
ghost use Rattle.http_session.specs.Sessions.{Served};

use crate::end::SessionEnd;
use crate::exchange::serve_message;
use crate::service::Service;
use ddb_outside::{Clock, Sink, Source};
use http_front::Reader;
use std::alloc::Global;

/// How many messages a session answers at most.
pub const MAX_MESSAGES: u64 = 1 << 40;

/// Answers the messages of `source` in order, each by one step of the service and its reply to `sink`, at the greatest
/// moment that the clock has given, to which it looks once a message. What the reader held before is dropped: one reader
/// serves one session after the other.
pub fn serve_session<R, S: Source, K: Sink, C: Clock, V: Service<R>>(
    rt: &R,
    alloc: Global,
    service: &V,
    state: &mut V::State,
    reader: &mut Reader,
    source: &mut S,
    sink: &mut K,
    clock: &mut C,
) -> SessionEnd
    requires { V.fits service.now state.old }
    ensures served { IfSome (S.left source.old) (λ input. Served V.ways input (C.coming clock.old) (C.coming clock.new) state.old state.new
        (K.written sink.old) (K.written sink.new) result) }
    ensures fits { V.fits service.now state.new }
    ensures read { result ≡ SessionEnd.ReadFault → Rose (S.faults source.old) (S.faults source.new) }
    ensures write { result ≡ SessionEnd.WriteFault → Rose (K.faults sink.old) (K.faults sink.new) }
{
    reader.clear();
    let mut latest = 0;
    for done in 0..MAX_MESSAGES {
        let last = match serve_message(
            rt,
            alloc,
            service,
            state,
            reader,
            source,
            sink,
            clock,
            &mut latest,
            done,
        ) {
            Ok(last) => last,
            Err(end) => return end,
        };
        if last {
            return SessionEnd::Asked;
        }
    }
    SessionEnd::Spent
}
