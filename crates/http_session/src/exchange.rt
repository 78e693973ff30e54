//! One message and its reply.

ghost use Rattle.std.specs.Prelude.{◌≡◌, ◌<◌, ◌≤◌, ◌^◌, ◌⊎◌, Err, OnOk, OnErr};
ghost use Rattle.std.specs.Io.KnownBytes.{Appends, prepend_known};
ghost use Rattle.ddb_outside.specs.Causes.{HasCause, Rose};
ghost use Rattle.ddb_outside.specs.Writes.{AppendsFront};
ghost use Rattle.http_front.specs.Replies.{IsReplyStatus, bytes_of, refusal};
ghost use Rattle.http_session.specs.Answers.{text_of};
ghost use Rattle.http_front.specs.Messages.{TakesSparingly};
ghost use Rattle.http_session.specs.Exchanges.{IsTurn, stand};

use crate::answer::Answer;
use crate::end::SessionEnd;
use crate::service::Service;
use ddb_outside::{Clock, Failed, Sink, Source};
use http_front::{HttpFault, NextEnd, Reader, refuse, reply};
use std::alloc::Global;

/// Answers the next message of a connection, on which `done` messages were answered before: the service is asked for leave,
/// then the message is taken, then the clock is looked at once, then the reply is written. It is answered at the greatest
/// moment that the clock has given, which is kept in `latest`. The result tells whether the message asked for the
/// connection's end.
///
/// Where the service gives no leave the result is [`SessionEnd::Spent`], and nothing is read. Where there is no message it is
/// how the session ends: [`SessionEnd::Ended`], [`SessionEnd::Refused`] (the refusal was written), [`SessionEnd::Cut`],
/// [`SessionEnd::ReadFault`] or [`SessionEnd::NoMemory`]; and where the sink failed it is [`SessionEnd::WriteFault`].
pub fn serve_message<R, S: Source, K: Sink, C: Clock, V: Service<R>>(
    rt: &R,
    alloc: Global,
    service: &V,
    state: &mut V::State,
    reader: &mut Reader,
    source: &mut S,
    sink: &mut K,
    clock: &mut C,
    latest: &mut u64,
    done: u64,
) -> Result<bool, SessionEnd>
    requires count { done < 2 ^ 40 }
    requires fits { V.fits service.now state.old }
    ensures turn { IsTurn V.ways done
        (stand (prepend_known reader.old (S.left source.old)) (C.coming clock.old) latest.old (K.written sink.old) state.old)
        (stand (prepend_known reader.new (S.left source.new)) (C.coming clock.new) latest.new (K.written sink.new) state.new)
        result }
    ensures fits { V.fits service.now state.new }
    ensures sparing { TakesSparingly (S.left source.old) (S.left source.new) reader.old }
    ensures read { result ≡ Err SessionEnd.ReadFault → Rose (S.faults source.old) (S.faults source.new) }
    ensures write { result ≡ Err SessionEnd.WriteFault → Rose (K.faults sink.old) (K.faults sink.new) }
    ensures reads { S.faults source.old ≤ S.faults source.new }
    ensures writes { K.faults sink.old ≤ K.faults sink.new }
{
    if !service.begin(state) {
        return Err(SessionEnd::Spent);
    }
    let message = match reader.next(source) {
        Ok(Some(message)) => message,
        Ok(None) => return Err(SessionEnd::Ended),
        Err(NextEnd::Refused(fault)) => return Err(end_refused(sink, fault)),
        Err(NextEnd::Cut { got }) => return Err(SessionEnd::Cut { got }),
        Err(NextEnd::ReadFault) => return Err(SessionEnd::ReadFault),
        Err(NextEnd::NoMemory) => return Err(SessionEnd::NoMemory),
    };
    *latest = clock.now().max(*latest);
    let answer = service.answer(rt, alloc, state, &message, *latest);
    match write_answer(sink, &answer, done + 1, message.last) {
        Ok(()) => Ok(message.last),
        Err(Failed) => Err(SessionEnd::WriteFault),
    }
}

/// Writes the refusal of what is no message.
fn end_refused<K: Sink>(sink: &mut K, fault: HttpFault) -> SessionEnd
    ensures end { result ≡ SessionEnd.Refused fault ⊎ result ≡ SessionEnd.WriteFault }
    ensures refused { result ≡ SessionEnd.Refused fault → Appends (K.written sink.old) (K.written sink.new) (refusal fault) }
    ensures failed { result ≡ SessionEnd.WriteFault → AppendsFront (K.written sink.old) (K.written sink.new) (refusal fault) }
    ensures write { result ≡ SessionEnd.WriteFault → Rose (K.faults sink.old) (K.faults sink.new) }
    ensures writes { K.faults sink.old ≤ K.faults sink.new }
{
    match refuse(sink, fault) {
        Ok(()) => SessionEnd::Refused(fault),
        Err(Failed) => SessionEnd::WriteFault,
    }
}

/// Writes the reply to the `count`-th message.
fn write_answer<K: Sink>(
    sink: &mut K,
    answer: &Answer,
    count: u64,
    last: bool,
) -> Result<(), Failed>
    requires { IsReplyStatus answer.now.status }
    ensures ok { OnOk result (Appends (K.written sink.old) (K.written sink.new)
        (bytes_of answer.now.status (text_of answer.now.body) count last)) }
    ensures failed { OnErr result (AppendsFront (K.written sink.old) (K.written sink.new)
        (bytes_of answer.now.status (text_of answer.now.body) count last)) }
    ensures cause { HasCause (K.faults sink.old) (K.faults sink.new) result }
{
    reply(
        sink,
        answer.status,
        answer.body.as_str().as_bytes(),
        count,
        last,
    )
}
