//! Tests of sessions over a service that counts.

use base_types::{Bytes, Seq};
use ddb_outside::{Clock, ListClock, MemSink, MemSource, StepClock};
use http_front::{HttpFault, Message, Reader};
use http_session::{Answer, Body, Service, SessionEnd, serve_session};
use std::alloc::{AllocError as NoMemory, Global};
use std::test::Fail;

/// How many messages were answered, and the moment of the last one.
#[derive(Drop)]
struct Count {
    count: u64,
    moment: u64,
}

/// Counts messages.
struct Counter;

impl<R> Service<R> for Counter {
    ghost use Rattle.std.specs.Prelude.{◌≡◌};

    type State = Count;

    ghost fits = { λ service state. Unit {0} };

    ghost ways = { record {
      begins = λ old new. new ≡ old;
      stops = λ state. ⊥;
      steps = λ old message moment status body new. (status ≡ 200) × (new.moment ≡ moment);
    } };

    fn begin(&self, _state: &mut Count) -> bool {
        true
    }

    fn answer(
        &self,
        _rt: &R,
        _alloc: Global,
        state: &mut Count,
        _message: &Message,
        moment: u64,
    ) -> Answer {
        state.count = state.count.saturating_add(1);
        state.moment = moment;
        Answer {
            status: 200,
            body: Body::Fixed("{}"),
        }
    }
}

const MESSAGE: &str = "POST / HTTP/1.1\r\nContent-Length: 2\r\n\r\nhi";

const LAST: &str = "POST / HTTP/1.1\r\nConnection: close\r\n\r\n";

const FIRST_REPLY: &str =
    "HTTP/1.1 200 OK\r\nContent-Type: application/x-amz-json-1.0\r\nContent-Length: 2\r\n\
    x-amzn-RequestId: 00000000000000000000000000000001\r\n\r\n{}";

const LAST_REPLY: &str =
    "HTTP/1.1 200 OK\r\nContent-Type: application/x-amz-json-1.0\r\nContent-Length: 2\r\n\
    x-amzn-RequestId: 00000000000000000000000000000002\r\nConnection: close\r\n\r\n{}";

/// Messages in pieces of a length, and how it goes with them, where a clock begins at 7 and goes on by 5.
#[derive(Clone, Copy)]
struct Session {
    input: (&'static str, &'static str),
    piece: usize,
    first_reply: &'static str,
    end: SessionEnd,
    answered: u64,
    last_moment: u64,
}

static SESSIONS: [Session; 5] = [
    Session {
        input: ("", ""),
        piece: 1,
        first_reply: "",
        end: SessionEnd::Ended,
        answered: 0,
        last_moment: 0,
    },
    Session {
        input: (MESSAGE, ""),
        piece: 1,
        first_reply: FIRST_REPLY,
        end: SessionEnd::Ended,
        answered: 1,
        last_moment: 7,
    },
    Session {
        input: (MESSAGE, LAST),
        piece: 3,
        first_reply: FIRST_REPLY,
        end: SessionEnd::Asked,
        answered: 2,
        last_moment: 12,
    },
    Session {
        input: (MESSAGE, "GET / HTTP/1.1\r\n\r\n"),
        piece: 4_096,
        first_reply: FIRST_REPLY,
        end: SessionEnd::Refused(HttpFault::Method),
        answered: 1,
        last_moment: 7,
    },
    Session {
        input: (MESSAGE, "POST / HT"),
        piece: 5,
        first_reply: FIRST_REPLY,
        end: SessionEnd::Cut { got: 9 },
        answered: 1,
        last_moment: 7,
    },
];

/// What is written behind the first reply.
fn second(end: SessionEnd) -> &'static str {
    match end {
        SessionEnd::Asked => LAST_REPLY,
        SessionEnd::Refused(_) => {
            "HTTP/1.1 405 Method Not Allowed\r\nContent-Length: 0\r\nConnection: close\r\n\r\n"
        }
        _ => "",
    }
}

/// The end of a session with this input, what was written, and the state afterwards.
fn served<C: Clock>(
    rt: &HostRuntime,
    input: Bytes,
    piece: usize,
    clock: &mut C,
) -> Result<(SessionEnd, Bytes, Count), Fail> {
    let alloc = rt.alloc();
    let mut source = MemSource::make(input, piece.max(1), Seq::new(alloc));
    let mut sink = MemSink::make(alloc, piece.max(1), Seq::new(alloc));
    let mut state = Count {
        count: 0,
        moment: 0,
    };
    let mut reader = Reader::make(alloc)?;
    let end = serve_session(
        rt,
        alloc,
        &Counter,
        &mut state,
        &mut reader,
        &mut source,
        &mut sink,
        clock,
    );
    Ok((end, sink.into_parts().0, state))
}

fn joined(alloc: Global, first: &str, behind: &str) -> Result<Bytes, NoMemory> {
    let mut text = Vec::from_slice(alloc, first.as_bytes())?;
    text.extend_from_slice(behind.as_bytes())?;
    Ok(Bytes::from(text))
}

/// Whether a session goes as it is written.
fn goes(rt: &HostRuntime, session: Session) -> Result<bool, Fail> {
    let (first, behind) = session.input;
    let input = joined(rt.alloc(), first, behind)?;
    let expected = joined(rt.alloc(), session.first_reply, second(session.end))?;
    let (end, written, state) = served(rt, input, session.piece, &mut StepClock::make(7, 5))?;
    let is_answered = state.count == session.answered && state.moment == session.last_moment;
    Ok(end == session.end && written == expected && is_answered)
}

#[test]
fn sessions(rt: HostRuntime) -> Result<(), Fail> {
    for session in SESSIONS {
        assert!(rt; goes(&rt, session)?);
    }
    Ok(())
}

/// The moment of the last message, of one, two and three of them, where the clock goes back at the second.
static LAST_MOMENTS: [u64; 3] = [7_999_999, 7_999_999, 8_000_000];

#[test]
fn clock_goes_back(rt: HostRuntime) -> Result<(), Fail> {
    let alloc = rt.alloc();
    let mut input = String::new(alloc);
    for moment in LAST_MOMENTS {
        input.push_str(MESSAGE)?;
        let told = Vec::from_slice(alloc, &[7_999_999, 5_000_000, 8_000_000])?;
        let mut clock = ListClock::make(Seq::from(told));
        let content = Bytes::copied(alloc, input.as_bytes())?;
        let (end, _, state) = served(&rt, content, 4_096, &mut clock)?;
        assert!(rt; end == SessionEnd::Ended && state.moment == moment);
    }
    Ok(())
}
