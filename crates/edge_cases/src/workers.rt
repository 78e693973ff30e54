//! Connections served by workers over a service that counts.

use base_types::{Bytes, Seq};
use ddb_outside::{Listener, MemListener, StepClock};
use http_front::{Message, Reader};
use http_session::{Answer, Body, Service};
use http_workers::{Crew, ServeEnd, ShareEnd, serve_all, serve_share};
use std::alloc::{AllocError as NoMemory, Global};
use std::sync::Wait;
use std::test::Fail;
use std::thread::Threads;

/// Answers the last digit of how many messages were answered from its state on.
struct Counter;

static DIGITS: [&str; 10] = ["0", "1", "2", "3", "4", "5", "6", "7", "8", "9"];

impl<R> Service<R> for Counter {
    ghost use Rattle.std.specs.Prelude.{◌≡◌};

    type State = u64;

    ghost fits = { λ service state. Unit {0} };

    ghost ways = { record {
      begins = λ old new. new ≡ old;
      stops = λ state. ⊥;
      steps = λ old message moment status body new. status ≡ 200;
    } };

    fn begin(&self, _state: &mut u64) -> bool {
        true
    }

    fn answer(
        &self,
        _rt: &R,
        _alloc: Global,
        state: &mut u64,
        _message: &Message,
        _moment: u64,
    ) -> Answer {
        let count = state.saturating_add(1);
        *state = count;
        Answer {
            status: 200,
            body: Body::Fixed(DIGITS[(count % 10) as usize]),
        }
    }
}

impl<R> Crew<R> for Counter {
    ghost use Rattle.std.specs.Prelude.{◌≡◌};

    type Helper = ();

    ghost suits = { λ service helper. Unit {0} };

    ghost helps = { λ service old new. new ≡ old };

    fn help(&self, _rt: &R, _alloc: Global, _helper: &mut ()) {}

    fn rest(&self, _state: &mut u64) {}
}

const MESSAGE: &str = "POST / HTTP/1.1\r\nContent-Length: 2\r\n\r\nhi";

/// The first reply of a session without its body.
const HEAD: &str =
    "HTTP/1.1 200 OK\r\nContent-Type: application/x-amz-json-1.0\r\nContent-Length: 1\r\n\
    x-amzn-RequestId: 00000000000000000000000000000001\r\n\r\n";

/// A listener of so many connections with a message each, dealt to two shares, of which so many calls fail from one on.
pub fn listener(
    alloc: Global,
    connections: u64,
    first: u64,
    count: u64,
) -> Result<MemListener, NoMemory> {
    let mut contents = Seq::new(alloc);
    for _ in 0..connections {
        contents.push(Bytes::copied(alloc, MESSAGE.as_bytes())?)?;
    }
    let mut failing = Seq::new(alloc);
    for place in 0..count {
        failing.push(first.saturating_add(place))?;
    }
    MemListener::make(alloc, contents, 2, failing)
}

/// Whether each output is a first reply, and their bodies are these digits.
fn are_replies(outputs: &[Bytes], digits: &str) -> bool {
    if outputs.len() != digits.len() {
        return false;
    }
    for (output, digit) in outputs.iter().zip(digits.as_bytes()) {
        match output.as_slice().split_last() {
            Some((last, head)) if last == digit && head == HEAD.as_bytes() => {}
            _ => return false,
        }
    }
    true
}

/// From which call on so many fail, how serving six connections by two workers ends, whose states are 0 and 4 at first, and
/// the bodies of the replies. A share's first two accepts are numbered 0 and 1, as the listener's calls of share are.
static RUNS: [(u64, u64, ServeEnd, &str); 5] = [
    (0, 0, ServeEnd::Done, "123567"),
    (2, 1, ServeEnd::Done, "123567"),
    (2, 15, ServeEnd::Done, "123567"),
    (2, 16, ServeEnd::NetFault, "1256"),
    (1, 1, ServeEnd::NetFault, ""),
];

/// How serving by workers with these states ends, the states afterwards, and whether the replies are these.
fn run<R: Threads + Wait + Sync>(
    rt: &R,
    alloc: Global,
    states: &mut Seq<u64>,
    first: u64,
    count: u64,
    digits: &str,
) -> Result<(ServeEnd, bool), NoMemory> {
    let mut listener = listener(alloc, 6, first, count)?;
    let clock = StepClock::make(0, 1);
    let mut helpers = Seq::new(alloc);
    let end = serve_all(
        rt,
        alloc,
        &Counter,
        states,
        &mut helpers,
        &clock,
        &mut listener,
    );
    Ok((end, are_replies(listener.outputs(), digits)))
}

#[test]
fn many_workers(rt: HostRuntime) -> Result<(), Fail> {
    for (first, count, end, digits) in RUNS {
        let mut states = Seq::new(rt.alloc());
        states.push(0)?;
        states.push(4)?;
        let served = run(&rt, rt.alloc(), &mut states, first, count, digits)?;
        assert!(rt; served == (end, true) && states.len() == 2);
    }
    Ok(())
}

#[test]
fn no_workers(rt: HostRuntime) -> Result<(), Fail> {
    let mut states = Seq::new(rt.alloc());
    let served = run(&rt, rt.alloc(), &mut states, 0, 0, "")?;
    assert!(rt; served == (ServeEnd::Done, true));
    Ok(())
}

/// How the first share of four connections ends, and whether its replies are right.
fn first_share<R: Wait>(rt: &R, alloc: Global) -> Result<(ShareEnd, bool), NoMemory> {
    let mut listener = listener(alloc, 4, 0, 0)?;
    let Ok(mut share) = listener.share() else {
        return Ok((ShareEnd::NetFault, false));
    };
    let mut reader = Reader::make(alloc)?;
    let mut clock = StepClock::make(0, 1);
    let mut state = 0;
    let end = serve_share(
        rt,
        alloc,
        &Counter,
        &mut state,
        &mut reader,
        &mut clock,
        &mut share,
    );
    Ok((end, state == 2 && are_replies(share.outputs(), "12")))
}

#[test]
fn one_share(rt: HostRuntime) -> Result<(), Fail> {
    let served = first_share(&rt, rt.alloc())?;
    assert!(rt; served == (ShareEnd::Done, true));
    Ok(())
}
