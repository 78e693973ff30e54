//! Helpers beside workers: they count the messages that sessions tell them of by a channel.

use crate::workers::listener;
use base_types::Seq;
use crossbeam_channel::{Receiver, Sender, unbounded};
use ddb_outside::StepClock;
use http_front::Message;
use http_session::{Answer, Body, Service};
use http_workers::{Crew, ServeEnd, serve_all};
use std::alloc::{AllocError as NoMemory, Global};
use std::marker::Model;
use std::sync::Wait;
use std::test::Fail;
use std::thread::Threads;

/// Answers all messages alike, and tells a helper of each.
struct Telling;

/// Where a session tells of its messages, until it is at rest.
#[derive(Drop)]
struct Desk {
    told: Option<Sender<(), Global>>,
}

impl Model for Desk {
    ghost use Rattle.std.specs.Prelude.{⊤};

    ghost Value = { ⊤ };

    ghost view = { λ desk. tt };
}

/// Counts what it is told, until nobody is left who could tell it anything.
#[derive(Drop)]
struct Tally {
    messages: Receiver<(), Global>,
    count: u64,
    ended: bool,
}

impl<R: Wait> Service<R> for Telling {
    ghost use Rattle.std.specs.Prelude.{◌≡◌};

    type State = Desk;

    ghost fits = { λ service desk. Unit {0} };

    ghost ways = { record {
      begins = λ old new. Unit {0};
      stops = λ desk. ⊥;
      steps = λ old message moment status body new. status ≡ 200;
    } };

    fn begin(&self, _desk: &mut Desk) -> bool {
        true
    }

    fn answer(
        &self,
        rt: &R,
        _alloc: Global,
        desk: &mut Desk,
        _message: &Message,
        _moment: u64,
    ) -> Answer {
        if let Some(told) = &desk.told {
            let _ = told.send(rt, ());
        }
        Answer {
            status: 200,
            body: Body::Fixed("1"),
        }
    }
}

impl<R: Wait> Crew<R> for Telling {
    type Helper = Tally;

    ghost suits = { λ service tally. Unit {0} };

    ghost helps = { λ service old new. Unit {0} };

    fn help(&self, rt: &R, _alloc: Global, tally: &mut Tally) {
        for _ in rt.forever() {
            if tally.messages.recv(rt).is_err() {
                break;
            }
            tally.count = tally.count.saturating_add(1);
        }
        tally.ended = true;
    }

    fn rest(&self, desk: &mut Desk) {
        desk.told = None;
    }
}

/// How serving six connections by two workers ends, beside so many helpers and with so many calls that fail from one on; how
/// many messages the helpers were told of; and how many of the helpers have ended.
fn run<R: Threads + Wait + Sync>(
    rt: &R,
    alloc: Global,
    helpers: u64,
    first: u64,
    count: u64,
) -> Result<(ServeEnd, u64, u64), NoMemory> {
    let mut listener = listener(alloc, 6, first, count)?;
    let (told, messages) = unbounded(alloc)?;
    let mut tallies = Seq::new(alloc);
    for _ in 0..helpers {
        tallies.push(Tally {
            messages: messages.clone()?,
            count: 0,
            ended: false,
        })?;
    }
    let mut desks = Seq::new(alloc);
    desks.push(Desk {
        told: Some(told.clone()?),
    })?;
    desks.push(Desk { told: Some(told) })?;
    let clock = StepClock::make(0, 1);
    let end = serve_all(
        rt,
        alloc,
        &Telling,
        &mut desks,
        &mut tallies,
        &clock,
        &mut listener,
    );
    let mut told_of = 0u64;
    let mut ended = 0u64;
    for tally in tallies.as_slice() {
        told_of = told_of.saturating_add(tally.count);
        ended = ended.saturating_add(u64::from(tally.ended));
    }
    Ok((end, told_of, ended))
}

/// Helpers, the first call that fails and how many fail; how serving ends, the messages that helpers were told of, and the
/// helpers that ended. Where a share is refused no helper is called.
static RUNS: [(u64, u64, u64, ServeEnd, u64, u64); 5] = [
    (1, 0, 0, ServeEnd::Done, 6, 1),
    (2, 0, 0, ServeEnd::Done, 6, 2),
    (0, 0, 0, ServeEnd::Done, 0, 0),
    (1, 2, 16, ServeEnd::NetFault, 4, 1),
    (1, 1, 1, ServeEnd::NetFault, 0, 0),
];

#[test]
fn helpers_end_when_workers_rest(rt: HostRuntime) -> Result<(), Fail> {
    for (helpers, first, count, end, told_of, ended) in RUNS {
        let served = run(&rt, rt.alloc(), helpers, first, count)?;
        assert!(rt; served == (end, told_of, ended));
    }
    Ok(())
}
