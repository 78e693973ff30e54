//! A walk over one partition and the control cell, replayed.

use crate::asks::Ask;
use crate::known::Walker;
use crate::lines::Time;
use crate::record::Record;
use crate::seen::{ALL, seen_in};
use crate::shop::{MAKE_INDEX, MAKE_ORDERS};
use case_rules::Shop;
use std::alloc::{AllocError as NoMemory, Global};
use std::test::*;
use txn_replay::replay_check;

/// How many messages the walk is of, and how many of them each of the two cells is asked at least.
const TURNS: u64 = 1500;

const LEAST: usize = 500;

/// What is asked at a turn: at first the table of orders, and then, until it is made, its index.
fn asked_at(turn: u64, walker: &mut Walker) -> Ask {
    if turn == 0 {
        Ask::Command(MAKE_ORDERS)
    } else if 30 <= turn && turn <= 80 && turn % 10 == 0 {
        Ask::Command(MAKE_INDEX)
    } else {
        walker.choose()
    }
}

/// The clock of the second pass goes at half the speed of that of the first.
fn time_of(pass: u32, moment: u64) -> Time {
    match pass {
        0 => Time { pass, moment },
        _ => Time {
            pass,
            moment: moment / 2,
        },
    }
}

/// Where a message goes: to the partition, to the control cell behind it, or to both.
fn cell_of(ask: Ask) -> Option<u32> {
    match ask {
        Ask::Command(_) => None,
        Ask::BeginTwo(..) | Ask::Commit(_) | Ask::CancelTwo(..) | Ask::Done(_) => Some(1),
        Ask::Forget(_) | Ask::Fate(_) | Ask::Recall(_) => Some(1),
        Ask::Unfinished | Ask::Number(_) => Some(1),
        _ => Some(0),
    }
}

/// Asks once, and has the walker note what is answered.
fn go(
    alloc: Global,
    record: &mut Record,
    walker: &mut Walker,
    time: Time,
    ask: Ask,
) -> Result<(), NoMemory> {
    if record.ask(alloc, time, cell_of(ask), ask)? {
        if let Some(entry) = record.entries().last() {
            walker.note(ask, &entry.answer)?;
        }
    }
    Ok(())
}

/// Asks so often.
fn walked(alloc: Global, seed: u64) -> Result<Record, NoMemory> {
    let mut record = Record::new(alloc, 1)?;
    let mut walker = Walker::new(alloc, seed);
    let mut moment: u64 = 0;
    for turn in 0..TURNS {
        moment = moment.saturating_add(walker.pause());
        let ask = asked_at(turn, &mut walker);
        let time = time_of(walker.pass(), moment);
        go(alloc, &mut record, &mut walker, time, ask)?;
    }
    Ok(record)
}

#[test]
fn walks_are_legal(rt: HostRuntime) -> Result<(), Fail> {
    let alloc = rt.alloc();
    let record = walked(alloc, 1)?;
    assert!(rt; replay_check::<Shop>(alloc, 1, record.entries()) == Ok(()));
    let seen = seen_in(record.entries());
    assert!(rt; seen.to_partition >= LEAST && seen.to_control >= LEAST);
    assert!(rt; seen.marks == ALL);
    Ok(())
}
