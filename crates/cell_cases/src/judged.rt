//! Histories, replayed.

use crate::lines::{Line, START, history, told};
use crate::record::Record;
use case_rules::Shop;
use std::alloc::{AllocError as NoMemory, Global};
use std::process::Abort;
use std::test::Fail;
use txn_core::{Break, BreakKind, sending_check};
use txn_replay::{ReplayEnd, replay_check};

/// How many partitions the histories are over.
const PARTITIONS: u32 = 16;

/// Where a history stops being legal, and the rule that is broken there; none, where it is legal.
pub(crate) type Stop = Option<(usize, BreakKind)>;

/// A history, with its stop.
pub(crate) type Case = (&'static [Line], Stop);

/// Whether a history is replayed to its end or its stop. Who goes by what may be sent alone finds the same, but where an answer
/// is wrong.
fn is_replayed(alloc: Global, lines: &[Line], stop: Stop) -> Result<bool, NoMemory> {
    let entries = history(alloc, lines)?;
    let found = stop.map(|(place, kind)| Break { place, kind });
    let end = match found {
        Some(found) => Err(ReplayEnd::Break(found)),
        None => Ok(()),
    };
    let is_sent = matches!(stop, Some((_, BreakKind::WrongAnswer)))
        || sending_check::<Shop>(PARTITIONS, &entries) == found;
    Ok(is_sent && replay_check::<Shop>(alloc, PARTITIONS, &entries) == end)
}

/// Whether the cells, where they are asked the same, answer legally too.
fn is_played(alloc: Global, lines: &[Line]) -> Result<bool, NoMemory> {
    let mut record = Record::new(alloc, PARTITIONS)?;
    let mut time = START;
    for line in lines {
        if let Some((cell, ask, _)) = told(*line, &mut time) {
            record.ask(alloc, time, cell, ask)?;
        }
    }
    Ok(replay_check::<Shop>(alloc, PARTITIONS, record.entries()) == Ok(()))
}

pub(crate) fn judge<R: AllocGlobal + Abort>(rt: &R, cases: &[Case]) -> Result<(), Fail> {
    for (lines, stop) in cases {
        assert!(rt; is_replayed(rt.alloc(), lines, *stop)?);
        assert!(rt; stop.is_some() || is_played(rt.alloc(), lines)?);
    }
    Ok(())
}
