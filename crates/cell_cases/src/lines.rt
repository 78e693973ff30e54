//! Histories in short.

use crate::asks::{Ask, message};
use crate::replies::{Reply, answer};
use crate::shop::{MAKE_INDEX, MAKE_ORDERS};
use case_rules::Shop;
use std::alloc::{AllocError as NoMemory, Global};
use txn_core::{Entry, Event};

/// A line of a history. Entries are of pass 1 and at the moment 7 until a line says otherwise.
#[derive(Clone, Copy)]
pub(crate) enum Line {
    /// The table of orders is made, as the table 1.
    Orders,
    /// Their index is made, as the index 2.
    Index,
    /// An entry at a cell.
    At(u32, Ask, Reply),
    /// An entry over all cells.
    Over(Ask, Reply),
    /// The moment of the entries that follow.
    Moment(u64),
    /// The pass of the entries that follow.
    Pass(u32),
}

/// Who asks, and when.
#[derive(Clone, Copy)]
pub(crate) struct Time {
    pub(crate) pass: u32,
    pub(crate) moment: u64,
}

/// The time of a history's first entry.
pub(crate) const START: Time = Time { pass: 1, moment: 7 };

/// What a line says of an entry: its cell, what is asked and what is answered.
type Told = (Option<u32>, Ask, Reply);

/// What a line says of an entry; none, where it is of the entries that follow.
pub(crate) fn told(line: Line, time: &mut Time) -> Option<Told> {
    match line {
        Line::Orders => Some((None, Ask::Command(MAKE_ORDERS), Reply::Changed(1))),
        Line::Index => Some((None, Ask::Command(MAKE_INDEX), Reply::Changed(2))),
        Line::At(cell, ask, reply) => Some((Some(cell), ask, reply)),
        Line::Over(ask, reply) => Some((None, ask, reply)),
        Line::Moment(later) => {
            time.moment = later;
            None
        }
        Line::Pass(other) => {
            time.pass = other;
            None
        }
    }
}

fn entry(alloc: Global, time: Time, told: Told) -> Result<Event<Shop>, NoMemory> {
    let (cell, ask, reply) = told;
    let answer = answer(alloc, time.moment, reply)?;
    let message = message(alloc, cell.unwrap_or(0), ask)?;
    Ok(Entry {
        pass: time.pass,
        cell,
        message,
        answer,
        moment: time.moment,
    })
}

/// The entries of these lines, in order of time.
pub(crate) fn history(alloc: Global, lines: &[Line]) -> Result<Vec<Event<Shop>>, NoMemory> {
    let mut entries = Vec::new(alloc);
    let mut time = START;
    for line in lines {
        if let Some(told) = told(*line, &mut time) {
            entries.push(entry(alloc, time, told)?)?;
        }
    }
    Ok(entries)
}
