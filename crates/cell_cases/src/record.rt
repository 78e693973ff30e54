//! What cells were asked and have answered.

ghost use Rattle.std.specs.Prelude.{◌≤◌};

use crate::asks::{Ask, message};
use crate::cells::Cells;
use crate::lines::Time;
use case_rules::Shop;
use std::alloc::{AllocError as NoMemory, Global};
use txn_core::{Entry, Event, Reply};

/// Cells, and the entries of what they were asked since nothing had happened, in order of time.
#[derive(Drop)]
pub(crate) struct Record {
    cells: Cells,
    entries: Vec<Event<Shop>>,
}

impl Record {
    pub(crate) fn new(alloc: Global, partitions: u32) -> Result<Record, NoMemory>
        requires { 1 ≤ partitions }
    {
        Ok(Record {
            cells: Cells::new(alloc, partitions)?,
            entries: Vec::new(alloc),
        })
    }

    /// Asks a cell, or all of them, and takes it down. Whether it was answered.
    pub(crate) fn ask(
        &mut self,
        alloc: Global,
        time: Time,
        cell: Option<u32>,
        ask: Ask,
    ) -> Result<bool, NoMemory> {
        match self.cells.answer(alloc, time.moment, cell, ask)? {
            Some(reply) => self.take_down(alloc, time, cell, ask, reply),
            None => Ok(false),
        }
    }

    fn take_down(
        &mut self,
        alloc: Global,
        time: Time,
        cell: Option<u32>,
        ask: Ask,
        reply: Reply<Shop>,
    ) -> Result<bool, NoMemory> {
        let message = message(alloc, cell.unwrap_or(0), ask)?;
        self.entries.push(Entry {
            pass: time.pass,
            cell,
            message,
            answer: reply,
            moment: time.moment,
        })?;
        Ok(true)
    }

    /// What was taken down.
    pub(crate) fn entries(&self) -> &[Event<Shop>] {
        self.entries.as_slice()
    }
}
