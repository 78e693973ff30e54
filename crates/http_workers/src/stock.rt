//! What the workers of a listener take memory for.

ghost use Rattle.std.specs.Prelude.{◌≡◌, ◌≤◌, [], All, IfOk, length, vec_capacity};

use crate::seat::Seat;
use ddb_outside::Clock;
use http_front::Reader;
use std::alloc::{AllocError as NoMemory, Global};

/// All that some workers and helpers take memory for: a reader and a clock for each worker, and room for as many shares and
/// states, for the helpers, and for a seat of each.
#[derive(Drop)]
pub struct Stock<S, C, L, H> {
    pub readers: Vec<Reader>,
    pub clocks: Vec<C>,
    /// Room for shares as they are made.
    pub made: Vec<L>,
    pub seats: Vec<Seat<S, C, L, H>>,
    /// Room for states, shares and helpers as their threads are done with them.
    pub states: Vec<S>,
    pub served: Vec<L>,
    pub helpers: Vec<H>,
}

impl<S: Drop, C: Drop, L: Drop, H: Drop> Stock<S, C, L, H> {
    ghost use Rattle.http_workers.specs.Steps.{IsStock};

    /// The stock of so many workers, whose clocks are twins of a clock, and of so many helpers.
    pub fn make(
        alloc: Global,
        clock: &C,
        workers: usize,
        helpers: usize,
    ) -> Result<Stock<S, C, L, H>, NoMemory>
    where
        C: Clock,
        ensures stock { IfOk result (IsStock workers helpers) }
        ensures clocks { IfOk result (λ made. All (λ c. C.coming c ≡ C.coming clock.now) made.clocks.items) }
    {
        let threads = workers.checked_add(helpers).ok_or(NoMemory)?;
        Ok(Stock {
            readers: readers(alloc, workers)?,
            clocks: twins(alloc, clock, workers)?,
            made: Vec::with_capacity(alloc, workers)?,
            seats: Vec::with_capacity(alloc, threads)?,
            states: Vec::with_capacity(alloc, workers)?,
            served: Vec::with_capacity(alloc, workers)?,
            helpers: Vec::with_capacity(alloc, helpers)?,
        })
    }
}

/// So many readers.
fn readers(alloc: Global, count: usize) -> Result<Vec<Reader>, NoMemory>
    ensures { IfOk result (λ made. length made.items ≡ count) }
{
    let mut made = Vec::with_capacity(alloc, count)?;
    for _ in 0..count {
        made.push(Reader::make(alloc)?)?;
    }
    Ok(made)
}

/// So many twins of a clock.
fn twins<C: Clock + Drop>(alloc: Global, clock: &C, count: usize) -> Result<Vec<C>, NoMemory>
    ensures count { IfOk result (λ made. length made.items ≡ count) }
    ensures twins { IfOk result (λ made. All (λ c. C.coming c ≡ C.coming clock.now) made.items) }
{
    let mut made = Vec::with_capacity(alloc, count)?;
    for _ in 0..count {
        made.push(clock.twin()?)?;
    }
    Ok(made)
}
