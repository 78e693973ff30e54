//! The first entry at which a list stops being a legal history.

ghost use Rattle.std.specs.Prelude.{◌≡◌, ◌≤◌, ◌<◌, IfOk, IfSome, OnOk, length};
ghost use Rattle.txn_replay.specs.Ends.{ends_at, EndsRight, IsFirstWrong, MayBeSent};
ghost use Rattle.txn_replay.specs.Standing.{AdvancesOn, JudgesEntry};

use crate::answers::is_answered;
use crate::cells::{CellsOf, first_cells};
use crate::routes::{is_at, sent_to};
use crate::timely::is_timely;
use partition::{CommandRules, PageRules};
use std::alloc::{AllocError as NoMemory, Global};
use txn_core::{Break, BreakKind, Event, sending_check};

/// Why a replay did not come to the end of its list.
#[derive(Clone, Copy, PartialEq, Eq, Debug, Drop)]
pub enum ReplayEnd {
    /// The list stops being legal here.
    Break(Break),
    /// The allocator refused memory.
    NoMemory,
}

/// Whether the answer of the entry, its cell and its moment are right, after these entries. Where it is, the cells are then as they
/// are after it.
fn is_right<R: CommandRules + PageRules>(
    alloc: Global,
    cells: &mut CellsOf<R>,
    partitions: u32,
    past: &[Event<R>],
    entry: &Event<R>,
) -> Result<bool, NoMemory>
where
    R::Fault: Copy,
    requires some { 1 ≤ partitions }
    requires count { length cells.old.partitions.items ≡ partitions }
    ensures count { OnOk result (length cells.new.partitions.items ≡ partitions) }
    ensures judges { IfOk result (λ right. JudgesEntry (R.protocol partitions) R.locals cells.old past.now entry.now right) }
    ensures advances { OnOk result (AdvancesOn (R.protocol partitions) R.locals cells.old cells.new past.now entry.now) }
{
    if !is_timely::<R>(past, entry.pass, entry.moment) {
        return Ok(false);
    }
    if !is_at(entry.cell, sent_to::<R>(partitions, &entry.message)) {
        return Ok(false);
    }
    is_answered::<R>(alloc, cells, partitions, entry)
}

/// The first place at which an answer, a cell or a moment is wrong. Of these entries each but the last may be sent.
fn first_wrong<R: CommandRules + PageRules>(
    alloc: Global,
    partitions: u32,
    entries: &[Event<R>],
) -> Result<Option<usize>, NoMemory>
where
    R::Fault: Copy,
    requires some { 1 ≤ partitions }
    requires sent { MayBeSent (R.protocol partitions) entries.now }
    ensures { IfOk result (λ found. IsFirstWrong (R.protocol partitions) entries.now found) }
{
    let mut cells = first_cells::<R>(alloc, partitions)?;
    for (place, entry) in entries.iter().enumerate() {
        if !is_right::<R>(alloc, &mut cells, partitions, &entries[..place], entry)? {
            return Ok(Some(place));
        }
    }
    Ok(None)
}

/// The number of entries up to this break, and all of them where there is none.
fn up_to(sent: Option<Break>, many: usize) -> usize
    requires { IfSome sent (λ found. found.place < many) }
    ensures { result ≡ ends_at many sent }
{
    match sent {
        Some(found) => found.place + 1,
        None => many,
    }
}

/// Replays the entries, in order of time: Ok where they are a legal history for so many partitions, else the first place at which
/// they are not, with the first rule that its entry breaks. The rule of answers is asked first, then those of what may be sent.
///
/// A checker for tests and tools. It asks fresh cells what each entry asks, one after the other, and keeps what they keep: as many
/// partitions as there are, each with a mark for each of them, and the control cell. It takes at most the square of the size of the
/// list in steps, counting the items that its answers list, those that its commands bring and the changes that its writes queue for
/// indexes, and for each command a look at each partition; the actions of a transaction, 100 at most, count as one step. `NoMemory`
/// comes where the allocator refuses, or where a cell has no number left.
pub fn replay_check<R: CommandRules + PageRules>(
    alloc: Global,
    partitions: u32,
    entries: &[Event<R>],
) -> Result<(), ReplayEnd>
where
    R::Fault: Copy,
    requires { 1 ≤ partitions }
    ensures { EndsRight (R.protocol partitions) entries.now result }
{
    let sent = sending_check::<R>(partitions, entries);
    let end = up_to(sent, entries.len());
    match first_wrong::<R>(alloc, partitions, &entries[..end]) {
        Ok(Some(place)) => Err(ReplayEnd::Break(Break {
            place,
            kind: BreakKind::WrongAnswer,
        })),
        Ok(None) => match sent {
            Some(found) => Err(ReplayEnd::Break(found)),
            None => Ok(()),
        },
        Err(_) => Err(ReplayEnd::NoMemory),
    }
}
