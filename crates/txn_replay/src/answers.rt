//! Whether an entry has the answer that the cells give.

ghost use Rattle.std.specs.Prelude.{◌≡◌, ◌≤◌, ℕ, IfOk, OnOk, length};
ghost use Rattle.txn_replay.specs.Standing.{Advances, JudgesAnswer};
ghost use Rattle.txn_replay.specs.Told.{IsToldSo};

use crate::asking::ask;
use crate::cells::CellsOf;
use crate::equality::are_equal_answers;
use crate::pendings::are_same_pendings;
use partition::{CommandRules, PageRules};
use std::alloc::{AllocError as NoMemory, Global};
use txn_core::{Asked, Event, Message, Reply, Rules};

/// Whether a message to which this is an answer may be told that it was answered so: held items may stand in any order.
fn is_told_so<R: Rules>(message: &Asked<R>, given: &Reply<R>, told: &Reply<R>) -> bool
    ensures { (n : ℕ) → IsToldSo (R.protocol n) message.now given.now told.now result }
{
    match message {
        Message::Pendings { cell: _cell } => are_same_pendings::<R>(given, told),
        _ => are_equal_answers::<R>(given, told),
    }
}

/// Whether an entry has the answer that the cells give, which are then as they are after it.
pub(crate) fn is_answered<R: CommandRules + PageRules>(
    alloc: Global,
    cells: &mut CellsOf<R>,
    partitions: u32,
    entry: &Event<R>,
) -> Result<bool, NoMemory>
where
    R::Fault: Copy,
    requires some { 1 ≤ partitions }
    requires count { length cells.old.partitions.items ≡ partitions }
    ensures count { OnOk result (length cells.new.partitions.items ≡ partitions) }
    ensures judges { IfOk result (λ right. JudgesAnswer (R.protocol partitions) R.locals cells.old entry.now right) }
    ensures advances { OnOk result (Advances (R.protocol partitions) R.locals cells.old cells.new entry.now) }
{
    let answer = ask::<R>(alloc, cells, partitions, &entry.message, entry.moment)?;
    match answer {
        Some(given) => Ok(is_told_so::<R>(&entry.message, &given, &entry.answer)),
        None => Ok(false),
    }
}
