//! One message of those that a cell answers by itself.

ghost use Rattle.std.specs.Prelude.{◌≡◌, ℕ, true, IfOk, OnErr};
ghost use Rattle.txn_core.specs.Memory.{takes_no_memory};
ghost use Rattle.partition.specs.InStep.{StaysInStep};
ghost use Rattle.partition.specs.Steps.{StepAnswers, StepKeeps, StepStands, is_served};

use crate::cell::PartitionOf;
use crate::ends::{apply, release};
use crate::expiry::{expire, expired_keys};
use crate::feeds::{acknowledge, apply_index, peek_out};
use crate::held_items::pendings;
use crate::page_rules::PageRules;
use crate::pages::page;
use crate::prepares::prepare;
use crate::reads::{get, read_version};
use crate::writes::write;
use index_changes::CellRules;
use std::alloc::{AllocError as NoMemory, Global};
use txn_core::{Asked, Message, Reply};

/// Whether [`step`] serves a message: it goes to one partition, and the cell that it names, if any, is there.
pub fn is_served<R: CellRules>(cell: &PartitionOf<R>, message: &Asked<R>) -> bool
    ensures { result ≡ is_served cell.now.partitions message.now }
{
    match message {
        Message::Get { .. } | Message::ReadVersion { .. } => true,
        Message::Write { .. } | Message::Expire { .. } | Message::Prepare { .. } => true,
        Message::Apply { .. } | Message::Release { .. } => true,
        Message::QueryPage { .. } | Message::ScanPage { .. } => true,
        Message::ExpiredKeys { cell: listed, .. } => *listed < cell.partitions,
        Message::Pendings { cell: held } => *held < cell.partitions,
        Message::PeekOut { source } => *source < cell.partitions,
        Message::ApplyIndex { source, .. } => *source < cell.partitions,
        Message::Ack { source, .. } => *source < cell.partitions,
        _ => false,
    }
}

/// Answers a message that goes to this partition alone. Of every list of entries for which the cell stands, with its local
/// entries in step, the answer is the one that legal histories have; and the cell stands for the list with the message's entry.
pub fn step<R: PageRules>(
    alloc: Global,
    cell: &mut PartitionOf<R>,
    message: Asked<R>,
    moment: u64,
) -> Result<Reply<R>, NoMemory>
    requires { is_served cell.old.partitions message ≡ true }
    ensures answers { IfOk result (λ a. (n : ℕ) → StepAnswers (R.protocol n) R.locals cell.old message moment a) }
    ensures stands { IfOk result (λ a. (n : ℕ) → StepStands (R.protocol n) cell.old cell.new message moment a) }
    ensures err { OnErr result ((n : ℕ) → StepKeeps (R.protocol n) cell.old cell.new message) }
    ensures in_step { (n : ℕ) → StaysInStep (R.protocol n) R.locals cell.old cell.new }
    ensures sure { takes_no_memory message ≡ true → OnErr result ⊥ }
{
    match message {
        Message::Get { key } => get::<R>(alloc, cell, &key),
        Message::Write { action } => write::<R>(alloc, cell, action, moment),
        Message::Expire { action } => expire::<R>(alloc, cell, action, moment),
        Message::Prepare {
            number,
            stamp,
            action,
        } => prepare::<R>(alloc, cell, number, stamp, action),
        Message::Apply { number, key } => Ok(apply::<R>(cell, number, &key)),
        Message::Release { number, key } => Ok(release::<R>(cell, number, &key)),
        Message::ReadVersion { key } => read_version::<R>(alloc, cell, &key),
        Message::QueryPage { page: asked } => page::<R>(alloc, cell, &asked),
        Message::ScanPage { page: asked } => page::<R>(alloc, cell, &asked),
        Message::ExpiredKeys { limit, .. } => expired_keys::<R>(alloc, cell, limit, moment),
        Message::Pendings { .. } => pendings::<R>(alloc, cell),
        Message::PeekOut { .. } => peek_out::<R>(alloc, cell),
        Message::ApplyIndex {
            source,
            sequence,
            index,
            row_key,
            after,
        } => apply_index::<R>(alloc, cell, source, sequence, index, row_key, after),
        Message::Ack { sequence, .. } => Ok(acknowledge::<R>(cell, sequence)),
        _ => unreachable!(),
    }
}
