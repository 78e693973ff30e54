//! What the cells answer to a message, and what becomes of them.

ghost use Rattle.std.specs.Prelude.{◌≡◌, ◌≤◌, ◌<◌, ◌&&◌, ℕ, true, false, nat_lt, Some, IfOk, OnOk, length};
ghost use Rattle.index_feed.specs.Feed.{served};
ghost use Rattle.txn_core.specs.Answers.{feed_answer};
ghost use Rattle.txn_core.specs.Indexing.{indexed};
ghost use Rattle.txn_core.specs.Legal.{sent_to};
ghost use Rattle.txn_core.specs.Replay.{is_command};
ghost use Rattle.partition.specs.InStep.{StaysInStep};
ghost use Rattle.partition.specs.Steps.{StepAnswers, StepStands, is_served};
ghost use Rattle.control_cell.specs.Holding.{Answers, TakesAllowed, goes_to_control};
ghost use Rattle.txn_replay.specs.Copies.{is_copied, is_of_ledger};
ghost use Rattle.txn_replay.specs.Standing.{Leads, Tells, TellsBeside};
ghost use Rattle.txn_core.specs.declared.message.Message.{Message};

use crate::cells::CellsOf;
use crate::commands::rule;
use crate::copies::{copy_of, copy_of_ledger};
use crate::routes::sent_to;
use control_cell::{ControlCell, others_leave_it};
use partition::{CellRules, CommandRules, PageRules, PartitionOf, is_served, page, step};
use std::alloc::{AllocError as NoMemory, Global};
use txn_core::{Answer, Asked, Message, Reply, Rules};

/// What a partition answers to a message that is copied for it.
fn step_copied<R: PageRules>(
    alloc: Global,
    cell: &mut PartitionOf<R>,
    message: &Asked<R>,
    moment: u64,
) -> Result<Reply<R>, NoMemory>
    requires served { is_served cell.old.partitions message.now ≡ true }
    requires copied { is_copied message.now ≡ true }
    ensures answers { IfOk result (λ a. (n : ℕ) → StepAnswers (R.protocol n) R.locals cell.old message.now moment a) }
    ensures stands { IfOk result (λ a. (n : ℕ) → StepStands (R.protocol n) cell.old cell.new message.now moment a) }
    ensures in_step { (n : ℕ) → StaysInStep (R.protocol n) R.locals cell.old cell.new }
{
    let copy = copy_of::<R>(alloc, message)?;
    step::<R>(alloc, cell, copy, moment)
}

/// What a partition answers to a message that it serves.
fn ask_partition<R: PageRules>(
    alloc: Global,
    cell: &mut PartitionOf<R>,
    message: &Asked<R>,
    moment: u64,
) -> Result<Reply<R>, NoMemory>
    requires served { is_served cell.old.partitions message.now ≡ true }
    ensures answers { IfOk result (λ a. (n : ℕ) → StepAnswers (R.protocol n) R.locals cell.old message.now moment a) }
    ensures stands { IfOk result (λ a. (n : ℕ) → StepStands (R.protocol n) cell.old cell.new message.now moment a) }
    ensures in_step { (n : ℕ) → StaysInStep (R.protocol n) R.locals cell.old cell.new }
{
    match message {
        Message::QueryPage { page: asked } => page::<R>(alloc, cell, asked),
        Message::ScanPage { page: asked } => page::<R>(alloc, cell, asked),
        _ => step_copied::<R>(alloc, cell, message, moment),
    }
}

/// What the control cell answers to a message that is copied for it.
fn step_ledger<R: Rules>(
    alloc: Global,
    cell: &mut ControlCell<R>,
    message: &Asked<R>,
    moment: u64,
) -> Result<Reply<R>, NoMemory>
where
    R::Fault: Copy,
    requires goes { (n : ℕ) → goes_to_control (R.protocol n) message.now ≡ true }
    requires copied { is_of_ledger message.now ≡ true }
    ensures answers { IfOk result (λ a. (n : ℕ) → Answers (R.protocol n) cell.old moment message.now a) }
    ensures takes { IfOk result (λ a. (n : ℕ) → TakesAllowed (R.protocol n) cell.old cell.new moment message.now a) }
{
    let copy = copy_of_ledger::<R>(alloc, message)?;
    cell.step(alloc, copy, moment)
}

/// What the control cell answers to a message that goes to it alone.
fn ask_control<R: Rules>(
    alloc: Global,
    cell: &mut ControlCell<R>,
    message: &Asked<R>,
    moment: u64,
) -> Result<Reply<R>, NoMemory>
where
    R::Fault: Copy,
    requires goes { (n : ℕ) → goes_to_control (R.protocol n) message.now ≡ true }
    ensures answers { IfOk result (λ a. (n : ℕ) → Answers (R.protocol n) cell.old moment message.now a) }
    ensures takes { IfOk result (λ a. (n : ℕ) → TakesAllowed (R.protocol n) cell.old cell.new moment message.now a) }
{
    others_leave_it::<R>();
    match message {
        Message::Ask { question } => cell.ask(alloc, question),
        _ => step_ledger::<R>(alloc, cell, message, moment),
    }
}

/// Whether a message goes to the control cell alone.
fn is_of_control<R: Rules>(message: &Asked<R>) -> bool
    ensures { (n : ℕ) → result ≡ goes_to_control (R.protocol n) message.now }
{
    match message {
        Message::Begin { .. } | Message::Decide { .. } | Message::Done { .. } => true,
        Message::Forget { .. } | Message::FateOf { .. } | Message::Recall { .. } => true,
        Message::Unfinished | Message::Ask { .. } => true,
        _ => false,
    }
}

/// What an ApplyIndex of a change is answered whose source is no partition, so that none of its changes was carried out.
fn fed_by_none<R: Rules>(
    alloc: Global,
    catalog: &R::Catalog,
    sequence: u64,
    index: u64,
    row_key: &R::Key,
) -> Result<Reply<R>, NoMemory>
    ensures { IfOk result (λ a. (n : ℕ) → a ≡ feed_answer (nat_lt 0 sequence
        && served (indexed (R.protocol n).core (R.protocol n).index) catalog.now index ((R.protocol n).index.item_of row_key.now))) }
{
    let is_there = index_changes::is_served::<R>(alloc, catalog, index, row_key)?;
    if 0 < sequence && is_there {
        Ok(Answer::Fed)
    } else {
        Ok(Answer::Already)
    }
}

/// What a message is answered that goes to a partition and that it doesn't serve: an ApplyIndex whose source is none.
fn ask_beside<R: Rules>(
    alloc: Global,
    catalog: &R::Catalog,
    message: &Asked<R>,
) -> Result<Option<Reply<R>>, NoMemory>
    ensures { IfOk result (λ answer. (n : ℕ) → 1 ≤ n → TellsBeside (R.protocol n) catalog.now message.now answer) }
{
    match message {
        Message::ApplyIndex {
            source: _source,
            sequence,
            index,
            row_key,
            after: _after,
        } => {
            let answer = fed_by_none::<R>(alloc, catalog, *sequence, *index, row_key)?;
            Ok(Some(answer))
        }
        _ => Ok(None),
    }
}

/// What the partition of this number answers to a message that goes to it.
fn ask_at<R: PageRules>(
    alloc: Global,
    cells: &mut CellsOf<R>,
    partitions: u32,
    place: u32,
    message: &Asked<R>,
    moment: u64,
) -> Result<Option<Reply<R>>, NoMemory>
    requires some { 1 ≤ partitions }
    requires count { length cells.old.partitions.items ≡ partitions }
    requires within { place < partitions }
    requires sent { sent_to (R.protocol partitions) message.now ≡ Some place }
    requires elsewhere { goes_to_control (R.protocol partitions) message.now ≡ false }
    ensures count { OnOk result (length cells.new.partitions.items ≡ partitions) }
    ensures tells { IfOk result (λ answer. Tells (R.protocol partitions) R.locals cells.old message.now moment answer) }
    ensures leads { IfOk result (λ answer. Leads (R.protocol partitions) R.locals cells.old cells.new message.now moment answer) }
{
    others_leave_it::<R>();
    let cell = &mut cells.partitions[place as usize];
    if !is_served::<R>(cell, message) {
        return ask_beside::<R>(alloc, &cells.catalog, message);
    }
    let answer = ask_partition::<R>(alloc, cell, message, moment)?;
    Ok(Some(answer))
}

/// What the control cell answers to a message that goes to it alone.
fn ask_ledger<R: CellRules>(
    alloc: Global,
    cells: &mut CellsOf<R>,
    message: &Asked<R>,
    moment: u64,
) -> Result<Option<Reply<R>>, NoMemory>
where
    R::Fault: Copy,
    requires { (n : ℕ) → goes_to_control (R.protocol n) message.now ≡ true }
    ensures count { length cells.new.partitions.items ≡ length cells.old.partitions.items }
    ensures tells { IfOk result (λ answer. (n : ℕ) → Tells (R.protocol n) R.locals cells.old message.now moment answer) }
    ensures leads { IfOk result (λ answer. (n : ℕ) → Leads (R.protocol n) R.locals cells.old cells.new message.now moment answer) }
{
    let answer = ask_control::<R>(alloc, &mut cells.control, message, moment)?;
    Ok(Some(answer))
}

/// What one cell answers to a message that goes to it alone; none, where it goes to a cell that is not there.
fn ask_one<R: PageRules>(
    alloc: Global,
    cells: &mut CellsOf<R>,
    partitions: u32,
    message: &Asked<R>,
    moment: u64,
) -> Result<Option<Reply<R>>, NoMemory>
where
    R::Fault: Copy,
    requires some { 1 ≤ partitions }
    requires count { length cells.old.partitions.items ≡ partitions }
    requires one { is_command message.now ≡ false }
    ensures count { OnOk result (length cells.new.partitions.items ≡ partitions) }
    ensures tells { IfOk result (λ answer. Tells (R.protocol partitions) R.locals cells.old message.now moment answer) }
    ensures leads { IfOk result (λ answer. Leads (R.protocol partitions) R.locals cells.old cells.new message.now moment answer) }
{
    if is_of_control::<R>(message) {
        return ask_ledger::<R>(alloc, cells, message, moment);
    }
    let Some(place) = sent_to::<R>(partitions, message) else {
        return Ok(None);
    };
    if place >= partitions {
        return Ok(None);
    }
    ask_at::<R>(alloc, cells, partitions, place, message, moment)
}

/// What all cells answer to a command.
fn ask_all<R: CommandRules>(
    alloc: Global,
    cells: &mut CellsOf<R>,
    partitions: u32,
    command: &R::Command,
    moment: u64,
) -> Result<Option<Reply<R>>, NoMemory>
    requires some { 1 ≤ partitions }
    requires count { length cells.old.partitions.items ≡ partitions }
    ensures count { OnOk result (length cells.new.partitions.items ≡ partitions) }
    ensures tells { IfOk result (λ answer. Tells (R.protocol partitions) R.locals cells.old (Message.Command command.now) moment answer) }
    ensures leads { IfOk result (λ answer. Leads (R.protocol partitions) R.locals cells.old cells.new (Message.Command command.now) moment answer) }
{
    let answer = rule::<R>(alloc, cells, partitions, command, moment)?;
    Ok(Some(answer))
}

/// What the cells answer to a message, and each as it is afterwards; none, where it goes to a cell that is not there, so that
/// nothing is an answer.
pub(crate) fn ask<R: CommandRules + PageRules>(
    alloc: Global,
    cells: &mut CellsOf<R>,
    partitions: u32,
    message: &Asked<R>,
    moment: u64,
) -> Result<Option<Reply<R>>, NoMemory>
where
    R::Fault: Copy,
    requires some { 1 ≤ partitions }
    requires count { length cells.old.partitions.items ≡ partitions }
    ensures count { OnOk result (length cells.new.partitions.items ≡ partitions) }
    ensures tells { IfOk result (λ answer. Tells (R.protocol partitions) R.locals cells.old message.now moment answer) }
    ensures leads { IfOk result (λ answer. Leads (R.protocol partitions) R.locals cells.old cells.new message.now moment answer) }
{
    match message {
        Message::Command { command } => ask_all::<R>(alloc, cells, partitions, command, moment),
        _ => ask_one::<R>(alloc, cells, partitions, message, moment),
    }
}
