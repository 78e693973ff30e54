//! What the cells list of transactions that are not ended.

ghost use Rattle.std.specs.Prelude.{◌<◌, [], IfOk, IfErr};
ghost use Rattle.cluster.specs.Steps.{IsAtRest, partitions_of};
ghost use Rattle.cluster.specs.Counts.{CountsUntil};
ghost use Rattle.recovery_manager.specs.Lists.{AreTheNumbers, ListsHeld, ListsItems, ListsNumbers, ListsPartly, numbers_in};

use base_types::Seq;
use cluster::{Caller, StepError, TableWorld};
use partition::PageRules;
use std::alloc::AllocError as NoMemory;
use std::sync::Wait;
use turnstile::Pass;
use txn_core::{Answer, HeldItem, Message};

/// Asks a partition for the items that transactions hold there.
fn held_in<R: PageRules, T: Wait>(
    caller: &Caller<'_, R, T>,
    pass: &mut Pass<TableWorld<R>>,
    cell: u32,
) -> Result<Seq<HeldItem<R::Key>>, StepError>
where
    R::Fault: Copy,
    requires rests { IsAtRest caller.now pass.old }
    requires cell { cell < partitions_of caller.now }
    ensures ok { IfOk result (λ items. ListsItems (R.protocol (partitions_of caller.now)) cell pass.old items pass.new) }
    ensures err { IfErr result (λ why. CountsUntil (R.protocol (partitions_of caller.now)) pass.old [] why pass.new) }
{
    let answer = caller.ask(pass, cell, Message::Pendings { cell })?;
    match answer {
        Answer::PendingList { pendings } => Ok(pendings),
        _ => unreachable!(),
    }
}

/// Asks each partition in order for the items that transactions hold there.
pub(crate) fn all_held<R: PageRules, T: Wait>(
    caller: &Caller<'_, R, T>,
    pass: &mut Pass<TableWorld<R>>,
) -> Result<Vec<HeldItem<R::Key>>, StepError>
where
    R::Fault: Copy,
    requires rests { IsAtRest caller.now pass.old }
    ensures ok { IfOk result (λ items.
        ListsHeld (R.protocol (partitions_of caller.now)) (partitions_of caller.now) pass.old items.items pass.new) }
    ensures err { IfErr result (λ why.
        ListsPartly (R.protocol (partitions_of caller.now)) (partitions_of caller.now) pass.old why pass.new) }
{
    let mut held = Vec::new(caller.alloc());
    for cell in 0..caller.partitions() {
        let items = held_in(caller, pass, cell)?;
        held.append(&mut Vec::from(items))?;
    }
    Ok(held)
}

/// Asks the control cell for the numbers that are begun and not done.
pub(crate) fn unfinished_numbers<R: PageRules, T: Wait>(
    caller: &Caller<'_, R, T>,
    pass: &mut Pass<TableWorld<R>>,
) -> Result<Seq<u64>, StepError>
where
    R::Fault: Copy,
    requires rests { IsAtRest caller.now pass.old }
    ensures ok { IfOk result (λ numbers. ListsNumbers (R.protocol (partitions_of caller.now)) pass.old numbers pass.new) }
    ensures err { IfErr result (λ why. CountsUntil (R.protocol (partitions_of caller.now)) pass.old [] why pass.new) }
{
    let answer = caller.ask_ledger(pass, Message::Unfinished)?;
    match answer {
        Answer::Numbers { numbers } => Ok(numbers),
        _ => unreachable!(),
    }
}

/// Puts numbers in order, each once.
fn put_in_order(numbers: &mut Vec<u64>)
    ensures { AreTheNumbers numbers.old.items numbers.new.items }
{
    numbers.sort_unstable();
    numbers.dedup();
}

/// The numbers that are listed, each once, ascending.
pub(crate) fn listed_numbers<K>(
    unfinished: Seq<u64>,
    items: &[HeldItem<K>],
) -> Result<Vec<u64>, NoMemory>
    ensures { IfOk result (λ numbers. AreTheNumbers (numbers_in unfinished items.now) numbers.items) }
{
    let mut numbers = Vec::from(unfinished);
    for item in items {
        numbers.push(item.number)?;
    }
    put_in_order(&mut numbers);
    Ok(numbers)
}
