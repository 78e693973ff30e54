//! Items that forgotten transactions hold are let go.

ghost use Rattle.std.specs.Prelude.{◌≡◌, ◌≢◌, ℕ, true, [], ◌∷◌, reverse, Err, IfErr, OnOk};
ghost use Rattle.std.specs.BTreeSet.{contains};
ghost use Rattle.std.specs.Ordering.{nat_cmp};
ghost use Rattle.txn_core.specs.History.{Had, forgets};
ghost use Rattle.cluster.specs.Steps.{IsAtRest, partitions_of};
ghost use Rattle.cluster.specs.declared.step.StepError.{StepError};
ghost use Rattle.cluster.specs.Counts.{CountsUntil};
ghost use Rattle.recovery_manager.specs.Parts.{Releases, ReleasesGone, ReleasesPartly};

use cluster::{Caller, StepError, TableWorld};
use partition::PageRules;
use std::collections::BTreeSet;
use std::sync::Wait;
use turnstile::Pass;
use txn_core::{HeldItem, Message};

/// Lets an item go that a forgotten transaction may hold. The error is [`StepError::Spent`]: it takes no memory.
fn release<R: PageRules, T: Wait>(
    caller: &Caller<'_, R, T>,
    pass: &mut Pass<TableWorld<R>>,
    cell: u32,
    number: u64,
    key: R::Key,
) -> Result<(), StepError>
where
    R::Fault: Copy,
    requires rests { IsAtRest caller.now pass.old }
    requires cell { (R.protocol (partitions_of caller.now)).core.cell_of key ≡ cell }
    requires forgotten { Had (forgets number) (reverse pass.old.front) }
    ensures ok { OnOk result (Releases (R.protocol (partitions_of caller.now)) number key pass.old pass.new) }
    ensures err { IfErr result (λ why. CountsUntil (R.protocol (partitions_of caller.now)) pass.old [] why pass.new) }
    ensures sure { result ≢ Err StepError.NoMemory }
{
    let answer = caller.ask(pass, cell, Message::Release { number, key })?;
    drop(answer);
    Ok(())
}

/// Lets an item go where its transaction is gone. It takes no memory.
fn release_gone<R: PageRules, T: Wait>(
    caller: &Caller<'_, R, T>,
    pass: &mut Pass<TableWorld<R>>,
    item: HeldItem<R::Key>,
    gone: &BTreeSet<u64>,
) -> Result<(), StepError>
where
    R::Fault: Copy,
    requires rests { IsAtRest caller.now pass.old }
    requires forgotten { contains nat_cmp gone.now item.number ≡ true → Had (forgets item.number) (reverse pass.old.front) }
    ensures ok { OnOk result (ReleasesGone (R.protocol (partitions_of caller.now)) (contains nat_cmp gone.now) (item ∷ []) pass.old pass.new) }
    ensures err { IfErr result (λ why. CountsUntil (R.protocol (partitions_of caller.now)) pass.old [] why pass.new) }
    ensures sure { result ≢ Err StepError.NoMemory }
{
    let HeldItem { key, number } = item;
    if !gone.contains(&number) {
        return Ok(());
    }
    let cell = caller.cell_of(&key);
    release(caller, pass, cell, number, key)
}

/// Lets each of these items go whose transaction is gone, the last one first. It takes no memory.
pub(crate) fn release_all<R: PageRules, T: Wait>(
    caller: &Caller<'_, R, T>,
    pass: &mut Pass<TableWorld<R>>,
    mut items: Vec<HeldItem<R::Key>>,
    gone: &BTreeSet<u64>,
) -> Result<(), StepError>
where
    R::Fault: Copy,
    requires rests { IsAtRest caller.now pass.old }
    requires forgotten { (n : ℕ) → contains nat_cmp gone.now n ≡ true → Had (forgets n) (reverse pass.old.front) }
    ensures ok { OnOk result (ReleasesGone (R.protocol (partitions_of caller.now)) (contains nat_cmp gone.now) items.items pass.old pass.new) }
    ensures err { IfErr result (λ why. ReleasesPartly (R.protocol (partitions_of caller.now)) items.items pass.old why pass.new) }
    ensures sure { result ≢ Err StepError.NoMemory }
{
    while let Some(item) = items.pop() {
        release_gone(caller, pass, item, gone)?;
    }
    Ok(())
}
