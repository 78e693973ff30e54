//! Transactions are driven to their ends, one after another.

ghost use Rattle.std.specs.Prelude.{◌≡◌, ◌≢◌, ◌||◌, ◌&&◌, ℕ, nat_eq, reverse, Err, IfErr, IfOk, OnOk};
ghost use Rattle.std.specs.BTreeSet.{contains};
ghost use Rattle.std.specs.Ordering.{nat_cmp};
ghost use Rattle.ddb_outside.specs.Causes.{Rose};
ghost use Rattle.cluster.specs.Steps.{IsAtRest, partitions_of};
ghost use Rattle.recovery_manager.specs.declared.sweep_end.SweepEnd.{SweepEnd};
ghost use Rattle.recovery_manager.specs.Lists.{AllBegun};
ghost use Rattle.recovery_manager.specs.Parts.{DrivesAll, DrivesPartly};

use crate::sweep_end::{SweepEnd, found_gone};
use cluster::{Caller, TableWorld};
use coordinator::{Gate, drive};
use partition::PageRules;
use std::alloc::AllocError as NoMemory;
use std::collections::BTreeSet;
use std::sync::Wait;
use turnstile::Pass;

/// Takes down a number whose transaction is gone.
fn note(gone: &mut BTreeSet<u64>, number: u64, is_gone: bool) -> Result<(), NoMemory>
    ensures { OnOk result ((n : ℕ)
        → contains nat_cmp gone.new n ≡ (contains nat_cmp gone.old n || (is_gone && nat_eq number n))) }
{
    if is_gone {
        gone.insert(number)?;
    }
    Ok(())
}

/// Drives each of these transactions to its end, and tells which of them are gone.
pub(crate) fn drive_all<R: PageRules, G: Gate, T: Wait>(
    caller: &Caller<'_, R, T>,
    pass: &mut Pass<TableWorld<R>>,
    numbers: &[u64],
    gate: &mut G,
) -> Result<BTreeSet<u64>, SweepEnd>
where
    R::Fault: Copy,
    requires rests { IsAtRest caller.now pass.old }
    requires begun { AllBegun (R.protocol (partitions_of caller.now)) (reverse pass.old.front) numbers.now }
    ensures ok { IfOk result (λ gone.
        DrivesAll (R.protocol (partitions_of caller.now)) (contains nat_cmp gone) numbers.now pass.old pass.new) }
    ensures err { IfErr result (λ why. DrivesPartly (R.protocol (partitions_of caller.now)) numbers.now pass.old why pass.new) }
    ensures stopped { result ≡ Err SweepEnd.Stopped → Rose (G.stops gate.old) (G.stops gate.new) }
    ensures obeyed { result ≢ Err SweepEnd.Stopped → G.stops gate.new ≡ G.stops gate.old }
{
    let mut gone = BTreeSet::new(caller.alloc());
    for number in numbers {
        let end = drive(caller, pass, *number, gate);
        caller.facts(pass);
        let is_gone = found_gone(end)?;
        note(&mut gone, *number, is_gone)?;
    }
    Ok(gone)
}
