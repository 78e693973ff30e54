//! All transactions that are not ended are driven to their ends.

ghost use Rattle.std.specs.Prelude.{◌≡◌, ◌≢◌, Err, IfErr, IfOk};
ghost use Rattle.ddb_outside.specs.Causes.{Rose};
ghost use Rattle.cluster.specs.Steps.{IsAtRest, partitions_of};
ghost use Rattle.recovery_manager.specs.declared.sweep_end.SweepEnd.{SweepEnd};
ghost use Rattle.recovery_manager.specs.Sweeps.{Sweeps, SweepsPartly};

use crate::driving::drive_all;
use crate::listing::{all_held, listed_numbers, unfinished_numbers};
use crate::releasing::release_all;
use crate::sweep_end::SweepEnd;
use cluster::{Caller, TableWorld};
use coordinator::Gate;
use partition::PageRules;
use std::sync::Wait;
use turnstile::Pass;

/// Asks each partition once for the items that transactions hold, and the control cell for the numbers that are begun and not done.
/// Then each transaction that is listed is driven to its end, and each item that was listed with a forgotten one is let go. It
/// tells how many transactions these are.
///
/// `Stopped` comes only where the gate counted a stop, and always where it did, `Spent` only where no unit is left. `NoMemory`
/// leaves no transaction that this sweep drove between its decision and its Done.
pub fn sweep<R: PageRules, G: Gate, T: Wait>(
    caller: &Caller<'_, R, T>,
    pass: &mut Pass<TableWorld<R>>,
    gate: &mut G,
) -> Result<u64, SweepEnd>
where
    R::Fault: Copy,
    requires rests { IsAtRest caller.now pass.old }
    ensures ok { IfOk result (λ count. Sweeps (R.protocol (partitions_of caller.now)) (partitions_of caller.now) pass.old count pass.new) }
    ensures err { IfErr result (λ why.
        SweepsPartly (R.protocol (partitions_of caller.now)) (partitions_of caller.now) pass.old why pass.new) }
    ensures stopped { result ≡ Err SweepEnd.Stopped → Rose (G.stops gate.old) (G.stops gate.new) }
    ensures obeyed { result ≢ Err SweepEnd.Stopped → G.stops gate.new ≡ G.stops gate.old }
{
    let items = all_held(caller, pass)?;
    let unfinished = unfinished_numbers(caller, pass)?;
    let numbers = listed_numbers(unfinished, &items)?;
    let driven = drive_all(caller, pass, &numbers, gate);
    caller.facts(pass);
    let gone = driven?;
    let released = release_all(caller, pass, items, &gone);
    caller.facts(pass);
    released?;
    Ok(numbers.len() as u64)
}
