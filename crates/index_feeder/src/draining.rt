//! Feeds of all partitions until none has a change that waits.

ghost use Rattle.std.specs.Prelude.{◌+◌, ◌*◌, ◌<◌, ◌≤◌, IfOk, IfErr, OnOk};
ghost use Rattle.cluster.specs.Steps.{IsAtRest, partitions_of};
ghost use Rattle.index_feeder.specs.Feeds.{Drains, Empties, GoesRound, LeavesDrained, MakesPartly};

use crate::feeding::{Feed, feed_one};
use cluster::{Caller, StepError, TableWorld};
use partition::PageRules;
use std::sync::Wait;
use turnstile::Pass;

/// Feeds a partition until its outbox is found empty, and tells how many changes were fed.
fn empty_one<R: PageRules, T: Wait>(
    caller: &Caller<'_, R, T>,
    pass: &mut Pass<TableWorld<R>>,
    cell: u32,
) -> Result<u64, StepError>
where
    R::Fault: Copy,
    requires rests { IsAtRest caller.now pass.old }
    requires cell { cell < partitions_of caller.now }
    ensures ok { IfOk result (λ fed. Empties (R.protocol (partitions_of caller.now)) cell pass.old fed pass.new) }
    ensures err { IfErr result (λ why. MakesPartly (R.protocol (partitions_of caller.now)) 1 0 pass.old why pass.new) }
{
    let mut fed = 0;
    'feeds: loop {
        match feed_one(caller, pass, cell)? {
            Feed::Fed => {
                caller.facts(pass);
                fed += 1;
            }
            Feed::Empty => return Ok(fed),
        }
    }
}

/// Does so with each partition in order, and tells how many changes were fed in all.
fn feed_round<R: PageRules, T: Wait>(
    caller: &Caller<'_, R, T>,
    pass: &mut Pass<TableWorld<R>>,
) -> Result<u64, StepError>
where
    R::Fault: Copy,
    requires rests { IsAtRest caller.now pass.old }
    ensures some { 1 ≤ partitions_of caller.now }
    ensures ok { IfOk result (λ fed. GoesRound (R.protocol (partitions_of caller.now)) (partitions_of caller.now) pass.old fed pass.new) }
    ensures err { IfErr result (λ why.
        MakesPartly (R.protocol (partitions_of caller.now)) 1 (partitions_of caller.now) pass.old why pass.new) }
{
    let mut fed = 0;
    for cell in 0..caller.partitions() {
        let more = empty_one(caller, pass, cell)?;
        caller.facts(pass);
        fed += more;
    }
    Ok(fed)
}

/// Feeds each partition until it is found empty, round after round until one round feeds nothing, and tells how many changes were
/// fed. For n partitions and f changes it uses at most n + (n + 3) f units.
///
/// Others may queue changes meanwhile, so that it ends for want of units at last: the errors are those of
/// [`step`](Cluster::step). What was fed before an error stays fed.
pub fn drain<R: PageRules, T: Wait>(
    caller: &Caller<'_, R, T>,
    pass: &mut Pass<TableWorld<R>>,
) -> Result<u64, StepError>
where
    R::Fault: Copy,
    requires rests { IsAtRest caller.now pass.old }
    ensures ok { IfOk result (λ fed. Drains (R.protocol (partitions_of caller.now)) (partitions_of caller.now) pass.old fed pass.new) }
    ensures drained { OnOk result (LeavesDrained (R.protocol (partitions_of caller.now)) pass.old pass.new) }
    ensures units { IfOk result (λ fed.
        pass.new.used ≤ pass.old.used + partitions_of caller.now + (partitions_of caller.now + 3) * fed) }
    ensures err { IfErr result (λ why.
        MakesPartly (R.protocol (partitions_of caller.now)) (partitions_of caller.now + 1) (partitions_of caller.now) pass.old why pass.new) }
{
    let mut fed = 0;
    'rounds: loop {
        let more = feed_round(caller, pass)?;
        caller.facts(pass);
        if more == 0 {
            return Ok(fed);
        }
        fed += more;
    }
}
