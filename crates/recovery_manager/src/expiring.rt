//! Items of a partition that are expired are removed.

ghost use Rattle.std.specs.Prelude.{◌≡◌, ◌+◌, ◌<◌, ◌≤◌, [], IfErr, IfOk};
ghost use Rattle.txn_core.specs.History.{is_expired};
ghost use Rattle.cluster.specs.Steps.{IsAtRest, partitions_of};
ghost use Rattle.cluster.specs.Counts.{CountsUntil};
ghost use Rattle.recovery_manager.specs.Expiries.{Expires, ExpiresAll, ExpiresOne, ExpiresPartly, ExpiresSome, ListsExpired};

use base_types::Seq;
use cluster::{Caller, StepError, TableWorld};
use partition::PageRules;
use std::sync::Wait;
use turnstile::Pass;
use txn_core::{Answer, Message, Reply};

/// What one call came to.
#[derive(Clone, Copy, Debug, PartialEq, Eq)]
pub struct Expiry {
    /// How many items were removed.
    pub removed: u64,
    /// Whether the partition may have more that are expired: it listed as many keys as were asked for.
    pub more: bool,
}

/// Asks a partition for the keys of some items that are expired and that no transaction holds, at most so many.
fn expired_keys<R: PageRules, T: Wait>(
    caller: &Caller<'_, R, T>,
    pass: &mut Pass<TableWorld<R>>,
    limit: u32,
    cell: u32,
) -> Result<Seq<R::Key>, StepError>
where
    R::Fault: Copy,
    requires rests { IsAtRest caller.now pass.old }
    requires cell { cell < partitions_of caller.now }
    ensures ok { IfOk result (λ keys. ListsExpired (R.protocol (partitions_of caller.now)) limit cell pass.old keys pass.new) }
    ensures err { IfErr result (λ why. CountsUntil (R.protocol (partitions_of caller.now)) pass.old [] why pass.new) }
{
    let answer = caller.ask(pass, cell, Message::ExpiredKeys { cell, limit })?;
    match answer {
        Answer::ExpiredList { keys } => Ok(keys),
        _ => unreachable!(),
    }
}

/// Whether an item was removed.
fn is_expired<R: PageRules>(answer: &Reply<R>) -> bool
    ensures { result ≡ is_expired answer.now }
{
    match answer {
        Answer::Expired { .. } => true,
        _ => false,
    }
}

/// Removes the item of a key where it is there, is expired and is not held, and tells whether it did.
fn expire_one<R: PageRules, T: Wait>(
    caller: &Caller<'_, R, T>,
    pass: &mut Pass<TableWorld<R>>,
    key: &R::Key,
) -> Result<bool, StepError>
where
    R::Fault: Copy,
    requires rests { IsAtRest caller.now pass.old }
    ensures ok { IfOk result (λ removed. ExpiresOne (R.protocol (partitions_of caller.now)) key.now pass.old removed pass.new) }
    ensures err { IfErr result (λ why. CountsUntil (R.protocol (partitions_of caller.now)) pass.old [] why pass.new) }
{
    let action = R::removal(caller.alloc(), key)?;
    let cell = caller.cell_of(R::key_of(&action));
    let answer = caller.ask(pass, cell, Message::Expire { action })?;
    let removed = is_expired::<R>(&answer);
    drop(answer);
    Ok(removed)
}

/// Does so with each of these keys, and tells how many items were removed.
fn expire_all<R: PageRules, T: Wait>(
    caller: &Caller<'_, R, T>,
    pass: &mut Pass<TableWorld<R>>,
    keys: &[R::Key],
) -> Result<u64, StepError>
where
    R::Fault: Copy,
    requires rests { IsAtRest caller.now pass.old }
    ensures ok { IfOk result (λ removed. ExpiresAll (R.protocol (partitions_of caller.now)) keys.now pass.old removed pass.new) }
    ensures err { IfErr result (λ why. ExpiresSome (R.protocol (partitions_of caller.now)) keys.now pass.old why pass.new) }
{
    let mut removed = 0;
    for key in keys {
        if expire_one(caller, pass, key)? {
            removed += 1;
        }
    }
    Ok(removed)
}

/// Asks a partition once for the keys of at most `limit` items that are expired at the moment of the pass and that no transaction
/// holds, and removes each of them that is still there, expired and not held. It uses at most `limit` + 1 units.
///
/// The errors are those of [`step`](cluster::Cluster::step). What was removed before an error stays removed.
pub fn expire<R: PageRules, T: Wait>(
    caller: &Caller<'_, R, T>,
    pass: &mut Pass<TableWorld<R>>,
    limit: u32,
    cell: u32,
) -> Result<Expiry, StepError>
where
    R::Fault: Copy,
    requires rests { IsAtRest caller.now pass.old }
    requires cell { cell < partitions_of caller.now }
    requires some { 1 ≤ limit }
    ensures ok { IfOk result (λ expiry. Expires (R.protocol (partitions_of caller.now)) limit cell pass.old expiry pass.new) }
    ensures units { IfOk result (λ expiry. pass.new.used ≤ pass.old.used + limit + 1) }
    ensures err { IfErr result (λ why. ExpiresPartly (R.protocol (partitions_of caller.now)) limit cell pass.old why pass.new) }
{
    let keys = expired_keys(caller, pass, limit, cell)?;
    let removed = expire_all(caller, pass, keys.as_slice())?;
    let more = keys.len() == limit as usize;
    Ok(Expiry { removed, more })
}
