//! One round of reads.

ghost use Rattle.std.specs.Prelude.{◌≡◌, [], ◌∷◌, ◌++◌, IfOk, IfErr, OnOk};
ghost use Rattle.cluster.specs.Steps.{IsAtRest, partitions_of};
ghost use Rattle.cluster.specs.Counts.{CountsUntil};
ghost use Rattle.txn_reader.specs.Reads.{IsRead, IsRound, StopsAfter};

use crate::item_version::ItemVersion;
use base_types::Seq;
use cluster::{Caller, StepError, TableWorld};
use partition::PageRules;
use std::alloc::AllocError as NoMemory;
use std::sync::Wait;
use turnstile::Pass;
use txn_core::{Answer, Message};

/// What one round of reads came to.
#[derive(Drop)]
pub(crate) enum Round<V> {
    /// Each item as it was found, in the order of their keys.
    Found(Seq<ItemVersion<V>>),
    /// The table of the key at this place is gone.
    NoTable(usize),
}

/// Reads the item of a key; none, where its table is gone.
fn read<R: PageRules, T: Wait>(
    caller: &Caller<'_, R, T>,
    pass: &mut Pass<TableWorld<R>>,
    key: &R::Key,
) -> Result<Option<ItemVersion<R::Value>>, StepError>
where
    R::Fault: Copy,
    requires rests { IsAtRest caller.now pass.old }
    ensures ok { IfOk result (λ read. IsRead (R.protocol (partitions_of caller.now)) pass.old key.now read pass.new) }
    ensures err { IfErr result (λ why. CountsUntil (R.protocol (partitions_of caller.now)) pass.old [] why pass.new) }
{
    let cell = caller.cell_of(key);
    let key = R::copy_of_key(caller.alloc(), key)?;
    let answer = caller.ask(pass, cell, Message::ReadVersion { key })?;
    match answer {
        Answer::Version {
            item,
            version,
            held,
        } => Ok(Some(ItemVersion {
            item,
            version,
            held,
        })),
        Answer::Stale => Ok(None),
        _ => unreachable!(),
    }
}

/// Keeps what was found.
fn keep<V: Drop>(found: &mut Seq<ItemVersion<V>>, version: ItemVersion<V>) -> Result<(), NoMemory>
    ensures { OnOk result (found.new ≡ found.old ++ version ∷ []) }
{
    found.push(version)?;
    Ok(())
}

/// Reads the items of all keys in order, up to one whose table is gone.
pub(crate) fn read_round<R: PageRules, T: Wait>(
    caller: &Caller<'_, R, T>,
    pass: &mut Pass<TableWorld<R>>,
    keys: &[R::Key],
) -> Result<Round<R::Value>, StepError>
where
    R::Fault: Copy,
    requires rests { IsAtRest caller.now pass.old }
    ensures ok { IfOk result (λ round. IsRound (R.protocol (partitions_of caller.now)) pass.old keys.now round pass.new) }
    ensures err { IfErr result (λ why. StopsAfter (R.protocol (partitions_of caller.now)) [] pass.old keys.now why pass.new) }
{
    let mut found = Seq::with_capacity(caller.alloc(), keys.len())?;
    for key in keys {
        match read(caller, pass, key)? {
            Some(version) => keep(&mut found, version)?,
            None => return Ok(Round::NoTable(found.len())),
        }
    }
    Ok(Round::Found(found))
}
