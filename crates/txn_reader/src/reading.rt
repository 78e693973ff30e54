//! A read of several items at one point.

ghost use Rattle.std.specs.Prelude.{◌≡◌, ◌+◌, ◌*◌, ◌≤◌, length, IfOk, IfErr};
ghost use Rattle.cluster.specs.Steps.{IsAtRest, partitions_of};
ghost use Rattle.txn_reader.specs.Reads.{Ends, IsCutShort, IsOfOnePoint};

use crate::read_end::ReadEnd;
use crate::rounds::{Round, read_round};
use crate::ruling::rule;
use cluster::{Caller, StepError, TableWorld};
use partition::PageRules;
use std::sync::Wait;
use turnstile::Pass;

/// Reads in two rounds.
fn read_twice<R: PageRules, T: Wait>(
    caller: &Caller<'_, R, T>,
    pass: &mut Pass<TableWorld<R>>,
    keys: &[R::Key],
) -> Result<ReadEnd<R::Value, R::Fault>, StepError>
where
    R::Fault: Copy,
    requires rests { IsAtRest caller.now pass.old }
    ensures ok { IfOk result (λ end. Ends (R.protocol (partitions_of caller.now)) pass.old keys.now end pass.new) }
    ensures point { IfOk result (λ end. IsOfOnePoint (R.protocol (partitions_of caller.now)) pass.old keys.now end pass.new) }
    ensures err { IfErr result (λ why. IsCutShort (R.protocol (partitions_of caller.now)) pass.old keys.now why pass.new) }
{
    let first = match read_round(caller, pass, keys)? {
        Round::Found(first) => first,
        Round::NoTable(place) => return Ok(ReadEnd::NoTable(place)),
    };
    let second = match read_round(caller, pass, keys)? {
        Round::Found(second) => second,
        Round::NoTable(place) => return Ok(ReadEnd::NoTable(place)),
    };
    caller.facts(pass);
    Ok(rule(caller.alloc(), first, second)?)
}

/// Reads the items of several keys at one point of the history, beside transactions and writes: in two rounds, of one unit a key each.
///
/// Which tables the keys are of, whether they have the form of keys there, and that no two of them are of one item is for the layer
/// above to see to. Here a key whose table is gone is [`ReadEnd::NoTable`], and keys of one item are read as any others.
///
/// It copies each key once a round. [`ReadEnd::Spent`] is answered where no unit is left, and [`ReadEnd::NoMemory`] where memory is
/// refused or a number is not left; the tables are as they were in any case.
pub fn transact_get<R: PageRules, T: Wait>(
    caller: &Caller<'_, R, T>,
    pass: &mut Pass<TableWorld<R>>,
    keys: &[R::Key],
) -> ReadEnd<R::Value, R::Fault>
where
    R::Fault: Copy,
    requires rests { IsAtRest caller.now pass.old }
    ensures end { Ends (R.protocol (partitions_of caller.now)) pass.old keys.now result pass.new }
    ensures point { IsOfOnePoint (R.protocol (partitions_of caller.now)) pass.old keys.now result pass.new }
    ensures pass { pass.new ≡ record pass.old { used = pass.new.used; front = pass.new.front } }
    ensures units { pass.new.used ≤ pass.old.used + 2 * length keys.now + 1 }
{
    match read_twice(caller, pass, keys) {
        Ok(end) => end,
        Err(StepError::Spent) => ReadEnd::Spent,
        Err(StepError::NoMemory) => ReadEnd::NoMemory,
    }
}
