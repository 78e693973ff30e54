//! A driver begins with the record of its transaction.

ghost use Rattle.std.specs.Prelude.{◌≡◌, ◌↔◌, IfErr, IfOk, IfSome, IfNone, Err};
ghost use Rattle.turnstile.specs.Passes.{most_units};
ghost use Rattle.txn_core.specs.declared.fate.Fate.{Fate};
ghost use Rattle.cluster.specs.Steps.{IsAtRest, partitions_of};
ghost use Rattle.cluster.specs.declared.step.StepError.{StepError};
ghost use Rattle.coordinator.specs.Driving.{Begins, FindsNone, Misses, Recalls};

use crate::driver::{Driver, DriverOf};
use base_types::Seq;
use cluster::{Caller, StepError, TableWorld};
use partition::PageRules;
use std::collections::VecDeque;
use std::sync::Wait;
use turnstile::Pass;
use txn_core::{Answer, Course, Fate, Message, Reason, Rules, Stamp};

/// The record of a transaction. `A` is an action, `V` what an item holds and `F` why an action can't be evaluated.
#[derive(Drop)]
pub(crate) struct Record<A, V, F> {
    pub(crate) fate: Fate,
    pub(crate) stamp: Stamp,
    pub(crate) actions: Seq<A>,
    // Those that the decision carried.
    pub(crate) reasons: Seq<Reason<V, F>>,
}

/// A record under these rules.
pub(crate) type RecordOf<R> = Record<
    <R as Rules>::Action,
    <R as Rules>::Value,
    <R as Rules>::Fault,
>;

/// Asks for the record of the transaction of this number. There is none where the number was not begun, or was forgotten.
pub(crate) fn ask_record<R: PageRules, T: Wait>(
    caller: &Caller<'_, R, T>,
    pass: &mut Pass<TableWorld<R>>,
    number: u64,
) -> Result<Option<RecordOf<R>>, StepError>
where
    R::Fault: Copy,
    requires rests { IsAtRest caller.now pass.old }
    ensures known { IfOk result (λ found. IfSome found (λ r. Recalls (R.protocol (partitions_of caller.now)) number pass.old r pass.new)) }
    ensures unknown { IfOk result (λ found. IfNone found (FindsNone (R.protocol (partitions_of caller.now)) number pass.old pass.new)) }
    ensures err { IfErr result (λ error. Misses (R.protocol (partitions_of caller.now)) number pass.old error pass.new) }
    ensures spent { result ≡ Err StepError.Spent ↔ (pass.old.used ≡ most_units) }
{
    let answer = caller.ask_ledger(pass, Message::Recall { number })?;
    match answer {
        Answer::Known {
            fate,
            stamp,
            actions,
            reasons,
        } => Ok(Some(Record {
            fate,
            stamp,
            actions,
            reasons,
        })),
        Answer::Unknown => Ok(None),
        _ => unreachable!(),
    }
}

// The reasons of a record, where it is that of a cancel.
fn reasons_of_cancel<V: Drop, F: Drop>(
    fate: Fate,
    reasons: Seq<Reason<V, F>>,
) -> Option<Seq<Reason<V, F>>>
    ensures { IfSome result (λ known. (fate ≡ Fate.Cancelled) × (known ≡ reasons)) }
{
    match fate {
        Fate::Cancelled => Some(reasons),
        _ => None,
    }
}

/// A driver of the transaction of this number, from its record. There is none where the record is unknown: the number was not
/// begun, or was forgotten. The error is `NoMemory` also where a transaction had more actions than a course can count, which
/// none has.
pub fn recall<R: PageRules, T: Wait>(
    caller: &Caller<'_, R, T>,
    pass: &mut Pass<TableWorld<R>>,
    number: u64,
) -> Result<Option<DriverOf<R>>, StepError>
where
    R::Fault: Copy,
    requires rests { IsAtRest caller.now pass.old }
    ensures driver { IfOk result (λ found. IfSome found (λ d. Begins (R.protocol (partitions_of caller.now)) number pass.old pass.new d)) }
    ensures unknown { IfOk result (λ found. IfNone found (FindsNone (R.protocol (partitions_of caller.now)) number pass.old pass.new)) }
    ensures err { IfErr result (λ error. Misses (R.protocol (partitions_of caller.now)) number pass.old error pass.new) }
    ensures spent { result ≡ Err StepError.Spent ↔ (pass.old.used ≡ most_units) }
{
    let Some(record) = ask_record(caller, pass, number)? else {
        return Ok(None);
    };
    let Record {
        fate,
        stamp,
        actions,
        reasons,
    } = record;
    let Ok(count) = u32::try_from(actions.len()) else {
        return Err(StepError::NoMemory);
    };
    let mut course = Course::start(count);
    course.took_fate(fate);
    Ok(Some(Driver {
        number,
        stamp,
        actions: VecDeque::from(Vec::from(actions)),
        found: Seq::new(caller.alloc()),
        no_table: None,
        carried: Seq::new(caller.alloc()),
        copy: Seq::new(caller.alloc()),
        reasons: reasons_of_cancel(fate, reasons),
        fate,
        course,
    }))
}
