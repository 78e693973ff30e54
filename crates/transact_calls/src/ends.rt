//! What is told by the end of a transaction.

ghost use Rattle.std.specs.Prelude.{◌≡◌, IfOk};
ghost use Rattle.transact_calls.specs.Ends.{reason_told, reasons_told, read_reasons_told};

use attr_value::SharedItem;
use base_types::Seq;
use cell_model::KeyedAction;
use std::alloc::{AllocError as NoMemory, Global};
use table_items::shown_old;
use table_model::Reason;
use txn_core::Reason as ReasonOf;
use update_eval::EvalFault;

/// What is told by a reason, with the item of which a condition is false, or without it.
fn reason_told(shows: bool, reason: &ReasonOf<SharedItem, EvalFault>) -> Result<Reason, NoMemory>
    ensures { IfOk result (λ told. told ≡ reason_told shows reason.now) }
{
    match reason {
        ReasonOf::None => Ok(Reason::None),
        ReasonOf::ConditionFalse { old } => {
            let old = shown_old(shows, old.as_ref())?;
            Ok(Reason::ConditionFalse { old })
        }
        ReasonOf::Held { number } => Ok(Reason::Held { number: *number }),
        ReasonOf::Late { stamp } => Ok(Reason::Late { stamp: *stamp }),
        ReasonOf::Moved { first, second } => Ok(Reason::Moved {
            first: *first,
            second: *second,
        }),
        ReasonOf::Invalid { fault } => Ok(Reason::Invalid(*fault)),
    }
}

/// What is told of all actions, in order. An item is shown only where that was asked.
pub(crate) fn reasons_told(
    alloc: Global,
    actions: &[KeyedAction],
    reasons: &[ReasonOf<SharedItem, EvalFault>],
) -> Result<Seq<Reason>, NoMemory>
    ensures { IfOk result (λ told. told ≡ reasons_told actions.now reasons.now) }
{
    let mut told = Vec::with_capacity(alloc, reasons.len())?;
    for (action, reason) in actions.iter().zip(reasons) {
        told.push(reason_told(action.statement().show_old, reason)?)?;
    }
    Ok(Seq::from(told))
}

/// What is told of all reads, in order. No item is shown.
pub(crate) fn read_reasons_told(
    alloc: Global,
    reasons: &[ReasonOf<SharedItem, EvalFault>],
) -> Result<Seq<Reason>, NoMemory>
    ensures { IfOk result (λ told. told ≡ read_reasons_told reasons.now) }
{
    let mut all = Vec::with_capacity(alloc, reasons.len())?;
    for reason in reasons {
        all.push(reason_told(false, reason)?)?;
    }
    Ok(Seq::from(all))
}
