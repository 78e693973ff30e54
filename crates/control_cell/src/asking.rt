//! Messages that change nothing.

ghost use Rattle.std.specs.Prelude.{◌≡◌, ℕ, IfOk};
ghost use Rattle.control_cell.specs.Holding.{Answers};
ghost use Rattle.txn_core.specs.declared.message.Message.{Message};
ghost use Rattle.txn_core.specs.declared.answer.Answer.{Answer};

use crate::cell::ControlCell;
use base_types::Seq;
use std::alloc::{AllocError as NoMemory, Global};
use txn_core::{Answer, Reason, Reply, Rules, copy_of_actions};
use txn_ledger::Record;

/// A copy of a reason.
fn copy_of_reason<R: Rules>(
    alloc: Global,
    reason: &Reason<R::Value, R::Fault>,
) -> Result<Reason<R::Value, R::Fault>, NoMemory>
where
    R::Fault: Copy,
    ensures { IfOk result (λ copy. copy ≡ reason.now) }
{
    Ok(match reason {
        Reason::None => Reason::None,
        Reason::ConditionFalse { old } => Reason::ConditionFalse {
            old: copy_of_item::<R>(alloc, old)?,
        },
        Reason::Held { number } => Reason::Held { number: *number },
        Reason::Late { stamp } => Reason::Late { stamp: *stamp },
        Reason::Moved { first, second } => Reason::Moved {
            first: *first,
            second: *second,
        },
        Reason::Invalid { fault } => Reason::Invalid { fault: *fault },
    })
}

/// A copy of an item, or none.
fn copy_of_item<R: Rules>(
    alloc: Global,
    item: &Option<R::Value>,
) -> Result<Option<R::Value>, NoMemory>
    ensures { IfOk result (λ copy. copy ≡ item.now) }
{
    match item {
        Some(value) => Ok(Some(R::copy_of_value(alloc, value)?)),
        None => Ok(None),
    }
}

/// A copy of reasons.
pub fn copy_of_reasons<R: Rules>(
    alloc: Global,
    reasons: &[Reason<R::Value, R::Fault>],
) -> Result<Seq<Reason<R::Value, R::Fault>>, NoMemory>
where
    R::Fault: Copy,
    ensures { IfOk result (λ copies. copies ≡ reasons.now) }
{
    let mut copies = Vec::with_capacity(alloc, reasons.len())?;
    for reason in reasons {
        copies.push(copy_of_reason::<R>(alloc, reason)?)?;
    }
    Ok(Seq::from(copies))
}

/// What a Recall is answered where the record is there.
fn known<R: Rules>(
    alloc: Global,
    found: &Record<R::Action, Reason<R::Value, R::Fault>>,
) -> Result<Reply<R>, NoMemory>
where
    R::Fault: Copy,
    ensures { IfOk result (λ a. a ≡ Answer.Known found.now.fate found.now.stamp found.now.actions found.now.reasons) }
{
    Ok(Answer::Known {
        fate: found.fate,
        stamp: found.stamp,
        actions: copy_of_actions::<R>(alloc, found.actions.as_slice())?,
        reasons: copy_of_reasons::<R>(alloc, found.reasons.as_slice())?,
    })
}

impl<R: Rules> ControlCell<R> {
    /// A FateOf: what became of a transaction. It takes no memory.
    pub fn fate_of(&self, number: u64) -> Reply<R>
        ensures { (n moment : ℕ) → Answers (R.protocol n) self.now moment (Message.FateOf number) result }
    {
        Answer::Is {
            fate: self.ledger.fate(number),
        }
    }

    /// A Recall: a copy of the record of a transaction.
    pub fn recall(&self, alloc: Global, number: u64) -> Result<Reply<R>, NoMemory>
    where
        R::Fault: Copy,
        ensures { IfOk result (λ a. (n moment : ℕ) → Answers (R.protocol n) self.now moment (Message.Recall number) a) }
    {
        match self.ledger.record(number) {
            Some(found) => known::<R>(alloc, found),
            None => Ok(Answer::Unknown),
        }
    }

    /// An Unfinished: the numbers of the transactions that are begun and not done. It costs a look at each record.
    pub fn unfinished(&self, alloc: Global) -> Result<Reply<R>, NoMemory>
        ensures { IfOk result (λ a. (n moment : ℕ) → Answers (R.protocol n) self.now moment Message.Unfinished a) }
    {
        let numbers = self.ledger.unfinished(alloc)?;
        Ok(Answer::Numbers { numbers })
    }

    /// An Ask: what the catalog says.
    pub fn ask(&self, alloc: Global, question: &R::Question) -> Result<Reply<R>, NoMemory>
        ensures { IfOk result (λ a. (n moment : ℕ) → Answers (R.protocol n) self.now moment (Message.Ask question.now) a) }
    {
        let told = R::tell(alloc, &self.catalog, question)?;
        Ok(Answer::Told { told })
    }
}
