//! A transaction's action on an item.

ghost use Rattle.std.specs.Prelude.{◌≡◌, ℕ, IfOk, OnOk, OnErr};
ghost use Rattle.txn_core.specs.History.{is_accepted};
ghost use Rattle.txn_core.specs.declared.message.Message.{Message};
ghost use Rattle.partition.specs.Changes.{IsUnprepared, Unchanged};
ghost use Rattle.partition.specs.Evaluations.{EvaluatesPrepare};
ghost use Rattle.partition.specs.InStep.{StaysInStep};
ghost use Rattle.partition.specs.Knows.{HeldFor, IsClean, LeftByPrepare, prepared};
ghost use Rattle.partition.specs.Makes.{MakesItem};
ghost use Rattle.partition.specs.Says.{Keeps, Leaves, Says, prepare_says};

use crate::cell::PartitionOf;
use crate::evaluation::{Evaluation, EvaluationOf, evaluate};
use index_changes::{CellRules, IndexChangesOf};
use item_store::{Pending, holder_of, row_of};
use std::alloc::{AllocError as NoMemory, Global};
use txn_core::{Answer, Reply, Stamp};

/// What a Prepare comes to, by what the cell keeps of its item.
fn evaluate_prepare<R: CellRules>(
    alloc: Global,
    cell: &PartitionOf<R>,
    number: u64,
    stamp: Stamp,
    action: &R::Action,
) -> Result<EvaluationOf<R>, NoMemory>
    ensures { IfOk result (λ made. (n : ℕ) →
        EvaluatesPrepare (R.protocol n) R.locals cell.now number stamp action.now made) }
{
    let key = R::key_of(action);
    if !R::is_there(&cell.catalog, key) {
        return Ok(Evaluation::Answered {
            answer: Answer::Stale,
        });
    }
    let slot = cell.items.slot(R::table_of(key), key);
    if let Some(holder) = holder_of(slot) {
        if holder == number {
            return Ok(Evaluation::Answered {
                answer: Answer::Accepted,
            });
        }
        return Ok(Evaluation::Answered {
            answer: Answer::Held { number: holder },
        });
    }
    let last = cell.items.last_change(slot);
    if !last.is_earlier(stamp) {
        return Ok(Evaluation::Answered {
            answer: Answer::Late { stamp: last },
        });
    }
    evaluate::<R>(alloc, &cell.catalog, action, row_of(slot))
}

/// Holds an item that no transaction holds, with what its image makes of indexes, and takes all that the end of this one needs.
fn hold<R: CellRules>(
    alloc: Global,
    cell: &mut PartitionOf<R>,
    action: R::Action,
    pending: Pending<R::Value>,
    changes: IndexChangesOf<R>,
) -> Result<(), NoMemory>
    requires { (n : ℕ) → MakesItem (R.protocol n) R.locals cell.old action pending.image changes }
    ensures left { OnOk result ((n : ℕ) →
        IsUnprepared cell.old ((R.protocol n).core.key_of action)
        → HeldFor (R.protocol n) cell.old cell.new ((R.protocol n).core.key_of action) pending.number pending.stamp pending.image) }
    ensures err { OnErr result ((n : ℕ) →
        IsUnprepared cell.old ((R.protocol n).core.key_of action) → Unchanged cell.old cell.new) }
    ensures in_step { (n : ℕ) → StaysInStep (R.protocol n) R.locals cell.old cell.new }
{
    let key = R::key_of(&action);
    let table = R::table_of(key);
    if changes.is_empty() {
        return cell.hold(alloc, table, R::into_key(action), pending);
    }
    let held = R::copy_of_key(alloc, key)?;
    let kept = R::copy_of_key(alloc, key)?;
    cell.hold_with(alloc, table, key, held, kept, pending, changes)
}

/// Answers a Prepare by what the cell keeps of its item.
fn attempt<R: CellRules>(
    alloc: Global,
    cell: &mut PartitionOf<R>,
    number: u64,
    stamp: Stamp,
    action: R::Action,
) -> Result<Reply<R>, NoMemory>
    ensures says { IfOk result (λ a. (n : ℕ) → a ≡ prepared (R.protocol n) cell.old number stamp action) }
    ensures left { IfOk result (λ a. (n : ℕ) → IsClean (R.protocol n) cell.old ((R.protocol n).core.key_of action)
        → LeftByPrepare (R.protocol n) cell.old cell.new action number stamp (is_accepted a)) }
    ensures err { OnErr result ((n : ℕ) → IsClean (R.protocol n) cell.old ((R.protocol n).core.key_of action)
        → Unchanged cell.old cell.new) }
    ensures in_step { (n : ℕ) → StaysInStep (R.protocol n) R.locals cell.old cell.new }
{
    match evaluate_prepare::<R>(alloc, cell, number, stamp, &action)? {
        Evaluation::Answered { answer } => Ok(answer),
        Evaluation::Made { item, changes } => {
            let pending = Pending {
                number,
                stamp,
                image: item,
            };
            hold::<R>(alloc, cell, action, pending, changes)?;
            Ok(Answer::Accepted)
        }
    }
}

/// A Prepare: holds the action's item for a transaction, where the action can be carried out and the item was not changed at
/// this stamp or later. It takes all that [`apply`](crate::apply) and [`release`](crate::release) need.
pub fn prepare<R: CellRules>(
    alloc: Global,
    cell: &mut PartitionOf<R>,
    number: u64,
    stamp: Stamp,
    action: R::Action,
) -> Result<Reply<R>, NoMemory>
    ensures says { IfOk result (λ a. (n : ℕ) → Says (R.protocol n) ((R.protocol n).core.cell_of ((R.protocol n).core.key_of action))
        cell.old (λ w f. prepare_says (R.protocol n) w number stamp action) a) }
    ensures leaves { IfOk result (λ a. (n moment : ℕ) → Leaves (R.protocol n)
        ((R.protocol n).core.cell_of ((R.protocol n).core.key_of action)) cell.old cell.new moment (Message.Prepare number stamp action)
        a) }
    ensures err { OnErr result ((n : ℕ) → Keeps (R.protocol n) ((R.protocol n).core.cell_of ((R.protocol n).core.key_of action))
        cell.old cell.new) }
    ensures in_step { (n : ℕ) → StaysInStep (R.protocol n) R.locals cell.old cell.new }
{
    attempt::<R>(alloc, cell, number, stamp, action)
}
