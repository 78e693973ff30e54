//! A single write.

ghost use Rattle.std.specs.Prelude.{◌≡◌, ℕ, true, IfOk, OnOk, OnErr};
ghost use Rattle.txn_core.specs.History.{is_written};
ghost use Rattle.item_store.specs.Slots.{row_of};
ghost use Rattle.txn_core.specs.declared.message.Message.{Message};
ghost use Rattle.partition.specs.Changes.{Unchanged};
ghost use Rattle.partition.specs.Evaluations.{EvaluatesWrite};
ghost use Rattle.partition.specs.InStep.{StaysInStep};
ghost use Rattle.partition.specs.Knows.{LeftByWrite, kept_at, wrote};
ghost use Rattle.partition.specs.Makes.{MakesItem};
ghost use Rattle.partition.specs.Says.{Keeps, Leaves, Says, write_says};

use crate::cell::PartitionOf;
use crate::evaluation::{Evaluation, EvaluationOf, evaluate};
use crate::reads::copy_of_row;
use index_changes::{CellRules, IndexChangesOf};
use item_store::{holder_of, row_of};
use std::alloc::{AllocError as NoMemory, Global};
use txn_core::{Answer, Reply, Stamp};

/// What a Write comes to, by what the cell keeps of its item.
fn evaluate_write<R: CellRules>(
    alloc: Global,
    cell: &PartitionOf<R>,
    action: &R::Action,
) -> Result<EvaluationOf<R>, NoMemory>
    ensures { IfOk result (λ made. (n : ℕ) → EvaluatesWrite (R.protocol n) R.locals cell.now action.now made) }
{
    let key = R::key_of(action);
    if !R::is_there(&cell.catalog, key) {
        return Ok(Evaluation::Answered {
            answer: Answer::Stale,
        });
    }
    let slot = cell.items.slot(R::table_of(key), key);
    if let Some(number) = holder_of(slot) {
        return Ok(Evaluation::Answered {
            answer: Answer::Held { number },
        });
    }
    evaluate::<R>(alloc, &cell.catalog, action, row_of(slot))
}

/// Makes an item this that no transaction holds, as an action does, with what that makes of indexes, and hands out the item that was
/// there.
pub(crate) fn put_item<R: CellRules>(
    alloc: Global,
    cell: &mut PartitionOf<R>,
    action: R::Action,
    item: Option<R::Value>,
    changes: IndexChangesOf<R>,
    moment: u64,
) -> Result<Option<R::Value>, NoMemory>
    requires { (n : ℕ) → MakesItem (R.protocol n) R.locals cell.old action item changes }
    ensures old { IfOk result (λ old. (n : ℕ) → old ≡ row_of (kept_at (R.protocol n) cell.old ((R.protocol n).core.key_of action))) }
    ensures left { OnOk result ((n : ℕ) → LeftByWrite (R.protocol n) cell.old cell.new action moment true) }
    ensures err { OnErr result (Unchanged cell.old cell.new) }
    ensures in_step { (n : ℕ) → StaysInStep (R.protocol n) R.locals cell.old cell.new }
{
    let table = R::table_of(R::key_of(&action));
    let key = R::into_key(action);
    let stamp = Stamp { moment, number: 0 };
    cell.put(alloc, table, key, item, stamp, changes)
}

/// Carries out a write of an item that no transaction holds, which makes it this, with what it makes of indexes.
fn carry_out<R: CellRules>(
    alloc: Global,
    cell: &mut PartitionOf<R>,
    action: R::Action,
    item: Option<R::Value>,
    changes: IndexChangesOf<R>,
    moment: u64,
) -> Result<Reply<R>, NoMemory>
    requires { (n : ℕ) → MakesItem (R.protocol n) R.locals cell.old action item changes }
    ensures says { IfOk result (λ a. (n : ℕ) → (R.protocol n).core.there cell.old.catalog ((R.protocol n).core.key_of action) ≡ true
        → a ≡ wrote (R.protocol n) cell.old action) }
    ensures left { IfOk result (λ a. (n : ℕ) → LeftByWrite (R.protocol n) cell.old cell.new action moment (is_written a)) }
    ensures err { OnErr result (Unchanged cell.old cell.new) }
    ensures in_step { (n : ℕ) → StaysInStep (R.protocol n) R.locals cell.old cell.new }
{
    let new = copy_of_row::<R>(alloc, item.as_ref())?;
    let old = put_item::<R>(alloc, cell, action, item, changes, moment)?;
    Ok(Answer::Written { old, new })
}

/// Carries out an action on its item, where no transaction holds it.
fn attempt<R: CellRules>(
    alloc: Global,
    cell: &mut PartitionOf<R>,
    action: R::Action,
    moment: u64,
) -> Result<Reply<R>, NoMemory>
    ensures says { IfOk result (λ a. (n : ℕ) → a ≡ wrote (R.protocol n) cell.old action) }
    ensures left { IfOk result (λ a. (n : ℕ) → LeftByWrite (R.protocol n) cell.old cell.new action moment (is_written a)) }
    ensures err { OnErr result (Unchanged cell.old cell.new) }
    ensures in_step { (n : ℕ) → StaysInStep (R.protocol n) R.locals cell.old cell.new }
{
    match evaluate_write::<R>(alloc, cell, &action)? {
        Evaluation::Answered { answer } => Ok(answer),
        Evaluation::Made { item, changes } => {
            carry_out::<R>(alloc, cell, action, item, changes, moment)
        }
    }
}

/// A Write: carries out an action on its item, where no transaction holds it.
pub fn write<R: CellRules>(
    alloc: Global,
    cell: &mut PartitionOf<R>,
    action: R::Action,
    moment: u64,
) -> Result<Reply<R>, NoMemory>
    ensures says { IfOk result (λ a. (n : ℕ) → Says (R.protocol n) ((R.protocol n).core.cell_of ((R.protocol n).core.key_of action))
        cell.old (λ w f. write_says (R.protocol n) w action) a) }
    ensures leaves { IfOk result (λ a. (n : ℕ) → Leaves (R.protocol n)
        ((R.protocol n).core.cell_of ((R.protocol n).core.key_of action)) cell.old cell.new moment (Message.Write action) a) }
    ensures err { OnErr result ((n i : ℕ) → Keeps (R.protocol n) i cell.old cell.new) }
    ensures in_step { (n : ℕ) → StaysInStep (R.protocol n) R.locals cell.old cell.new }
{
    attempt::<R>(alloc, cell, action, moment)
}
