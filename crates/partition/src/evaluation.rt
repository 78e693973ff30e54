//! What an action comes to, before anything is changed.

ghost use Rattle.std.specs.Prelude.{ℕ, IfOk};
ghost use Rattle.std.specs.Option.{option_copied};
ghost use Rattle.partition.specs.Evaluations.{IsEvaluation};

use crate::reads::copy_of_row;
use index_changes::{CellRules, IndexChangesOf, index_changes};
use std::alloc::{AllocError as NoMemory, Global};
use txn_core::{Answer, Outcome, Reply, Rules};

/// What an action comes to: an answer, where nothing changes, or the item as it will be, with what that makes of indexes.
#[derive(Drop)]
pub(crate) enum Evaluation<A, V, I> {
    /// Nothing changes.
    Answered {
        /// What is answered.
        answer: A,
    },
    /// The item is made anew.
    Made {
        /// The item, or none.
        item: Option<V>,
        /// What that makes of indexes.
        changes: I,
    },
}

/// What an action comes to under these rules.
pub(crate) type EvaluationOf<R> = Evaluation<Reply<R>, <R as Rules>::Value, IndexChangesOf<R>>;

/// What an action comes to on an item that nobody holds.
pub(crate) fn evaluate<R: CellRules>(
    alloc: Global,
    catalog: &R::Catalog,
    action: &R::Action,
    row: Option<&R::Value>,
) -> Result<EvaluationOf<R>, NoMemory>
    ensures { IfOk result (λ made. (n : ℕ) →
        IsEvaluation (R.protocol n) R.locals catalog.now action.now (option_copied row.entry) made) }
{
    match R::act(alloc, catalog, action, row)? {
        Outcome::New { item } => {
            let key = R::key_of(action);
            let changes = index_changes::<R>(alloc, catalog, key, row, item.as_ref())?;
            Ok(Evaluation::Made { item, changes })
        }
        Outcome::Unmet => Ok(Evaluation::Answered {
            answer: Answer::CondFalse {
                old: copy_of_row::<R>(alloc, row)?,
            },
        }),
        Outcome::Fails { fault } => Ok(Evaluation::Answered {
            answer: Answer::Invalid { fault },
        }),
    }
}
