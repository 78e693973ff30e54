//! How a whole transaction ended, or why it was not taken to its end.

ghost use Rattle.std.specs.Prelude.{◌≡◌};
ghost use Rattle.coordinator.specs.Writes.{ended_by, is_over, unanswered};

use crate::drive_end::DriveEnd;
use base_types::Seq;
use cluster::StepError;
use txn_core::{Reason, Rules};

/// How a transaction ended that was sent with its actions. `V` is what an item holds and `F` why an action can't be evaluated.
#[derive(Drop)]
pub enum TransactEnd<V, F> {
    /// It is committed, and Done: by this call, or by an earlier one with its token.
    Committed,
    /// It is cancelled, and Done: the reason of each action, of which one is a refusal.
    Cancelled(Seq<Reason<V, F>>),
    /// The token stands for a transaction with other actions.
    Mismatch {
        /// That transaction's number.
        number: u64,
    },
    /// It is cancelled, and Done, since the table of an action is gone.
    NoTable {
        /// The place of such an action, from 0, where this call found it; none where another driver did.
        place: Option<u32>,
    },
    /// The table of an action was gone before anything was begun.
    Stale,
    /// Two actions are on one item. Nothing was sent.
    Twice,
    /// The gate stopped the driver.
    Stopped,
    /// The budget of the pass is used up.
    Spent,
    /// Memory was refused.
    NoMemory,
}

/// How a transaction ended under these rules.
pub type TransactEndOf<R> = TransactEnd<<R as Rules>::Value, <R as Rules>::Fault>;

/// The end of a transaction that was driven to this end; none where its number is gone.
pub(crate) fn ended_by<V, F>(driven: DriveEnd<V, F>) -> Option<TransactEnd<V, F>>
    ensures { result ≡ ended_by driven }
{
    match driven {
        DriveEnd::Committed => Some(TransactEnd::Committed),
        DriveEnd::Cancelled(reasons) => Some(TransactEnd::Cancelled(reasons)),
        DriveEnd::NoTable { place } => Some(TransactEnd::NoTable { place }),
        DriveEnd::Gone => None,
        DriveEnd::Stopped => Some(TransactEnd::Stopped),
        DriveEnd::Spent => Some(TransactEnd::Spent),
        DriveEnd::NoMemory => Some(TransactEnd::NoMemory),
    }
}

/// The end where a Begin was not answered.
pub(crate) fn unanswered<V, F>(error: StepError) -> TransactEnd<V, F>
    ensures { result ≡ unanswered error }
{
    match error {
        StepError::Spent => TransactEnd::Spent,
        StepError::NoMemory => TransactEnd::NoMemory,
    }
}

/// Whether a transaction is done that was driven to this end.
pub(crate) fn is_over<V, F>(driven: &DriveEnd<V, F>) -> bool
    ensures { result ≡ is_over driven.now }
{
    matches!(
        driven,
        DriveEnd::Committed | DriveEnd::Cancelled(_) | DriveEnd::NoTable { .. }
    )
}
