//! How a transaction was driven to its end, or why it was not.

ghost use Rattle.std.specs.Prelude.{◌≡◌};
ghost use Rattle.std.specs.List.{list_all};
ghost use Rattle.coordinator.specs.Drives.{cancelled, given_up, is_none};

use base_types::Seq;
use cluster::StepError;
use txn_core::{Reason, Rules};

/// How the drive of a transaction ended. `V` is what an item holds and `F` why an action can't be evaluated.
#[derive(Drop)]
pub enum DriveEnd<V, F> {
    /// It is committed, and Done.
    Committed,
    /// It is cancelled, and Done: the reason of each action, of which one is a refusal.
    Cancelled(Seq<Reason<V, F>>),
    /// It is cancelled, and Done, since the table of an action is gone.
    NoTable {
        /// The place of such an action, from 0, where this drive found it; none where another driver did.
        place: Option<u32>,
    },
    /// There is no such transaction: it was not begun, or its record was forgotten.
    Gone,
    /// The gate stopped the driver.
    Stopped,
    /// The budget of the pass is used up.
    Spent,
    /// Memory was refused.
    NoMemory,
}

/// How a drive ended under these rules.
pub type DriveEndOf<R> = DriveEnd<<R as Rules>::Value, <R as Rules>::Fault>;

/// The end where a step was not taken.
pub(crate) fn given_up<V, F>(error: StepError) -> DriveEnd<V, F>
    ensures { result ≡ given_up error }
{
    match error {
        StepError::Spent => DriveEnd::Spent,
        StepError::NoMemory => DriveEnd::NoMemory,
    }
}

/// Whether each action was accepted by its reason.
fn are_none<V, F>(reasons: &[Reason<V, F>]) -> bool
    ensures { result ≡ list_all is_none reasons.now }
{
    reasons.iter().all(|reason| matches!(reason, Reason::None))
}

/// The end of a transaction that was cancelled with these reasons.
pub(crate) fn cancelled<V: Drop, F: Drop>(
    reasons: Seq<Reason<V, F>>,
    place: Option<u32>,
) -> DriveEnd<V, F>
    ensures { result ≡ cancelled reasons place }
{
    if are_none(reasons.as_slice()) {
        return DriveEnd::NoTable { place };
    }
    DriveEnd::Cancelled(reasons)
}
