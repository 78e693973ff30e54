//! Why a sweep leaves off.

ghost use Rattle.std.specs.Prelude.{◌≡◌};
ghost use Rattle.recovery_manager.specs.Ends.{found_gone};

use cluster::StepError;
use coordinator::DriveEnd;
use std::alloc::AllocError as NoMemory;

/// Why a sweep left off before each transaction that was listed had come to its end.
#[derive(Clone, Copy, Debug, PartialEq, Eq)]
pub enum SweepEnd {
    /// The gate stopped the drive of a transaction.
    Stopped,
    /// The budget of the pass is used up.
    Spent,
    /// Memory was refused.
    NoMemory,
}

impl From<StepError> for SweepEnd {
    ghost use Rattle.std.specs.Prelude.{◌≡◌};
    ghost use Rattle.recovery_manager.specs.Ends.{left_off};

    ghost from_gives = { λ error end. end ≡ left_off error };

    fn from(error: StepError) -> SweepEnd {
        match error {
            StepError::Spent => SweepEnd::Spent,
            StepError::NoMemory => SweepEnd::NoMemory,
        }
    }
}

impl From<NoMemory> for SweepEnd {
    ghost use Rattle.recovery_manager.specs.declared.sweep_end.SweepEnd.TheVariants as ends;

    ghost from_gives = { λ _ end. end ≡ ends.NoMemory };

    fn from(_: NoMemory) -> SweepEnd {
        SweepEnd::NoMemory
    }
}

/// Whether the record of a transaction is gone that came to this end. Where it did not come to one, the sweep leaves off.
pub(crate) fn found_gone<V: Drop, F: Drop>(end: DriveEnd<V, F>) -> Result<bool, SweepEnd>
    ensures { result ≡ found_gone end }
{
    match end {
        DriveEnd::Committed => Ok(false),
        DriveEnd::Cancelled(_) => Ok(false),
        DriveEnd::NoTable { .. } => Ok(false),
        DriveEnd::Gone => Ok(true),
        DriveEnd::Stopped => Err(SweepEnd::Stopped),
        DriveEnd::Spent => Err(SweepEnd::Spent),
        DriveEnd::NoMemory => Err(SweepEnd::NoMemory),
    }
}
