//! How a load ends.

ghost use Rattle.std.specs.Prelude.{◌≡◌};

use cluster::StepError;
use recovery_manager::SweepEnd;
use std::alloc::AllocError as NoMemory;

/// What a load reads of its bank when all transfers are made. The accounts are numbered from 0.
#[derive(Clone, Copy, Debug, PartialEq, Eq)]
pub struct Summary {
    /// How many items the table has.
    pub accounts: u64,
    /// How many transfers were asked for.
    pub transfers: u64,
    /// The sum of all balances.
    pub sum: i64,
    /// The sum of all balances, each times the number of its account.
    pub weighted: i64,
    /// How many rows the index has.
    pub index_rows: u64,
    /// The same sum as `weighted`, over the rows of the index.
    pub index_weighted: i64,
}

/// How a load ended.
#[derive(Clone, Copy, Debug, PartialEq, Eq)]
pub enum LoadEnd {
    Done(Summary),
    /// The gate stopped it while it ended what was left, or in the second round.
    Stopped,
    /// The units of a pass are used up.
    Spent,
    /// Memory was refused.
    NoMemory,
}

/// Why a load ended before it was done.
#[derive(Clone, Copy, Debug, PartialEq, Eq)]
pub enum LoadFault {
    Stopped,
    Spent,
    NoMemory,
}

impl From<NoMemory> for LoadFault {
    ghost use Rattle.table_load.specs.declared.end.LoadFault.{LoadFault};

    ghost from_gives = { λ refused fault. fault ≡ LoadFault.NoMemory };

    fn from(_refused: NoMemory) -> LoadFault {
        LoadFault::NoMemory
    }
}

impl From<StepError> for LoadFault {
    ghost use Rattle.table_load.specs.Faults.{step_fault};

    ghost from_gives = { λ why fault. fault ≡ step_fault why };

    fn from(why: StepError) -> LoadFault {
        match why {
            StepError::Spent => LoadFault::Spent,
            StepError::NoMemory => LoadFault::NoMemory,
        }
    }
}

impl From<SweepEnd> for LoadFault {
    ghost use Rattle.table_load.specs.Faults.{sweep_fault};

    ghost from_gives = { λ why fault. fault ≡ sweep_fault why };

    fn from(why: SweepEnd) -> LoadFault {
        match why {
            SweepEnd::Stopped => LoadFault::Stopped,
            SweepEnd::Spent => LoadFault::Spent,
            SweepEnd::NoMemory => LoadFault::NoMemory,
        }
    }
}
