ghost use Rattle.std.specs.Prelude.{◌≡◌, ℕ, IfOk, List};

use crate::rules::CellRules;
use std::alloc::{AllocError as NoMemory, Global};

/// What a command of the catalog does to tables. It is on one table at most.
#[derive(Clone, Copy, Drop)]
pub enum TableChange {
    /// It makes a table, which gets this number.
    Makes {
        /// The table's number.
        number: u64,
    },
    /// It takes the table of this number away.
    Drops {
        /// The table's number.
        number: u64,
    },
    /// It changes the table of this number, which stays.
    Alters {
        /// The table's number.
        number: u64,
    },
    /// It is on no table.
    Nothing,
}

impl TableChange {
    ghost use Rattle.index_changes.specs.Commands.{dropped_by, subject};

    /// The number of the table that is dropped or altered.
    pub fn subject(self) -> Option<u64>
        ensures { result ≡ subject self }
    {
        match self {
            TableChange::Drops { number } => Some(number),
            TableChange::Alters { number } => Some(number),
            TableChange::Makes { .. } | TableChange::Nothing => None,
        }
    }

    /// The number of the table that is dropped.
    pub(crate) fn dropped(self) -> Option<u64>
        ensures { result ≡ dropped_by self }
    {
        match self {
            TableChange::Drops { number } => Some(number),
            _ => None,
        }
    }
}

/// What a cell needs to know of the catalog's commands beside [`CellRules`]. The laws speak of the catalogs that commands make,
/// one after the other, of the first.
pub trait CommandRules: CellRules {
    ghost use Rattle.index_changes.specs.declared.command_rules.TableChange.{TableChange};
    ghost use Rattle.index_changes.specs.Commands.{AreCommandsLawful, KeepsEntries, subject};

    /// What holds of every catalog that commands make.
    ghost sound: { Self.Catalog → Type 0 };

    /// What a command does to tables.
    ghost target: { Self.Command → Self.Catalog → TableChange };

    /// The numbers of the indexes of a table.
    ghost numbers: { Self.Catalog → ℕ → List ℕ };

    /// What a command does to tables, by the catalog before it. `NoMemory` where no number is left for a table that it makes.
    fn on_table(command: &Self::Command, catalog: &Self::Catalog) -> Result<TableChange, NoMemory>
        ensures { IfOk result (λ change. change ≡ target command.now catalog.now) };

    /// The number of the table that a command drops or alters, by the catalog before it.
    fn subject_of(command: &Self::Command, catalog: &Self::Catalog) -> Option<u64>
        ensures { result ≡ subject (target command.now catalog.now) };

    /// The numbers of the indexes of the table of this number; none, where it is not there.
    fn table_indexes(
        alloc: Global,
        catalog: &Self::Catalog,
        table: u64,
    ) -> Result<Vec<u64>, NoMemory>
        ensures { IfOk result (λ indexes. indexes.items ≡ numbers catalog.now table) };

    /// What commands do to tables is what the protocol says, for every number of partitions.
    ghost commands: { (partitions : ℕ) → AreCommandsLawful (Self.protocol partitions) sound target numbers };

    /// A table that a command alters leaves its items the local entries that they had.
    ghost entries_stay: { (partitions : ℕ) → KeepsEntries (Self.protocol partitions) Self.locals sound target };
}
