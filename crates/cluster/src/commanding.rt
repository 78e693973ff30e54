//! What one cell does in a command.

ghost use Rattle.std.specs.Prelude.{ℕ, IfOk, OnOk};
ghost use Rattle.cluster.specs.Commanding.{CarriesPlanned, HasPlanned, IsControl, KeepsAll, TakesCatalog, TellsHolding, TellsPlan};
ghost use Rattle.cluster.specs.Standing.{StandsFor};
ghost use Rattle.txn_core.specs.Service.{History};

use crate::cell::{CellOf, ClusterCell};
use control_cell::CatalogPlan;
use partition::CommandRules;
use std::alloc::{AllocError as NoMemory, Global};

/// What the control cell's catalog says of a command at a moment, with the catalog afterwards.
pub(crate) fn plan_of<R: CommandRules>(
    alloc: Global,
    cell: &CellOf<R>,
    command: &R::Command,
    moment: u64,
) -> Result<CatalogPlan<R::Told, R::Catalog>, NoMemory>
    requires { IsControl cell.now }
    ensures { IfOk result (λ plan. (n : ℕ) → TellsPlan (R.protocol n) R.locals cell.now command.now moment plan) }
{
    let ClusterCell::Control(control) = cell else {
        unreachable!()
    };
    control.plan_catalog(alloc, command, moment)
}

/// The least number of the transactions that hold an item of a command's table in a partition; none, where no item of it is held.
pub(crate) fn holder_in<R: CommandRules>(cell: &CellOf<R>, command: &R::Command) -> Option<u64>
    ensures { (n : ℕ) → TellsHolding (R.protocol n) R.locals cell.now command.now result }
{
    match cell {
        ClusterCell::Partition(partition) => partition::first_holder::<R>(partition, command),
        ClusterCell::Control(_) => None,
    }
}

/// Plans a command in the partition whose number is `here`. Nothing else changes.
pub(crate) fn plan_in<R: CommandRules>(
    alloc: Global,
    cell: &mut CellOf<R>,
    here: u32,
    command: &R::Command,
    moment: u64,
) -> Result<(), NoMemory>
    ensures planned { OnOk result ((n : ℕ) (es : History (R.protocol n)) → StandsFor (R.protocol n) R.locals here cell.old es
        → HasPlanned (R.protocol n) R.locals R.target R.numbers here cell.new command.now moment) }
    ensures kept { (n : ℕ) → KeepsAll (R.protocol n) R.locals cell.old cell.new }
{
    match cell {
        ClusterCell::Partition(partition) => {
            partition::plan_catalog::<R>(alloc, partition, here, command, moment)
        }
        ClusterCell::Control(_) => Ok(()),
    }
}

/// Gives up what is planned in a partition.
pub(crate) fn abandon_in<R: CommandRules>(cell: &mut CellOf<R>)
    ensures { (n : ℕ) → KeepsAll (R.protocol n) R.locals cell.old cell.new }
{
    if let ClusterCell::Partition(partition) = cell {
        partition::abandon_catalog::<R>(partition);
    }
}

/// Carries out what is planned in a partition.
pub(crate) fn carry_out_in<R: CommandRules>(cell: &mut CellOf<R>)
    ensures { (n moment : ℕ) → CarriesPlanned (R.protocol n) R.locals R.target R.numbers cell.old cell.new moment }
{
    if let ClusterCell::Partition(partition) = cell {
        partition::commit_catalog::<R>(partition);
    }
}

/// Has the control cell take the catalog that a command makes.
pub(crate) fn take_catalog<R: CommandRules>(cell: &mut CellOf<R>, catalog: R::Catalog)
    ensures { (n moment : ℕ) → TakesCatalog (R.protocol n) R.locals cell.old cell.new moment catalog }
{
    if let ClusterCell::Control(control) = cell {
        control.commit_catalog(catalog);
    }
}
