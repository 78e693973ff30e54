//! The cells that a replay asks.

ghost use Rattle.std.specs.Prelude.{◌≤◌, [], IfOk};
ghost use Rattle.txn_replay.specs.Standing.{AllStand, EachStands};

use control_cell::ControlCell;
use partition::{CellRules, PartitionOf};
use std::alloc::{AllocError as NoMemory, Global};
use txn_core::Rules;

/// Partitions, the control cell and the tables that are there. `P` are the partitions, `L` is the control cell, and `C` are the
/// tables.
#[derive(Drop)]
pub(crate) struct Cells<P, L, C> {
    /// The partitions, in the order of their numbers.
    pub(crate) partitions: Vec<P>,
    /// The control cell.
    pub(crate) control: L,
    /// The tables, which the cells keep too and don't show.
    pub(crate) catalog: C,
}

/// Cells under these rules.
pub(crate) type CellsOf<R> = Cells<PartitionOf<R>, ControlCell<R>, <R as Rules>::Catalog>;

/// So many partitions in which nothing happened yet.
fn first_partitions<R: CellRules>(
    alloc: Global,
    partitions: u32,
) -> Result<Vec<PartitionOf<R>>, NoMemory>
    requires { 1 ≤ partitions }
    ensures { IfOk result (λ cells. EachStands (R.protocol partitions) R.locals cells.items []) }
{
    let mut cells = Vec::with_capacity(alloc, partitions as usize)?;
    for _place in 0..partitions {
        let cell = partition::new::<R>(alloc, partitions)?;
        cells.push(cell)?;
    }
    Ok(cells)
}

/// Cells in which nothing happened yet, of so many partitions.
pub(crate) fn first_cells<R: CellRules>(
    alloc: Global,
    partitions: u32,
) -> Result<CellsOf<R>, NoMemory>
    requires { 1 ≤ partitions }
    ensures { IfOk result (λ cells. AllStand (R.protocol partitions) R.locals cells []) }
{
    let partitions = first_partitions::<R>(alloc, partitions)?;
    let control = ControlCell::new(alloc)?;
    let catalog = R::no_table(alloc)?;
    Ok(Cells {
        partitions,
        control,
        catalog,
    })
}
