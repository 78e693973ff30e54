//! The cells of a cluster in which nothing happened yet.

ghost use Rattle.std.specs.Prelude.{◌≡◌, ◌+◌, ◌≤◌, ℕ, [], Some, length, slice_get, IfOk};
ghost use Rattle.cluster.specs.Standing.{StandsFor};

use crate::cell::{CellOf, ClusterCell};
use base_types::Seq;
use control_cell::ControlCell;
use partition::PageRules;
use std::alloc::{AllocError as NoMemory, Global};

/// So many partitions, each in a box.
fn first_partitions<R: PageRules>(
    alloc: Global,
    partitions: u32,
) -> Result<Seq<Box<CellOf<R>>>, NoMemory>
    requires { 1 ≤ partitions }
    ensures count { IfOk result (λ cells. length cells ≡ partitions) }
    ensures stand { IfOk result (λ cells. (i : ℕ) (x : _) → slice_get cells i ≡ Some x → StandsFor (R.protocol partitions) R.locals i x.value []) }
{
    let mut cells = Vec::with_capacity(alloc, partitions as usize)?;
    for _place in 0..partitions {
        let partition = partition::new::<R>(alloc, partitions)?;
        let boxed = Box::new(alloc, ClusterCell::Partition(partition))?;
        cells.push(boxed)?;
    }
    Ok(Seq::from(cells))
}

/// So many partitions, and the control cell behind them.
pub(crate) fn first_cells<R: PageRules>(
    alloc: Global,
    partitions: u32,
) -> Result<Seq<Box<CellOf<R>>>, NoMemory>
    requires { 1 ≤ partitions }
    ensures count { IfOk result (λ cells. length cells ≡ partitions + 1) }
    ensures stand { IfOk result (λ cells. (i : ℕ) (x : _) → slice_get cells i ≡ Some x → StandsFor (R.protocol partitions) R.locals i x.value []) }
{
    let mut cells = first_partitions::<R>(alloc, partitions)?;
    let control = ControlCell::new(alloc)?;
    let boxed = Box::new(alloc, ClusterCell::Control(control))?;
    cells.push(boxed)?;
    Ok(cells)
}
