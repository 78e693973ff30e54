//! The cells that are left where a cluster is closed.

ghost use Rattle.std.specs.Prelude.{◌≡◌, ◌+◌, ◌-◌, ◌≤◌, ℕ, [], Some, length, map, slice_get, vec_capacity};
ghost use Rattle.cluster.specs.Standing.{IsInPlace, IsPartition};
ghost use Rattle.cluster.specs.declared.cell.ClusterCell.{ClusterCell};

use crate::cell::{CellOf, ClusterCell};
use base_types::Seq;
use control_cell::ControlCell;
use partition::{PageRules, PartitionOf};

/// The cells after all steps.
pub struct Cells<R: PageRules> {
    /// The partitions, in the order of their numbers.
    pub partitions: Seq<PartitionOf<R>>,
    /// The control cell.
    pub ledger: ControlCell<R>,
}

impl<R: PageRules> Drop for Cells<R> {
    fn drop(self) {
        let Self {
            partitions: _,
            ledger: _,
        } = self;
    }
}

/// The partitions out of their boxes. There is room for them.
fn unpacked<R: PageRules>(
    cells: Vec<Box<CellOf<R>>>,
    room: Vec<PartitionOf<R>>,
) -> Vec<PartitionOf<R>>
    requires all { (i : ℕ) (b : _) → slice_get cells.items i ≡ Some b → IsPartition b.value }
    requires room { (room.items ≡ []) × (length cells.items ≤ vec_capacity room) }
    ensures { map (λ b. b.value) cells.items ≡ map ClusterCell.Partition result.items }
{
    let mut partitions = room;
    for cell in cells {
        let ClusterCell::Partition(partition) = Box::into_inner(cell) else {
            unreachable!()
        };
        let Ok(()) = partitions.push(partition) else {
            unreachable!()
        };
    }
    partitions
}

/// The partitions and, from behind them, the control cell. There is room for the partitions.
pub(crate) fn split<R: PageRules>(cells: Vec<Box<CellOf<R>>>, room: Vec<PartitionOf<R>>) -> Cells<R>
    requires some { 1 ≤ length cells.items }
    requires kinds { (i : ℕ) (b : _) → slice_get cells.items i ≡ Some b → IsInPlace (length cells.items - 1) i b.value }
    requires room { (room.items ≡ []) × (length cells.items ≤ vec_capacity room + 1) }
    ensures count { length result.partitions + 1 ≡ length cells.items }
    ensures partitions { (i : ℕ) (x : _) → slice_get result.partitions i ≡ Some x
        → (b : _) × (slice_get cells.items i ≡ Some b) × (b.value ≡ ClusterCell.Partition x) }
    ensures ledger { (b : _) × (slice_get cells.items (length result.partitions) ≡ Some b) × (b.value ≡ ClusterCell.Control result.ledger) }
{
    let mut cells = cells;
    let Some(last) = cells.pop() else {
        unreachable!()
    };
    let ClusterCell::Control(ledger) = Box::into_inner(last) else {
        unreachable!()
    };
    let partitions = unpacked::<R>(cells, room);
    Cells {
        partitions: Seq::from(partitions),
        ledger,
    }
}
