//! What lies behind a turn.

use control_cell::ControlCell;
use partition::PartitionOf;

/// A cell of a cluster. `P` are the partitions and `L` is the control cell.
#[derive(Drop)]
pub enum ClusterCell<P, L> {
    /// One of the partitions.
    Partition(P),
    /// The control cell.
    Control(L),
}

/// A cell under these rules.
pub type CellOf<R> = ClusterCell<PartitionOf<R>, ControlCell<R>>;
