//! A cell before anything happened in it.

ghost use Rattle.std.specs.Prelude.{◌≡◌, ◌≤◌, ℕ, [], IfOk};
ghost use Rattle.partition.specs.Holds.{Holds};
ghost use Rattle.partition.specs.InStep.{IsInStep};
ghost use Rattle.partition.specs.Says.{Stands, first_feed, first_state};

use crate::cell::{Partition, PartitionOf};
use global_index::{IndexRows, Marks, Outbox};
use index_changes::{CellRules, PreparedChanges};
use item_store::ItemStore;
use local_index::LocalIndexes;
use std::alloc::{AllocError as NoMemory, Global};

/// A cell without items under a catalog, of so many partitions.
pub fn under<R: CellRules>(
    alloc: Global,
    partitions: u32,
    catalog: R::Catalog,
) -> Result<PartitionOf<R>, NoMemory>
    requires { 1 ≤ partitions }
    ensures holds { IfOk result (λ cell. (n i : ℕ) → n ≡ partitions
        → Holds (R.protocol n) i cell (first_state (R.protocol n) catalog) (first_feed (R.protocol n) catalog)) }
    ensures in_step { IfOk result (λ cell. (n : ℕ) → IsInStep (R.protocol n) R.locals cell) }
{
    let marks = Marks::new(alloc, partitions)?;
    Ok(Partition {
        partitions,
        catalog,
        items: ItemStore::new(alloc),
        locals: LocalIndexes::new(alloc),
        outbox: Outbox::new(alloc),
        prepared: PreparedChanges::new(alloc),
        marks,
        rows: IndexRows::new(alloc),
        planned: None,
    })
}

/// A cell before anything happened, of so many partitions: there is no table.
pub fn new<R: CellRules>(alloc: Global, partitions: u32) -> Result<PartitionOf<R>, NoMemory>
    requires { 1 ≤ partitions }
    ensures stands { IfOk result (λ cell. (n i : ℕ) → n ≡ partitions → Stands (R.protocol n) i cell []) }
    ensures in_step { IfOk result (λ cell. (n : ℕ) → IsInStep (R.protocol n) R.locals cell) }
{
    let catalog = R::no_table(alloc)?;
    under::<R>(alloc, partitions, catalog)
}
