//! What a cell keeps.

ghost use Rattle.std.specs.Prelude.{◌≡◌, ◌+◌, ◌≤◌, length};
ghost use Rattle.index_changes.specs.Prepared.{places_in};
ghost use Rattle.index_changes.specs.Places.{places_of};

use global_index::{IndexRows, Marks, Outbox};
use index_changes::{CatalogPlan, CellRules, PreparedChanges};
use item_store::ItemStore;
use local_index::LocalIndexes;
use txn_core::Rules;

/// A cell of tables. `K` is which item or which row of an index, `V` what it holds, `C` the catalog, and `N` an entry of a local
/// index.
///
/// Of the outbox as many places are set aside as changes are prepared and planned.
pub struct Partition<K: Ord, V, C, N: Ord> {
    pub(crate) partitions: u32,
    pub(crate) catalog: C,
    pub(crate) items: ItemStore<K, V>,
    pub(crate) locals: LocalIndexes<N>,
    pub(crate) outbox: Outbox<K, V>,
    pub(crate) prepared: PreparedChanges<K, V, N>,
    pub(crate) marks: Marks,
    pub(crate) rows: IndexRows<K, V>,
    pub(crate) planned: Option<CatalogPlan<K, V, C, N>>,
    ghost some: { 1 ≤ partitions },
    ghost sources: { length marks.last.items ≡ partitions },
    ghost places: { outbox.set_aside ≡ places_in prepared.lists + places_of planned },
}

// By hand, so that a crate above calls this one function where it would else prove again how all of it is let go.
impl<K: Ord + Drop, V: Drop, C: Drop, N: Ord + Drop> Drop for Partition<K, V, C, N> {
    fn drop(self) {
        let Partition {
            partitions: _,
            catalog: _,
            items: _,
            locals: _,
            outbox: _,
            prepared: _,
            marks: _,
            rows: _,
            planned: _,
        } = self;
    }
}

/// A cell under these rules.
pub type PartitionOf<R> = Partition<
    <R as Rules>::Key,
    <R as Rules>::Value,
    <R as Rules>::Catalog,
    <R as CellRules>::LocalEntry,
>;
