//! What a command of the catalog will do to a cell, once it is worked out.

ghost use Rattle.std.specs.Prelude.{◌≡◌};

use index_feed::Change;
use item_store::TableItems;
use local_index::Claim;
use std::collections::BTreeMap;

/// A table that a command makes, with the items that come with it and live in this cell.
#[derive(Drop)]
pub struct MadeTable<K: Ord, V, N: Ord> {
    /// The table's number.
    pub number: u64,
    /// The items that come with it to this cell. No transaction holds one of them.
    pub items: TableItems<K, V>,
    /// The entries of these items in the table's local indexes.
    pub entries: BTreeMap<N, Claim>,
    ghost free: { items.held ≡ 0 },
}

/// What a command of the catalog will do to a cell.
#[derive(Drop)]
pub struct CatalogPlan<K: Ord, V, C, N: Ord> {
    /// The catalog afterwards.
    pub catalog: C,
    /// The number of the table that goes.
    pub dropped: Option<u64>,
    /// The numbers of the indexes that go.
    pub closed: Vec<u64>,
    /// The table that comes.
    pub made: Option<MadeTable<K, V, N>>,
    /// The rows of items in indexes that are new.
    pub changes: Vec<Change<K, V>>,
}
