ghost use Rattle.std.specs.Prelude.{◌≡◌, ℕ, List, nat_eq, filter, IfOk, Some};
ghost use Rattle.partition.specs.Pages.{AreEntriesOf, committed_among};

use index_changes::CellRules;
use item_store::Slot;
use local_index::Claim;
use std::alloc::{AllocError as NoMemory, Global};
use std::collections::BTreeMap;

/// What a cell needs to know of pages beside [`CellRules`]: what a page tells of the items of its table, and of the rows of
/// its index, both as the cell keeps them, in order, so that a page looks at no more of them than it needs.
pub trait PageRules: CellRules {
    /// The number of the table that a page is of.
    ghost read_table: { Self.Question → ℕ };

    /// The number of the table that a page is of.
    fn page_table(page: &Self::Question) -> u64
        ensures { result ≡ read_table page.now };

    /// What a page tells of a cell's items, of which only the committed ones count. Beside them it is lent the entries of the
    /// table in its local indexes, of which it may walk those of one index in its order; said is what it tells where the
    /// committed entries are exactly those of the committed items.
    fn page_of_items(
        alloc: Global,
        catalog: &Self::Catalog,
        items: &BTreeMap<Self::Key, Slot<Self::Value>>,
        entries: &BTreeMap<Self::LocalEntry, Claim>,
        page: &Self::Question,
    ) -> Result<Self::Told, NoMemory>
        ensures { IfOk result (λ told. (partitions : ℕ)
            → AreEntriesOf Self.locals Self.Key.cmp Self.LocalEntry.cmp catalog.now items.now entries.now
            → told ≡ (Self.protocol partitions).page catalog.now (committed_among items.now.entries) page.now) };

    /// What a page of an index tells of a cell's rows of it.
    fn page_of_rows(
        alloc: Global,
        catalog: &Self::Catalog,
        rows: &BTreeMap<Self::Key, Self::Value>,
        page: &Self::Question,
    ) -> Result<Self::Told, NoMemory>
        ensures { IfOk result (λ told. (partitions index : ℕ)
            → (Self.protocol partitions).page_index page.now ≡ Some index
            → told ≡ (Self.protocol partitions).page catalog.now rows.now.entries page.now) };

    /// Rows of other tables count for nothing in a page.
    ghost own_rows: { (partitions : ℕ) (catalog : Self.Catalog) (rows : List (Self.Key × Self.Value)) (page : Self.Question)
        → (Self.protocol partitions).page catalog rows page
        ≡ (Self.protocol partitions).page catalog
        (filter (λ row. nat_eq ((Self.protocol partitions).core.table row.0) (read_table page)) rows) page };
}
