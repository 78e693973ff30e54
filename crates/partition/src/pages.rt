//! Pages of the items of a table, or of the rows of an index.

ghost use Rattle.std.specs.Prelude.{◌≡◌, ℕ, true, IfOk, Some};
ghost use Rattle.std.specs.Ordering.{nat_cmp};
ghost use Rattle.std.specs.BTreeMap.{get};
ghost use Rattle.partition.specs.InStep.{IsInStep};
ghost use Rattle.partition.specs.Pages.{AreEntriesIn, AreItemsOrdered, AreRowsOrdered, IsShownInOrder, SaysPage};
ghost use Rattle.partition.specs.Pages.{committed_among, items_of, paged, rows_of, shown_to};

use crate::cell::PartitionOf;
use crate::page_rules::PageRules;
use item_store::Slot;
use std::alloc::{AllocError as NoMemory, Global};
use std::collections::BTreeMap;
use txn_core::{Answer, Reply};

/// What a page tells of these items of its table, beside which it is lent the table's local entries.
fn told_beside<R: PageRules>(
    alloc: Global,
    cell: &PartitionOf<R>,
    items: &BTreeMap<R::Key, Slot<R::Value>>,
    table: u64,
    page: &R::Question,
) -> Result<R::Told, NoMemory>
    ensures { IfOk result (λ told. (n : ℕ) → AreEntriesIn R.locals R.Key.cmp R.LocalEntry.cmp cell.now.catalog items.now
        (get nat_cmp cell.now.locals.tables table)
        → told ≡ (R.protocol n).page cell.now.catalog (committed_among items.now.entries) page.now) }
{
    match cell.locals.table(table) {
        Some(entries) => R::page_of_items(alloc, &cell.catalog, items, entries, page),
        None => R::page_of_items(alloc, &cell.catalog, items, &BTreeMap::new(alloc), page),
    }
}

/// What a page tells of the committed items of its table, where the cell's local entries are in step with its items.
fn told_of_items<R: PageRules>(
    alloc: Global,
    cell: &PartitionOf<R>,
    page: &R::Question,
) -> Result<R::Told, NoMemory>
    ensures told { IfOk result (λ told. (n : ℕ) → IsInStep (R.protocol n) R.locals cell.now → told
        ≡ (R.protocol n).page cell.now.catalog (items_of (get nat_cmp cell.now.items.tables (R.read_table page.now))) page.now) }
    ensures ordered { AreItemsOrdered (get nat_cmp cell.now.items.tables (R.read_table page.now)) }
{
    let table = R::page_table(page);
    match cell.items.table(table) {
        Some(items) => {
            let slots = items.slots();
            // What `len` tells of a map: that its keys ascend.
            let _ = slots.len();
            told_beside::<R>(alloc, cell, slots, table, page)
        }
        None => told_beside::<R>(alloc, cell, &BTreeMap::new(alloc), table, page),
    }
}

/// What a page of an index tells of its rows.
fn told_of_rows<R: PageRules>(
    alloc: Global,
    cell: &PartitionOf<R>,
    index: u64,
    page: &R::Question,
) -> Result<R::Told, NoMemory>
    ensures told { IfOk result (λ told. (n : ℕ) → (R.protocol n).page_index page.now ≡ Some index → told
        ≡ (R.protocol n).page cell.now.catalog (rows_of (get nat_cmp cell.now.rows.indexes index)) page.now) }
    ensures ordered { AreRowsOrdered R.Key.cmp (get nat_cmp cell.now.rows.indexes index) }
{
    match cell.rows.index(index) {
        Some(rows) => {
            // What `len` tells of a map: that its keys ascend.
            let _ = rows.len();
            R::page_of_rows(alloc, &cell.catalog, rows, page)
        }
        None => R::page_of_rows(alloc, &cell.catalog, &BTreeMap::new(alloc), page),
    }
}

/// What a page tells of what the cell shows to it.
fn told<R: PageRules>(
    alloc: Global,
    cell: &PartitionOf<R>,
    page: &R::Question,
) -> Result<R::Told, NoMemory>
    ensures told { IfOk result (λ told. (n : ℕ) → IsInStep (R.protocol n) R.locals cell.now → told ≡ (R.protocol n).page cell.now.catalog
        (shown_to cell.now (R.read_table page.now) ((R.protocol n).page_index page.now)) page.now) }
    ensures ordered { (n : ℕ) → IsShownInOrder cell.now (R.read_table page.now) ((R.protocol n).page_index page.now) }
{
    match R::page_index(page) {
        None => told_of_items::<R>(alloc, cell, page),
        Some(index) => told_of_rows::<R>(alloc, cell, index, page),
    }
}

/// Answers a page by what the cell shows to it.
fn answer_page<R: PageRules>(
    alloc: Global,
    cell: &PartitionOf<R>,
    page: &R::Question,
) -> Result<Reply<R>, NoMemory>
    ensures says { IfOk result (λ a. (n : ℕ) → IsInStep (R.protocol n) R.locals cell.now
        → a ≡ paged (R.protocol n) cell.now (R.read_table page.now) page.now) }
    ensures ordered { (n : ℕ) → (R.protocol n).serves cell.now.catalog page.now ≡ true
        → IsShownInOrder cell.now (R.read_table page.now) ((R.protocol n).page_index page.now) }
{
    if !R::serves(&cell.catalog, page) {
        return Ok(Answer::Stale);
    }
    Ok(Answer::Part {
        told: told::<R>(alloc, cell, page)?,
    })
}

/// A QueryPage or a ScanPage: what a page tells of the cell's committed items, or of its rows of an index. What transactions
/// hold shows nowhere. It may find the items by their local entries, so these are to be in step with them.
pub fn page<R: PageRules>(
    alloc: Global,
    cell: &PartitionOf<R>,
    page: &R::Question,
) -> Result<Reply<R>, NoMemory>
    ensures { IfOk result (λ a. (n : ℕ) → SaysPage (R.protocol n) R.locals ((R.protocol n).page_cell page.now) cell.now page.now a) }
{
    answer_page::<R>(alloc, cell, page)
}
