//! A page of the items of a cell.

ghost use Rattle.std.specs.Prelude.{◌≡◌, Some, IfOk};
ghost use Rattle.cell_model.specs.declared.question.PageSource.TheVariants.{Local};
ghost use Rattle.cell_model.specs.Pages.{page_part};
ghost use Rattle.cell_pages.specs.Walked.{page_along, shown_among};
ghost use Rattle.cell_entries.specs.Met.{AreEntriesOf, IsLocalPart, item_in, row_met};

use crate::ends::entry_ends;
use crate::entry::LocalEntry;
use crate::row::{IndexPlace, IndexRows};
use cell_catalog::table_numbered;
use cell_model::{Catalog, CatalogAnswer, CatalogTable, CellKey, PageQuestion, PageSource};
use cell_pages::{Keeps, map_page, no_row, page_between};
use local_index::Claim;
use std::alloc::{AllocError as NoMemory, Global};
use std::collections::BTreeMap;

/// The page of the entries of an index.
fn walked<W: Keeps>(
    alloc: Global,
    index: IndexPlace,
    items: &BTreeMap<CellKey, W>,
    entries: &BTreeMap<LocalEntry, Claim>,
    page: &PageQuestion,
) -> Result<CatalogAnswer, NoMemory>
    ensures { IfOk result (λ answer. answer
        ≡ page_along (row_met (item_in W.shown items.now index.table) index.table index.place page.now) page.now entries.now.entries) }
{
    let ends = entry_ends(alloc, index, page)?;
    let rows = IndexRows { index, items };
    let part = page_between(alloc, &rows, entries, &ends, page);
    drop(ends);
    part
}

/// A page of the local index at a place among those of a table. It has no row where the table has not so many indexes.
fn local_page<W: Keeps>(
    alloc: Global,
    table: &CatalogTable,
    place: u64,
    items: &BTreeMap<CellKey, W>,
    entries: &BTreeMap<LocalEntry, Claim>,
    page: &PageQuestion,
) -> Result<CatalogAnswer, NoMemory>
    ensures { IfOk result (λ answer. IsLocalPart W.shown table.now place items.now entries.now page.now answer) }
{
    if table.schema.locals.get(place as usize).is_none() {
        return Ok(no_row(alloc, page));
    }
    // What `len` tells of a map: that its keys ascend.
    let _ = items.len();
    let _ = entries.len();
    let index = IndexPlace {
        table: table.number,
        place,
    };
    walked(alloc, index, items, entries, page)
}

/// A page of the local index at a place among those of the page's table. It has no row where the table is not there.
fn page_of_local<W: Keeps>(
    alloc: Global,
    catalog: &Catalog,
    place: u64,
    items: &BTreeMap<CellKey, W>,
    entries: &BTreeMap<LocalEntry, Claim>,
    page: &PageQuestion,
) -> Result<CatalogAnswer, NoMemory>
    ensures { IfOk result (λ answer. page.now.source ≡ PageSource.Local place
        → AreEntriesOf W.shown catalog.now items.now entries.now
        → answer ≡ page_part catalog.now (shown_among W.shown items.now.entries) page.now) }
{
    match table_numbered(catalog, page.table) {
        Some(table) => local_page(alloc, table, place, items, entries, page),
        None => Ok(no_row(alloc, page)),
    }
}

/// A page of the items of a cell, from the map in which the cell keeps those of a table and the one of their entries in the
/// table's local indexes.
///
/// A page of the table's own rows is walked along the items. One of a local index is walked along the index's entries, from where
/// the page goes on; it passes over entries that are not of committed items, and looks up no more items than it takes. `NoMemory`
/// is for want of memory.
pub fn items_page<W: Keeps>(
    alloc: Global,
    catalog: &Catalog,
    items: &BTreeMap<CellKey, W>,
    entries: &BTreeMap<LocalEntry, Claim>,
    page: &PageQuestion,
) -> Result<CatalogAnswer, NoMemory>
    ensures { IfOk result (λ answer. AreEntriesOf W.shown catalog.now items.now entries.now
        → answer ≡ page_part catalog.now (shown_among W.shown items.now.entries) page.now) }
{
    match page.source {
        PageSource::Table => map_page(alloc, table_numbered(catalog, page.table), items, page),
        PageSource::Global { .. } => {
            map_page(alloc, table_numbered(catalog, page.table), items, page)
        }
        PageSource::Local { place } => {
            page_of_local(alloc, catalog, place, items, entries, page)
        }
    }
}
