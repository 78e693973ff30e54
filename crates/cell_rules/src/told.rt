//! The answer to a question.

ghost use Rattle.std.specs.Prelude.{◌≡◌, ℕ, IfOk, Some};
ghost use Rattle.cell_model.specs.Pages.{index_number, page_index, page_part, told_of};
ghost use Rattle.cell_pages.specs.Walked.{shown_among};
ghost use Rattle.cell_entries.specs.Met.{AreEntriesOf};

use attr_value::SharedItem;
use cell_catalog::{table_numbered, told_named, told_names};
use cell_entries::{LocalEntry, items_page};
use cell_model::{Catalog, CatalogAnswer, CatalogQuestion, CellKey, PageQuestion};
use cell_pages::{Keeps, map_page, page_part};
use local_index::Claim;
use std::alloc::{AllocError as NoMemory, Global};
use std::collections::BTreeMap;

/// The answer to a question about the catalog, or a page of the rows of a cell, which are in the order of their keys.
pub(crate) fn told_of(
    alloc: Global,
    catalog: &Catalog,
    rows: &[(CellKey, SharedItem)],
    question: &CatalogQuestion,
) -> Result<CatalogAnswer, NoMemory>
    ensures { IfOk result (λ told. told ≡ told_of catalog.now rows.now question.now) }
{
    match question {
        CatalogQuestion::Look { name } => told_named(alloc, catalog, name),
        CatalogQuestion::Names { after, limit } => told_names(alloc, catalog, after, *limit),
        CatalogQuestion::Page(page) => {
            page_part(alloc, table_numbered(catalog, page.table), rows, page)
        }
    }
}

/// A page of an index, from the rows of it that a cell keeps.
fn rows_page<W: Keeps>(
    alloc: Global,
    catalog: &Catalog,
    rows: &BTreeMap<CellKey, W>,
    page: &PageQuestion,
) -> Result<CatalogAnswer, NoMemory>
    ensures { IfOk result (λ told. (index : ℕ) → index_number page.now.source ≡ Some index
        → told ≡ page_part catalog.now (shown_among W.shown rows.now.entries) page.now) }
{
    map_page(alloc, table_numbered(catalog, page.table), rows, page)
}

/// The answer to a page of an index, from the rows of it that a cell keeps.
pub(crate) fn told_of_rows<W: Keeps>(
    alloc: Global,
    catalog: &Catalog,
    rows: &BTreeMap<CellKey, W>,
    question: &CatalogQuestion,
) -> Result<CatalogAnswer, NoMemory>
    ensures { IfOk result (λ told. (index : ℕ) → page_index question.now ≡ Some index
        → told ≡ told_of catalog.now (shown_among W.shown rows.now.entries) question.now) }
{
    match question {
        CatalogQuestion::Look { name } => told_named(alloc, catalog, name),
        CatalogQuestion::Names { after, limit } => told_names(alloc, catalog, after, *limit),
        CatalogQuestion::Page(page) => rows_page(alloc, catalog, rows, page),
    }
}

/// The answer to a question about the catalog, or a page of the items of a cell, beside which it keeps their entries in the local
/// indexes of their tables.
pub(crate) fn told_of_items<W: Keeps>(
    alloc: Global,
    catalog: &Catalog,
    items: &BTreeMap<CellKey, W>,
    entries: &BTreeMap<LocalEntry, Claim>,
    question: &CatalogQuestion,
) -> Result<CatalogAnswer, NoMemory>
    ensures { IfOk result (λ told. AreEntriesOf W.shown catalog.now items.now entries.now
        → told ≡ told_of catalog.now (shown_among W.shown items.now.entries) question.now) }
{
    match question {
        CatalogQuestion::Look { name } => told_named(alloc, catalog, name),
        CatalogQuestion::Names { after, limit } => told_names(alloc, catalog, after, *limit),
        CatalogQuestion::Page(page) => items_page(alloc, catalog, items, entries, page),
    }
}
