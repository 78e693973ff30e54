//! Where pages are asked, and of what.

ghost use Rattle.std.specs.Prelude.{◌≡◌, ◌≤◌, nat_eq};
ghost use Rattle.std.specs.List.{list_any};
ghost use Rattle.std.specs.Option.{option_copied};
ghost use Rattle.cell_model.specs.Catalogs.{index_numbers};
ghost use Rattle.cell_model.specs.Pages.{page_cell, index_number, page_index, has_source, has_source_in, serves};
ghost use Rattle.cell_rules.specs.PageLaws.{read_table};

use cell_catalog::{index_numbered, table_numbered};
use cell_model::{Catalog, CatalogQuestion, CatalogTable, PageSource};

/// The partition of a page of rows: the one that it names.
pub(crate) fn page_cell(partitions: u32, question: &CatalogQuestion) -> u32
    requires { 1 ≤ partitions }
    ensures { result ≡ page_cell partitions question.now }
{
    match question {
        CatalogQuestion::Page(page) => page.cell % partitions,
        CatalogQuestion::Look { .. } => 0,
        CatalogQuestion::Names { .. } => 0,
    }
}

/// The number of the global index whose rows they are.
fn index_number(source: PageSource) -> Option<u64>
    ensures { result ≡ index_number source }
{
    match source {
        PageSource::Global { number } => Some(number),
        PageSource::Table => None,
        PageSource::Local { .. } => None,
    }
}

/// The number of the global index that a page is of.
pub(crate) fn page_index(question: &CatalogQuestion) -> Option<u64>
    ensures { result ≡ page_index question.now }
{
    match question {
        CatalogQuestion::Page(page) => index_number(page.source),
        CatalogQuestion::Look { .. } => None,
        CatalogQuestion::Names { .. } => None,
    }
}

/// The number of the table that a page is of.
pub(crate) fn page_table(question: &CatalogQuestion) -> u64
    ensures { result ≡ read_table question.now }
{
    match question {
        CatalogQuestion::Page(page) => page.table,
        CatalogQuestion::Look { .. } => 0,
        CatalogQuestion::Names { .. } => 0,
    }
}

/// Whether the table has a global index of this number.
fn has_index(table: &CatalogTable, number: u64) -> bool
    ensures { result ≡ list_any (λ other. nat_eq other number) (index_numbers table.now) }
{
    index_numbered(table, number).is_some()
}

/// Whether the table has what is read.
fn has_source(table: &CatalogTable, source: PageSource) -> bool
    ensures { result ≡ has_source table.now source }
{
    match source {
        PageSource::Table => true,
        PageSource::Local { place } => place < table.schema.locals.len() as u64,
        PageSource::Global { number } => has_index(table, number),
    }
}

/// Whether a table that may be there has what is read.
fn has_source_in(table: Option<&CatalogTable>, source: PageSource) -> bool
    ensures { result ≡ has_source_in (option_copied table.entry) source }
{
    match table {
        Some(table) => has_source(table, source),
        None => false,
    }
}

/// Whether the catalog has the page's table and index.
pub(crate) fn serves(catalog: &Catalog, question: &CatalogQuestion) -> bool
    ensures { result ≡ serves catalog.now question.now }
{
    match question {
        CatalogQuestion::Page(page) => {
            has_source_in(table_numbered(catalog, page.table), page.source)
        }
        CatalogQuestion::Look { .. } => true,
        CatalogQuestion::Names { .. } => true,
    }
}
