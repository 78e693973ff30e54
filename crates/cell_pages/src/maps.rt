//! A page of what a cell keeps in an ordered map.

ghost use Rattle.std.specs.Prelude.{◌≡◌, Option, Some, IfOk};
ghost use Rattle.std.specs.Option.{option_copied};
ghost use Rattle.attr_value.specs.Tree.{Attributes};
ghost use Rattle.item_store.specs.Slots.{row_of};
ghost use Rattle.cell_pages.specs.Asked.{part_in};
ghost use Rattle.cell_pages.specs.Walked.{IsWalked, page_along, row_met, shown_among};

use crate::ends::{ends_of, keys_at};
use crate::part::{is_asked, no_row};
use crate::rows::position_under;
use crate::walk::{EntryRows, page_between};
use attr_value::SharedItem;
use cell_model::{CatalogAnswer, CatalogTable, CellKey, PageQuestion, PageRow, PageSource};
use item_store::Slot;
use std::alloc::{AllocError as NoMemory, Global};
use std::collections::BTreeMap;

/// What a map keeps under a key, of which an item is shown or none.
pub trait Keeps {
    /// The item that is shown.
    ghost shown: { Self → Option Attributes };

    /// The item that is shown.
    fn shown_item(&self) -> Option<&SharedItem>
        ensures { option_copied result ≡ shown self.now };
}

/// Of an item that is there or held, the committed one is shown.
impl Keeps for Slot<SharedItem> {
    ghost shown = { λ slot. row_of (Some slot) };

    fn shown_item(&self) -> Option<&SharedItem> {
        match &self.committed {
            Some(committed) => Some(&committed.item),
            None => None,
        }
    }
}

/// A row of an index is shown as it is.
impl Keeps for SharedItem {
    ghost shown = { λ item. Some item };

    fn shown_item(&self) -> Option<&SharedItem> {
        Some(self)
    }
}

/// The rows of a table, or of a global index of it, which stand under keys of their own.
#[derive(Drop)]
struct SourceRows {
    table: u64,
}

/// An item that is shown is a row where its key is one of the source that the page reads.
impl<W: Keeps> EntryRows<CellKey, W> for SourceRows {
    ghost picked = { λ rows page entry. row_met W.shown rows.table page entry };

    fn picked(
        &self,
        page: &PageQuestion,
        key: &CellKey,
        kept: &W,
    ) -> Result<Option<PageRow>, NoMemory> {
        let Some(item) = kept.shown_item() else {
            return Ok(None);
        };
        let Some(at) = position_under(self.table, page.source, key)? else {
            return Ok(None);
        };
        if !is_asked(page, &at) {
            return Ok(None);
        }
        Ok(Some(PageRow {
            at,
            item: item.share()?,
        }))
    }
}

/// The page of a table's own rows, or of the rows of a global index.
fn walked<W: Keeps>(
    alloc: Global,
    table: u64,
    map: &BTreeMap<CellKey, W>,
    page: &PageQuestion,
) -> Result<CatalogAnswer, NoMemory>
    ensures { IfOk result (λ answer. answer ≡ page_along (row_met W.shown table page.now) page.now map.now.entries) }
{
    let ends = keys_at(table, page.source, ends_of(alloc, page)?);
    let rows = SourceRows { table };
    let part = page_between(alloc, &rows, map, &ends, page);
    drop(ends);
    part
}

/// A page of the rows of one cell, from the ordered map in which the cell keeps them: its items, or for a page of a global
/// index the rows of that index. Where the table is not there the page has no row.
///
/// It is walked along the map from where it goes on, and looks at no more rows than it takes and one or two, of those that show
/// anything. The map has no order in which the rows of a local index stand, so it says nothing of these, and shows none.
/// `NoMemory` is for want of memory.
pub fn map_page<W: Keeps>(
    alloc: Global,
    table: Option<&CatalogTable>,
    cell: &BTreeMap<CellKey, W>,
    page: &PageQuestion,
) -> Result<CatalogAnswer, NoMemory>
    ensures { IfOk result (λ answer. IsWalked page.now.source → answer
        ≡ part_in (option_copied table.entry) (shown_among W.shown cell.now.entries) page.now) }
{
    let Some(table) = table else {
        return Ok(no_row(alloc, page));
    };
    match page.source {
        PageSource::Table => walked(alloc, table.number, cell, page),
        PageSource::Global { .. } => walked(alloc, table.number, cell, page),
        PageSource::Local { .. } => Ok(no_row(alloc, page)),
    }
}
