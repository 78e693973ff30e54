//! The rows that entries stand for.

ghost use Rattle.std.specs.Prelude.{◌≡◌, IfOk, option_map};
ghost use Rattle.std.specs.Option.{option_copied};
ghost use Rattle.cell_pages.specs.Asked.{entry_of};
ghost use Rattle.cell_pages.specs.Walked.{asked_if};
ghost use Rattle.cell_entries.specs.Met.{item_in, item_under, position_of, row_met};

use crate::entry::LocalEntry;
use attr_value::SharedItem;
use cell_model::{CellKey, ItemKey, PageQuestion, PageRow};
use cell_pages::{EntryRows, Keeps, is_asked};
use local_index::Claim;
use row_keys::Position;
use std::alloc::AllocError as NoMemory;
use std::collections::BTreeMap;

/// Which local index: the number of its table, and its place among the table's.
#[derive(Clone, Copy, Drop)]
pub(crate) struct IndexPlace {
    pub table: u64,
    pub place: u64,
}

/// The item that a map shows under a key.
fn shown_under<W: Keeps>(
    items: &BTreeMap<CellKey, W>,
    key: &CellKey,
) -> Result<Option<SharedItem>, NoMemory>
    ensures { IfOk result (λ item. item ≡ item_under W.shown items.now key.now) }
{
    let Some(kept) = items.get(key) else {
        return Ok(None);
    };
    match kept.shown_item() {
        Some(item) => Ok(Some(item.share()?)),
        None => Ok(None),
    }
}

/// The item of a table that a map shows.
fn shown_in<W: Keeps>(
    items: &BTreeMap<CellKey, W>,
    table: u64,
    at: &Position,
) -> Result<Option<SharedItem>, NoMemory>
    ensures { IfOk result (λ item. item ≡ item_in W.shown items.now table at.now.item) }
{
    let key = CellKey::Item(ItemKey {
        table,
        key: at.item.try_clone()?,
    });
    let item = shown_under(items, &key);
    drop(key);
    item
}

/// The row at a position, with the item that stands there.
fn row_with(at: &Position, item: Option<SharedItem>) -> Result<Option<PageRow>, NoMemory>
    ensures { IfOk result (λ row. option_map entry_of row ≡ option_map (λ content. (at.now, content)) item) }
{
    match item {
        Some(item) => Ok(Some(PageRow {
            at: at.try_clone()?,
            item,
        })),
        None => Ok(None),
    }
}

/// Where an entry stands, where it is one of the index and the page is asked for the row there.
fn asked_position<'a>(
    index: IndexPlace,
    page: &PageQuestion,
    entry: &'a LocalEntry,
) -> Option<&'a Position>
    ensures { option_copied result ≡ asked_if page.now (position_of index.table index.place entry.now) }
{
    if entry.table == index.table && entry.index == index.place && is_asked(page, &entry.at) {
        Some(&entry.at)
    } else {
        None
    }
}

/// The rows of a local index, with the items that its entries name.
#[derive(Drop)]
pub(crate) struct IndexRows<'a, W> {
    pub index: IndexPlace,
    pub items: &'a BTreeMap<CellKey, W>,
}

/// An entry stands for a row where it is a committed item's, and one of the index.
impl<'a, W: Keeps> EntryRows<LocalEntry, Claim> for IndexRows<'a, W> {
    ghost picked = { λ rows page entry.
        row_met (item_in W.shown rows.items.now rows.index.table) rows.index.table rows.index.place page entry };

    fn picked(
        &self,
        page: &PageQuestion,
        entry: &LocalEntry,
        claim: &Claim,
    ) -> Result<Option<PageRow>, NoMemory> {
        let Some(at) = asked_position(self.index, page, entry) else {
            return Ok(None);
        };
        if !claim.is_committed() {
            return Ok(None);
        }
        row_with(at, shown_in(self.items, self.index.table, at)?)
    }
}
