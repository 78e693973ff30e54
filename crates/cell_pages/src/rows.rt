//! The rows of a table or of a global index, among all that a cell keeps.

ghost use Rattle.std.specs.Prelude.{◌≡◌, ◌++◌, map, option_map, filter_map, option_to_list, IfOk, OnOk};
ghost use Rattle.cell_model.specs.Pages.{page_row};
ghost use Rattle.cell_pages.specs.Walked.{position_under, row_under};

use attr_value::SharedItem;
use base_types::Seq;
use cell_model::{CellKey, IndexRowKey, ItemKey, PageRow, PageSource};
use row_keys::Position;
use std::alloc::{AllocError as NoMemory, Global};

/// What a cell keeps, at one key.
pub(crate) type Kept = (CellKey, SharedItem);

/// Where an item of the table stands, where that is what is read.
fn position_of_item(
    table: u64,
    source: PageSource,
    key: &ItemKey,
) -> Result<Option<Position>, NoMemory>
    ensures { IfOk result (λ at. at ≡ position_under table source (CellKey.Item key.now)) }
{
    match source {
        PageSource::Table if key.table == table => Ok(Some(Position {
            read: key.key.try_clone()?,
            item: key.key.try_clone()?,
        })),
        _ => Ok(None),
    }
}

/// Where a row of the index stands, where that is what is read.
fn position_of_row(
    table: u64,
    source: PageSource,
    key: &IndexRowKey,
) -> Result<Option<Position>, NoMemory>
    ensures { IfOk result (λ at. at ≡ position_under table source (CellKey.Row key.now)) }
{
    match source {
        PageSource::Global { number } if key.table == table && key.index == number => {
            Ok(Some(key.at.try_clone()?))
        }
        _ => Ok(None),
    }
}

/// Where a row of the source stands that is kept under a key, if it is one.
pub(crate) fn position_under(
    table: u64,
    source: PageSource,
    key: &CellKey,
) -> Result<Option<Position>, NoMemory>
    ensures { IfOk result (λ at. at ≡ position_under table source key.now) }
{
    match key {
        CellKey::Item(key) => position_of_item(table, source, key),
        CellKey::Row(key) => position_of_row(table, source, key),
    }
}

/// The kept one as a row of the source, where it is one.
fn kept_row(table: u64, source: PageSource, kept: &Kept) -> Result<Option<PageRow>, NoMemory>
    ensures { IfOk result (λ row. row ≡ option_map page_row (row_under table source kept.now)) }
{
    let (key, item) = kept;
    let Some(at) = position_under(table, source, key)? else {
        return Ok(None);
    };
    Ok(Some(PageRow {
        at,
        item: item.share()?,
    }))
}

/// Adds a row, where there is one.
fn add(list: &mut Seq<PageRow>, row: Option<PageRow>) -> Result<(), NoMemory>
    ensures { OnOk result (list.new ≡ list.old ++ option_to_list row) }
{
    if let Some(row) = row {
        list.push(row)?;
    }
    Ok(())
}

/// The rows of a table or of a global index, in the order in which they are kept.
pub(crate) fn kept_rows(
    alloc: Global,
    table: u64,
    source: PageSource,
    kept: &[Kept],
) -> Result<Seq<PageRow>, NoMemory>
    ensures { IfOk result (λ list. list ≡ map page_row (filter_map (row_under table source) kept.now)) }
{
    let mut list = Seq::new(alloc);
    for one in kept {
        add(&mut list, kept_row(table, source, one)?)?;
    }
    Ok(list)
}
