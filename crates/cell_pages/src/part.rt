//! A page.

ghost use Rattle.std.specs.Prelude.{◌≡◌, ◌+◌, [], length, map, reverse, IfOk, IfNone, IfSome};
ghost use Rattle.std.specs.Option.{option_copied};
ghost use Rattle.std.specs.BTreeMap.Range.{is_from_start, is_past_end};
ghost use Rattle.row_keys.specs.Keys.{row_order};
ghost use Rattle.page_ranges.specs.Span.{is_inside, low_end, high_end};
ghost use Rattle.cell_model.specs.declared.question.PageSource.TheVariants.{Local};
ghost use Rattle.cell_model.specs.Pages.{page_row, source_rows, rows_in, is_over, room_behind, part_of};
ghost use Rattle.cell_pages.specs.Asked.{is_behind, is_asked, left, left_with, part_in, part_of_rows};
ghost use Rattle.row_keys.specs.Rows.{Entries};

use crate::local::local_rows;
use crate::rows::{Kept, kept_rows};
use attr_value::SharedItem;
use base_types::Seq;
use cell_model::{CatalogAnswer, CatalogTable, PageQuestion, PageRoom, PageRow, PageSource};
use page_ranges::Span;
use row_keys::{Position, RowKey};
use std::alloc::{AllocError as NoMemory, Global};

/// The rows of a source, in the order of their keys there.
fn source_rows(
    alloc: Global,
    table: &CatalogTable,
    source: PageSource,
    kept: &[Kept],
) -> Result<Seq<PageRow>, NoMemory>
    ensures { IfOk result (λ list. list ≡ map page_row (source_rows table.now source kept.now)) }
{
    match source {
        PageSource::Table => kept_rows(alloc, table.number, source, kept),
        PageSource::Global { .. } => kept_rows(alloc, table.number, source, kept),
        PageSource::Local { place } => local_source_rows(alloc, table, place, kept),
    }
}

/// The rows of the local index at a place among the schema's, in its order: none, where there are not so many.
fn local_source_rows(
    alloc: Global,
    table: &CatalogTable,
    place: u64,
    kept: &[Kept],
) -> Result<Seq<PageRow>, NoMemory>
    ensures { IfOk result (λ list. list ≡ map page_row (source_rows table.now (Local place) kept.now)) }
{
    match table.schema.locals.get(place as usize) {
        Some(index) => local_rows(alloc, &table.schema, index, table.number, kept),
        None => Ok(Seq::new(alloc)),
    }
}

/// The same of a table that may not be there.
fn rows_in(
    alloc: Global,
    table: Option<&CatalogTable>,
    source: PageSource,
    kept: &[Kept],
) -> Result<Seq<PageRow>, NoMemory>
    ensures { IfOk result (λ list. list ≡ map page_row (rows_in (option_copied table.entry) source kept.now)) }
{
    match table {
        Some(table) => source_rows(alloc, table, source, kept),
        None => Ok(Seq::new(alloc)),
    }
}

/// Whether the page has as many rows or bytes as it may.
pub(crate) fn is_over(room: PageRoom) -> bool
    ensures { result ≡ is_over room }
{
    room.rows == Some(0) || room.bytes == 0
}

/// What a page may still take after one more row.
pub(crate) fn room_behind(room: PageRoom, item: &SharedItem) -> PageRoom
    ensures { result ≡ room_behind room item.now }
{
    PageRoom {
        rows: match room.rows {
            Some(most) => Some(most.saturating_sub(1)),
            None => None,
        },
        bytes: room.bytes.saturating_sub(item.item().size()),
    }
}

/// Whether a key is inside this low end.
fn is_from(low: Option<&RowKey>, key: &RowKey) -> bool
    ensures { result ≡ is_from_start row_order (low_end (option_copied low.entry)) key.now }
{
    match low {
        Some(low) => low <= key,
        None => true,
    }
}

/// Whether a key is outside this high end.
fn is_past(high: Option<&RowKey>, key: &RowKey) -> bool
    ensures { result ≡ is_past_end row_order (high_end (option_copied high.entry)) key.now }
{
    match high {
        Some(high) => high <= key,
        None => false,
    }
}

/// Whether a key is inside a span.
fn is_inside(span: &Span, key: &RowKey) -> bool
    ensures { result ≡ is_inside span.now key.now }
{
    is_from(span.low.as_ref(), key) && !is_past(span.high.as_ref(), key)
}

/// Whether a walk in this direction meets the position after the place where it was, if it was at one.
fn is_behind(forward: bool, after: Option<&Position>, at: &Position) -> bool
    ensures { result ≡ is_behind forward (option_copied after.entry) at.now }
{
    match after {
        None => true,
        Some(place) if forward => place < at,
        Some(place) => at < place,
    }
}

/// Whether a page is asked for the row at the position.
pub fn is_asked(page: &PageQuestion, at: &Position) -> bool
    ensures { result ≡ is_asked page.now at.now }
{
    is_inside(&page.span, &at.read) && is_behind(page.forward, page.after.as_ref(), at)
}

/// The rows the other way round.
fn reversed(alloc: Global, mut rows: Seq<PageRow>) -> Result<Seq<PageRow>, NoMemory>
    ensures { IfOk result (λ list. list ≡ reverse rows) }
{
    let mut list = Seq::new(alloc);
    while let Some(row) = rows.pop() {
        list.push(row)?;
    }
    Ok(list)
}

/// The last of the rows, unless the page is over.
fn next_row(page: &PageQuestion, room: PageRoom, rest: &mut Seq<PageRow>) -> Option<PageRow>
    ensures none { IfNone result (left page.now room rest.old ≡ []) }
    ensures row { IfSome result (λ row. left page.now room rest.old ≡ left_with page.now room row rest.new) }
    ensures fewer { IfSome result (λ row. length rest.old ≡ length rest.new + 1) }
{
    if is_over(room) {
        return None;
    }
    rest.pop()
}

/// The page of these rows, which it meets from the last one on.
fn part(
    alloc: Global,
    page: &PageQuestion,
    mut rest: Seq<PageRow>,
) -> Result<CatalogAnswer, NoMemory>
    ensures { IfOk result (λ answer. answer ≡ part_of page.now.room (left page.now page.now.room rest)) }
{
    let mut rows = Seq::new(alloc);
    let mut room = page.room;
    while let Some(row) = next_row(page, room, &mut rest) {
        if is_asked(page, &row.at) {
            room = room_behind(room, &row.item);
            rows.push(row)?;
        } else {
            drop(row);
        }
    }
    let stopped = is_over(room);
    Ok(CatalogAnswer::Part {
        rows,
        room,
        stopped,
    })
}

/// A page that has no row.
pub fn no_row(alloc: Global, page: &PageQuestion) -> CatalogAnswer
    ensures { result ≡ part_of page.now.room [] }
{
    CatalogAnswer::Part {
        rows: Seq::new(alloc),
        room: page.room,
        stopped: is_over(page.room),
    }
}

/// The page of these rows, which are in order.
pub(crate) fn part_in_order(
    alloc: Global,
    page: &PageQuestion,
    rows: Seq<PageRow>,
) -> Result<CatalogAnswer, NoMemory>
    ensures { IfOk result (λ answer. (entries : Entries) → rows ≡ map page_row entries → answer ≡ part_of_rows page.now entries) }
{
    if page.forward {
        return part(alloc, page, reversed(alloc, rows)?);
    }
    part(alloc, page, rows)
}

/// A page of the rows of one cell, which are all that it keeps, in the order of keys: the items, or for a page of a global
/// index the rows of that index. Where the table is not there the page has no row.
///
/// It goes over all that is kept; the rows of a local index are put in order. `NoMemory` is for want of memory.
pub fn page_part(
    alloc: Global,
    table: Option<&CatalogTable>,
    kept: &[Kept],
    page: &PageQuestion,
) -> Result<CatalogAnswer, NoMemory>
    ensures { IfOk result (λ answer. answer ≡ part_in (option_copied table.entry) kept.now page.now) }
{
    let rows = rows_in(alloc, table, page.source, kept)?;
    part_in_order(alloc, page, rows)
}
