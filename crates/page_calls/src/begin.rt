//! What is asked first for a page.

ghost use Rattle.std.specs.Prelude.{◌≡◌, ◌+◌, ◌<◌, IfOk};
ghost use Rattle.page_reads.specs.Sources.{source_in, HasPlace};
ghost use Rattle.page_calls.specs.Asked.{a_query, a_scan, query_cell};
ghost use Rattle.page_calls.specs.Steps.{asked_of, BeginsOr, IsWithin, QueryBegins, ScanBegins};

use crate::asked::Asked;
use crate::place::{cell_of_row, first_cell, page_source};
use cell_asks::Asks;
use cell_model::{PageQuestion, PageRoom, TableLook};
use item_keys::place;
use key_condition::KeyRange;
use page_ranges::Span;
use page_reads::{QueryStart, Source, query_start, scan_span, scan_start};
use row_keys::{Position, RowKey, SortPoint};
use std::alloc::AllocError as NoMemory;
use table_model::Invalid;
use table_request::{Query, Scan};

/// What is asked first for a page.
#[derive(Drop)]
pub(crate) struct Beginning {
    pub first: PageQuestion,
    /// How many cells behind its cell the page may go on to.
    pub behind: u32,
}

/// What is asked first for a Scan of a source, from behind a position or from the first row.
fn scan_first<C: Asks>(
    cells: &C,
    look: &TableLook,
    request: &Scan,
    source: Source<'_>,
    start: Option<Position>,
) -> Result<Beginning, NoMemory>
    requires place { HasPlace look.now.schema source }
    ensures begins { IfOk result (ScanBegins (C.count cells.now) look.now request.now (source_in source.entry) start) }
    ensures within { IfOk result IsWithin }
{
    let cell = first_cell(cells, look.number, start.as_ref())?;
    let place = page_source(look, source)?;
    let span = scan_span(cells.alloc(), request.segment)?;
    let first = PageQuestion {
        cell,
        table: look.number,
        source: place,
        span,
        forward: true,
        after: start,
        room: PageRoom::whole(request.page.limit),
    };
    let behind = cells.partitions().saturating_sub(cell).saturating_sub(1);
    Ok(Beginning { first, behind })
}

/// The cell of the rows that a range may have.
fn range_cell<C: Asks>(cells: &C, table: u64, range: &KeyRange) -> Result<u32, NoMemory>
    ensures cell { IfOk result (λ cell. cell ≡ query_cell (C.count cells.now) range.now) }
    ensures next { IfOk result (λ cell. cell < u32.MAX) }
{
    let key = RowKey {
        place: place(cells.alloc(), &range.partition)?,
        partition: range.partition.try_clone()?,
        sort: SortPoint::Least,
    };
    Ok(cell_of_row(cells, table, key))
}

/// What is asked first for a Query of a source that begins so.
fn query_first<C: Asks>(
    cells: &C,
    look: &TableLook,
    request: &Query,
    source: Source<'_>,
    begun: QueryStart,
) -> Result<Beginning, NoMemory>
    requires place { HasPlace look.now.schema source }
    ensures begins { IfOk result (QueryBegins (C.count cells.now) look.now request.now (source_in source.entry) begun) }
    ensures within { IfOk result IsWithin }
{
    let QueryStart { range, start } = begun;
    let cell = range_cell(cells, look.number, &range)?;
    let place = page_source(look, source)?;
    let span = Span::of_range(cells.alloc(), &range)?;
    drop(range);
    let first = PageQuestion {
        cell,
        table: look.number,
        source: place,
        span,
        forward: request.forward,
        after: start,
        room: PageRoom::whole(request.page.limit),
    };
    Ok(Beginning { first, behind: 0 })
}

/// What is asked first for a Scan, or why it is refused.
fn begin_scan<C: Asks>(
    cells: &C,
    look: &TableLook,
    request: &Scan,
    source: Source<'_>,
) -> Result<Result<Beginning, Invalid>, NoMemory>
    requires place { HasPlace look.now.schema source }
    ensures begins { IfOk result (BeginsOr (C.count cells.now) look.now (a_scan request.now) (source_in source.entry)) }
    ensures within { IfOk result (λ begun. IfOk begun IsWithin) }
{
    match scan_start(cells.alloc(), &look.schema, request, source)? {
        Ok(start) => Ok(Ok(scan_first(cells, look, request, source, start)?)),
        Err(why) => Ok(Err(why)),
    }
}

/// What is asked for a Query, or why it is refused.
fn begin_query<C: Asks>(
    cells: &C,
    look: &TableLook,
    request: &Query,
    source: Source<'_>,
) -> Result<Result<Beginning, Invalid>, NoMemory>
    requires place { HasPlace look.now.schema source }
    ensures begins { IfOk result (BeginsOr (C.count cells.now) look.now (a_query request.now) (source_in source.entry)) }
    ensures within { IfOk result (λ begun. IfOk begun IsWithin) }
{
    match query_start(cells.alloc(), &look.schema, request, source)? {
        Ok(start) => Ok(Ok(query_first(cells, look, request, source, start)?)),
        Err(why) => Ok(Err(why)),
    }
}

/// What is asked first for a page of a source, or why the request is refused.
pub(crate) fn begin<C: Asks>(
    cells: &C,
    look: &TableLook,
    asked: Asked<'_>,
    source: Source<'_>,
) -> Result<Result<Beginning, Invalid>, NoMemory>
    requires place { HasPlace look.now.schema source }
    ensures begins { IfOk result (BeginsOr (C.count cells.now) look.now (asked_of asked.entry) (source_in source.entry)) }
    ensures within { IfOk result (λ begun. IfOk begun IsWithin) }
{
    match asked {
        Asked::Scan(request) => begin_scan(cells, look, request, source),
        Asked::Query(request) => begin_query(cells, look, request, source),
    }
}
