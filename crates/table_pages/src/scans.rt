//! Scans.

ghost use Rattle.std.specs.Prelude.{◌≡◌, ◌+◌, ◌≤◌, ℕ, [], IfOk};
ghost use Rattle.std.specs.Option.{option_copied};
ghost use Rattle.table_items.specs.Effects.{table_at};
ghost use Rattle.table_model.specs.Pages.{IsScannedFrom};
ghost use Rattle.page_ranges.specs.AtKeys.{AreAtKeys};
ghost use Rattle.table_pages.specs.Asked.{IsScanOf, IsScanPage, looked};
ghost use Rattle.table_pages.specs.Ranges.{IsStart};
ghost use Rattle.page_reads.specs.Sources.{source_in, HasNumber};

use crate::page::Reading;
use page_reads::{Source, index_named, invalid, scan_span, scan_start};
use paging::Steps;
use row_keys::Position;
use std::alloc::{AllocError as NoMemory, Global};
use std::sync::ledger::Ledger;
use table_model::{Invalid, Reply};
use table_request::Scan;
use table_rows::TableRows;

/// The page of the rows of a source, or of a segment of it, from behind a position on.
fn page_of<'a, L: Ledger>(
    rows: &'a TableRows,
    alloc: Global,
    request: &'a Scan,
    source: Source<'a>,
    start: Option<&'a Position>,
    steps: &mut Steps<L>,
) -> Result<Reply, NoMemory>
    requires idle { rows.now.pending ≡ [] }
    requires keyed { AreAtKeys rows.now.schema rows.now.rows }
    requires number { HasNumber rows.now.schema source }
    requires start { IsStart (source_in source) (option_copied start) }
    ensures reply { IfOk result (IsScanPage rows.now request.now (source_in source.entry) (option_copied start.entry)) }
    ensures cost { IfOk result (λ reply. steps.new ≤ steps.old + looked reply + 1) }
{
    let span = scan_span(alloc, request.segment)?;
    let reading = Reading {
        rows,
        request: &request.page,
        source,
        start,
        forward: true,
    };
    let filled = reading.page_in(alloc, span, steps)?;
    filled.told(&request.page)
}

/// A Scan of a source.
fn scan_from<L: Ledger>(
    rows: &TableRows,
    alloc: Global,
    request: &Scan,
    source: Source<'_>,
    steps: &mut Steps<L>,
) -> Result<Reply, NoMemory>
    requires idle { rows.now.pending ≡ [] }
    requires keyed { AreAtKeys rows.now.schema rows.now.rows }
    requires number { HasNumber rows.now.schema source }
    ensures reply { IfOk result (λ reply. (number : ℕ) → IsScannedFrom (table_at number rows.now) request.now (source_in source.entry) reply) }
    ensures cost { IfOk result (λ reply. steps.new ≤ steps.old + looked reply + 1) }
{
    match scan_start(alloc, rows.schema(), request, source)? {
        Err(why) => Ok(invalid(why)),
        Ok(start) => {
            let reply = page_of(rows, alloc, request, source, start.as_ref(), steps);
            drop(start);
            reply
        }
    }
}

/// Reads all rows, or those of a segment, page by page (API Reference: Scan). The rows of the table stand at the keys of
/// their items, and no change is prepared.
///
/// It is refused where the index is not there, where what is asked of a global index is not kept there or can't be, and
/// where the start key is none of the segment.
///
/// Each row that it looks at is a step, and so is finding the end of the rows: it looks at no row behind those of its page.
pub fn scan<L: Ledger>(
    rows: &TableRows,
    alloc: Global,
    request: &Scan,
    steps: &mut Steps<L>,
) -> Result<Reply, NoMemory>
    requires idle { rows.now.pending ≡ [] }
    requires keyed { AreAtKeys rows.now.schema rows.now.rows }
    ensures reply { IfOk result (IsScanOf rows.now request.now) }
    ensures cost { IfOk result (λ reply. steps.new ≤ steps.old + looked reply + 1) }
{
    let Some(name) = &request.page.index else {
        return scan_from(rows, alloc, request, Source::Table, steps);
    };
    match index_named(rows.schema(), name) {
        Some(source) => scan_from(rows, alloc, request, source, steps),
        None => Ok(invalid(Invalid::UnknownIndex(name.try_clone()?))),
    }
}
