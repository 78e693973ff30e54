//! Queries.

ghost use Rattle.std.specs.Prelude.{◌≡◌, ◌+◌, ◌≤◌, ℕ, [], IfOk};
ghost use Rattle.std.specs.Option.{option_copied};
ghost use Rattle.table_items.specs.Effects.{table_at};
ghost use Rattle.table_model.specs.Pages.{IsQueriedFrom};
ghost use Rattle.page_ranges.specs.AtKeys.{AreAtKeys};
ghost use Rattle.page_reads.specs.Sources.{source_in, HasNumber};
ghost use Rattle.page_reads.specs.Starts.{HasRange};
ghost use Rattle.table_pages.specs.Asked.{IsQueryOf, IsQueryPage, looked};
ghost use Rattle.table_pages.specs.Ranges.{IsStart};

use crate::page::Reading;
use key_condition::KeyRange;
use page_ranges::Span;
use page_reads::{QueryStart, Source, index_named, invalid, query_start};
use paging::Steps;
use row_keys::Position;
use std::alloc::{AllocError as NoMemory, Global};
use std::sync::ledger::Ledger;
use table_model::{Invalid, Reply};
use table_request::Query;
use table_rows::TableRows;

/// The page of the rows for whose keys the key condition is true, which has this range, from behind a position on.
fn page_of<'a, L: Ledger>(
    rows: &'a TableRows,
    alloc: Global,
    request: &'a Query,
    source: Source<'a>,
    range: &KeyRange,
    start: Option<&'a Position>,
    steps: &mut Steps<L>,
) -> Result<Reply, NoMemory>
    requires idle { rows.now.pending ≡ [] }
    requires keyed { AreAtKeys rows.now.schema rows.now.rows }
    requires number { HasNumber rows.now.schema source }
    requires start { IsStart (source_in source) (option_copied start) }
    requires truth { HasRange rows.now.schema request.now (source_in source) range.now }
    ensures reply { IfOk result (IsQueryPage rows.now request.now (source_in source.entry) (option_copied start.entry)) }
    ensures cost { IfOk result (λ reply. steps.new ≤ steps.old + looked reply + 1) }
{
    let span = Span::of_range(alloc, range)?;
    let reading = Reading {
        rows,
        request: &request.page,
        source,
        start,
        forward: request.forward,
    };
    let filled = reading.page_in(alloc, span, steps)?;
    filled.told(&request.page)
}

/// A Query of a source.
fn query_from<L: Ledger>(
    rows: &TableRows,
    alloc: Global,
    request: &Query,
    source: Source<'_>,
    steps: &mut Steps<L>,
) -> Result<Reply, NoMemory>
    requires idle { rows.now.pending ≡ [] }
    requires keyed { AreAtKeys rows.now.schema rows.now.rows }
    requires number { HasNumber rows.now.schema source }
    ensures reply { IfOk result (λ reply. (number : ℕ) → IsQueriedFrom (table_at number rows.now) request.now (source_in source.entry) reply) }
    ensures cost { IfOk result (λ reply. steps.new ≤ steps.old + looked reply + 1) }
{
    match query_start(alloc, rows.schema(), request, source)? {
        Err(why) => Ok(invalid(why)),
        Ok(begun) => {
            let QueryStart { range, start } = &begun;
            let reply = page_of(rows, alloc, request, source, range, start.as_ref(), steps);
            drop(begun);
            reply
        }
    }
}

/// Reads the rows of one partition key, page by page (API Reference: Query). The rows of the table stand at the keys of
/// their items, and no change is prepared.
///
/// It is refused where the index is not there, where what is asked of a global index is not kept there or can't be, where
/// the key condition is none, where the filter names the key, and where the start key is none of the partition.
///
/// Each row that it looks at is a step, and so is finding the end of the rows: it looks at no row behind those of its page.
pub fn query<L: Ledger>(
    rows: &TableRows,
    alloc: Global,
    request: &Query,
    steps: &mut Steps<L>,
) -> Result<Reply, NoMemory>
    requires idle { rows.now.pending ≡ [] }
    requires keyed { AreAtKeys rows.now.schema rows.now.rows }
    ensures reply { IfOk result (IsQueryOf rows.now request.now) }
    ensures cost { IfOk result (λ reply. steps.new ≤ steps.old + looked reply + 1) }
{
    let Some(name) = &request.page.index else {
        return query_from(rows, alloc, request, Source::Table, steps);
    };
    match index_named(rows.schema(), name) {
        Some(source) => query_from(rows, alloc, request, source, steps),
        None => Ok(invalid(Invalid::UnknownIndex(name.try_clone()?))),
    }
}
