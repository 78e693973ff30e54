//! The page of the rows at keys in a range.

ghost use Rattle.std.specs.Prelude.{◌≡◌, ◌+◌, ◌≤◌, [], IfOk};
ghost use Rattle.std.specs.Option.{option_copied, option_map, ForSome};
ghost use Rattle.table_model.specs.Pages.{whole_table};
ghost use Rattle.page_reads.specs.Sources.{source_in, HasNumber, IsNumber};
ghost use Rattle.table_pages.specs.Ranges.{IsPageIn, IsPageBetween, IsStart};

use page_ranges::{PositionSpan, Span, from_low, up_to_high};
use page_reads::{Filled, Sight, Source, fill, nothing_filled};
use paging::Steps;
use row_keys::{Position, RowKey};
use std::alloc::{AllocError as NoMemory, Global};
use std::sync::ledger::Ledger;
use table_request::PageRequest;
use table_rows::TableRows;

/// What a page is read from: the rows of a source from behind a position on, or from the first, in the direction asked.
#[derive(Clone, Copy)]
pub(crate) struct Reading<'a> {
    pub rows: &'a TableRows,
    pub request: &'a PageRequest,
    pub source: Source<'a>,
    pub start: Option<&'a Position>,
    pub forward: bool,
}

/// The key of the item at a position.
fn item_key(position: Option<&Position>) -> Option<&RowKey>
    ensures { option_copied result ≡ option_map (λ at. at.item) (option_copied position.entry) }
{
    match position {
        Some(position) => Some(&position.item),
        None => None,
    }
}

impl Reading<'_> {
    /// The page of the rows at keys in a range. No change of the table is prepared.
    pub(crate) fn page_in<L: Ledger>(
        &self,
        alloc: Global,
        span: Span,
        steps: &mut Steps<L>,
    ) -> Result<Filled, NoMemory>
        requires idle { self.now.rows.now.pending ≡ [] }
        requires number { HasNumber self.now.rows.now.schema self.now.source }
        requires start { IsStart (source_in self.now.source) (option_copied self.now.start) }
        ensures page { IfOk result (IsPageIn self.now (source_in self.now.source) span) }
        ensures cost { IfOk result (λ filled. steps.new ≤ steps.old + filled.page.scanned + 1) }
    {
        if self.request.limit == Some(0) {
            drop(span);
            return Ok(nothing_filled(alloc, self.request));
        }
        match self.source {
            Source::Table => {
                let filled = self.table_page(alloc, &span, steps);
                drop(span);
                filled
            }
            Source::Local(number, _) | Source::Global(number, _) => {
                let ends = span.positions(alloc)?;
                let filled = self.index_page(alloc, number, &ends, steps);
                drop(ends);
                filled
            }
        }
    }

    /// The page of the table's rows at keys in a range.
    fn table_page<L: Ledger>(
        &self,
        alloc: Global,
        span: &Span,
        steps: &mut Steps<L>,
    ) -> Result<Filled, NoMemory>
        requires idle { self.now.rows.now.pending ≡ [] }
        requires limit { ForSome self.now.request.now.limit (λ most. 1 ≤ most) }
        requires start { IsStart whole_table (option_copied self.now.start) }
        ensures page { IfOk result (IsPageIn self.now whole_table span.now) }
        ensures cost { IfOk result (λ filled. steps.new ≤ steps.old + filled.page.scanned + 1) }
    {
        let low = from_low(span.low.as_ref());
        let high = up_to_high(span.high.as_ref());
        let range = self.rows.rows(low, high);
        let sight = Sight {
            schema: self.rows.schema(),
            source: Source::Table,
            page: self.request,
        };
        let start = item_key(self.start);
        fill(alloc, &sight, &range, start, self.forward, steps)
    }

    /// The page of the rows at positions in a range of the index that is read, which has this number.
    fn index_page<L: Ledger>(
        &self,
        alloc: Global,
        number: usize,
        ends: &PositionSpan,
        steps: &mut Steps<L>,
    ) -> Result<Filled, NoMemory>
        requires idle { self.now.rows.now.pending ≡ [] }
        requires number { IsNumber self.now.rows.now.schema number self.now.source }
        requires limit { ForSome self.now.request.now.limit (λ most. 1 ≤ most) }
        ensures page { IfOk result (IsPageBetween self.now (source_in self.now.source) ends.now) }
        ensures cost { IfOk result (λ filled. steps.new ≤ steps.old + filled.page.scanned + 1) }
    {
        let low = from_low(ends.low.as_ref());
        let high = up_to_high(ends.high.as_ref());
        // There is an index of this number.
        let Some(range) = self.rows.index_rows(number, low, high) else {
            return Ok(nothing_filled(alloc, self.request));
        };
        let sight = Sight {
            schema: self.rows.schema(),
            source: self.source,
            page: self.request,
        };
        fill(alloc, &sight, &range, self.start, self.forward, steps)
    }
}
