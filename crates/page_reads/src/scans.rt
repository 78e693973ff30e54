//! Where Scans begin.

ghost use Rattle.std.specs.Prelude.{◌≡◌, IfOk};
ghost use Rattle.page_reads.specs.Sources.{source_in};
ghost use Rattle.page_reads.specs.Starts.{HasSegment, refused_as, scan_start};

use crate::refused::{reading_refusal, unprojected};
use crate::source::Source;
use crate::start::{Start, Within, start_of};
use page_ranges::Span;
use row_keys::Position;
use std::alloc::{AllocError as NoMemory, Global};
use table_model::Invalid;
use table_request::{Scan, Segment};
use table_schema::Schema;

/// The keys at the places of a segment, or all (API Reference: Scan, Segment).
pub fn scan_span(alloc: Global, segment: Option<Segment>) -> Result<Span, NoMemory>
    ensures { IfOk result (HasSegment segment) }
{
    match segment {
        Some(part) => Span::of_segment(alloc, part.segment, part.total),
        None => Ok(Span::all()),
    }
}

/// The position behind which a Scan of a source begins, if not with the first row, or why it is refused: what is asked of a global
/// index is not kept there or can't be, or the start key is none of the segment.
pub fn scan_start(
    alloc: Global,
    schema: &Schema,
    request: &Scan,
    source: Source<'_>,
) -> Result<Result<Option<Position>, Invalid>, NoMemory>
    ensures { IfOk result (λ start. refused_as start ≡ scan_start schema.now request.now (source_in source.entry)) }
{
    let page = &request.page;
    if let Some(why) = reading_refusal(page, source) {
        return Ok(Err(why));
    }
    if let Some(name) = unprojected(alloc, schema, source, page.projection.as_ref())? {
        return Ok(Err(Invalid::NotProjected(name)));
    }
    let within = Within::Segment(request.segment);
    match start_of(alloc, schema, source, within, page.start.as_ref())? {
        Start::Invalid => Ok(Err(Invalid::StartKey)),
        Start::First => Ok(Ok(None)),
        Start::Behind(at) => Ok(Ok(Some(at))),
    }
}
