//! Where Queries begin.

ghost use Rattle.std.specs.Prelude.{◌≡◌, IfOk};
ghost use Rattle.page_reads.specs.Sources.{source_in};
ghost use Rattle.page_reads.specs.Starts.{BeginsIn, HasRange, query_start, query_start_in, refused_as};

use crate::refused::{reading_refusal, unprojected};
use crate::root::named_key;
use crate::source::Source;
use crate::start::{Start, Within, start_of};
use key_condition::{KeyRange, RangeEnd, range};
use row_keys::Position;
use std::alloc::{AllocError as NoMemory, Global};
use table_model::Invalid;
use table_request::Query;
use table_schema::Schema;

/// What a Query reads: the range of its key condition, and the position behind which it begins, if not with the first row.
#[derive(Drop)]
pub struct QueryStart {
    pub range: KeyRange,
    pub start: Option<Position>,
}

/// The position behind which a Query of a range begins, if not with the first row, or why it is refused.
fn query_start_in(
    alloc: Global,
    schema: &Schema,
    request: &Query,
    source: Source<'_>,
    range: &KeyRange,
) -> Result<Result<Option<Position>, Invalid>, NoMemory>
    ensures { IfOk result (λ start. refused_as start ≡ query_start_in schema.now request.now (source_in source.entry) range.now) }
{
    let page = &request.page;
    if let Some(name) = named_key(alloc, page.filter.as_ref(), source.keys(schema))? {
        return Ok(Err(Invalid::FilterOfKey(name.try_clone()?)));
    }
    if let Some(name) = unprojected(alloc, schema, source, page.projection.as_ref())? {
        return Ok(Err(Invalid::NotProjected(name)));
    }
    let within = Within::Partition(&range.partition);
    match start_of(alloc, schema, source, within, page.start.as_ref())? {
        Start::Invalid => Ok(Err(Invalid::StartKey)),
        Start::First => Ok(Ok(None)),
        Start::Behind(at) => Ok(Ok(Some(at))),
    }
}

/// What a Query of a source reads where its key condition has this range, or why it is refused.
fn begun_in(
    alloc: Global,
    schema: &Schema,
    request: &Query,
    source: Source<'_>,
    range: KeyRange,
) -> Result<Result<QueryStart, Invalid>, NoMemory>
    ensures { IfOk result (BeginsIn schema.now request.now (source_in source.entry) range) }
{
    match query_start_in(alloc, schema, request, source, &range)? {
        Ok(start) => Ok(Ok(QueryStart { range, start })),
        Err(why) => {
            drop(range);
            Ok(Err(why))
        }
    }
}

/// What a Query of a source reads, or why it is refused: what is asked of a global index is not kept there or can't be, the key
/// condition is none, the filter names the key, or the start key is none of the partition.
pub fn query_start(
    alloc: Global,
    schema: &Schema,
    request: &Query,
    source: Source<'_>,
) -> Result<Result<QueryStart, Invalid>, NoMemory>
    ensures start { IfOk result (λ begun. refused_as begun ≡ query_start schema.now request.now (source_in source.entry)) }
    ensures truth { IfOk result (λ begun. IfOk begun (λ at. HasRange schema.now request.now (source_in source.entry) at.range)) }
{
    if let Some(why) = reading_refusal(&request.page, source) {
        return Ok(Err(why));
    }
    let values = &request.page.values;
    let keys = source.keys(schema);
    match range(alloc, &request.key_condition, values, schema, keys) {
        Ok(range) => begun_in(alloc, schema, request, source, range),
        Err(RangeEnd::Fault(fault)) => Ok(Err(Invalid::KeyCondition(fault))),
        Err(RangeEnd::NoMemory) => Err(NoMemory),
    }
}
