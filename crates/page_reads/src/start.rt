//! Where a page begins.

ghost use Rattle.std.specs.Prelude.{◌≡◌, IfOk};
ghost use Rattle.table_model.specs.Pages as model;
ghost use Rattle.std.specs.Option.{option_copied};
ghost use Rattle.page_reads.specs.Starts.{is_within, start_as};
ghost use Rattle.page_reads.specs.Sources.{source_in};

use crate::names::Names;
use crate::source::Source;
use attr_value::Item;
use item_keys::KeyValue;
use page_ranges::is_in_segment;
use row_keys::{Position, position_of};
use std::alloc::{AllocError as NoMemory, Global};
use table_items::key_of_item;
use table_request::Segment;
use table_schema::Schema;

/// The position that a start key is, where it is one: it has the key of what is read and the table's, and no attribute
/// beside these (API Reference: Query, ExclusiveStartKey).
pub(crate) fn start_position(
    alloc: Global,
    schema: &Schema,
    source: Source<'_>,
    start: &Item,
) -> Result<Option<Position>, NoMemory>
    ensures { IfOk result (λ at. at ≡ model.start_position schema.now (source_in source.entry) start.now) }
{
    let keys = source.keys(schema);
    if !Names::Start(keys, &schema.keys).have_all(start) {
        return Ok(None);
    }
    match key_of_item(alloc, schema, start)? {
        Ok(key) => {
            let at = position_of(alloc, schema, keys, &key, start);
            drop(key);
            at
        }
        Err(_) => Ok(None),
    }
}

/// Which keys a request reads.
#[derive(Clone, Copy)]
pub(crate) enum Within<'a> {
    /// Those of a partition key.
    Partition(&'a KeyValue),
    /// Those of a segment, or all.
    Segment(Option<Segment>),
}

impl Within<'_> {
    /// Whether a position is one of those.
    fn has(&self, at: &Position) -> bool
        ensures { result ≡ is_within self.now at.now }
    {
        match self {
            Within::Partition(partition) => at.read.partition == **partition,
            Within::Segment(None) => true,
            Within::Segment(Some(part)) => {
                is_in_segment(at.read.place, part.segment, part.total)
            }
        }
    }
}

/// Where a page begins.
#[derive(Drop)]
pub(crate) enum Start {
    /// With the first row.
    First,
    /// With the row behind a position.
    Behind(Position),
    /// Nowhere: what is stated is no position of those that are read.
    Invalid,
}

/// Where a page begins by what a request states (API Reference: Query, ExclusiveStartKey).
pub(crate) fn start_of(
    alloc: Global,
    schema: &Schema,
    source: Source<'_>,
    within: Within<'_>,
    start: Option<&Item>,
) -> Result<Start, NoMemory>
    ensures { IfOk result (λ at. start_as at
        ≡ model.start_of schema.now (source_in source.entry) (is_within within.entry) (option_copied start.entry)) }
{
    match start {
        Some(start) => {
            let at = start_position(alloc, schema, source, start)?;
            Ok(start_within(within, at))
        }
        None => Ok(Start::First),
    }
}

/// The position that is stated, where it is one of those that are read.
fn start_within(within: Within<'_>, at: Option<Position>) -> Start
    ensures { start_as result ≡ model.start_if (is_within within.entry) at }
{
    match at {
        Some(at) => {
            if within.has(&at) {
                Start::Behind(at)
            } else {
                drop(at);
                Start::Invalid
            }
        }
        None => Start::Invalid,
    }
}
