//! Between which keys the rows stand that a page is asked for.

ghost use Rattle.std.specs.Prelude.{◌≡◌, true, IfOk, option_map};
ghost use Rattle.std.specs.Range.Bound.{bound_map};
ghost use Rattle.row_keys.specs.declared.position.Position.{Position as AnyPosition};
ghost use Rattle.page_ranges.specs.Span.{is_inside, stands_inside};
ghost use Rattle.cell_pages.specs.Walked.{Surround, included, is_from, is_reversed, is_up_to, key_at};

use cell_model::{CellKey, IndexRowKey, ItemKey, PageQuestion, PageSource};
use page_ranges::{PositionSpan, Span};
use row_keys::{Position, RowKey};
use std::alloc::{AllocError as NoMemory, Global};
use std::ops::Bound;

/// Two ends, both included. One that is absent is open.
#[derive(Drop)]
pub struct Ends<T> {
    pub low: Option<T>,
    pub high: Option<T>,
}

/// A copy of a key, where there is one.
fn copy_of_key(key: &Option<RowKey>) -> Result<Option<RowKey>, NoMemory>
    ensures { IfOk result (λ copy. copy ≡ key.now) }
{
    match key {
        Some(key) => Ok(Some(key.try_clone()?)),
        None => Ok(None),
    }
}

/// A copy of a span.
pub(crate) fn copy_of_span(span: &Span) -> Result<Span, NoMemory>
    ensures { IfOk result (λ copy. copy ≡ span.now) }
{
    Ok(Span {
        low: copy_of_key(&span.low)?,
        high: copy_of_key(&span.high)?,
    })
}

/// A copy of a position, where there is one.
pub(crate) fn copy_of_position(position: &Option<Position>) -> Result<Option<Position>, NoMemory>
    ensures { IfOk result (λ copy. copy ≡ position.now) }
{
    match position {
        Some(position) => Ok(Some(position.try_clone()?)),
        None => Ok(None),
    }
}

/// The positions of a span.
fn positions_of(alloc: Global, span: &Span) -> Result<PositionSpan, NoMemory>
    ensures { IfOk result (λ positions. (at : AnyPosition) → stands_inside positions at ≡ is_inside span.now at.read) }
{
    copy_of_span(span)?.positions(alloc)
}

/// The later one of two low ends.
fn later(end: Option<Position>, other: Option<Position>) -> Option<Position>
    ensures { (at : AnyPosition) → is_from end at ≡ true → is_from other at ≡ true → is_from result at ≡ true }
{
    match (end, other) {
        (None, other) => other,
        (end, None) => end,
        (Some(end), Some(other)) => Some(end.max(other)),
    }
}

/// The earlier one of two high ends.
fn earlier(end: Option<Position>, other: Option<Position>) -> Option<Position>
    ensures { (at : AnyPosition) → is_up_to end at ≡ true → is_up_to other at ≡ true → is_up_to result at ≡ true }
{
    match (end, other) {
        (None, other) => other,
        (end, None) => end,
        (Some(end), Some(other)) => Some(end.min(other)),
    }
}

/// The ends of a page: those of its span, and where it goes on. All that the page is asked for stands between them.
/// `NoMemory` is for want of memory.
pub fn ends_of(alloc: Global, page: &PageQuestion) -> Result<Ends<Position>, NoMemory>
    ensures { IfOk result (λ ends. Surround page.now ends.low ends.high) }
{
    let PositionSpan { low, high } = positions_of(alloc, &page.span)?;
    let after = copy_of_position(&page.after)?;
    if page.forward {
        return Ok(Ends {
            low: later(low, after),
            high,
        });
    }
    Ok(Ends {
        low,
        high: earlier(high, after),
    })
}

/// The key under which a row at a position is kept.
fn key_at(table: u64, source: PageSource, at: Position) -> CellKey
    ensures { result ≡ key_at table source at }
{
    match source {
        PageSource::Global { number } => CellKey::Row(IndexRowKey {
            table,
            index: number,
            at,
        }),
        PageSource::Table => own_key_at(table, at),
        PageSource::Local { .. } => own_key_at(table, at),
    }
}

/// The key of the item that is read at a position of its own table.
fn own_key_at(table: u64, at: Position) -> CellKey
    ensures { result ≡ CellKey.Item (record { table = table; key = at.read }) }
{
    CellKey::Item(ItemKey {
        table,
        key: at.into_read(),
    })
}

/// The key at an end, where there is one.
fn key_if(table: u64, source: PageSource, end: Option<Position>) -> Option<CellKey>
    ensures { result ≡ option_map (λ at. key_at table source at) end }
{
    match end {
        Some(at) => Some(key_at(table, source, at)),
        None => None,
    }
}

/// The keys at two ends.
pub(crate) fn keys_at(table: u64, source: PageSource, ends: Ends<Position>) -> Ends<CellKey>
    ensures low { result.low ≡ option_map (λ at. key_at table source at) ends.low }
    ensures high { result.high ≡ option_map (λ at. key_at table source at) ends.high }
{
    let Ends { low, high } = ends;
    Ends {
        low: key_if(table, source, low),
        high: key_if(table, source, high),
    }
}

/// An end with its key, or open.
pub(crate) fn end_at<K>(key: &Option<K>) -> Bound<&K>
    ensures { bound_map (λ end. end.now) result ≡ included key.now }
{
    match key {
        Some(key) => Bound::Included(key),
        None => Bound::Unbounded,
    }
}

impl<K: Ord> Ends<K> {
    /// Whether nothing can be between the ends: the low one is above the high one.
    pub(crate) fn is_reversed(&self) -> bool
        ensures { result ≡ is_reversed K.cmp self.now.low self.now.high }
    {
        match (&self.low, &self.high) {
            (Some(low), Some(high)) => low.cmp(high).is_gt(),
            _ => false,
        }
    }
}
