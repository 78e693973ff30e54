//! Ranges of row keys.

ghost use Rattle.std.specs.Prelude.{◌≡◌, ◌<◌, ◌^◌, true, false, IfOk};
ghost use Rattle.item_keys.specs.declared.key.Key.{Key};
ghost use Rattle.row_keys.specs.Keys.{row_key};
ghost use Rattle.row_keys.specs.declared.row_key.RowKey.{RowKey as AnyKey};
ghost use Rattle.key_condition.specs.KeyRange.{lies_in};
ghost use Rattle.page_ranges.specs.Span.{is_inside};
ghost use Rattle.page_ranges.specs.Segment.{is_at_segment};

use crate::least::least_at;
use crate::points::{high_point, low_point};
use crate::segment::{first_behind, first_place};
use item_keys::place;
use key_condition::KeyRange;
use row_keys::RowKey;
use std::alloc::{AllocError as NoMemory, Global};

/// The keys from `low` on and before `high`. Where an end is absent, the range has none on that side.
#[derive(Drop)]
pub struct Span {
    pub low: Option<RowKey>,
    pub high: Option<RowKey>,
}

impl Span {
    /// All keys.
    pub fn all() -> Span
        ensures { (key : AnyKey) → is_inside result key ≡ true }
    {
        Span {
            low: None,
            high: None,
        }
    }

    /// No key.
    fn none(alloc: Global) -> Result<Span, NoMemory>
        ensures { IfOk result (λ span. (key : AnyKey) → is_inside span key ≡ false) }
    {
        Ok(Span {
            low: Some(least_at(alloc, 0)?),
            high: Some(least_at(alloc, 0)?),
        })
    }

    /// The keys in the range of a key condition: all of one partition key, between two ends of the sort key.
    pub fn of_range(alloc: Global, range: &KeyRange) -> Result<Span, NoMemory>
        ensures { IfOk result (λ span. (key : Key) → is_inside span (row_key key) ≡ lies_in range.now key) }
    {
        let place = place(alloc, &range.partition)?;
        let low = RowKey {
            place,
            partition: range.partition.try_clone()?,
            sort: low_point(alloc, &range.low, &range.high)?,
        };
        let high = RowKey {
            place,
            partition: range.partition.try_clone()?,
            sort: high_point(&range.high)?,
        };
        Ok(Span {
            low: Some(low),
            high: Some(high),
        })
    }

    /// The keys at the places of a segment, one of `total` parts of the places, counted from 0. Where there is no such
    /// part there are none.
    pub fn of_segment(alloc: Global, segment: u64, total: u64) -> Result<Span, NoMemory>
        ensures { IfOk result (λ span.
            (key : AnyKey) → key.place < 2 ^ 64 → is_inside span key ≡ is_at_segment segment total key.place) }
    {
        let Some(first) = first_place(segment, total) else {
            return Span::none(alloc);
        };
        let low = Some(least_at(alloc, first)?);
        let high = match first_behind(segment, total) {
            Some(next) => Some(least_at(alloc, next)?),
            None => None,
        };
        Ok(Span { low, high })
    }
}
