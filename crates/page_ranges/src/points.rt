//! Where the ends of a range of sort keys stand.

ghost use Rattle.std.specs.Prelude.{◌≡◌, IfOk};
ghost use Rattle.page_ranges.specs.Points.{low_point, high_point, behind_prefix};

use crate::least::least_value;
use item_keys::KeyValue;
use key_condition::Bound;
use row_keys::SortPoint;
use std::alloc::{AllocError as NoMemory, Global};

/// Where a range with these ends begins.
pub(crate) fn low_point(alloc: Global, low: &Bound, high: &Bound) -> Result<SortPoint, NoMemory>
    ensures { IfOk result (λ point. point ≡ low_point low.now high.now) }
{
    match (low, high) {
        (Bound::Open, Bound::Open) => Ok(SortPoint::Least),
        // A key without a sort key lies inside no end, and stands before all values.
        (Bound::Open, _) => Ok(SortPoint::At(least_value(alloc)?)),
        (Bound::At(value) | Bound::BeforePrefixEnd(value), _) => {
            Ok(SortPoint::At(value.try_clone()?))
        }
        (Bound::Past(value), _) => Ok(SortPoint::After(value.try_clone()?)),
    }
}

/// Where a range with this high end is over.
pub(crate) fn high_point(high: &Bound) -> Result<SortPoint, NoMemory>
    ensures { IfOk result (λ point. point ≡ high_point high.now) }
{
    match high {
        Bound::Open => Ok(SortPoint::Greatest),
        Bound::At(value) => Ok(SortPoint::After(value.try_clone()?)),
        Bound::Past(value) => Ok(SortPoint::At(value.try_clone()?)),
        Bound::BeforePrefixEnd(front) => behind_prefix(front),
    }
}

/// Behind all values that begin with this one. No number begins with one.
fn behind_prefix(front: &KeyValue) -> Result<SortPoint, NoMemory>
    ensures { IfOk result (λ point. point ≡ behind_prefix front.now) }
{
    match front {
        KeyValue::N(number) => Ok(SortPoint::At(KeyValue::N(*number))),
        KeyValue::S(_) | KeyValue::B(_) => Ok(SortPoint::AfterPrefix(front.try_clone()?)),
    }
}
