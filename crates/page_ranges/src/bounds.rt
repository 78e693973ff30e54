//! Ends of ranges, as maps take them.

ghost use Rattle.std.specs.Prelude.{◌≡◌};
ghost use Rattle.std.specs.Option.{option_copied};
ghost use Rattle.std.specs.Range.Bound.{bound_map};
ghost use Rattle.page_ranges.specs.Span.{low_end, high_end};

use std::ops::Bound;

/// From this key on, or from the first where there is none.
pub fn from_low<K>(low: Option<&K>) -> Bound<&K>
    ensures { bound_map (λ end. end.now) result ≡ low_end (option_copied low.entry) }
{
    match low {
        Some(key) => Bound::Included(key),
        None => Bound::Unbounded,
    }
}

/// Up to and without this key, or up to the last where there is none.
pub fn up_to_high<K>(high: Option<&K>) -> Bound<&K>
    ensures { bound_map (λ end. end.now) result ≡ high_end (option_copied high.entry) }
{
    match high {
        Some(key) => Bound::Excluded(key),
        None => Bound::Unbounded,
    }
}
