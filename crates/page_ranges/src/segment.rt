//! The places of segments.

ghost use Rattle.std.specs.Prelude.{◌≡◌, ◌+◌, ◌-◌, ◌*◌, ◌/◌, ◌^◌, ◌<◌, ◌≤◌, ◌↔◌, ℕ, true, IsTrue, IfSome, IfNone};
ghost use Rattle.page_ranges.specs.Segment.{is_at_segment};

/// Whether a place is one of this segment, of `total` parts of the places, counted from 0 (API Reference: Scan, Segment).
pub fn is_in_segment(place: u64, segment: u64, total: u64) -> bool
    ensures { result ≡ is_at_segment segment total place }
{
    (u128::from(place) * u128::from(total)) >> 64 == u128::from(segment)
}

/// The first place of a segment or of one behind it, if there is such a place.
pub(crate) fn first_place(segment: u64, total: u64) -> Option<u64>
    ensures some { IfSome result (λ first. (place : ℕ) → (segment * 2 ^ 64 ≤ place * total) ↔ (first ≤ place)) }
    ensures none { IfNone result ((place : ℕ) → place < 2 ^ 64 → place * total < segment * 2 ^ 64) }
{
    if total == 0 {
        return if segment == 0 { Some(0) } else { None };
    }
    u64::try_from(segment_start(segment, total)).ok()
}

/// The number of the places before a segment, counted past the last place where it has none.
fn segment_start(segment: u64, total: u64) -> u128
    requires { 0 < total }
    ensures { (place : ℕ) → (segment * 2 ^ 64 ≤ place * total) ↔ (result ≤ place) }
{
    ((u128::from(segment) << 64) + u128::from(total - 1)) / u128::from(total)
}

/// The first place behind a segment, if there is one.
pub(crate) fn first_behind(segment: u64, total: u64) -> Option<u64>
    ensures some { IfSome result (λ next. (place : ℕ) → ((segment + 1) * 2 ^ 64 ≤ place * total) ↔ (next ≤ place)) }
    ensures none { IfNone result ((place : ℕ) → place < 2 ^ 64 → place * total < (segment + 1) * 2 ^ 64) }
{
    match segment.checked_add(1) {
        Some(next) => first_place(next, total),
        None => None,
    }
}
