//! The bytes of elements: of a list, and of the set of two sets' elements, which is not made for it.

ghost use Rattle.std.specs.Prelude.{ℕ, ◌≡◌, ◌+◌, filter, length, min, not, sum_by};
ghost use Rattle.std.specs.List.Sorted.{IsStrictlySortedBy};
ghost use Rattle.attr_value.specs.Sizes.{number_size, size};
ghost use Rattle.attr_value.specs.View.{tree_of};
ghost use Rattle.ordered_set.specs.Sets.{has};

use attr_value::Value;
use base_types::{Bytes, Text};
use number38::Number;
use ordered_set::OrderedSet;

/// An element of a set or a list.
pub(crate) trait Measured {
    ghost size: { Self → ℕ };

    /// The bytes, as an element has them.
    fn bytes(&self) -> u64
        ensures { result ≡ min (size self.now) u64.MAX };
}

impl Measured for Text {
    ghost size = { length };

    fn bytes(&self) -> u64 {
        self.len() as u64
    }
}

impl Measured for Bytes {
    ghost size = { length };

    fn bytes(&self) -> u64 {
        self.len() as u64
    }
}

impl Measured for Number {
    ghost size = { number_size };

    fn bytes(&self) -> u64 {
        Value::N(*self).size()
    }
}

/// In a list, an element has 1 byte more than its value.
impl Measured for Value {
    ghost size = { λ value. 1 + size (tree_of value) };

    fn bytes(&self) -> u64 {
        self.size().saturating_add(1)
    }
}

/// The bytes of the second set and of those elements of the first that the second has not, up to a limit. It costs a
/// search by halves for each of the latter.
pub(crate) fn both_bytes<T: Ord + Measured>(
    set: &OrderedSet<T>,
    more: &OrderedSet<T>,
    limit: u64,
) -> u64
    ensures bytes { result ≡ min (sum_by T.size (filter (λ x. not (has T.cmp x more.now)) set.now) + sum_by T.size more.now) limit }
    ensures set_in_order { IsStrictlySortedBy T.cmp set.now }
    ensures more_in_order { IsStrictlySortedBy T.cmp more.now }
{
    let second = all_bytes(more.as_slice(), limit);
    second + other_bytes(set.as_slice(), more, limit - second)
}

/// The bytes of the elements, of which none is asked once the limit is reached.
pub(crate) fn all_bytes<T: Measured>(elements: &[T], limit: u64) -> u64
    ensures { result ≡ min (sum_by T.size elements.now) limit }
{
    let mut total = 0;
    for element in elements {
        if total == limit {
            return limit;
        }
        total += element.bytes().min(limit - total);
    }
    total
}

/// The bytes of those elements that are not in the set.
fn other_bytes<T: Ord + Measured>(elements: &[T], set: &OrderedSet<T>, limit: u64) -> u64
    ensures { result ≡ min (sum_by T.size (filter (λ x. not (has T.cmp x set.now)) elements.now)) limit }
{
    let mut total = 0;
    for element in elements {
        if total == limit {
            return limit;
        }
        if !set.contains(element) {
            total += element.bytes().min(limit - total);
        }
    }
    total
}
