//! Values and lists that are lent, with how deep they nest: it is asked once, however often they are written.

ghost use Rattle.std.specs.Prelude.{◌≡◌, ◌+◌, ◌-◌, ◌^◌, min};
ghost use Rattle.attr_value.specs.Sizes.{depth, elements_depth, list_size, size};
ghost use Rattle.attr_value.specs.View.{tree_of};
ghost use Rattle.item_writes.specs.Joined.{joined};

use crate::extent::{Extent, bytes_of, up_to};
use crate::union::all_bytes;
use attr_value::{Elements, Value};
use base_types::Seq;

/// A value that is lent, with how deep it nests.
#[derive(Clone, Copy)]
pub struct LentValue<'v> {
    pub value: &'v Value,
    /// At most `u32::MAX`.
    pub levels: u32,
    ghost nests: { levels ≡ min (depth (tree_of value.now)) (2 ^ 32 - 1) },
}

impl<'v> LentValue<'v> {
    /// The value, which is asked how deep it nests.
    pub fn new(value: &'v Value) -> LentValue<'v>
        ensures { result.value.now ≡ value.now }
    {
        LentValue {
            value,
            levels: value.depth(),
        }
    }

    /// The extent of the value.
    pub(crate) fn extent(&self, limit: u64) -> Extent
        ensures bytes { result.bytes ≡ min (size (tree_of self.now.value.now)) limit }
        ensures levels { result.levels ≡ min (depth (tree_of self.now.value.now)) u32.MAX }
    {
        Extent {
            bytes: bytes_of(self.value, limit),
            levels: self.levels,
        }
    }
}

/// Lists that are lent, whose elements will stand in one list, with how deep that nests.
#[derive(Drop)]
pub struct LentLists<'v> {
    pub lists: Seq<&'v Elements>,
    /// At most `u32::MAX`.
    pub levels: u32,
    ghost nests: { levels ≡ min (1 + elements_depth (joined lists)) (2 ^ 32 - 1) },
}

impl LentLists<'_> {
    /// The extent of the one list.
    pub(crate) fn extent(&self, limit: u64) -> Extent
        ensures bytes { result.bytes ≡ min (3 + list_size (joined self.now.lists)) limit }
        ensures levels { result.levels ≡ min (1 + elements_depth (joined self.now.lists)) u32.MAX }
    {
        let head = up_to(limit, 3);
        Extent {
            bytes: head + lists_bytes(self.lists.as_slice(), limit - head),
            levels: self.levels,
        }
    }
}

/// The bytes of the elements of all lists, 1 byte more for each.
fn lists_bytes(lists: &[&Elements], limit: u64) -> u64
    ensures { result ≡ min (list_size (joined lists.now)) limit }
{
    let mut total = 0;
    for list in lists {
        total += all_bytes(list.as_slice(), limit - total);
    }
    total
}
