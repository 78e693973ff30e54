//! Sizes in bytes and depths in levels, each in one walk that takes no memory.

ghost use Rattle.std.specs.Prelude.{◌≡◌, length, min, sum_by};
ghost use Rattle.attr_value.specs.Sizes.{size, list_size, item_size, number_size};
ghost use Rattle.attr_value.specs.Sizes.{depth, elements_depth, item_depth};
ghost use Rattle.attr_value.specs.View.{tree_of};

use crate::value::{Elements, Item, Value};
use base_types::{Bytes, Text};
use number38::Number;

impl Value {
    /// The size in bytes, or `u64::MAX` where it is more than that (DynamoDB Developer Guide: Item
    /// sizes and formats).
    ///
    /// A text or a binary has its bytes, a number half its significant digits, rounded up, and 1, a
    /// boolean and the null value 1, a set the sum of its elements, and a list or a map 3, 1 for
    /// each element, and the sum of the contents with a map's names.
    #[cycle(size)]
    pub fn size(&self) -> u64
        ensures { result ≡ min (size (tree_of self.now)) u64.MAX }
    {
        match self {
            Value::S(text) => text.len() as u64,
            Value::N(number) => number_bytes(number),
            Value::B(bytes) => bytes.len() as u64,
            Value::Bool(_) | Value::Null => 1,
            Value::L(list) => list_bytes(list).saturating_add(3),
            Value::M(item) => item
                .size()
                .saturating_add(item.len() as u64)
                .saturating_add(3),
            Value::Ss(texts) => texts_bytes(texts.as_slice()),
            Value::Ns(numbers) => numbers_bytes(numbers.as_slice()),
            Value::Bs(binaries) => binaries_bytes(binaries.as_slice()),
        }
    }

    /// How many lists and maps lie in one another: 0 for what is neither, 1 for an empty list or
    /// map.
    #[cycle(depth)]
    pub fn depth(&self) -> u32
        ensures { result ≡ min (depth (tree_of self.now)) u32.MAX }
    {
        match self {
            Value::L(list) => list_depth(list).saturating_add(1),
            Value::M(item) => item.depth().saturating_add(1),
            _ => 0,
        }
    }
}

impl Item {
    /// The size in bytes, names and values, or `u64::MAX` where it is more than that.
    #[cycle(size)]
    pub fn size(&self) -> u64
        ensures { result ≡ min (item_size self.now) u64.MAX }
    {
        let mut total = 0u64;
        for (name, value) in self.attributes.iter() {
            total = total
                .saturating_add(name.len() as u64)
                .saturating_add(value.size());
        }
        total
    }

    /// The greatest depth of an attribute's value, 0 where there is none.
    #[cycle(depth)]
    pub fn depth(&self) -> u32
        ensures { result ≡ min (item_depth self.now) u32.MAX }
    {
        let mut deepest = 0u32;
        for (_name, value) in self.attributes.iter() {
            deepest = deepest.max(value.depth());
        }
        deepest
    }
}

/// The bytes of a list's elements, and 1 for each.
#[cycle(size)]
fn list_bytes(list: &Elements) -> u64
    ensures { result ≡ min (list_size list.now) u64.MAX }
{
    let mut total = 0u64;
    for value in list.values.as_slice() {
        total = total.saturating_add(value.size()).saturating_add(1);
    }
    total
}

/// The greatest depth of an element, 0 where there is none.
#[cycle(depth)]
fn list_depth(list: &Elements) -> u32
    ensures { result ≡ min (elements_depth list.now) u32.MAX }
{
    let mut deepest = 0u32;
    for value in list.values.as_slice() {
        deepest = deepest.max(value.depth());
    }
    deepest
}

fn number_bytes(number: &Number) -> u64
    ensures { result ≡ number_size number.now }
{
    u64::from((number.digits() + 1) / 2 + 1)
}

fn texts_bytes(texts: &[Text]) -> u64
    ensures { result ≡ min (sum_by length texts.now) u64.MAX }
{
    let mut total = 0u64;
    for text in texts {
        total = total.saturating_add(text.len() as u64);
    }
    total
}

fn numbers_bytes(numbers: &[Number]) -> u64
    ensures { result ≡ min (sum_by number_size numbers.now) u64.MAX }
{
    let mut total = 0u64;
    for number in numbers {
        total = total.saturating_add(number_bytes(number));
    }
    total
}

fn binaries_bytes(binaries: &[Bytes]) -> u64
    ensures { result ≡ min (sum_by length binaries.now) u64.MAX }
{
    let mut total = 0u64;
    for bytes in binaries {
        total = total.saturating_add(bytes.len() as u64);
    }
    total
}
