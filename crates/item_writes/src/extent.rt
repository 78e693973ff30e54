//! How large and how deep an item with all writes would be, without making it.

ghost use Rattle.std.specs.Prelude.{◌≡◌, ◌+◌, IfOk, length, min, max, option_map};
ghost use Rattle.attr_value.specs.Paths.{kept_attribute, kept_element};
ghost use Rattle.attr_value.specs.Sizes.{depth, elements_depth, item_depth, item_size, list_size, size};
ghost use Rattle.attr_value.specs.Tree.{no_attributes, no_trees};
ghost use Rattle.attr_value.specs.View.{tree_of};
ghost use Rattle.path_entries.specs.Entries.{entries_of};
ghost use Rattle.path_entries.specs.Order.{AreInOrder};
ghost use Rattle.item_writes.specs.Apart.{AreApart, paths_of};
ghost use Rattle.item_writes.specs.Edits.{append_one, appended, element, inside, item_with_all, kept, list_with_all, put_one};
ghost use Rattle.item_writes.specs.Extents.{attributes_bytes, puts_bytes, puts_levels, written_here};
ghost use Rattle.item_writes.specs.NewTree.{new_tree, seen};

use crate::new_value::NewValue;
use attr_value::{Elements, Item, Value};
use base_types::{Step, Text};
use path_entries::{Key, PathEntry, below};
use std::alloc::{AllocError as NoMemory, Global};

/// The bytes of something, up to a limit, and how many lists and maps lie in one another in it.
#[derive(Clone, Copy, Debug)]
pub struct Extent {
    /// Where these reach the limit they may be more.
    pub bytes: u64,
    /// At most `u32::MAX`.
    pub levels: u32,
}

/// The extent of the item that [`crate::write_all`] would make, without making it: its bytes, or the limit where they are
/// more, and its depth.
///
/// The writes are in order of their paths, and none of these begins another. It takes memory for the writes below each
/// step alone. Once the limit is reached the bytes of nothing more are counted; the depth is asked of all that would be
/// there.
pub fn extent_with_all(
    alloc: Global,
    item: &Item,
    writes: &[PathEntry<'_, Option<&NewValue<'_>>>],
    limit: u64,
) -> Result<Extent, NoMemory>
    requires in_order { AreInOrder (entries_of writes.now) }
    requires apart { AreApart (paths_of (seen (entries_of writes.now))) }
    ensures bytes { IfOk result (λ extent. extent.bytes ≡ min (item_size (item_with_all item.now (seen (entries_of writes.now)))) limit) }
    ensures levels { IfOk result (λ extent. extent.levels ≡ min (item_depth (item_with_all item.now (seen (entries_of writes.now)))) u32.MAX) }
{
    attributes(alloc, item, writes, 0, limit)
}

impl Extent {
    pub(crate) const NOTHING: Extent = Extent {
        bytes: 0,
        levels: 0,
    };

    /// That of what is neither a list nor a map.
    pub(crate) const fn flat(bytes: u64) -> Extent
        ensures bytes { result.bytes ≡ bytes }
        ensures levels { result.levels ≡ 0 }
    {
        Extent { bytes, levels: 0 }
    }

    /// That of a value.
    pub(crate) fn of(value: &Value, limit: u64) -> Extent
        ensures bytes { result.bytes ≡ min (size (tree_of value.now)) limit }
        ensures levels { result.levels ≡ min (depth (tree_of value.now)) u32.MAX }
    {
        Extent {
            bytes: bytes_of(value, limit),
            levels: value.depth(),
        }
    }

    /// That of both, one beside the other.
    pub(crate) fn beside(self, other: Extent) -> Extent
        ensures bytes { result.bytes ≡ min (self.bytes + other.bytes) u64.MAX }
        ensures levels { result.levels ≡ max self.levels other.levels }
    {
        Extent {
            bytes: self.bytes.saturating_add(other.bytes),
            levels: self.levels.max(other.levels),
        }
    }

    /// That with so many bytes more.
    pub(crate) fn behind(self, head: u64) -> Extent
        ensures bytes { result.bytes ≡ min (head + self.bytes) u64.MAX }
        ensures levels { result.levels ≡ self.levels }
    {
        Extent {
            bytes: head.saturating_add(self.bytes),
            levels: self.levels,
        }
    }

    /// That of a list or a map with this inside it.
    pub(crate) fn inside(self, head: u64) -> Extent
        ensures bytes { result.bytes ≡ min (head + self.bytes) u64.MAX }
        ensures levels { result.levels ≡ min (1 + self.levels) u32.MAX }
    {
        Extent {
            bytes: head.saturating_add(self.bytes),
            levels: self.levels.saturating_add(1),
        }
    }
}

/// The bytes of a value, of which nothing is looked at where there is no room.
pub(crate) fn bytes_of(value: &Value, limit: u64) -> u64
    ensures { result ≡ min (size (tree_of value.now)) limit }
{
    if limit == 0 {
        return 0;
    }
    value.size().min(limit)
}

/// The extent of the attributes with all writes, so many bytes more for each.
#[cycle(extent)]
fn attributes(
    alloc: Global,
    item: &Item,
    writes: &[PathEntry<'_, Option<&NewValue<'_>>>],
    each: u64,
    limit: u64,
) -> Result<Extent, NoMemory>
    requires in_order { AreInOrder (entries_of writes.now) }
    requires apart { AreApart (paths_of (seen (entries_of writes.now))) }
    ensures bytes { IfOk result (λ extent. extent.bytes ≡ min (attributes_bytes each (item_with_all item.now (seen (entries_of writes.now)))) limit) }
    ensures levels { IfOk result (λ extent. extent.levels ≡ min (item_depth (item_with_all item.now (seen (entries_of writes.now)))) u32.MAX) }
{
    let mut all = Extent::NOTHING;
    for (name, value) in item.iter() {
        let deeper = below(alloc, writes, Key::Name(name))?;
        let room = limit - all.bytes;
        let part = attribute(alloc, name, value, deeper.as_slice(), each, room)?;
        all = all.beside(part);
    }
    let room = limit - all.bytes;
    Ok(all.beside(puts(writes, each, room)))
}

/// That of an attribute with what stays of its value, or of nothing.
#[cycle(extent)]
fn attribute(
    alloc: Global,
    name: &Text,
    value: &Value,
    writes: &[PathEntry<'_, Option<&NewValue<'_>>>],
    each: u64,
    limit: u64,
) -> Result<Extent, NoMemory>
    requires in_order { AreInOrder (entries_of writes.now) }
    requires apart { AreApart (paths_of (seen (entries_of writes.now))) }
    ensures bytes { IfOk result (λ extent. extent.bytes
        ≡ min (attributes_bytes each (kept_attribute name.now (kept (tree_of value.now) (seen (entries_of writes.now))) no_attributes)) limit) }
    ensures levels { IfOk result (λ extent. extent.levels
        ≡ min (item_depth (kept_attribute name.now (kept (tree_of value.now) (seen (entries_of writes.now))) no_attributes)) u32.MAX) }
{
    match written_here(writes) {
        Some(_) => Ok(Extent::NOTHING),
        None => {
            let head = name_bytes(name, each, limit);
            Ok(standing(alloc, value, writes, limit - head)?.behind(head))
        }
    }
}

/// So many bytes, up to a limit.
pub(crate) fn up_to(limit: u64, bytes: u64) -> u64
    ensures { result ≡ min bytes limit }
{
    bytes.min(limit)
}

/// The bytes of a name, and so many more.
fn name_bytes(name: &Text, each: u64, limit: u64) -> u64
    ensures { result ≡ min (each + length name.now) limit }
{
    each.saturating_add(name.len() as u64).min(limit)
}

/// What the first write puts right here, where it ends here.
fn written_here<'w, 'v>(
    writes: &[PathEntry<'_, Option<&'w NewValue<'v>>>],
) -> Option<Option<&'w NewValue<'v>>>
    ensures { option_map (option_map (λ value. new_tree value.now)) result ≡ written_here (seen (entries_of writes.now)) }
{
    let (first, _) = writes.split_first()?;
    if !first.steps.is_empty() {
        return None;
    }
    Some(first.value)
}

/// The extent of a value with the writes inside it.
#[cycle(extent)]
fn standing(
    alloc: Global,
    value: &Value,
    writes: &[PathEntry<'_, Option<&NewValue<'_>>>],
    limit: u64,
) -> Result<Extent, NoMemory>
    requires in_order { AreInOrder (entries_of writes.now) }
    requires apart { AreApart (paths_of (seen (entries_of writes.now))) }
    ensures bytes { IfOk result (λ extent. extent.bytes ≡ min (size (inside (tree_of value.now) (seen (entries_of writes.now)))) limit) }
    ensures levels { IfOk result (λ extent. extent.levels ≡ min (depth (inside (tree_of value.now) (seen (entries_of writes.now)))) u32.MAX) }
{
    if writes.is_empty() {
        return Ok(Extent::of(value, limit));
    }
    let head = up_to(limit, 3);
    match value {
        Value::M(item) => Ok(attributes(alloc, item, writes, 1, limit - head)?.inside(head)),
        Value::L(list) => Ok(elements(alloc, list, writes, limit - head)?.inside(head)),
        Value::S(_)
        | Value::N(_)
        | Value::B(_)
        | Value::Bool(_)
        | Value::Null
        | Value::Ss(_)
        | Value::Ns(_)
        | Value::Bs(_) => Ok(Extent::of(value, limit)),
    }
}

/// That of a list's elements with all writes, 1 byte more for each.
#[cycle(extent)]
fn elements(
    alloc: Global,
    list: &Elements,
    writes: &[PathEntry<'_, Option<&NewValue<'_>>>],
    limit: u64,
) -> Result<Extent, NoMemory>
    requires in_order { AreInOrder (entries_of writes.now) }
    requires apart { AreApart (paths_of (seen (entries_of writes.now))) }
    ensures bytes { IfOk result (λ extent. extent.bytes ≡ min (list_size (list_with_all list.now (seen (entries_of writes.now)))) limit) }
    ensures levels { IfOk result (λ extent. extent.levels ≡ min (elements_depth (list_with_all list.now (seen (entries_of writes.now)))) u32.MAX) }
{
    let mut all = Extent::NOTHING;
    let mut place = 0;
    for value in list.as_slice() {
        let deeper = below(alloc, writes, Key::Place(place))?;
        let room = limit - all.bytes;
        let part = one_element(alloc, value, deeper.as_slice(), room)?;
        all = all.beside(part);
        place += 1;
    }
    let room = limit - all.bytes;
    Ok(all.beside(appends(writes, place, room)))
}

/// That of what stands where an element stood.
#[cycle(extent)]
fn one_element(
    alloc: Global,
    value: &Value,
    writes: &[PathEntry<'_, Option<&NewValue<'_>>>],
    limit: u64,
) -> Result<Extent, NoMemory>
    requires in_order { AreInOrder (entries_of writes.now) }
    requires apart { AreApart (paths_of (seen (entries_of writes.now))) }
    ensures bytes { IfOk result (λ extent. extent.bytes
        ≡ min (list_size (kept_element (element (tree_of value.now) (seen (entries_of writes.now))) no_trees)) limit) }
    ensures levels { IfOk result (λ extent. extent.levels
        ≡ min (elements_depth (kept_element (element (tree_of value.now) (seen (entries_of writes.now))) no_trees)) u32.MAX) }
{
    match written_here(writes) {
        Some(value) => Ok(new_element(value, limit)),
        None => {
            let head = up_to(limit, 1);
            Ok(standing(alloc, value, writes, limit - head)?.behind(head))
        }
    }
}

/// That of an element with this value, or of nothing.
fn new_element(value: Option<&NewValue<'_>>, limit: u64) -> Extent
    ensures bytes { result.bytes ≡ min (list_size (kept_element (option_map (λ value. new_tree value.now) value.entry) no_trees)) limit }
    ensures levels { result.levels ≡ min (elements_depth (kept_element (option_map (λ value. new_tree value.now) value.entry) no_trees)) u32.MAX }
{
    let Some(value) = value else {
        return Extent::NOTHING;
    };
    let head = up_to(limit, 1);
    value.extent(limit - head).behind(head)
}

/// That of what the writes append, past the end of the old list.
fn appends(writes: &[PathEntry<'_, Option<&NewValue<'_>>>], end: usize, limit: u64) -> Extent
    ensures bytes { result.bytes ≡ min (list_size (appended end (seen (entries_of writes.now)))) limit }
    ensures levels { result.levels ≡ min (elements_depth (appended end (seen (entries_of writes.now)))) u32.MAX }
{
    let mut all = Extent::NOTHING;
    for write in writes {
        let room = limit - all.bytes;
        all = all.beside(append(write.steps, write.value, end, room));
    }
    all
}

/// That of what a write appends.
fn append(steps: &[Step], value: Option<&NewValue<'_>>, end: usize, limit: u64) -> Extent
    ensures bytes { result.bytes ≡ min (list_size (append_one end steps.now (option_map (λ value. new_tree value.now) value.entry) no_trees)) limit }
    ensures levels { result.levels ≡ min (elements_depth (append_one end steps.now (option_map (λ value. new_tree value.now) value.entry) no_trees)) u32.MAX }
{
    let [Step::Index(place)] = steps else {
        return Extent::NOTHING;
    };
    if (*place as usize) < end {
        return Extent::NOTHING;
    }
    new_element(value, limit)
}

/// That of the attributes that writes put right here, so many bytes more for each.
fn puts(writes: &[PathEntry<'_, Option<&NewValue<'_>>>], each: u64, limit: u64) -> Extent
    ensures bytes { result.bytes ≡ min (puts_bytes each (seen (entries_of writes.now))) limit }
    ensures levels { result.levels ≡ min (puts_levels (seen (entries_of writes.now))) u32.MAX }
{
    let mut all = Extent::NOTHING;
    for write in writes {
        let room = limit - all.bytes;
        all = all.beside(put(write.steps, write.value, each, room));
    }
    all
}

/// That of the attribute that a write puts.
fn put(steps: &[Step], value: Option<&NewValue<'_>>, each: u64, limit: u64) -> Extent
    ensures bytes { result.bytes
        ≡ min (attributes_bytes each (put_one steps.now (option_map (λ value. new_tree value.now) value.entry) no_attributes)) limit }
    ensures levels { result.levels ≡ min (item_depth (put_one steps.now (option_map (λ value. new_tree value.now) value.entry) no_attributes)) u32.MAX }
{
    let [Step::Name(name)] = steps else {
        return Extent::NOTHING;
    };
    let Some(value) = value else {
        return Extent::NOTHING;
    };
    let head = name_bytes(name, each, limit);
    value.extent(limit - head).behind(head)
}
