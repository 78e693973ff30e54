//! The picked item, in one pass over it.

ghost use Rattle.std.specs.Prelude.{◌≡◌, IfOk, option_map};
ghost use Rattle.attr_value.specs.View.{tree_of};
ghost use Rattle.path_entries.specs.Entries.{entries_of};
ghost use Rattle.path_entries.specs.Order.{AreInOrder};
ghost use Rattle.projection.specs.Picked.{asked, picked, picked_inside, picked_item, picked_list, some_map, some_list};

use attr_value::{Elements, Item, Value, push_some};
use base_types::{DocPath, Seq};
use expr_words::Paths;
use path_entries::{Key, PathEntry, below, sorted};
use std::alloc::{AllocError as NoMemory, Global};

/// The item with what the paths find, and nothing else. A path that finds nothing adds nothing.
///
/// It costs one pass over the item, the sorting of the paths, and at each attribute and element of a map or a list that a
/// path leads into a search by halves among them.
pub fn pick(paths: &Paths, item: &Item) -> Result<Item, NoMemory>
    ensures { IfOk result (λ new. new ≡ picked_item item.now (asked paths.now.paths)) }
{
    let alloc = paths.paths.allocator();
    let paths = sorted(entries(alloc, paths.paths.as_slice())?)?;
    item_of(alloc, item, &paths)
}

/// The paths as entries, each with nothing to say of its end.
fn entries(alloc: Global, paths: &[DocPath]) -> Result<Vec<PathEntry<'_, ()>>, NoMemory>
    ensures { IfOk result (λ entries. entries_of entries.items ≡ asked paths.now) }
{
    let mut entries = Vec::new(alloc);
    for path in paths {
        let steps = path.steps.as_slice();
        entries.push(PathEntry { steps, value: () })?;
    }
    Ok(entries)
}

/// What the paths pick of a value, where they pick something.
#[cycle(pick)]
fn value_of(
    alloc: Global,
    value: &Value,
    paths: &[PathEntry<'_, ()>],
) -> Result<Option<Value>, NoMemory>
    requires { AreInOrder (entries_of paths.now) }
    ensures { IfOk result (λ new. option_map tree_of new ≡ picked (tree_of value.now) (entries_of paths.now)) }
{
    let Some((first, _)) = paths.split_first() else {
        return Ok(None);
    };
    if first.steps.is_empty() {
        return Ok(Some(value.try_clone()?));
    }
    inside_of(alloc, value, paths)
}

/// What the paths pick inside a value.
#[cycle(pick)]
fn inside_of(
    alloc: Global,
    value: &Value,
    paths: &[PathEntry<'_, ()>],
) -> Result<Option<Value>, NoMemory>
    requires { AreInOrder (entries_of paths.now) }
    ensures { IfOk result (λ new. option_map tree_of new ≡ picked_inside (tree_of value.now) (entries_of paths.now)) }
{
    match value {
        Value::M(item) => Ok(some_map(item_of(alloc, item, paths)?)),
        Value::L(list) => Ok(some_list(list_of(alloc, list, paths)?)),
        Value::S(_)
        | Value::N(_)
        | Value::B(_)
        | Value::Bool(_)
        | Value::Null
        | Value::Ss(_)
        | Value::Ns(_)
        | Value::Bs(_) => Ok(None),
    }
}

fn some_map(item: Item) -> Option<Value>
    ensures { option_map tree_of result ≡ some_map item }
{
    if item.is_empty() {
        None
    } else {
        Some(Value::M(item))
    }
}

fn some_list(list: Elements) -> Option<Value>
    ensures { option_map tree_of result ≡ some_list list }
{
    if list.is_empty() {
        None
    } else {
        Some(Value::L(list))
    }
}

/// What the paths pick of an item's attributes.
#[cycle(pick)]
fn item_of(alloc: Global, item: &Item, paths: &[PathEntry<'_, ()>]) -> Result<Item, NoMemory>
    requires { AreInOrder (entries_of paths.now) }
    ensures { IfOk result (λ new. new ≡ picked_item item.now (entries_of paths.now)) }
{
    let mut new = Item::new(alloc);
    for (name, value) in item.iter() {
        let deeper = below(alloc, paths, Key::Name(name))?;
        let stays = value_of(alloc, value, deeper.as_slice())?;
        new.put_some(name, stays)?;
    }
    Ok(new)
}

/// What the paths pick of a list's elements.
#[cycle(pick)]
fn list_of(
    alloc: Global,
    list: &Elements,
    paths: &[PathEntry<'_, ()>],
) -> Result<Elements, NoMemory>
    requires { AreInOrder (entries_of paths.now) }
    ensures { IfOk result (λ new. new ≡ picked_list list.now (entries_of paths.now)) }
{
    let mut new = Seq::new(alloc);
    let mut place = 0;
    for value in list.as_slice() {
        let deeper = below(alloc, paths, Key::Place(place))?;
        let stays = value_of(alloc, value, deeper.as_slice())?;
        push_some(&mut new, stays)?;
        place += 1;
    }
    Ok(Elements::from(new))
}
