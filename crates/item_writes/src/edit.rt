//! The new item, in one pass over the old one.

ghost use Rattle.std.specs.Prelude.{◌≡◌, IfOk, OnOk, option_map};
ghost use Rattle.attr_value.specs.Parts.{onto};
ghost use Rattle.attr_value.specs.Tree.{Trees};
ghost use Rattle.attr_value.specs.View.{tree_of, trees_of};
ghost use Rattle.path_entries.specs.Entries.{entries_of};
ghost use Rattle.path_entries.specs.Order.{AreInOrder};
ghost use Rattle.item_writes.specs.Edits.{append_one, element, inside, item_with_all, kept, list_with_all, put_one};
ghost use Rattle.item_writes.specs.NewTree.{new_tree, seen};

use crate::new_value::NewValue;
use attr_value::{Elements, Item, Value, push_some};
use base_types::{Seq, Step};
use path_entries::{Key, PathEntry, below};
use std::alloc::{AllocError as NoMemory, Global};

/// The item with all writes made at once: those that put a value, and those of `None`, which take out what is there. The
/// writes are in order of their paths.
///
/// A write to a place past the end of a list appends, in order of place. One below what is not there, or is of another
/// kind, does nothing. It costs one copy of what stays and of what is written, and at each attribute and element of a map
/// or a list a search by halves among the writes that lead there.
#[cycle(edit)]
pub fn write_all(
    alloc: Global,
    item: &Item,
    writes: &[PathEntry<'_, Option<&NewValue<'_>>>],
) -> Result<Item, NoMemory>
    requires { AreInOrder (entries_of writes.now) }
    ensures { IfOk result (λ new. new ≡ item_with_all item.now (seen (entries_of writes.now))) }
{
    let mut new = Item::new(alloc);
    for (name, value) in item.iter() {
        let deeper = below(alloc, writes, Key::Name(name))?;
        let stays = kept(alloc, value, deeper.as_slice())?;
        new.put_some(name, stays)?;
    }
    for write in writes {
        put_one(alloc, &mut new, write.steps, write.value)?;
    }
    Ok(new)
}

/// What stays of an attribute's value.
#[cycle(edit)]
fn kept(
    alloc: Global,
    value: &Value,
    writes: &[PathEntry<'_, Option<&NewValue<'_>>>],
) -> Result<Option<Value>, NoMemory>
    requires { AreInOrder (entries_of writes.now) }
    ensures { IfOk result (λ new. option_map tree_of new ≡ kept (tree_of value.now) (seen (entries_of writes.now))) }
{
    let Some((first, _)) = writes.split_first() else {
        return Ok(Some(value.try_clone()?));
    };
    if first.steps.is_empty() {
        return Ok(None);
    }
    Ok(Some(inside(alloc, value, writes)?))
}

/// What stands where an element stood.
#[cycle(edit)]
fn element(
    alloc: Global,
    value: &Value,
    writes: &[PathEntry<'_, Option<&NewValue<'_>>>],
) -> Result<Option<Value>, NoMemory>
    requires { AreInOrder (entries_of writes.now) }
    ensures { IfOk result (λ new. option_map tree_of new ≡ element (tree_of value.now) (seen (entries_of writes.now))) }
{
    let Some((first, _)) = writes.split_first() else {
        return Ok(Some(value.try_clone()?));
    };
    if first.steps.is_empty() {
        return built(alloc, first.value);
    }
    Ok(Some(inside(alloc, value, writes)?))
}

/// The value, where there is one.
fn built(alloc: Global, value: Option<&NewValue<'_>>) -> Result<Option<Value>, NoMemory>
    ensures { IfOk result (λ new. option_map tree_of new ≡ option_map (λ value. new_tree value.now) value.entry) }
{
    match value {
        Some(value) => Ok(Some(value.build(alloc)?)),
        None => Ok(None),
    }
}

/// The value with the writes inside it.
#[cycle(edit)]
fn inside(
    alloc: Global,
    value: &Value,
    writes: &[PathEntry<'_, Option<&NewValue<'_>>>],
) -> Result<Value, NoMemory>
    requires { AreInOrder (entries_of writes.now) }
    ensures { IfOk result (λ new. tree_of new ≡ inside (tree_of value.now) (seen (entries_of writes.now))) }
{
    match value {
        Value::M(item) => Ok(Value::M(write_all(alloc, item, writes)?)),
        Value::L(list) => Ok(Value::L(list_of(alloc, list, writes)?)),
        Value::S(_)
        | Value::N(_)
        | Value::B(_)
        | Value::Bool(_)
        | Value::Null
        | Value::Ss(_)
        | Value::Ns(_)
        | Value::Bs(_) => value.try_clone(),
    }
}

/// Gives the item the attribute that a write puts right here.
fn put_one(
    alloc: Global,
    item: &mut Item,
    steps: &[Step],
    value: Option<&NewValue<'_>>,
) -> Result<(), NoMemory>
    ensures { OnOk result (item.new ≡ put_one steps.now (option_map (λ value. new_tree value.now) value.entry) item.old) }
{
    let [Step::Name(name)] = steps else {
        return Ok(());
    };
    let Some(value) = value else {
        return Ok(());
    };
    item.put(name.try_clone()?, value.build(alloc)?)
}

/// The list with the writes inside it.
#[cycle(edit)]
fn list_of(
    alloc: Global,
    list: &Elements,
    writes: &[PathEntry<'_, Option<&NewValue<'_>>>],
) -> Result<Elements, NoMemory>
    requires { AreInOrder (entries_of writes.now) }
    ensures { IfOk result (λ new. new ≡ list_with_all list.now (seen (entries_of writes.now))) }
{
    let mut new = Seq::new(alloc);
    let mut place = 0;
    for value in list.as_slice() {
        let deeper = below(alloc, writes, Key::Place(place))?;
        let stays = element(alloc, value, deeper.as_slice())?;
        push_some(&mut new, stays)?;
        place += 1;
    }
    for write in writes {
        push_one(alloc, &mut new, place, write.steps, write.value)?;
    }
    Ok(Elements::from(new))
}

/// Appends what a write puts right here, past the end of the old list.
#[tactic(auto, using(attr_value::proofs::PartLaws::onto_push))]
fn push_one(
    alloc: Global,
    list: &mut Seq<Value>,
    end: usize,
    steps: &[Step],
    value: Option<&NewValue<'_>>,
) -> Result<(), NoMemory>
    ensures { OnOk result ((rest : Trees) → onto (trees_of list.new) rest
        ≡ onto (trees_of list.old) (append_one end steps.now (option_map (λ value. new_tree value.now) value.entry) rest)) }
{
    let [Step::Index(place)] = steps else {
        return Ok(());
    };
    let Some(value) = value else {
        return Ok(());
    };
    if (*place as usize) < end {
        return Ok(());
    }
    list.push(value.build(alloc)?)?;
    Ok(())
}
