//! Items with or without what a document path leads to.

ghost use Rattle.std.specs.Prelude.{◌≡◌, ◌↔◌, [], ◌<◌, ◌≤◌, is_some, option_and_then};
ghost use Rattle.std.specs.Prelude.{IsTrue, OnOk, OnErr, IfErr};
ghost use Rattle.base_types.specs.declared.end.End.{End};
ghost use Rattle.attr_value.specs.Paths.{found, found_in, child, value_at, element_at, put, put_at};
ghost use Rattle.attr_value.specs.Paths.{without, without_in, change, change_at, changed};
ghost use Rattle.attr_value.specs.Paths.{with_value, reach, IsWith, HasNoPlace, HoldsWhereDeeper};
ghost use Rattle.attr_value.specs.Paths.{HasBadPath, IsPathEnd, IsBadPathWhere};
ghost use Rattle.attr_value.specs.Sizes.{item_depth, most_levels};
ghost use Rattle.attr_value.specs.Tree as tree;
ghost use Rattle.attr_value.specs.View.{tree_of};

use crate::fault::{ValueEnd, ValueFault};
use crate::value::{Elements, Item, Value};
use base_types::{DocPath, Step, Text};
use std::alloc::AllocError as NoMemory;

/// How many lists and maps may lie in one another.
pub const MAX_DEPTH: u32 = 32;

impl Item {
    /// Puts the value at the path: in place of what is there, at the end of a list where its place
    /// is past the end, or as a new attribute.
    ///
    /// `TooDeep` where the value would lie, or hold lists and maps, deeper than [`MAX_DEPTH`], and
    /// else `BadPath` where the path has no step, does not begin with a name, or its parent is not
    /// there or is of another kind. The item stays as it was where there is no `Ok`, and the value
    /// is dropped then.
    pub fn set(&mut self, path: &DocPath, value: Value) -> Result<(), ValueEnd>
        ensures ok { OnOk result (with_value path.now.steps self.old (tree_of value) ≡ Some self.new) }
        ensures too_deep { (result ≡ Err (End.Fault ValueFault.TooDeep))
            ↔ (most_levels < reach path.now.steps (tree_of value)) }
        ensures deeper { HoldsWhereDeeper most_levels path.now.steps self.old (tree_of value)
            (result ≡ Err (End.Fault ValueFault.TooDeep)) }
        ensures bad_path { (result ≡ Err (End.Fault ValueFault.BadPath))
            ↔ HasBadPath most_levels path.now.steps self.old (tree_of value) }
        ensures no_other { IfErr result IsPathEnd }
        ensures unchanged { OnErr result (self.new ≡ self.old) }
        ensures within { item_depth self.old ≤ most_levels → item_depth self.new ≤ most_levels }
    {
        if is_too_deep(path, &value) {
            return Err(ValueEnd::Fault(ValueFault::TooDeep));
        }
        set_in(self, path.steps.as_slice(), value)
    }

    /// Takes out what the path finds, and answers whether something was there. The elements of a
    /// list after one that goes close up. It takes no memory.
    pub fn remove(&mut self, path: &DocPath) -> bool
        ensures found { result ≡ is_some (found path.now.steps self.old) }
        ensures without { self.new ≡ without path.now.steps self.old }
    {
        let Some((first, rest)) = path.steps.as_slice().split_first() else {
            return false;
        };
        match first {
            Step::Name(name) => remove_attribute(self, name, rest),
            Step::Index(_) => false,
        }
    }
}

/// Takes out what the name and then the rest of the steps find.
#[cycle(remove)]
fn remove_attribute(item: &mut Item, name: &Text, rest: &[Step]) -> bool
    ensures found { result
        ≡ is_some (option_and_then (found_in rest.now) (value_at name.now item.old)) }
    ensures without { item.new
        ≡ change name.now (without_in rest.now) item.old }
{
    let Some((step, deeper)) = rest.split_first() else {
        return item.attributes.remove(name).is_some();
    };
    let Some(value) = item.attributes.get_mut(name) else {
        return false;
    };
    remove_below(value, step, deeper)
}

/// Takes out what the step and then the rest find.
#[cycle(remove)]
fn remove_below(value: &mut Value, step: &Step, rest: &[Step]) -> bool
    ensures found { result
        ≡ is_some (option_and_then (found_in rest.now) (child step.now (tree_of value.old))) }
    ensures without { tree_of value.new
        ≡ changed step.now (without_in rest.now) (tree_of value.old) }
{
    match step {
        Step::Name(name) => match value {
            Value::M(item) => remove_attribute(item, name, rest),
            _ => false,
        },
        Step::Index(place) => match value {
            Value::L(list) => remove_element(list, *place as usize, rest),
            _ => false,
        },
    }
}

/// Takes out what the place and then the rest of the steps find.
#[cycle(remove)]
fn remove_element(list: &mut Elements, place: usize, rest: &[Step]) -> bool
    ensures found { result
        ≡ is_some (option_and_then (found_in rest.now) (element_at place list.old)) }
    ensures without { list.new
        ≡ change_at place (without_in rest.now) list.old }
{
    let Some((step, deeper)) = rest.split_first() else {
        return take_element(list, place);
    };
    let Some(value) = list.values.get_mut(place) else {
        return false;
    };
    remove_below(value, step, deeper)
}

/// Takes out the element at this place.
fn take_element(list: &mut Elements, place: usize) -> bool
    ensures found { result ≡ is_some (element_at place list.old) }
    ensures without { list.new ≡ change_at place (without_in []) list.old }
{
    if list.values.len() <= place {
        return false;
    }
    drop(list.values.remove(place));
    true
}

/// Whether the value would lie, or hold lists and maps, deeper than an item may nest.
fn is_too_deep(path: &DocPath, value: &Value) -> bool
    ensures { IsTrue result ↔ (most_levels < reach path.now.steps (tree_of value.now)) }
{
    let above = path.steps.len().saturating_sub(1);
    above > MAX_DEPTH as usize || value.depth() > MAX_DEPTH - above as u32
}

/// Puts the value where the steps lead.
fn set_in(item: &mut Item, steps: &[Step], value: Value) -> Result<(), ValueEnd>
    ensures ok { OnOk result
        (with_value steps.now item.old (tree_of value) ≡ Some item.new) }
    ensures bad_path { IfErr result
        (IsBadPathWhere (with_value steps.now item.old (tree_of value) ≡ None)) }
    ensures unchanged { OnErr result (item.new ≡ item.old) }
{
    let Some((first, rest)) = steps.split_first() else {
        return Err(ValueEnd::Fault(ValueFault::BadPath));
    };
    match first {
        Step::Name(name) => set_attribute(item, name, rest, value),
        Step::Index(_) => Err(ValueEnd::Fault(ValueFault::BadPath)),
    }
}

/// Puts the value where the name and then the rest of the steps lead.
#[cycle(set)]
fn set_attribute(item: &mut Item, name: &Text, rest: &[Step], value: Value) -> Result<(), ValueEnd>
    ensures ok { OnOk result (IsWith (Step.Name name.now) rest.now (tree_of value)
        (tree.map item.old) (tree.map item.new)) }
    ensures bad_path { IfErr result (IsBadPathWhere (HasNoPlace (Step.Name name.now) rest.now
        (tree_of value) (tree.map item.old))) }
    ensures unchanged { OnErr result (item.new ≡ item.old) }
{
    let Some((step, deeper)) = rest.split_first() else {
        put_attribute(item, name, value)?;
        return Ok(());
    };
    let Some(parent) = item.attributes.get_mut(name) else {
        return Err(ValueEnd::Fault(ValueFault::BadPath));
    };
    set_below(parent, step, deeper, value)
}

/// Puts the value where the step and then the rest lead.
#[cycle(set)]
fn set_below(parent: &mut Value, step: &Step, rest: &[Step], value: Value) -> Result<(), ValueEnd>
    ensures ok { OnOk result
        (IsWith step.now rest.now (tree_of value) (tree_of parent.old) (tree_of parent.new)) }
    ensures bad_path { IfErr result
        (IsBadPathWhere (HasNoPlace step.now rest.now (tree_of value) (tree_of parent.old))) }
    ensures unchanged { OnErr result (tree_of parent.new ≡ tree_of parent.old) }
{
    match step {
        Step::Name(name) => match parent {
            Value::M(item) => set_attribute(item, name, rest, value),
            _ => Err(ValueEnd::Fault(ValueFault::BadPath)),
        },
        Step::Index(place) => match parent {
            Value::L(list) => set_element(list, *place as usize, rest, value),
            _ => Err(ValueEnd::Fault(ValueFault::BadPath)),
        },
    }
}

/// Puts the value where the place and then the rest of the steps lead.
#[cycle(set)]
fn set_element(
    list: &mut Elements,
    place: usize,
    rest: &[Step],
    value: Value,
) -> Result<(), ValueEnd>
    ensures ok { OnOk result (IsWith (Step.Index place) rest.now (tree_of value)
        (tree.list list.old) (tree.list list.new)) }
    ensures bad_path { IfErr result (IsBadPathWhere (HasNoPlace (Step.Index place) rest.now
        (tree_of value) (tree.list list.old))) }
    ensures unchanged { OnErr result (list.new ≡ list.old) }
{
    let Some((step, deeper)) = rest.split_first() else {
        put_element(list, place, value)?;
        return Ok(());
    };
    let Some(parent) = list.values.get_mut(place) else {
        return Err(ValueEnd::Fault(ValueFault::BadPath));
    };
    set_below(parent, step, deeper, value)
}

/// Gives the attribute of this name the value, in its place where it is there.
fn put_attribute(item: &mut Item, name: &Text, value: Value) -> Result<(), NoMemory>
    ensures ok { OnOk result
        (item.new ≡ put name.now (tree_of value) item.old) }
    ensures unchanged { OnErr result (item.new ≡ item.old) }
{
    if let Some(kept) = item.attributes.get_mut(name) {
        *kept = value;
        return Ok(());
    }
    item.put(name.try_clone()?, value)
}

/// Puts the value at this place of the list, or at its end.
fn put_element(list: &mut Elements, place: usize, value: Value) -> Result<(), NoMemory>
    ensures ok { OnOk result
        (list.new ≡ put_at place (tree_of value) list.old) }
    ensures unchanged { OnErr result (list.new ≡ list.old) }
{
    if let Some(kept) = list.values.get_mut(place) {
        *kept = value;
        return Ok(());
    }
    list.values.push(value)?;
    Ok(())
}
