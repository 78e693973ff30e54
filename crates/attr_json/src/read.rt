//! Values and items, level by level.

ghost use Rattle.serde_json.specs.View.{view, items_view, members_view};
ghost use Rattle.attr_value.specs.Sizes.{most_levels};
ghost use Rattle.attr_value.specs.View.{tree_of, trees_of};
ghost use Rattle.attr_json.specs.Answers.{IsAnswer, IsOneLess};
ghost use Rattle.attr_json.specs.Values.{value_of, only_of, typed, array_value, object_value, elements_of, attributes_of, item_of};

use crate::fault::{JsonEnd, JsonFault};
use crate::scalar::{flag_value, text_value};
use crate::set::{are_strings, set_value};
use attr_value::{Elements, Item, MAX_DEPTH, Value};
use base_types::{Seq, Text};
use serde_json::{Map, Value as Json};
use std::alloc::Global;

/// The attribute value that the JSON states, or its first fault.
pub fn value_from(alloc: Global, json: &Json) -> Result<Value, JsonEnd>
    ensures { IsAnswer tree_of (value_of (view json.now) most_levels) result }
{
    value_in(alloc, json, MAX_DEPTH)
}

/// The item that the JSON states, as the inside of a map, or its first fault. Each of its attributes may hold 32 levels of
/// lists and maps. JSON that is no object is `UnknownType`.
pub fn item_from(alloc: Global, json: &Json) -> Result<Item, JsonEnd>
    ensures { IsAnswer (λ item. item) (item_of (view json.now) most_levels) result }
{
    match json {
        Json::Object(members) => item_in(alloc, members, MAX_DEPTH),
        _ => Err(JsonEnd::Fault(JsonFault::UnknownType)),
    }
}

/// A value, where so many levels are left.
#[cycle(read)]
fn value_in(alloc: Global, json: &Json, levels: u32) -> Result<Value, JsonEnd>
    ensures { IsAnswer tree_of (value_of (view json.now) levels) result }
{
    match json {
        Json::Object(members) => only_in(alloc, members, levels),
        _ => Err(JsonEnd::Fault(JsonFault::NotOneMember)),
    }
}

/// The value that the only member of an object states.
#[cycle(read)]
fn only_in(alloc: Global, members: &Map<String, Json>, levels: u32) -> Result<Value, JsonEnd>
    ensures { IsAnswer tree_of (only_of (members_view members.now.entries) levels) result }
{
    if members.len() != 1 {
        return Err(JsonEnd::Fault(JsonFault::NotOneMember));
    }
    match members.first_key_value() {
        Some((name, inner)) => typed(alloc, name.as_str(), inner, levels),
        None => Err(JsonEnd::Fault(JsonFault::NotOneMember)),
    }
}

/// What stands under the name of a type.
#[cycle(read)]
fn typed(alloc: Global, name: &str, json: &Json, levels: u32) -> Result<Value, JsonEnd>
    ensures { IsAnswer tree_of (typed name.now (view json.now) levels) result }
{
    match json {
        Json::String(text) => text_value(alloc, name, text.as_str()),
        Json::Bool(flag) => flag_value(name, *flag),
        Json::Array(items) => array_value(alloc, name, items, levels),
        Json::Object(members) => object_value(alloc, name, members, levels),
        _ => Err(JsonEnd::Fault(JsonFault::UnknownType)),
    }
}

/// A list under the name of its type, or of a set's.
#[cycle(read)]
fn array_value(alloc: Global, name: &str, items: &[Json], levels: u32) -> Result<Value, JsonEnd>
    ensures { IsAnswer tree_of
        (array_value name.now (items_view items.now) (elements_of (items_view items.now)) levels)
        result }
{
    if name == "L" {
        let below = one_less(levels)?;
        let elements = elements_in(alloc, items, below)?;
        return Ok(Value::L(Elements::from(elements)));
    }
    if !are_strings(items) {
        return Err(JsonEnd::Fault(JsonFault::UnknownType));
    }
    set_value(alloc, name, items)
}

/// An object under the name of its type.
#[cycle(read)]
fn object_value(
    alloc: Global,
    name: &str,
    members: &Map<String, Json>,
    levels: u32,
) -> Result<Value, JsonEnd>
    ensures { IsAnswer tree_of
        (object_value name.now (attributes_of (members_view members.now.entries)) levels)
        result }
{
    if name != "M" {
        return Err(JsonEnd::Fault(JsonFault::UnknownType));
    }
    let below = one_less(levels)?;
    Ok(Value::M(item_in(alloc, members, below)?))
}

/// The levels that are left inside a list or a map.
fn one_less(levels: u32) -> Result<u32, JsonFault>
    ensures { IsOneLess levels result }
{
    if levels == 0 {
        return Err(JsonFault::TooDeep);
    }
    Ok(levels - 1)
}

/// The elements of a list.
#[cycle(read)]
fn elements_in(alloc: Global, items: &[Json], levels: u32) -> Result<Seq<Value>, JsonEnd>
    ensures { IsAnswer trees_of (elements_of (items_view items.now) levels) result }
{
    let mut elements = Seq::with_capacity(alloc, items.len())?;
    for item in items {
        elements.push(value_in(alloc, item, levels)?)?;
    }
    Ok(elements)
}

/// The attributes of a map or an item.
#[cycle(read)]
fn item_in(alloc: Global, members: &Map<String, Json>, levels: u32) -> Result<Item, JsonEnd>
    ensures { IsAnswer (λ item. item) (attributes_of (members_view members.now.entries) levels) result }
{
    let mut item = Item::new(alloc);
    for (name, json) in members.iter() {
        let value = value_in(alloc, json, levels)?;
        item.put(Text::copied(alloc, name.as_str())?, value)?;
    }
    Ok(item)
}
