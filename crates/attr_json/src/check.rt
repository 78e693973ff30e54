//! The fault of a value, level by level. No value is made but of sets and of binaries, whose faults show only there.

ghost use Rattle.std.specs.Prelude.{◌≡◌, IfOk};
ghost use Rattle.serde_json.specs.View.{view, items_view, members_view};
ghost use Rattle.attr_value.specs.View.{tree_of};
ghost use Rattle.attr_json.specs.Answers.{IsAnswer};
ghost use Rattle.attr_json.specs.Scalars.{number_of, text_value};
ghost use Rattle.attr_value.specs.Tree.{list, map};
ghost use Rattle.attr_json.specs.Steps.{mapped};
ghost use Rattle.attr_json.specs.Values.{value_of, only_of, typed, array_value, object_value, elements_of, attributes_of, deeper, fault_in, set_value, strings_in, value_fault};

use crate::fault::{JsonEnd, JsonFault};
use crate::scalar::{flag_value, text_value};
use crate::set::{are_strings, set_value};
use attr_value::{MAX_DEPTH, Value};
use number38::parse;
use serde_json::{Map, Value as Json};
use std::alloc::{AllocError as NoMemory, Global};

/// The first fault of the attribute value that the JSON states; None where it states one.
pub fn value_fault(alloc: Global, json: &Json) -> Result<Option<JsonFault>, NoMemory>
    ensures { IfOk result (λ fault. fault ≡ value_fault (view json.now)) }
{
    value_in(alloc, json, MAX_DEPTH)
}

/// The fault of a value, where so many levels are left.
#[cycle(look)]
fn value_in(alloc: Global, json: &Json, levels: u32) -> Result<Option<JsonFault>, NoMemory>
    ensures { IfOk result (λ fault. fault ≡ fault_in (value_of (view json.now) levels)) }
{
    match json {
        Json::Object(members) => only_in(alloc, members, levels),
        _ => Ok(Some(JsonFault::NotOneMember)),
    }
}

/// The fault of the value that the only member of an object states.
#[cycle(look)]
fn only_in(
    alloc: Global,
    members: &Map<String, Json>,
    levels: u32,
) -> Result<Option<JsonFault>, NoMemory>
    ensures { IfOk result (λ fault. fault ≡ fault_in (only_of (members_view members.now.entries) levels)) }
{
    if members.len() != 1 {
        return Ok(Some(JsonFault::NotOneMember));
    }
    match members.first_key_value() {
        Some((name, inner)) => typed(alloc, name.as_str(), inner, levels),
        None => Ok(Some(JsonFault::NotOneMember)),
    }
}

/// The fault of what stands under the name of a type.
#[cycle(look)]
fn typed(alloc: Global, name: &str, json: &Json, levels: u32) -> Result<Option<JsonFault>, NoMemory>
    ensures { IfOk result (λ fault. fault ≡ fault_in (typed name.now (view json.now) levels)) }
{
    match json {
        Json::String(text) => in_text(alloc, name, text.as_str()),
        Json::Bool(flag) => told(flag_value(name, *flag)),
        Json::Array(items) => in_array(alloc, name, items, levels),
        Json::Object(members) => in_object(alloc, name, members, levels),
        _ => Ok(Some(JsonFault::UnknownType)),
    }
}

/// The fault that an answer tells. A value is let go.
fn told(answer: Result<Value, JsonEnd>) -> Result<Option<JsonFault>, NoMemory>
    ensures { (defined : _) → IsAnswer tree_of defined answer → IfOk result (λ fault. fault ≡ fault_in defined) }
{
    match answer {
        Ok(_) => Ok(None),
        Err(JsonEnd::Fault(fault)) => Ok(Some(fault)),
        Err(JsonEnd::NoMemory) => Err(NoMemory),
    }
}

/// The fault of a number's text.
fn number_fault(text: &str) -> Option<JsonFault>
    ensures { result ≡ fault_in (number_of text.now) }
{
    match parse(text) {
        Ok(_) => None,
        Err(fault) => Some(JsonFault::BadNumber(fault)),
    }
}

/// The fault of a text under the name of its type.
fn in_text(alloc: Global, name: &str, text: &str) -> Result<Option<JsonFault>, NoMemory>
    ensures { IfOk result (λ fault. fault ≡ fault_in (text_value name.now text.now)) }
{
    if name == "S" {
        return Ok(None);
    }
    if name == "N" {
        return Ok(number_fault(text));
    }
    told(text_value(alloc, name, text))
}

/// The fault of a list under the name of its type, or of a set's.
#[cycle(look)]
fn in_array(
    alloc: Global,
    name: &str,
    items: &[Json],
    levels: u32,
) -> Result<Option<JsonFault>, NoMemory>
    ensures { IfOk result (λ fault. fault
        ≡ fault_in (array_value name.now (items_view items.now) (elements_of (items_view items.now)) levels)) }
{
    if name == "L" {
        return in_list(alloc, items, levels);
    }
    if !are_strings(items) {
        return Ok(Some(JsonFault::UnknownType));
    }
    in_set(alloc, name, items)
}

/// The fault of a list, which is a level of its own.
#[cycle(look)]
fn in_list(alloc: Global, items: &[Json], levels: u32) -> Result<Option<JsonFault>, NoMemory>
    ensures { IfOk result (λ fault. fault
        ≡ fault_in (deeper levels (λ below. mapped list (elements_of (items_view items.now) below)))) }
{
    if levels == 0 {
        return Ok(Some(JsonFault::TooDeep));
    }
    elements_in(alloc, items, levels - 1)
}

/// The fault of strings under the name of a set's type.
fn in_set(alloc: Global, name: &str, items: &[Json]) -> Result<Option<JsonFault>, NoMemory>
    ensures { IfOk result (λ fault. fault ≡ fault_in (set_value name.now (strings_in (items_view items.now)))) }
{
    told(set_value(alloc, name, items))
}

/// The fault of an object under the name of its type.
#[cycle(look)]
fn in_object(
    alloc: Global,
    name: &str,
    members: &Map<String, Json>,
    levels: u32,
) -> Result<Option<JsonFault>, NoMemory>
    ensures { IfOk result (λ fault. fault
        ≡ fault_in (object_value name.now (attributes_of (members_view members.now.entries)) levels)) }
{
    if name != "M" {
        return Ok(Some(JsonFault::UnknownType));
    }
    in_map(alloc, members, levels)
}

/// The fault of a map, which is a level of its own.
#[cycle(look)]
fn in_map(
    alloc: Global,
    members: &Map<String, Json>,
    levels: u32,
) -> Result<Option<JsonFault>, NoMemory>
    ensures { IfOk result (λ fault. fault
        ≡ fault_in (deeper levels (λ below. mapped map (attributes_of (members_view members.now.entries) below)))) }
{
    if levels == 0 {
        return Ok(Some(JsonFault::TooDeep));
    }
    attributes_in(alloc, members, levels - 1)
}

/// The first fault of the elements of a list.
#[cycle(look)]
fn elements_in(alloc: Global, items: &[Json], levels: u32) -> Result<Option<JsonFault>, NoMemory>
    ensures { IfOk result (λ fault. fault ≡ fault_in (elements_of (items_view items.now) levels)) }
{
    for item in items {
        if let Some(fault) = value_in(alloc, item, levels)? {
            return Ok(Some(fault));
        }
    }
    Ok(None)
}

/// The first fault of the attributes of a map.
#[cycle(look)]
fn attributes_in(
    alloc: Global,
    members: &Map<String, Json>,
    levels: u32,
) -> Result<Option<JsonFault>, NoMemory>
    ensures { IfOk result (λ fault. fault ≡ fault_in (attributes_of (members_view members.now.entries) levels)) }
{
    for (_name, json) in members.iter() {
        if let Some(fault) = value_in(alloc, json, levels)? {
            return Ok(Some(fault));
        }
    }
    Ok(None)
}
