//! Members of a body that was held against its form. What is absent, null or of another kind is not stated; where a value is
//! wanted all the same, it is the empty text, the empty list, the empty item or false.

ghost use Rattle.std.specs.Prelude.{◌≡◌, IfOk, option_map, option_and_then};
ghost use Rattle.serde_json.specs.View.{view, items_view, members_view};
ghost use Rattle.serde_json.specs.Find.{as_array, as_object};
ghost use Rattle.request_parts.specs.Members.{each, text, member_at, stated_text, text_at, stated_flag, flag_at, stated_whole, list_at, elements, item_at, item_in, stated_item, object_at};

use api_form::Name;
use attr_json::{JsonEnd, item_from};
use attr_value::Item;
use base_types::{Seq, Text};
use serde_json::{Map, Value};
use std::alloc::{AllocError as NoMemory, Global};

/// The text of a member; None where the member is absent or no text.
pub fn stated_text(json: &Value, name: Name) -> Option<&str>
    ensures { option_map (λ text. text.now) result ≡ stated_text name (view json.now) }
{
    json.get(name.text()).and_then(Value::as_str)
}

/// The text of a member; the empty one where none is stated.
pub fn text_at(json: &Value, name: Name) -> &str
    ensures { result.now ≡ text_at name (view json.now) }
{
    json.get(name.text()).and_then(Value::as_str).unwrap_or("")
}

/// The text of a member, copied; the empty one where none is stated. NoMemory where memory is refused.
pub fn copy_at(alloc: Global, json: &Value, name: Name) -> Result<Text, NoMemory>
    ensures { IfOk result (λ text. text ≡ text_at name (view json.now)) }
{
    Text::copied(alloc, text_at(json, name))
}

/// The text of a member, copied; None where none is stated. NoMemory where memory is refused.
pub fn stated_copy(alloc: Global, json: &Value, name: Name) -> Result<Option<Text>, NoMemory>
    ensures { IfOk result (λ text. text ≡ stated_text name (view json.now)) }
{
    match stated_text(json, name) {
        Some(text) => Ok(Some(Text::copied(alloc, text)?)),
        None => Ok(None),
    }
}

/// Whether a member is true; None where it is absent or neither true nor false.
pub fn stated_flag(json: &Value, name: Name) -> Option<bool>
    ensures { result ≡ stated_flag name (view json.now) }
{
    json.get(name.text()).and_then(Value::as_bool)
}

/// Whether a member is true; false where it is not stated.
pub fn flag_at(json: &Value, name: Name) -> bool
    ensures { result ≡ flag_at name (view json.now) }
{
    stated_flag(json, name).unwrap_or(false)
}

/// The whole number of a member; None where it is absent or no whole number from 0 to 2^64 - 1.
pub fn stated_whole(json: &Value, name: Name) -> Option<u64>
    ensures { result ≡ stated_whole name (view json.now) }
{
    json.get(name.text()).and_then(Value::as_u64)
}

/// The elements of a member, in order; none where it is absent or no list.
pub fn list_at(json: &Value, name: Name) -> &[Value]
    ensures { items_view result.now ≡ list_at name (view json.now) }
{
    match json.get(name.text()).and_then(Value::as_array) {
        Some(items) => items.as_slice(),
        None => &[],
    }
}

/// The elements of a member, in order; None where it is absent or no list.
pub(crate) fn stated_list(json: &Value, name: Name) -> Option<&[Value]>
    ensures { option_map (λ items. items_view items.now) result ≡ option_and_then as_array (member_at name (view json.now)) }
{
    match json.get(name.text()).and_then(Value::as_array) {
        Some(items) => Some(items.as_slice()),
        None => None,
    }
}

/// The texts of elements, copied, in order; the empty text where one is none. NoMemory where memory is refused.
#[tactic(auto, using(crate::proofs::Lists::each_step))]
pub fn texts(alloc: Global, items: &[Value]) -> Result<Seq<Text>, NoMemory>
    ensures { IfOk result (λ texts. texts ≡ each text (items_view items.now)) }
{
    let mut texts = Seq::with_capacity(alloc, items.len())?;
    for item in items {
        texts.push(Text::copied(alloc, item.as_str().unwrap_or(""))?)?;
    }
    Ok(texts)
}

/// The elements of a list, in order; none where the JSON is no list.
pub fn elements(json: &Value) -> &[Value]
    ensures { items_view result.now ≡ elements (view json.now) }
{
    match json.as_array() {
        Some(items) => items.as_slice(),
        None => &[],
    }
}

/// The item that JSON states (API Reference: AttributeValue); the empty one where it states none. NoMemory where memory is
/// refused.
pub fn item_in(alloc: Global, json: &Value) -> Result<Item, NoMemory>
    ensures { IfOk result (λ item. item ≡ item_in (view json.now)) }
{
    match item_from(alloc, json) {
        Ok(item) => Ok(item),
        Err(JsonEnd::Fault(_)) => Ok(Item::new(alloc)),
        Err(JsonEnd::NoMemory) => Err(NoMemory),
    }
}

/// The item of a member; the empty one where none is stated. NoMemory where memory is refused.
pub fn item_at(alloc: Global, json: &Value, name: Name) -> Result<Item, NoMemory>
    ensures { IfOk result (λ item. item ≡ item_at name (view json.now)) }
{
    match json.get(name.text()) {
        Some(inner) => item_in(alloc, inner),
        None => Ok(Item::new(alloc)),
    }
}

/// The object of a member; None where it is absent or no object.
pub fn map_at(json: &Value, name: Name) -> Option<&Map<String, Value>>
    ensures { option_map (λ map. members_view map.now.entries) result ≡ option_and_then as_object (member_at name (view json.now)) }
{
    json.get(name.text()).and_then(Value::as_object)
}

/// The object of a member as JSON; None where it is absent or no object.
pub fn object_at(json: &Value, name: Name) -> Option<&Value>
    ensures { option_map (λ inner. view inner.now) result ≡ object_at name (view json.now) }
{
    match json.get(name.text()) {
        Some(inner) if inner.is_object() => Some(inner),
        _ => None,
    }
}

/// The item of a member; None where it is absent or no object. NoMemory where memory is refused.
pub fn stated_item(alloc: Global, json: &Value, name: Name) -> Result<Option<Item>, NoMemory>
    ensures { IfOk result (λ item. item ≡ stated_item name (view json.now)) }
{
    match object_at(json, name) {
        Some(inner) => Ok(Some(item_in(alloc, inner)?)),
        None => Ok(None),
    }
}
