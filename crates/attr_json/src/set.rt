//! Sets from lists of strings.

ghost use Rattle.std.specs.Prelude.{◌≡◌, IfOk};
ghost use Rattle.serde_json.specs.View.{view, items_view};
ghost use Rattle.attr_value.specs.View.{tree_of};
ghost use Rattle.attr_json.specs.Answers.{IsAnswer};
ghost use Rattle.attr_json.specs.Scalars.{number_of, bytes_of};
ghost use Rattle.attr_json.specs.Sets.{set_of, IsExact};
ghost use Rattle.attr_json.specs.Values.{are_strings, string_in, strings_in, each, set_value};

use crate::fault::{JsonEnd, JsonFault};
use crate::scalar::{bytes_from, number_from};
use attr_value::{Value, ValueFault};
use base_types::{Bytes, Seq, Text};
use number38::Number;
use ordered_set::{OrderedSet, SetFault};
use serde_json::Value as Json;
use std::alloc::{AllocError as NoMemory, Global};

/// Whether every element is a string.
pub(crate) fn are_strings(items: &[Json]) -> bool
    ensures { result ≡ are_strings (items_view items.now) }
{
    for item in items {
        if !item.is_string() {
            return false;
        }
    }
    true
}

/// The text of a string, and the empty one of all else.
fn string_in(item: &Json) -> &str
    ensures { result.now ≡ string_in (view item.now) }
{
    match item {
        Json::String(text) => text.as_str(),
        _ => "",
    }
}

/// Strings under the name of a set's type.
pub(crate) fn set_value(alloc: Global, name: &str, items: &[Json]) -> Result<Value, JsonEnd>
    ensures { IsAnswer tree_of (set_value name.now (strings_in (items_view items.now))) result }
{
    if name == "SS" {
        return Ok(Value::Ss(ordered(texts_in(alloc, items)?)?));
    }
    if name == "NS" {
        return Ok(Value::Ns(ordered(numbers_in(alloc, items)?)?));
    }
    if name == "BS" {
        return Ok(Value::Bs(ordered(binaries_in(alloc, items)?)?));
    }
    Err(JsonEnd::Fault(JsonFault::UnknownType))
}

/// The set of these elements, or its fault.
fn ordered<T: Ord + Drop>(elements: Seq<T>) -> Result<OrderedSet<T>, JsonEnd>
    requires { IsExact T.cmp }
    ensures { IsAnswer (λ set. set) (set_of T.cmp elements) result }
{
    match OrderedSet::new(elements) {
        Ok(set) => Ok(set),
        Err(SetFault::Empty) => Err(JsonEnd::Fault(JsonFault::BadSet(ValueFault::EmptySet))),
        Err(SetFault::Duplicate) => {
            Err(JsonEnd::Fault(JsonFault::BadSet(ValueFault::DuplicateInSet)))
        }
    }
}

/// The texts of strings.
fn texts_in(alloc: Global, items: &[Json]) -> Result<Seq<Text>, NoMemory>
    ensures { IfOk result (λ texts. texts ≡ strings_in (items_view items.now)) }
{
    let mut texts = Seq::with_capacity(alloc, items.len())?;
    for item in items {
        texts.push(Text::copied(alloc, string_in(item))?)?;
    }
    Ok(texts)
}

/// The numbers that strings denote, or the first fault.
fn numbers_in(alloc: Global, items: &[Json]) -> Result<Seq<Number>, JsonEnd>
    ensures { IsAnswer (λ zs. zs) (each number_of (strings_in (items_view items.now))) result }
{
    let mut numbers = Seq::with_capacity(alloc, items.len())?;
    for item in items {
        numbers.push(number_from(string_in(item))?)?;
    }
    Ok(numbers)
}

/// The bytes of strings in base64, or the first fault.
fn binaries_in(alloc: Global, items: &[Json]) -> Result<Seq<Bytes>, JsonEnd>
    ensures { IsAnswer (λ bs. bs) (each bytes_of (strings_in (items_view items.now))) result }
{
    let mut binaries = Seq::with_capacity(alloc, items.len())?;
    for item in items {
        binaries.push(bytes_from(alloc, string_in(item))?)?;
    }
    Ok(binaries)
}
