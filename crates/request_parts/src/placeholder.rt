//! What a body's placeholders stand for (Developer Guide: Expression attribute names, Expression attribute values).

ghost use Rattle.std.specs.Prelude.{◌≡◌, ◌<◌, length, IfOk, ◌^◌, map};
ghost use Rattle.serde_json.specs.View.{view, members_view};
ghost use Rattle.attr_value.specs.View.{tree_of};
ghost use Rattle.api_form.specs.declared.name.Name.TheVariants as name;
ghost use Rattle.request_parts.specs.Placeholders.{known, known_names, shown, members_in, name_pairs, keys, values_in, value_in};

use crate::member::map_at;
use api_form::Name;
use attr_json::{JsonEnd, value_from};
use attr_value::Value;
use base_types::{Seq, Text};
use expr_parse::{Given, NamePair};
use serde_json::{Map, Value as Json};
use std::alloc::{AllocError as NoMemory, Global};

/// Placeholders with what they stand for. Names and values each come in the order of their placeholders' bytes, as the
/// members of an object do.
#[derive(Drop)]
pub struct Placeholders {
    pub given: Given,
    /// The value of each placeholder in `given.value_names`, at the same place.
    pub values: Seq<Value>,
}

impl Placeholders {
    /// Those that a body states. NoMemory where memory is refused, and for 2^32 values and more, which no place names.
    pub fn read(alloc: Global, json: &Json) -> Result<Placeholders, NoMemory>
        ensures known { IfOk result (λ p. shown p ≡ known (view json.now)) }
        ensures values { IfOk result (λ p. map tree_of p.values ≡ (known (view json.now)).values) }
        ensures few { IfOk result (λ p. length p.given.value_names < 2 ^ 32) }
    {
        let names = name_pairs(alloc, json)?;
        let value_names = value_names(alloc, json)?;
        let values = values(alloc, json)?;
        if value_names.len() > 0xffff_ffff {
            return Err(NoMemory);
        }
        let given = Given { names, value_names };
        Ok(Placeholders { given, values })
    }

    /// Those of a body whose form has no values: its names alone. NoMemory where memory is refused.
    pub fn named(alloc: Global, json: &Json) -> Result<Placeholders, NoMemory>
        ensures known { IfOk result (λ p. shown p ≡ known_names (view json.now)) }
        ensures few { IfOk result (λ p. length p.given.value_names < 2 ^ 32) }
    {
        let names = name_pairs(alloc, json)?;
        let value_names = Seq::new(alloc);
        let given = Given { names, value_names };
        Ok(Placeholders {
            given,
            values: Seq::new(alloc),
        })
    }
}

fn name_pairs(alloc: Global, json: &Json) -> Result<Seq<NamePair>, NoMemory>
    ensures { IfOk result (λ pairs. pairs ≡ name_pairs (members_in name.ExpressionAttributeNames (view json.now))) }
{
    match map_at(json, Name::ExpressionAttributeNames) {
        Some(members) => pairs_of(alloc, members),
        None => Ok(Seq::new(alloc)),
    }
}

fn value_names(alloc: Global, json: &Json) -> Result<Seq<Text>, NoMemory>
    ensures { IfOk result (λ names. names ≡ keys (members_in name.ExpressionAttributeValues (view json.now))) }
{
    match map_at(json, Name::ExpressionAttributeValues) {
        Some(members) => keys_of(alloc, members),
        None => Ok(Seq::new(alloc)),
    }
}

/// The values that a body states, in the order of their placeholders' bytes. NoMemory where memory is refused.
pub fn values(alloc: Global, json: &Json) -> Result<Seq<Value>, NoMemory>
    ensures { IfOk result (λ values. map tree_of values ≡ values_in (members_in name.ExpressionAttributeValues (view json.now))) }
{
    match map_at(json, Name::ExpressionAttributeValues) {
        Some(members) => values_of(alloc, members),
        None => Ok(Seq::new(alloc)),
    }
}

/// Placeholders of names with their names, in the order of the placeholders' bytes. NoMemory where memory is refused.
pub fn pairs_of(alloc: Global, members: &Map<String, Json>) -> Result<Seq<NamePair>, NoMemory>
    ensures { IfOk result (λ pairs. pairs ≡ name_pairs (members_view members.now.entries)) }
{
    let mut pairs = Seq::new(alloc);
    for (key, name) in members.iter() {
        let placeholder = Text::copied(alloc, key)?;
        let name = Text::copied(alloc, name.as_str().unwrap_or(""))?;
        pairs.push(NamePair { placeholder, name })?;
    }
    Ok(pairs)
}

fn keys_of(alloc: Global, members: &Map<String, Json>) -> Result<Seq<Text>, NoMemory>
    ensures { IfOk result (λ names. names ≡ keys (members_view members.now.entries)) }
{
    let mut names = Seq::new(alloc);
    for (key, _value) in members.iter() {
        names.push(Text::copied(alloc, key)?)?;
    }
    Ok(names)
}

fn values_of(alloc: Global, members: &Map<String, Json>) -> Result<Seq<Value>, NoMemory>
    ensures { IfOk result (λ values. map tree_of values ≡ values_in (members_view members.now.entries)) }
{
    let mut values = Seq::new(alloc);
    for (_key, json) in members.iter() {
        values.push(value_in(alloc, json)?)?;
    }
    Ok(values)
}

/// The value that JSON states.
pub(crate) fn value_in(alloc: Global, json: &Json) -> Result<Value, NoMemory>
    ensures { IfOk result (λ value. tree_of value ≡ value_in (view json.now)) }
{
    match value_from(alloc, json) {
        Ok(value) => Ok(value),
        Err(JsonEnd::Fault(_)) => Ok(Value::Null),
        Err(JsonEnd::NoMemory) => Err(NoMemory),
    }
}
