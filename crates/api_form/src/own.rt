//! What is wrong with a value itself, or with one member of an object.

ghost use Rattle.std.specs.Prelude.{◌≡◌, ◌++◌, IfOk};
ghost use Rattle.serde_json.specs.Data as json;
ghost use Rattle.serde_json.specs.View.{view, number_view, items_view, members_view};
ghost use Rattle.attr_json.specs.Values.{value_fault};
ghost use Rattle.api_form.specs.declared.name.Name.TheVariants as name;
ghost use Rattle.api_form.specs.declared.fault.Fault.TheVariants as fault;
ghost use Rattle.api_form.specs.Faults.{first, own_faults, range_faults, bad_value, has_kind, is_in_range, key_faults, beside_faults, is_selection, states_projection, text_at, is_there, absence, is_needed, unless};

use crate::count::{
    has_at_most_one, has_requests, is_below, is_filled, is_there, stated_count, text_at,
};
use crate::fault::{Fault, Stage};
use crate::form::{Member, Need, Rule, members};
use crate::name::Name;
use crate::spelling::{Spelling, is_between, is_spelled};
use crate::words::has_word;
use attr_json::value_fault;
use serde_json::{Map, Number, Value};
use std::alloc::{AllocError as NoMemory, Global};

/// The first fault of the value itself at a stage.
pub fn own_fault(
    alloc: Global,
    json: &Value,
    stage: Stage,
    name: Name,
    rule: Rule,
) -> Result<Option<Fault>, NoMemory>
    ensures { IfOk result (λ fault. fault ≡ first (own_faults stage name rule (view json.now))) }
{
    match stage {
        Stage::Kinds => Ok(unless(has_kind(rule, json), Fault::Kind)),
        Stage::Absent => Ok(None),
        Stage::Ranges => range_fault(alloc, json, name, rule),
        Stage::Any => any_fault(alloc, json, name, rule),
    }
}

/// The fault of the value's kind, and else that of the last stage.
fn any_fault(alloc: Global, json: &Value, name: Name, rule: Rule) -> Result<Option<Fault>, NoMemory>
    ensures { IfOk result (λ found. found ≡ first (unless (has_kind rule (view json.now)) fault.Kind ++ range_faults name rule (view json.now))) }
{
    if !has_kind(rule, json) {
        return Ok(Some(Fault::Kind));
    }
    range_fault(alloc, json, name, rule)
}

/// Whether the value is of the JSON kind that the rule states.
fn has_kind(rule: Rule, json: &Value) -> bool
    ensures { result ≡ has_kind rule (view json.now) }
{
    match rule {
        Rule::Object(_) | Rule::OneOf(_) | Rule::Map { .. } | Rule::Tables { .. } =>
            json.is_object(),
        Rule::List { .. } | Rule::AtMostOne { .. } => json.is_array(),
        Rule::Text(_) | Rule::Word(_) => json.is_string(),
        Rule::Whole { .. } => json.is_u64() || json.is_i64(),
        Rule::Flag => json.is_boolean(),
        Rule::Value => true,
    }
}

/// The fault of the value itself in the last stage.
fn range_fault(
    alloc: Global,
    json: &Value,
    name: Name,
    rule: Rule,
) -> Result<Option<Fault>, NoMemory>
    ensures { IfOk result (λ fault. fault ≡ first (range_faults name rule (view json.now))) }
{
    match rule {
        Rule::Value => bad_value(alloc, json),
        _ => Ok(unless(is_in_range(json, rule), Fault::OutOfRange(name))),
    }
}

fn bad_value(alloc: Global, json: &Value) -> Result<Option<Fault>, NoMemory>
    ensures { IfOk result (λ fault. fault ≡ first (bad_value (value_fault (view json.now)))) }
{
    match value_fault(alloc, json)? {
        Some(fault) => Ok(Some(Fault::BadValue(fault))),
        None => Ok(None),
    }
}

/// Whether the value itself, not what is inside it, is in its range.
fn is_in_range(json: &Value, rule: Rule) -> bool
    ensures { result ≡ is_in_range rule (view json.now) }
{
    match json {
        Value::String(text) => text_in_range(text, rule),
        Value::Number(number) => number_in_range(number, rule),
        Value::Array(items) => list_in_range(items, rule),
        Value::Object(map) => object_in_range(map, rule),
        Value::Null | Value::Bool(_) => true,
    }
}

fn text_in_range(text: &str, rule: Rule) -> bool
    ensures { result ≡ is_in_range rule (json.string text.now) }
{
    match rule {
        Rule::Text(spelling) => is_spelled(spelling, text),
        Rule::Word(words) => has_word(words, text),
        _ => true,
    }
}

fn number_in_range(number: &Number, rule: Rule) -> bool
    ensures { result ≡ is_in_range rule (json.number (number_view number.now)) }
{
    let Rule::Whole { least, most } = rule else {
        return true;
    };
    match number.as_u64() {
        Some(number) => is_between(least, most, number),
        None => number.is_f64(),
    }
}

fn list_in_range(items: &[Value], rule: Rule) -> bool
    ensures { result ≡ is_in_range rule (json.array (items_view items.now)) }
{
    match rule {
        Rule::List { least, most, .. } => is_between(least, most, items.len() as u64),
        Rule::AtMostOne { of } => has_at_most_one(items, members(of)),
        _ => true,
    }
}

fn object_in_range(map: &Map<String, Value>, rule: Rule) -> bool
    ensures { result ≡ is_in_range rule (json.object (members_view map.now.entries)) }
{
    match rule {
        Rule::OneOf(form) => stated_count(map, members(form)) == 1,
        Rule::Tables { most, .. } => has_requests(map, most),
        _ => true,
    }
}

/// The fault of a name in a map at a stage.
pub fn key_fault(stage: Stage, name: Name, spelling: Spelling, key: &str) -> Option<Fault>
    ensures { result ≡ first (key_faults stage name spelling key.now) }
{
    match stage {
        Stage::Ranges | Stage::Any => unless(is_spelled(spelling, key), Fault::OutOfRange(name)),
        Stage::Kinds | Stage::Absent => None,
    }
}

/// The fault of a member beside others of its object, behind its own.
pub fn beside_fault(map: &Map<String, Value>, stage: Stage, name: Name) -> Option<Fault>
    ensures { result ≡ first (beside_faults stage name (members_view map.now.entries)) }
{
    match (stage, name) {
        (Stage::Ranges | Stage::Any, Name::Select) => unless(is_selection(map), Fault::Select),
        (Stage::Ranges | Stage::Any, Name::TotalSegments) => unless(
            is_below(map, Name::Segment, Name::TotalSegments),
            Fault::OutOfRange(Name::Segment),
        ),
        _ => None,
    }
}

/// Whether what is selected goes with the index and the projection that are stated.
fn is_selection(map: &Map<String, Value>) -> bool
    ensures { let ms = members_view map.now.entries in
        result ≡ is_selection (text_at name.Select ms) (is_there name.IndexName ms) (states_projection ms) }
{
    let indexed = is_there(map, Name::IndexName);
    let projected = states_projection(map);
    match text_at(map, Name::Select) {
        Some("SPECIFIC_ATTRIBUTES") => projected,
        Some("ALL_PROJECTED_ATTRIBUTES") => indexed && !projected,
        Some(_) => !projected,
        None => true,
    }
}

/// Whether it is stated which attributes are shown.
fn states_projection(map: &Map<String, Value>) -> bool
    ensures { result ≡ states_projection (members_view map.now.entries) }
{
    is_there(map, Name::ProjectionExpression) || is_there(map, Name::AttributesToGet)
}

/// The fault of a member that is absent.
pub fn absence(map: &Map<String, Value>, stage: Stage, member: &Member) -> Option<Fault>
    ensures { result ≡ first (absence stage member.now (members_view map.now.entries)) }
{
    match stage {
        Stage::Absent | Stage::Any => unless(!is_needed(map, member.1), Fault::Missing(member.0)),
        Stage::Kinds | Stage::Ranges => None,
    }
}

/// Whether a member has to be there.
fn is_needed(map: &Map<String, Value>, need: Need) -> bool
    ensures { result ≡ is_needed need (members_view map.now.entries) }
{
    match need {
        Need::Required => true,
        Need::Optional => false,
        Need::With(other) => is_there(map, other),
        Need::UnlessFilled(other) => !is_filled(map, other),
    }
}

/// A fault where the test failed.
fn unless(holds: bool, fault: Fault) -> Option<Fault>
    ensures { result ≡ first (unless holds fault) }
{
    if holds { None } else { Some(fault) }
}
