//! The first fault of a body.

ghost use Rattle.std.specs.Prelude.{◌≡◌, IfOk};
ghost use Rattle.serde_json.specs.View.{view, items_view, members_view};
ghost use Rattle.api_form.specs.Names.{text_of};
ghost use Rattle.api_form.specs.Faults.{first, body_faults, all_faults};
ghost use Rattle.api_form.specs.Faults.{faults, element_faults, entry_faults, asked_at, stated_faults, member_faults, object_faults};

use crate::fault::{Fault, Stage};
use crate::form::{Form, Member, Rule, members, stated_rule};
use crate::name::Name;
use crate::own::{absence, beside_fault, key_fault, own_fault};
use crate::spelling::Spelling;
use serde_json::{Map, Value};
use std::alloc::{AllocError as NoMemory, Global};

/// The first fault of a body against its form, None where it has none.
///
/// The faults of a body come in one order. First those of the kinds of the whole body, then the absent members of the
/// whole body, then all else. Each time members are looked at in the order of their names' bytes and lists in order, and
/// what is inside a member comes before the next one. A member that no table has is ignored, and null counts as absent.
///
/// Most bodies have no fault, which one walk tells.
pub fn check_body(alloc: Global, form: Form, json: &Value) -> Result<Option<Fault>, NoMemory>
    ensures { IfOk result (λ fault. fault ≡ first (body_faults form (view json.now))) }
{
    check_value(alloc, json, stated_rule(form))
}

/// The first fault of a body against its rule, None where it has none.
fn check_value(alloc: Global, json: &Value, rule: Rule) -> Result<Option<Fault>, NoMemory>
    ensures { IfOk result (λ fault. fault ≡ first (all_faults rule (view json.now))) }
{
    match first_fault(alloc, json, Stage::Any, Name::Body, rule)? {
        None => return Ok(None),
        Some(_) => {}
    }
    if let Some(fault) = first_fault(alloc, json, Stage::Kinds, Name::Body, rule)? {
        return Ok(Some(fault));
    }
    if let Some(fault) = first_fault(alloc, json, Stage::Absent, Name::Body, rule)? {
        return Ok(Some(fault));
    }
    first_fault(alloc, json, Stage::Ranges, Name::Body, rule)
}

/// The first fault of a value at a stage. The name is that of the member that it stands in.
#[cycle(walk)]
fn first_fault(
    alloc: Global,
    json: &Value,
    stage: Stage,
    name: Name,
    rule: Rule,
) -> Result<Option<Fault>, NoMemory>
    ensures { IfOk result (λ fault. fault ≡ first (faults (view json.now) stage name rule)) }
{
    if let Some(fault) = own_fault(alloc, json, stage, name, rule)? {
        return Ok(Some(fault));
    }
    match json {
        Value::Array(items) => match rule {
            Rule::List { of, .. } => first_in_list(alloc, items, stage, name, stated_rule(of)),
            Rule::AtMostOne { of } => first_in_list(alloc, items, stage, name, stated_rule(of)),
            _ => Ok(None),
        },
        Value::Object(map) => first_in_object(alloc, map, stage, name, rule),
        _ => Ok(None),
    }
}

/// The first fault inside an object.
#[cycle(walk)]
fn first_in_object(
    alloc: Global,
    map: &Map<String, Value>,
    stage: Stage,
    name: Name,
    rule: Rule,
) -> Result<Option<Fault>, NoMemory>
    ensures { let ms = members_view map.now.entries in
        IfOk result (λ fault. fault ≡ first (object_faults stage rule ms (asked_at ms) (entry_faults ms stage name))) }
{
    match rule {
        Rule::Object(form) => first_stated(alloc, map, stage, members(form)),
        Rule::OneOf(form) => first_stated(alloc, map, stage, members(form)),
        Rule::Map { names, of } => { first_in_map(alloc, map, stage, name, names, stated_rule(of)) }
        Rule::Tables { of, .. } => {
            first_in_map(
                alloc,
                map,
                stage,
                name,
                Spelling::TableName,
                stated_rule(of),
            )
        }
        _ => Ok(None),
    }
}

/// The first fault of the elements of a list, which all have one rule.
#[cycle(walk)]
fn first_in_list(
    alloc: Global,
    items: &[Value],
    stage: Stage,
    name: Name,
    rule: Rule,
) -> Result<Option<Fault>, NoMemory>
    ensures { IfOk result (λ fault. fault ≡ first (element_faults (items_view items.now) stage name rule)) }
{
    for element in items {
        if let Some(fault) = first_fault(alloc, element, stage, name, rule)? {
            return Ok(Some(fault));
        }
    }
    Ok(None)
}

/// The first fault of the members of an object that all have one rule.
#[cycle(walk)]
fn first_in_map(
    alloc: Global,
    map: &Map<String, Value>,
    stage: Stage,
    name: Name,
    names: Spelling,
    rule: Rule,
) -> Result<Option<Fault>, NoMemory>
    ensures { IfOk result (λ fault. fault ≡ first (entry_faults (members_view map.now.entries) stage name names rule)) }
{
    for (key, value) in map.iter() {
        if let Some(fault) = key_fault(stage, name, names, key) {
            return Ok(Some(fault));
        }
        if let Some(fault) = first_fault(alloc, value, stage, name, rule)? {
            return Ok(Some(fault));
        }
    }
    Ok(None)
}

/// The first fault of the stated members of an object.
#[cycle(walk)]
fn first_stated(
    alloc: Global,
    map: &Map<String, Value>,
    stage: Stage,
    table: &[Member],
) -> Result<Option<Fault>, NoMemory>
    ensures { let ms = members_view map.now.entries in
        IfOk result (λ fault. fault ≡ first (stated_faults stage table.now ms (asked_at ms))) }
{
    for member in table {
        if let Some(fault) = first_of_member(alloc, map, stage, member)? {
            return Ok(Some(fault));
        }
    }
    Ok(None)
}

/// The first fault of one stated member of an object.
#[cycle(walk)]
fn first_of_member(
    alloc: Global,
    map: &Map<String, Value>,
    stage: Stage,
    member: &Member,
) -> Result<Option<Fault>, NoMemory>
    ensures { let ms = members_view map.now.entries in
        IfOk result (λ fault. fault ≡ first (member_faults stage member.now ms (asked_at ms (text_of member.now.0)))) }
{
    let Some(value) = map.get(member.0.text()) else {
        return Ok(absence(map, stage, member));
    };
    if value.is_null() {
        return Ok(absence(map, stage, member));
    }
    if let Some(fault) = first_fault(alloc, value, stage, member.0, member.2)? {
        return Ok(Some(fault));
    }
    Ok(beside_fault(map, stage, member.0))
}
