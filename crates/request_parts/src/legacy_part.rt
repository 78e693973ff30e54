//! What single legacy members state: tests of attributes, changes of them, names.

ghost use Rattle.std.specs.Prelude.{◌≡◌, ◌≢◌, IfOk, AllPairs, map, option_map};
ghost use Rattle.serde_json.specs.View.{view, items_view, members_view};
ghost use Rattle.attr_value.specs.View.{tree_of};
ghost use Rattle.request_parts.specs.Members.{each, text};
ghost use Rattle.request_parts.specs.Placeholders.{members_in, value_in};
ghost use Rattle.request_parts.specs.Legacy.{stated_value, value_if, exists_if, test_in, tests_in, shown_test, change_in, changes_in, shown_change, stated_names};

use crate::member::{copy_at, list_at, map_at, object_at, stated_flag, stated_list, texts};
use crate::placeholder::value_in;
use api_form::Name;
use attr_value::Value;
use base_types::{Seq, Text};
use legacy_params::{LegacyChange, LegacyTest};
use serde_json::{Map, Value as Json};
use std::alloc::{AllocError as NoMemory, Global};

/// The tests of a member; none where it is absent. Only those of Expected may have Value and Exists.
pub(crate) fn tests_at(
    alloc: Global,
    json: &Json,
    member: Name,
    expected: bool,
) -> Result<Seq<LegacyTest>, NoMemory>
    ensures { IfOk result (λ tests. map shown_test tests ≡ tests_in expected (members_in member (view json.now))) }
{
    match map_at(json, member) {
        Some(members) => tests_of(alloc, members, expected),
        None => Ok(Seq::new(alloc)),
    }
}

fn tests_of(
    alloc: Global,
    members: &Map<String, Json>,
    expected: bool,
) -> Result<Seq<LegacyTest>, NoMemory>
    ensures { IfOk result (λ tests. map shown_test tests ≡ tests_in expected (members_view members.now.entries)) }
{
    let mut tests = Seq::new(alloc);
    for (name, json) in members.iter() {
        tests.push(test_of(alloc, name, json, expected)?)?;
    }
    Ok(tests)
}

fn test_of(alloc: Global, name: &str, json: &Json, expected: bool) -> Result<LegacyTest, NoMemory>
    ensures { IfOk result (λ test. shown_test test ≡ test_in expected name.now (view json.now)) }
{
    let name = Text::copied(alloc, name)?;
    let operator = copy_at(alloc, json, Name::ComparisonOperator)?;
    let value = value_if(alloc, json, expected)?;
    let values = value_list(alloc, list_at(json, Name::AttributeValueList))?;
    Ok(LegacyTest {
        name,
        operator,
        value,
        values,
        exists: exists_if(json, expected),
    })
}

fn value_if(alloc: Global, json: &Json, expected: bool) -> Result<Option<Value>, NoMemory>
    ensures { IfOk result (λ value. option_map tree_of value ≡ value_if expected (view json.now)) }
{
    if expected {
        stated_value(alloc, json, Name::Value)
    } else {
        Ok(None)
    }
}

fn exists_if(json: &Json, expected: bool) -> Option<bool>
    ensures { result ≡ exists_if expected (view json.now) }
{
    if expected {
        stated_flag(json, Name::Exists)
    } else {
        None
    }
}

/// The attribute value of a member, where it is stated.
fn stated_value(alloc: Global, json: &Json, member: Name) -> Result<Option<Value>, NoMemory>
    ensures { IfOk result (λ value. option_map tree_of value ≡ stated_value member (view json.now)) }
{
    match object_at(json, member) {
        Some(inner) => Ok(Some(value_in(alloc, inner)?)),
        None => Ok(None),
    }
}

/// The attribute values of a list.
#[tactic(auto, using(crate::proofs::Lists::each_step))]
fn value_list(alloc: Global, items: &[Json]) -> Result<Seq<Value>, NoMemory>
    ensures { IfOk result (λ values. map tree_of values ≡ each value_in (items_view items.now)) }
{
    let mut values = Seq::with_capacity(alloc, items.len())?;
    for json in items {
        values.push(value_in(alloc, json)?)?;
    }
    Ok(values)
}

/// The changes of a member; none where it is absent. No two have one name.
pub(crate) fn changes_at(
    alloc: Global,
    json: &Json,
    member: Name,
) -> Result<Seq<LegacyChange>, NoMemory>
    ensures changes { IfOk result (λ changes. map shown_change changes ≡ changes_in (members_in member (view json.now))) }
    ensures once { IfOk result (λ changes. AllPairs (λ one other. one.name ≢ other.name) changes) }
{
    match map_at(json, member) {
        Some(members) => changes_of(alloc, members),
        None => Ok(Seq::new(alloc)),
    }
}

fn changes_of(alloc: Global, members: &Map<String, Json>) -> Result<Seq<LegacyChange>, NoMemory>
    ensures changes { IfOk result (λ changes. map shown_change changes ≡ changes_in (members_view members.now.entries)) }
    ensures once { IfOk result (λ changes. AllPairs (λ one other. one.name ≢ other.name) changes) }
{
    // What `len` tells of a map: that its keys ascend.
    let _ = members.len();
    let mut changes = Seq::new(alloc);
    for (name, json) in members.iter() {
        changes.push(change_of(alloc, name, json)?)?;
    }
    Ok(changes)
}

fn change_of(alloc: Global, name: &str, json: &Json) -> Result<LegacyChange, NoMemory>
    ensures { IfOk result (λ change. shown_change change ≡ change_in name.now (view json.now)) }
{
    let name = Text::copied(alloc, name)?;
    let action = copy_at(alloc, json, Name::Action)?;
    let value = stated_value(alloc, json, Name::Value)?;
    Ok(LegacyChange {
        name,
        action,
        value,
    })
}

/// The names of AttributesToGet; None where it is absent or no list. NoMemory where memory is refused.
pub fn stated_names(alloc: Global, json: &Json) -> Result<Option<Seq<Text>>, NoMemory>
    ensures { IfOk result (λ names. names ≡ stated_names (view json.now)) }
{
    match stated_list(json, Name::AttributesToGet) {
        Some(items) => Ok(Some(texts(alloc, items)?)),
        None => Ok(None),
    }
}
