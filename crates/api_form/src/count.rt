//! The members of an object that are there, and how many.

ghost use Rattle.std.specs.Prelude.{◌≡◌, option_map, nat_le};
ghost use Rattle.serde_json.specs.Data as json;
ghost use Rattle.serde_json.specs.Find.{get_member};
ghost use Rattle.serde_json.specs.View.{view, items_view, members_view};
ghost use Rattle.api_form.specs.Faults.{stated_at, whole_at, text_at, is_there, has_members, is_filled, is_below, stated_count, inner_count, element_count, array_count, list_count, request_count, total_count};
ghost use Rattle.api_form.specs.Names.{text_of};
ghost use Rattle.api_form.specs.Spellings.{is_between};

use crate::form::Member;
use crate::name::Name;
use serde_json::{Map, Value};

/// The member of this name, unless it is null, which counts as absent.
fn stated_at(map: &Map<String, Value>, name: Name) -> Option<&Value>
    ensures { option_map (λ value. view value.now) result ≡ stated_at name (members_view map.now.entries) }
{
    let value = map.get(name.text())?;
    if value.is_null() { None } else { Some(value) }
}

/// Whether the member is there.
pub fn is_there(map: &Map<String, Value>, name: Name) -> bool
    ensures { result ≡ is_there name (members_view map.now.entries) }
{
    stated_at(map, name).is_some()
}

/// Whether the member is an object with members.
pub fn is_filled(map: &Map<String, Value>, name: Name) -> bool
    ensures { result ≡ is_filled name (members_view map.now.entries) }
{
    match stated_at(map, name) {
        Some(value) => has_members(value),
        None => false,
    }
}

fn has_members(json: &Value) -> bool
    ensures { result ≡ has_members (view json.now) }
{
    match json {
        Value::Object(map) => is_more_than_empty(map),
        _ => false,
    }
}

fn is_more_than_empty(map: &Map<String, Value>) -> bool
    ensures { result ≡ has_members (json.object (members_view map.now.entries)) }
{
    0 < map.len()
}

/// Whether the number of one member is below that of another, where both are there.
pub fn is_below(map: &Map<String, Value>, low: Name, high: Name) -> bool
    ensures { let ms = members_view map.now.entries in result ≡ is_below (whole_at low ms) (whole_at high ms) }
{
    match (number_at(map, low), number_at(map, high)) {
        (Some(low), Some(high)) => low < high,
        _ => true,
    }
}

fn number_at(map: &Map<String, Value>, name: Name) -> Option<u64>
    ensures { result ≡ whole_at name (members_view map.now.entries) }
{
    stated_at(map, name)?.as_u64()
}

/// The text of a member, where it is there and one.
pub fn text_at(map: &Map<String, Value>, name: Name) -> Option<&str>
    ensures { option_map (λ text. text.now) result ≡ text_at name (members_view map.now.entries) }
{
    stated_at(map, name)?.as_str()
}

/// How many of the members of a table are there.
pub fn stated_count(map: &Map<String, Value>, table: &[Member]) -> u64
    ensures { result ≡ stated_count table.now (members_view map.now.entries) }
{
    let mut count = 0;
    for member in table {
        if is_there(map, member.0) {
            count += 1;
        }
    }
    count
}

/// Whether the elements of a list have at most one of the members of a table, all together.
pub fn has_at_most_one(items: &[Value], table: &[Member]) -> bool
    ensures { result ≡ nat_le (element_count table.now (items_view items.now)) 1 }
{
    let mut left: u64 = 1;
    for element in items {
        match left.checked_sub(inner_count(element, table)) {
            Some(fewer) => left = fewer,
            None => return false,
        }
    }
    true
}

fn inner_count(json: &Value, table: &[Member]) -> u64
    ensures { result ≡ inner_count table.now (view json.now) }
{
    match json {
        Value::Object(map) => stated_count(map, table),
        _ => 0,
    }
}

/// Whether all tables together are asked for one to this many reads or writes.
pub fn has_requests(map: &Map<String, Value>, most: u64) -> bool
    ensures { result ≡ is_between 1 most (total_count (members_view map.now.entries)) }
{
    let mut left = most;
    for (_table, requests) in map.iter() {
        match left.checked_sub(request_count(requests)) {
            Some(fewer) => left = fewer,
            None => return false,
        }
    }
    left < most
}

/// How much one table is asked for: its writes, or its keys.
fn request_count(json: &Value) -> u64
    ensures { result ≡ request_count (view json.now) }
{
    match json {
        Value::Object(table) => list_count(table, Name::Keys),
        _ => array_count(json),
    }
}

/// How many elements a member has that is a list.
fn list_count(map: &Map<String, Value>, name: Name) -> u64
    ensures { result ≡ list_count (get_member (text_of name) (members_view map.now.entries)) }
{
    match map.get(name.text()) {
        Some(value) => array_count(value),
        None => 0,
    }
}

fn array_count(json: &Value) -> u64
    ensures { result ≡ array_count (view json.now) }
{
    match json {
        Value::Array(items) => items.len() as u64,
        _ => 0,
    }
}
