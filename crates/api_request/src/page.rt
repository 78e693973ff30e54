//! Requests on the rows of a table or of an index.

ghost use Rattle.std.specs.Prelude.{◌≡◌, IfOk};
ghost use Rattle.serde_json.specs.View.{view};
ghost use Rattle.request_parts.specs.Asks.{IsPart};
ghost use Rattle.request_parts.specs.Ends.{IsToldOf};
ghost use Rattle.api_request.specs.Pages.{select_named, rows, segment_of, StatesPage, scan_asks, IsScan, IsQuery, IsPageOf};

use crate::item::asks_capacity;
use api_form::Name;
use attr_value::{Item, Value};
use base_types::{Seq, Text};
use request_parts::{
    PageTrees, Placeholders, RequestEnd, copy_at, flag_at, read_page, read_query, stated_copy,
    stated_flag, stated_item, stated_text, stated_whole, text_at,
};
use serde_json::Value as Json;
use std::alloc::{AllocError as NoMemory, Global};
use table_request::{PageRequest, Query, Scan, Segment, Select};

/// What a page states beside its expressions.
#[derive(Drop)]
pub(crate) struct Rows {
    pub table: Text,
    pub index: Option<Text>,
    pub select: Option<Select>,
    pub limit: Option<u64>,
    pub start: Option<Item>,
    pub consistent: bool,
    pub capacity: bool,
}

impl Rows {
    /// What the body of a page states beside its expressions.
    fn read(alloc: Global, json: &Json) -> Result<Rows, NoMemory>
        ensures { IfOk result (λ r. r ≡ rows (view json.now)) }
    {
        Ok(Rows {
            table: copy_at(alloc, json, Name::TableName)?,
            index: stated_copy(alloc, json, Name::IndexName)?,
            select: select_in(json),
            limit: stated_whole(json, Name::Limit),
            start: stated_item(alloc, json, Name::ExclusiveStartKey)?,
            consistent: flag_at(json, Name::ConsistentRead),
            capacity: asks_capacity(json),
        })
    }
}

/// Which attributes are shown, where it is stated.
fn select_in(json: &Json) -> Option<Select>
    ensures { result ≡ (rows (view json.now)).select }
{
    match stated_text(json, Name::Select) {
        Some(word) => Some(select_named(word)),
        None => None,
    }
}

/// Which attributes a word selects; the form has no other words.
fn select_named(word: &str) -> Select
    ensures { result ≡ select_named word.now }
{
    match word {
        "ALL_ATTRIBUTES" => Select::AllAttributes,
        "ALL_PROJECTED_ATTRIBUTES" => Select::AllProjectedAttributes,
        "SPECIFIC_ATTRIBUTES" => Select::SpecificAttributes,
        _ => Select::Count,
    }
}

/// A page of these rows.
fn page_of(rows: Rows, trees: PageTrees, values: Seq<Value>) -> PageRequest
    ensures { IsPageOf rows trees values result }
{
    PageRequest {
        table: rows.table,
        index: rows.index,
        filter: trees.filter,
        projection: trees.projection,
        values,
        select: rows.select,
        limit: rows.limit,
        start: rows.start,
        consistent: rows.consistent,
        capacity: rows.capacity,
    }
}

/// The segment, where one is stated.
fn segment_of(json: &Json) -> Option<Segment>
    ensures { result ≡ segment_of (view json.now) }
{
    let total = stated_whole(json, Name::TotalSegments)?;
    let segment = stated_whole(json, Name::Segment).unwrap_or(0);
    Some(Segment { segment, total })
}

/// What the body of a page states, but for a segment or a key condition, or why its expressions are refused.
pub fn page(alloc: Global, json: &Json) -> Result<PageRequest, RequestEnd>
    ensures { IsToldOf (IsPart scan_asks StatesPage (view json.now)) result }
{
    let rows = Rows::read(alloc, json)?;
    let placeholders = Placeholders::read(alloc, json)?;
    let filter = stated_text(json, Name::FilterExpression);
    let projection = stated_text(json, Name::ProjectionExpression);
    let trees = read_page(alloc, &placeholders, filter, projection)?;
    Ok(page_of(rows, trees, placeholders.values))
}

/// What the body of a Scan states (API Reference: Scan), or why its expressions are refused.
pub fn scan(alloc: Global, json: &Json) -> Result<Scan, RequestEnd>
    ensures { IsToldOf (IsScan (view json.now)) result }
{
    Ok(Scan {
        page: page(alloc, json)?,
        segment: segment_of(json),
    })
}

/// What the body of a Query states (API Reference: Query), or why its expressions are refused.
pub fn query(alloc: Global, json: &Json) -> Result<Query, RequestEnd>
    ensures { IsToldOf (IsQuery (view json.now)) result }
{
    let rows = Rows::read(alloc, json)?;
    let placeholders = Placeholders::read(alloc, json)?;
    let key = text_at(json, Name::KeyConditionExpression);
    let filter = stated_text(json, Name::FilterExpression);
    let projection = stated_text(json, Name::ProjectionExpression);
    let trees = read_query(alloc, &placeholders, key, filter, projection)?;
    Ok(Query {
        page: page_of(rows, trees.page, placeholders.values),
        key_condition: trees.key_condition,
        forward: stated_flag(json, Name::ScanIndexForward).unwrap_or(true),
    })
}
