//! Requests that may have legacy members (Developer Guide: Legacy conditional parameters). These are read first, and what they
//! stand for is put into what all other members state.

ghost use Rattle.std.specs.Prelude.{◌≡◌};
ghost use Rattle.serde_json.specs.View.{view};
ghost use Rattle.request_parts.specs.declared.legacy.LegacyKind.TheVariants as kind;
ghost use Rattle.request_parts.specs.Ends.{IsToldOf};
ghost use Rattle.api_request.specs.Items.{IsPutItem, IsGetItem, IsUpdateItem, IsDeleteItem};
ghost use Rattle.api_request.specs.Pages.{IsScan};
ghost use Rattle.api_request.specs.Batches.{IsTable};
ghost use Rattle.api_request.specs.Legacy.{WithLegacy, in_put, in_get, in_update, in_delete, in_scan, IsAnyQuery, IsQueryOf, AreBoth};

use crate::{batch, item, page};
use api_form::{Fault, Name};
use attr_value::Value as AttrValue;
use base_types::Seq;
use expr_parse::{Condition, Paths};
use request_parts::{
    LegacyKind, LegacyTrees, Refusal, RequestEnd, has_legacy, read_legacy, stated_flag,
    stated_names,
};
use serde_json::Value;
use std::alloc::Global;
use table_request::{
    DeleteItem, GetItem, PageRequest, PutItem, Query, Scan, TableKeys, UpdateItem,
};

/// What the body of a PutItem states (API Reference: PutItem), or why it is refused.
pub fn put_item(alloc: Global, json: &Value) -> Result<PutItem, RequestEnd>
    ensures { IsToldOf (WithLegacy kind.Write in_put IsPutItem (view json.now)) result }
{
    if !has_legacy(json, LegacyKind::Write) {
        return item::put_item(alloc, json);
    }
    let legacy = read_legacy(alloc, json, LegacyKind::Write);
    let (trees, bare) = both(legacy, item::put_item(alloc, json))?;
    Ok(PutItem {
        condition: trees.condition,
        values: trees.values,
        ..bare
    })
}

/// What the body of a GetItem states (API Reference: GetItem), or why it is refused.
pub fn get_item(alloc: Global, json: &Value) -> Result<GetItem, RequestEnd>
    ensures { IsToldOf (WithLegacy kind.Read in_get IsGetItem (view json.now)) result }
{
    if !has_legacy(json, LegacyKind::Read) {
        return item::get_item(alloc, json);
    }
    let legacy = read_legacy(alloc, json, LegacyKind::Read);
    let (trees, bare) = both(legacy, item::get_item(alloc, json))?;
    Ok(GetItem {
        projection: trees.projection,
        ..bare
    })
}

/// What the body of an UpdateItem states (API Reference: UpdateItem), or why it is refused.
pub fn update_item(alloc: Global, json: &Value) -> Result<UpdateItem, RequestEnd>
    ensures { IsToldOf (WithLegacy kind.Update in_update IsUpdateItem (view json.now)) result }
{
    if !has_legacy(json, LegacyKind::Update) {
        return item::update_item(alloc, json);
    }
    let legacy = read_legacy(alloc, json, LegacyKind::Update);
    let (trees, bare) = both(legacy, item::update_item(alloc, json))?;
    Ok(UpdateItem {
        update: trees.update,
        condition: trees.condition,
        values: trees.values,
        ..bare
    })
}

/// What the body of a DeleteItem states (API Reference: DeleteItem), or why it is refused.
pub fn delete_item(alloc: Global, json: &Value) -> Result<DeleteItem, RequestEnd>
    ensures { IsToldOf (WithLegacy kind.Write in_delete IsDeleteItem (view json.now)) result }
{
    if !has_legacy(json, LegacyKind::Write) {
        return item::delete_item(alloc, json);
    }
    let legacy = read_legacy(alloc, json, LegacyKind::Write);
    let (trees, bare) = both(legacy, item::delete_item(alloc, json))?;
    Ok(DeleteItem {
        condition: trees.condition,
        values: trees.values,
        ..bare
    })
}

/// What the body of a Scan states (API Reference: Scan), or why it is refused.
pub fn scan(alloc: Global, json: &Value) -> Result<Scan, RequestEnd>
    ensures { IsToldOf (WithLegacy kind.Scan in_scan IsScan (view json.now)) result }
{
    if !has_legacy(json, LegacyKind::Scan) {
        return page::scan(alloc, json);
    }
    let legacy = read_legacy(alloc, json, LegacyKind::Scan);
    let (trees, bare) = both(legacy, page::scan(alloc, json))?;
    Ok(Scan {
        page: in_page(trees.condition, trees.projection, trees.values, bare.page),
        segment: bare.segment,
    })
}

/// A page with what legacy members stand for.
fn in_page(
    filter: Option<Condition>,
    projection: Option<Paths>,
    values: Seq<AttrValue>,
    bare: PageRequest,
) -> PageRequest
    ensures { result ≡ record bare { filter = filter; projection = projection; values = values } }
{
    PageRequest {
        filter,
        projection,
        values,
        ..bare
    }
}

/// What the body of a Query states (API Reference: Query), or why it is refused.
pub fn query(alloc: Global, json: &Value) -> Result<Query, RequestEnd>
    ensures { IsToldOf (IsAnyQuery (view json.now)) result }
{
    if !has_legacy(json, LegacyKind::Query) {
        return page::query(alloc, json);
    }
    let legacy = read_legacy(alloc, json, LegacyKind::Query);
    let (trees, bare) = both(legacy, page::page(alloc, json))?;
    let forward = stated_flag(json, Name::ScanIndexForward).unwrap_or(true);
    in_query(trees, bare, forward)
}

/// The Query of a page that legacy members make one; refused without a key condition, as they are before.
fn in_query(trees: LegacyTrees, bare: PageRequest, forward: bool) -> Result<Query, RequestEnd>
    ensures { IsQueryOf trees bare forward result }
{
    let LegacyTrees {
        update,
        key_condition,
        condition,
        projection,
        values,
    } = trees;
    drop(update);
    match key_condition {
        Some(key_condition) => Ok(Query {
            page: in_page(condition, projection, values, bare),
            key_condition,
            forward,
        }),
        None => {
            let missing = Fault::Missing(Name::KeyConditionExpression);
            Err(RequestEnd::Fault(Refusal::Body(missing)))
        }
    }
}

/// The keys that are asked of a table, or why they are refused.
pub(crate) fn table_keys(alloc: Global, table: &str, json: &Value) -> Result<TableKeys, RequestEnd>
    ensures { IsToldOf (IsTable table.now (view json.now)) result }
{
    if !has_legacy(json, LegacyKind::Read) {
        return batch::table_keys(alloc, table, json);
    }
    let legacy = read_legacy(alloc, json, LegacyKind::Read);
    let (trees, bare) = both(legacy, batch::table_keys(alloc, table, json))?;
    Ok(TableKeys {
        projection: trees.projection,
        attributes: stated_names(alloc, json)?,
        ..bare
    })
}

/// Two results side by side. The end of the first one comes first.
fn both<T: Drop>(
    legacy: Result<LegacyTrees, RequestEnd>,
    bare: Result<T, RequestEnd>,
) -> Result<(LegacyTrees, T), RequestEnd>
    ensures { AreBoth legacy bare result }
{
    match legacy {
        Ok(trees) => match bare {
            Ok(bare) => Ok((trees, bare)),
            Err(end) => Err(end),
        },
        Err(end) => Err(end),
    }
}
