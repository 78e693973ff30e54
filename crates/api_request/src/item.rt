//! Requests of one item.

ghost use Rattle.std.specs.Prelude.{◌≡◌};
ghost use Rattle.serde_json.specs.View.{view};
ghost use Rattle.request_parts.specs.Ends.{IsToldOf};
ghost use Rattle.api_request.specs.Items.{returns_named, shows_old, asks_capacity, IsPutItem, IsGetItem, IsUpdateItem, IsDeleteItem};

use api_form::Name;
use request_parts::{
    Conditional, Placed, Placeholders, Projected, RequestEnd, flag_at, read_write, stated_text,
    text_at,
};
use serde_json::Value;
use std::alloc::Global;
use table_request::{DeleteItem, GetItem, PutItem, ReturnValues, UpdateItem};

/// What the body of a PutItem states (API Reference: PutItem), or why its expressions are refused.
pub fn put_item(alloc: Global, json: &Value) -> Result<PutItem, RequestEnd>
    ensures { IsToldOf (IsPutItem (view json.now)) result }
{
    let parts = Conditional::read(alloc, json, Name::Item)?;
    Ok(PutItem {
        table: parts.placed.table,
        item: parts.placed.item,
        condition: parts.condition,
        values: parts.values,
        return_values: returns_named(text_at(json, Name::ReturnValues)),
        show_old: shows_old(json),
        capacity: asks_capacity(json),
    })
}

/// What the body of a GetItem states (API Reference: GetItem), or why its expressions are refused.
pub fn get_item(alloc: Global, json: &Value) -> Result<GetItem, RequestEnd>
    ensures { IsToldOf (IsGetItem (view json.now)) result }
{
    let parts = Projected::read(alloc, json)?;
    Ok(GetItem {
        table: parts.placed.table,
        key: parts.placed.item,
        projection: parts.projection,
        consistent: flag_at(json, Name::ConsistentRead),
        capacity: asks_capacity(json),
    })
}

/// What the body of an UpdateItem states (API Reference: UpdateItem), or why its expressions are refused.
pub fn update_item(alloc: Global, json: &Value) -> Result<UpdateItem, RequestEnd>
    ensures { IsToldOf (IsUpdateItem (view json.now)) result }
{
    let placed = Placed::read(alloc, json, Name::Key)?;
    let placeholders = Placeholders::read(alloc, json)?;
    let update = stated_text(json, Name::UpdateExpression);
    let condition = stated_text(json, Name::ConditionExpression);
    let trees = read_write(alloc, &placeholders, update, condition)?;
    Ok(UpdateItem {
        table: placed.table,
        key: placed.item,
        update: trees.update,
        condition: trees.condition,
        values: placeholders.values,
        return_values: returns_named(text_at(json, Name::ReturnValues)),
        show_old: shows_old(json),
        capacity: asks_capacity(json),
    })
}

/// What the body of a DeleteItem states (API Reference: DeleteItem), or why its expressions are refused.
pub fn delete_item(alloc: Global, json: &Value) -> Result<DeleteItem, RequestEnd>
    ensures { IsToldOf (IsDeleteItem (view json.now)) result }
{
    let parts = Conditional::read(alloc, json, Name::Key)?;
    Ok(DeleteItem {
        table: parts.placed.table,
        key: parts.placed.item,
        condition: parts.condition,
        values: parts.values,
        return_values: returns_named(text_at(json, Name::ReturnValues)),
        show_old: shows_old(json),
        capacity: asks_capacity(json),
    })
}

/// What a word asks to be answered; nothing where none is stated.
fn returns_named(word: &str) -> ReturnValues
    ensures { result ≡ returns_named word.now }
{
    match word {
        "ALL_OLD" => ReturnValues::AllOld,
        "UPDATED_OLD" => ReturnValues::UpdatedOld,
        "ALL_NEW" => ReturnValues::AllNew,
        "UPDATED_NEW" => ReturnValues::UpdatedNew,
        _ => ReturnValues::None,
    }
}

/// Whether the item is shown where the condition is false of it.
pub(crate) fn shows_old(json: &Value) -> bool
    ensures { result ≡ shows_old (view json.now) }
{
    text_at(json, Name::ReturnValuesOnConditionCheckFailure) == "ALL_OLD"
}

/// Whether the capacity that is used is told; INDEXES tells the same as TOTAL (API Reference: GetItem,
/// ReturnConsumedCapacity).
pub(crate) fn asks_capacity(json: &Value) -> bool
    ensures { result ≡ asks_capacity (view json.now) }
{
    let word = text_at(json, Name::ReturnConsumedCapacity);
    word == "TOTAL" || word == "INDEXES"
}
