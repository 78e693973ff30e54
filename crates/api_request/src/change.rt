//! UpdateTable: what its body states.

ghost use Rattle.std.specs.Prelude.{◌≡◌, IfOk};
ghost use Rattle.serde_json.specs.View.{view, items_view};
ghost use Rattle.request_parts.specs.Ends.{IsToldOf};
ghost use Rattle.api_request.specs.Tables.{change_in, first_change, on_demand, IsChange, IsUpdateTable};

use crate::schema::units_of;
use crate::stated::{Stated, read_all};
use api_form::Name;
use base_types::Text;
use request_parts::{Refusal, RequestEnd, copy_at, list_at, object_at, stated_text};
use serde_json::Value;
use std::alloc::{AllocError as NoMemory, Global};
use table_request::{IndexChange, TableUpdate, UpdateTable};
use table_schema::{Definition, SchemaFault, StatedIndex};

/// A global index that is made or dropped, as it is stated.
#[derive(Drop)]
pub(crate) enum StatedChange {
    Make(StatedIndex),
    Remove(Text),
}

/// What the body of an UpdateTable states (API Reference: UpdateTable), or BadIndexKey where the keys of the new index are
/// a list of another form.
pub fn update_table(alloc: Global, json: &Value) -> Result<UpdateTable, RequestEnd>
    ensures { IsToldOf (IsUpdateTable (view json.now)) result }
{
    let table = copy_at(alloc, json, Name::TableName)?;
    let definitions = read_all::<Definition>(alloc, list_at(json, Name::AttributeDefinitions))?;
    let stated = first_change(alloc, list_at(json, Name::GlobalSecondaryIndexUpdates))?;
    let index = index_change(stated)?;
    Ok(UpdateTable {
        table,
        update: TableUpdate {
            definitions,
            on_demand: on_demand(json),
            read_units: units_of(json, Name::ReadCapacityUnits),
            write_units: units_of(json, Name::WriteCapacityUnits),
            index,
        },
    })
}

/// Whether requests are paid for one by one, where it is stated.
fn on_demand(json: &Value) -> Option<bool>
    ensures { result ≡ on_demand (view json.now) }
{
    match stated_text(json, Name::BillingMode) {
        Some(word) => Some(word == "PAY_PER_REQUEST"),
        None => None,
    }
}

/// The change, where the keys of an index that is made have a form.
#[tactic(auto, using(crate::proofs::Changes::unfit))]
fn index_change(stated: Option<StatedChange>) -> Result<Option<IndexChange>, RequestEnd>
    ensures { IsToldOf (IsChange stated) result }
{
    match stated {
        None => Ok(None),
        Some(StatedChange::Remove(name)) => Ok(Some(IndexChange::Remove(name))),
        Some(StatedChange::Make(index)) => match index.into_global() {
            Some(index) => Ok(Some(IndexChange::Make(index))),
            None => Err(RequestEnd::Fault(Refusal::Schema(SchemaFault::BadIndexKey))),
        },
    }
}

/// The first index that an element makes or drops.
fn first_change(alloc: Global, items: &[Value]) -> Result<Option<StatedChange>, NoMemory>
    ensures { IfOk result (λ change. change ≡ first_change (items_view items.now)) }
{
    for item in items {
        if let Some(change) = change_in(alloc, item)? {
            return Ok(Some(change));
        }
    }
    Ok(None)
}

/// The index that an element makes or drops.
fn change_in(alloc: Global, json: &Value) -> Result<Option<StatedChange>, NoMemory>
    ensures { IfOk result (λ change. change ≡ change_in (view json.now)) }
{
    if let Some(made) = object_at(json, Name::Create) {
        return Ok(Some(StatedChange::Make(StatedIndex::read(alloc, made)?)));
    }
    match object_at(json, Name::Delete) {
        Some(dropped) => {
            let name = copy_at(alloc, dropped, Name::IndexName)?;
            Ok(Some(StatedChange::Remove(name)))
        }
        None => Ok(None),
    }
}
