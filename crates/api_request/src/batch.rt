//! Requests on many items, each of which is done by itself.

ghost use Rattle.std.specs.Prelude.{◌≡◌, IfOk, IsTrue};
ghost use Rattle.serde_json.specs.View.{view, members_view};
ghost use Rattle.table_request.specs.Batches.{ascend};
ghost use Rattle.api_form.specs.declared.name.Name.TheVariants as name;
ghost use Rattle.request_parts.specs.Ends.{IsToldOf};
ghost use Rattle.request_parts.specs.Members.{inside, item_at};
ghost use Rattle.request_parts.specs.Asks.{IsPart};
ghost use Rattle.request_parts.specs.Parts.{projection_asks};
ghost use Rattle.api_request.specs.Batches.{StatesKeys, stated_names, AreTables, IsBatchGet, table_writes, IsBatchWrite};

use crate::item::asks_capacity;
use crate::legacy;
use crate::stated::{Stated, read_all};
use api_form::Name;
use attr_value::Item;
use base_types::{Seq, Text};
use expr_parse::NamePair;
use request_parts::{
    Placeholders, RequestEnd, elements, item_at, list_at, map_at, object_at, pairs_of,
    read_projection, stated_copy, stated_flag, stated_text,
};
use serde_json::{Map, Value};
use std::alloc::{AllocError as NoMemory, Global};
use table_request::{BatchGet, BatchWrite, TableKeys, TableWrites, WriteRequest};

/// What the body of a BatchGetItem states (API Reference: BatchGetItem), or why the expressions of a table are refused.
pub fn batch_get(alloc: Global, json: &Value) -> Result<BatchGet, RequestEnd>
    ensures { IsToldOf (IsBatchGet (view json.now)) result }
{
    match map_at(json, Name::RequestItems) {
        Some(members) => {
            let tables = all_keys(alloc, members)?;
            Ok(BatchGet {
                tables,
                capacity: asks_capacity(json),
            })
        }
        None => Ok(BatchGet {
            tables: Seq::new(alloc),
            capacity: asks_capacity(json),
        }),
    }
}

/// The keys of all tables, or the first refusal.
fn all_keys(alloc: Global, members: &Map<String, Value>) -> Result<Seq<TableKeys>, RequestEnd>
    ensures { IsToldOf (AreTables (members_view members.now.entries)) result }
{
    let mut tables = Seq::new(alloc);
    for (key, json) in members.iter() {
        tables.push(legacy::table_keys(alloc, key, json)?)?;
    }
    Ok(tables)
}

/// The keys that are asked of a table, or why its expression is refused.
pub(crate) fn table_keys(alloc: Global, table: &str, json: &Value) -> Result<TableKeys, RequestEnd>
    ensures { IsToldOf (IsPart projection_asks (StatesKeys table.now) (view json.now)) result }
{
    let table = Text::copied(alloc, table)?;
    let keys = read_all::<Item>(alloc, list_at(json, Name::Keys))?;
    let expression = stated_copy(alloc, json, Name::ProjectionExpression)?;
    let names = stated_names(alloc, json)?;
    let placeholders = Placeholders::named(alloc, json)?;
    let text = stated_text(json, Name::ProjectionExpression);
    let projection = read_projection(alloc, &placeholders, text)?;
    Ok(TableKeys {
        table,
        keys,
        projection,
        consistent: stated_flag(json, Name::ConsistentRead),
        expression,
        names,
        attributes: None,
    })
}

/// The placeholders of names, where they are stated.
fn stated_names(alloc: Global, json: &Value) -> Result<Option<Seq<NamePair>>, NoMemory>
    ensures { IfOk result (λ names. names ≡ stated_names (view json.now)) }
{
    match map_at(json, Name::ExpressionAttributeNames) {
        Some(members) => Ok(Some(pairs_of(alloc, members)?)),
        None => Ok(None),
    }
}

/// What the body of a BatchWriteItem states (API Reference: BatchWriteItem).
pub fn batch_write(alloc: Global, json: &Value) -> Result<BatchWrite, NoMemory>
    ensures { IfOk result (IsBatchWrite (view json.now)) }
{
    match map_at(json, Name::RequestItems) {
        Some(members) => {
            let tables = all_writes(alloc, members)?;
            Ok(BatchWrite {
                tables,
                capacity: asks_capacity(json),
            })
        }
        None => Ok(BatchWrite {
            tables: Seq::new(alloc),
            capacity: asks_capacity(json),
        }),
    }
}

/// The writes of all tables, whose names ascend.
fn all_writes(alloc: Global, members: &Map<String, Value>) -> Result<Seq<TableWrites>, NoMemory>
    ensures tables { IfOk result (λ tables. tables ≡ table_writes (members_view members.now.entries)) }
    ensures ascending { IfOk result (λ tables. IsTrue (ascend tables)) }
{
    // What `len` tells of a map: that its keys ascend.
    let _ = members.len();
    let mut tables = Seq::new(alloc);
    for (key, json) in members.iter() {
        let table = Text::copied(alloc, key)?;
        let writes = read_all::<WriteRequest>(alloc, elements(json))?;
        tables.push(TableWrites { table, writes })?;
    }
    Ok(tables)
}

impl Stated for WriteRequest {
    ghost use Rattle.api_request.specs.Batches.{write_in};

    ghost stated = { write_in };

    fn read(alloc: Global, json: &Value) -> Result<WriteRequest, NoMemory> {
        match object_at(json, Name::PutRequest) {
            Some(put) => Ok(WriteRequest::Put(item_at(alloc, put, Name::Item)?)),
            None => Ok(WriteRequest::Delete(deleted_key(alloc, json)?)),
        }
    }
}

/// The key of the item that is dropped.
fn deleted_key(alloc: Global, json: &Value) -> Result<Item, NoMemory>
    ensures { IfOk result (λ key. key ≡ item_at name.Key (inside name.DeleteRequest (view json.now))) }
{
    match json.get(Name::DeleteRequest.text()) {
        Some(delete) => item_at(alloc, delete, Name::Key),
        None => Ok(Item::new(alloc)),
    }
}
