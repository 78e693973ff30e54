//! Requests of the catalog that name a table, or none.

ghost use Rattle.std.specs.Prelude.{◌≡◌, IfOk};
ghost use Rattle.serde_json.specs.View.{view};
ghost use Rattle.api_request.specs.Catalog.{IsDeleteTable, IsDescribeTable, IsListTables, IsUpdateTimeToLive, IsDescribeTimeToLive, specification};

use api_form::Name;
use request_parts::{copy_at, flag_at, object_at, stated_copy, stated_whole};
use serde_json::Value;
use std::alloc::{AllocError as NoMemory, Global};
use table_request::{DeleteTable, DescribeTable, DescribeTimeToLive, ListTables, UpdateTimeToLive};

/// What the body of a DeleteTable states (API Reference: DeleteTable).
pub fn delete_table(alloc: Global, json: &Value) -> Result<DeleteTable, NoMemory>
    ensures { IfOk result (IsDeleteTable (view json.now)) }
{
    let table = copy_at(alloc, json, Name::TableName)?;
    Ok(DeleteTable { table })
}

/// What the body of a DescribeTable states (API Reference: DescribeTable).
pub fn describe_table(alloc: Global, json: &Value) -> Result<DescribeTable, NoMemory>
    ensures { IfOk result (IsDescribeTable (view json.now)) }
{
    let table = copy_at(alloc, json, Name::TableName)?;
    Ok(DescribeTable { table })
}

/// What the body of a ListTables states (API Reference: ListTables).
pub fn list_tables(alloc: Global, json: &Value) -> Result<ListTables, NoMemory>
    ensures { IfOk result (IsListTables (view json.now)) }
{
    Ok(ListTables {
        after: stated_copy(alloc, json, Name::ExclusiveStartTableName)?,
        limit: stated_whole(json, Name::Limit).unwrap_or(100),
    })
}

/// What the body of an UpdateTimeToLive states (API Reference: UpdateTimeToLive).
pub fn update_time_to_live(alloc: Global, json: &Value) -> Result<UpdateTimeToLive, NoMemory>
    ensures { IfOk result (IsUpdateTimeToLive (view json.now)) }
{
    let stated = specification(json);
    Ok(UpdateTimeToLive {
        table: copy_at(alloc, json, Name::TableName)?,
        name: copy_at(alloc, stated, Name::AttributeName)?,
        enabled: flag_at(stated, Name::Enabled),
    })
}

/// What is stated of the time to live, which the form has.
fn specification(json: &Value) -> &Value
    ensures { view result.now ≡ specification (view json.now) }
{
    match object_at(json, Name::TimeToLiveSpecification) {
        Some(stated) => stated,
        None => json,
    }
}

/// What the body of a DescribeTimeToLive states (API Reference: DescribeTimeToLive).
pub fn describe_time_to_live(alloc: Global, json: &Value) -> Result<DescribeTimeToLive, NoMemory>
    ensures { IfOk result (IsDescribeTimeToLive (view json.now)) }
{
    let table = copy_at(alloc, json, Name::TableName)?;
    Ok(DescribeTimeToLive { table })
}
