//! A transaction whose driver left off holds an item: what is replied then, and after it was ended.

use crate::left::{are_swept, is_left};
use crate::sessions::{CREATE, DROP, GET, Line, PUT, are_right};
use cell_asks::Looks;
use coordinator::Point;
use std::alloc::{AllocError as NoMemory, Global};
use std::sync::Wait;
use std::test::*;
use table_cells::TableCells;

const CHANGE: &str = "DynamoDB_20120810.UpdateTable";

const TABLE: &str = r#"{"TableName":"Tab"}"#;

const IN_USE: &str =
    r#"{"__type":"com.amazonaws.dynamodb.v20120810#ResourceInUseException","message":"A transaction holds an item of table: Tab"}"#;

const DESCRIPTION: &str =
    r#"{"TableDescription":{"AttributeDefinitions":[{"AttributeName":"id","AttributeType":"S"}],"BillingModeSummary":{"BillingMode":"PAY_PER_REQUEST"},"CreationDateTime":0,"KeySchema":[{"AttributeName":"id","KeyType":"HASH"}],"ProvisionedThroughput":{"NumberOfDecreasesToday":0,"ReadCapacityUnits":0,"WriteCapacityUnits":0},"TableArn":"arn:aws:dynamodb:ddblocal:000000000000:table/Tab","TableName":"Tab","TableStatus":"ACTIVE"}}"#;

static BEFORE: [Line; 2] = [
    Line::Table(
        CREATE,
        r#"{"AttributeDefinitions":[{"AttributeName":"id","AttributeType":"S"}],"KeySchema":[{"AttributeName":"id","KeyType":"HASH"}],"TableName":"Tab","BillingMode":"PAY_PER_REQUEST"}"#,
        DESCRIPTION,
    ),
    Line::Item(PUT, r#"{"TableName":"Tab","Item":{"id":{"S":"a"}}}"#, "{}"),
];

static HELD: [Line; 5] = [
    Line::Item(
        PUT,
        r#"{"TableName":"Tab","Item":{"id":{"S":"a"},"n":{"N":"1"}}}"#,
        r#"{"__type":"com.amazonaws.dynamodb.v20120810#TransactionConflictException","message":"Transaction is ongoing for the item"}"#,
    ),
    Line::Item(
        GET,
        r#"{"TableName":"Tab","Key":{"id":{"S":"a"}}}"#,
        r#"{"Item":{"id":{"S":"a"}}}"#,
    ),
    // Another item is not held.
    Line::Item(PUT, r#"{"TableName":"Tab","Item":{"id":{"S":"b"}}}"#, "{}"),
    Line::Table(DROP, TABLE, IN_USE),
    Line::Table(
        CHANGE,
        r#"{"TableName":"Tab","BillingMode":"PAY_PER_REQUEST"}"#,
        IN_USE,
    ),
];

static AFTER: [Line; 3] = [
    Line::Table(DROP, TABLE, DESCRIPTION),
    Line::Again(GET, r#"{"TableName":"Tab","Key":{"id":{"S":"a"}}}"#),
    Line::Item(
        GET,
        r#"{"TableName":"Tab","Key":{"id":{"S":"a"}}}"#,
        r#"{"__type":"com.amazonaws.dynamodb.v20120810#ResourceNotFoundException","message":"Requested resource not found: Table: Tab not found"}"#,
    ),
];

/// A transaction that deletes the item.
const DELETES: &str =
    r#"{"TransactItems":[{"Delete":{"TableName":"Tab","Key":{"id":{"S":"a"}}}}]}"#;

/// Whether all goes so on new cells.
fn goes_so<R: Wait>(rt: &R, alloc: Global) -> Result<bool, NoMemory> {
    let (shop, mut passes) = TableCells::make(alloc, 3, 2)?;
    let Some(mut tables) = passes.pop() else {
        return Ok(false);
    };
    let Some(mut items) = passes.pop() else {
        return Ok(false);
    };
    let mut looks = Looks::new(alloc);
    let caller = shop.caller(rt, alloc);
    if !are_right(&caller, &mut tables, &mut items, &mut looks, &BEFORE) {
        return Ok(false);
    }
    if !is_left(
        &caller,
        &mut items,
        &mut looks,
        DELETES,
        Point::AfterPrepare(0),
    ) {
        return Ok(false);
    }
    if !are_right(&caller, &mut tables, &mut items, &mut looks, &HELD) {
        return Ok(false);
    }
    if !are_swept(&caller, &mut tables, 1) {
        return Ok(false);
    }
    Ok(are_right(&caller, &mut tables, &mut items, &mut looks, &AFTER))
}

#[test]
fn a_table_of_a_held_item_stays(rt: HostRuntime) -> Result<(), Fail> {
    assert!(rt; goes_so(&rt, rt.alloc())?);
    Ok(())
}
