//! Sessions of two threads' passes by one thread: one asks of tables, one of items and goes by what it was told.

ghost use Rattle.std.specs.Prelude.{◌≤◌, reverse};
ghost use Rattle.cell_asks.specs.Told.{AreTold};

use crate::calls::{is_shown, is_told};
use cell_asks::Looks;
use std::alloc::{AllocError as NoMemory, Global};
use std::sync::Wait;
use std::test::*;
use table_cells::TableCells;
use transact_asks::Transacts;

/// A message, by its operation and body, and the body of the reply.
#[derive(Clone, Copy)]
pub(crate) enum Line {
    /// On tables.
    Table(&'static str, &'static str, &'static str),
    /// On an item.
    Item(&'static str, &'static str, &'static str),
    /// On an item of a table that is known and was dropped: the first try is in vain.
    Again(&'static str, &'static str),
}

pub(crate) const CREATE: &str = "DynamoDB_20120810.CreateTable";

pub(crate) const DROP: &str = "DynamoDB_20120810.DeleteTable";

const DESCRIBE: &str = "DynamoDB_20120810.DescribeTable";

const LIST: &str = "DynamoDB_20120810.ListTables";

pub(crate) const EXPIRE: &str = "DynamoDB_20120810.UpdateTimeToLive";

const EXPIRY: &str = "DynamoDB_20120810.DescribeTimeToLive";

pub(crate) const GET: &str = "DynamoDB_20120810.GetItem";

pub(crate) const PUT: &str = "DynamoDB_20120810.PutItem";

pub(crate) const UPDATE: &str = "DynamoDB_20120810.UpdateItem";

pub(crate) const DELETE: &str = "DynamoDB_20120810.DeleteItem";

static LINES: [Line; 24] = [
    Line::Item(
        PUT,
        r#"{"TableName":"Music","Item":{"Artist":{"S":"Dylan"}}}"#,
        r#"{"__type":"com.amazonaws.dynamodb.v20120810#ResourceNotFoundException","message":"Requested resource not found: Table: Music not found"}"#,
    ),
    Line::Table(
        CREATE,
        r#"{"AttributeDefinitions":[{"AttributeName":"Artist","AttributeType":"S"}],"KeySchema":[{"AttributeName":"Artist","KeyType":"HASH"}],"TableName":"Music","BillingMode":"PAY_PER_REQUEST"}"#,
        r#"{"TableDescription":{"AttributeDefinitions":[{"AttributeName":"Artist","AttributeType":"S"}],"BillingModeSummary":{"BillingMode":"PAY_PER_REQUEST"},"CreationDateTime":0,"KeySchema":[{"AttributeName":"Artist","KeyType":"HASH"}],"ProvisionedThroughput":{"NumberOfDecreasesToday":0,"ReadCapacityUnits":0,"WriteCapacityUnits":0},"TableArn":"arn:aws:dynamodb:ddblocal:000000000000:table/Music","TableName":"Music","TableStatus":"ACTIVE"}}"#,
    ),
    Line::Table(
        CREATE,
        r#"{"AttributeDefinitions":[{"AttributeName":"id","AttributeType":"S"}],"KeySchema":[{"AttributeName":"id","KeyType":"HASH"}],"TableName":"Tab","BillingMode":"PAY_PER_REQUEST"}"#,
        r#"{"TableDescription":{"AttributeDefinitions":[{"AttributeName":"id","AttributeType":"S"}],"BillingModeSummary":{"BillingMode":"PAY_PER_REQUEST"},"CreationDateTime":0,"KeySchema":[{"AttributeName":"id","KeyType":"HASH"}],"ProvisionedThroughput":{"NumberOfDecreasesToday":0,"ReadCapacityUnits":0,"WriteCapacityUnits":0},"TableArn":"arn:aws:dynamodb:ddblocal:000000000000:table/Tab","TableName":"Tab","TableStatus":"ACTIVE"}}"#,
    ),
    Line::Table(
        DESCRIBE,
        r#"{"TableName":"Music"}"#,
        r#"{"Table":{"AttributeDefinitions":[{"AttributeName":"Artist","AttributeType":"S"}],"BillingModeSummary":{"BillingMode":"PAY_PER_REQUEST"},"CreationDateTime":0,"KeySchema":[{"AttributeName":"Artist","KeyType":"HASH"}],"ProvisionedThroughput":{"NumberOfDecreasesToday":0,"ReadCapacityUnits":0,"WriteCapacityUnits":0},"TableArn":"arn:aws:dynamodb:ddblocal:000000000000:table/Music","TableName":"Music","TableStatus":"ACTIVE"}}"#,
    ),
    Line::Table(
        LIST,
        r#"{"Limit":1}"#,
        r#"{"LastEvaluatedTableName":"Music","TableNames":["Music"]}"#,
    ),
    Line::Table(LIST, "{}", r#"{"TableNames":["Music","Tab"]}"#),
    Line::Item(
        PUT,
        r#"{"TableName":"Music","Item":{"Artist":{"S":"Dylan"},"Song":{"S":"Song to Woody"}}}"#,
        "{}",
    ),
    Line::Item(
        GET,
        r#"{"TableName":"Music","Key":{"Artist":{"S":"Dylan"}},"ConsistentRead":true}"#,
        r#"{"Item":{"Artist":{"S":"Dylan"},"Song":{"S":"Song to Woody"}}}"#,
    ),
    Line::Item(
        GET,
        r#"{"TableName":"Music","Key":{"Artist":{"S":"Cash"}}}"#,
        "{}",
    ),
    // The item has 28 bytes.
    Line::Item(
        GET,
        r#"{"TableName":"Music","Key":{"Artist":{"S":"Dylan"}},"ProjectionExpression":"Song","ReturnConsumedCapacity":"TOTAL"}"#,
        r#"{"ConsumedCapacity":{"CapacityUnits":0.5,"TableName":"Music"},"Item":{"Song":{"S":"Song to Woody"}}}"#,
    ),
    // A key that is none of the table's, by what is kept and then by a Look.
    Line::Item(
        GET,
        r#"{"TableName":"Music","Key":{"Artist":{"N":"1"}}}"#,
        r#"{"__type":"com.amazon.coral.validate#ValidationException","message":"The provided key is not valid: WrongType"}"#,
    ),
    Line::Item(
        UPDATE,
        r#"{"TableName":"Tab","Key":{"id":{"S":"a"}},"UpdateExpression":"ADD n :one","ExpressionAttributeValues":{":one":{"N":"1"}},"ReturnValues":"UPDATED_NEW"}"#,
        r#"{"Attributes":{"n":{"N":"1"}}}"#,
    ),
    Line::Item(
        DELETE,
        r#"{"TableName":"Tab","Key":{"id":{"S":"a"}},"ConditionExpression":"n > :one","ExpressionAttributeValues":{":one":{"N":"1"}}}"#,
        r#"{"__type":"com.amazonaws.dynamodb.v20120810#ConditionalCheckFailedException","message":"The conditional request failed"}"#,
    ),
    Line::Item(
        PUT,
        r#"{"TableName":"Tab","Item":{"id":{"S":"a"}},"ConditionExpression":"attribute_not_exists(id)","ReturnValuesOnConditionCheckFailure":"ALL_OLD"}"#,
        r#"{"Item":{"id":{"S":"a"},"n":{"N":"1"}},"__type":"com.amazonaws.dynamodb.v20120810#ConditionalCheckFailedException","message":"The conditional request failed"}"#,
    ),
    Line::Item(
        DELETE,
        r#"{"TableName":"Tab","Key":{"id":{"S":"a"}},"ReturnValues":"ALL_OLD"}"#,
        r#"{"Attributes":{"id":{"S":"a"},"n":{"N":"1"}}}"#,
    ),
    Line::Table(
        EXPIRE,
        r#"{"TableName":"Tab","TimeToLiveSpecification":{"AttributeName":"exp","Enabled":true}}"#,
        r#"{"TimeToLiveSpecification":{"AttributeName":"exp","Enabled":true}}"#,
    ),
    Line::Table(
        EXPIRE,
        r#"{"TableName":"Tab","TimeToLiveSpecification":{"AttributeName":"exp","Enabled":true}}"#,
        r#"{"__type":"com.amazon.coral.validate#ValidationException","message":"Time to live is not valid: AlreadyEnabled"}"#,
    ),
    Line::Table(
        EXPIRY,
        r#"{"TableName":"Tab"}"#,
        r#"{"TimeToLiveDescription":{"AttributeName":"exp","TimeToLiveStatus":"ENABLED"}}"#,
    ),
    Line::Table(
        DROP,
        r#"{"TableName":"Music"}"#,
        r#"{"TableDescription":{"AttributeDefinitions":[{"AttributeName":"Artist","AttributeType":"S"}],"BillingModeSummary":{"BillingMode":"PAY_PER_REQUEST"},"CreationDateTime":0,"KeySchema":[{"AttributeName":"Artist","KeyType":"HASH"}],"ProvisionedThroughput":{"NumberOfDecreasesToday":0,"ReadCapacityUnits":0,"WriteCapacityUnits":0},"TableArn":"arn:aws:dynamodb:ddblocal:000000000000:table/Music","TableName":"Music","TableStatus":"ACTIVE"}}"#,
    ),
    Line::Again(
        GET,
        r#"{"TableName":"Music","Key":{"Artist":{"S":"Dylan"}}}"#,
    ),
    Line::Item(
        GET,
        r#"{"TableName":"Music","Key":{"Artist":{"S":"Dylan"}}}"#,
        r#"{"__type":"com.amazonaws.dynamodb.v20120810#ResourceNotFoundException","message":"Requested resource not found: Table: Music not found"}"#,
    ),
    // What is kept of the other table went too, and comes again by a Look.
    Line::Item(GET, r#"{"TableName":"Tab","Key":{"id":{"S":"a"}}}"#, "{}"),
    Line::Table(
        DROP,
        r#"{"TableName":"Tab"}"#,
        r#"{"TableDescription":{"AttributeDefinitions":[{"AttributeName":"id","AttributeType":"S"}],"BillingModeSummary":{"BillingMode":"PAY_PER_REQUEST"},"CreationDateTime":0,"KeySchema":[{"AttributeName":"id","KeyType":"HASH"}],"ProvisionedThroughput":{"NumberOfDecreasesToday":0,"ReadCapacityUnits":0,"WriteCapacityUnits":0},"TableArn":"arn:aws:dynamodb:ddblocal:000000000000:table/Tab","TableName":"Tab","TableStatus":"ACTIVE"}}"#,
    ),
    Line::Table(LIST, "{}", r#"{"TableNames":[]}"#),
];

/// Whether the reply to a line is the one that it has.
pub(crate) fn is_right<C: Transacts>(
    cells: &C,
    tables: &mut C::Pass,
    items: &mut C::Pass,
    looks: &mut Looks,
    line: Line,
) -> bool
    requires tables { C.fits cells.now tables.old }
    requires items { C.fits cells.now items.old }
    requires told { AreTold (reverse (C.seen items.old).front) looks.old }
    ensures tables { C.fits cells.now tables.new }
    ensures items { C.fits cells.now items.new }
    ensures told { AreTold (reverse (C.seen items.new).front) looks.new }
{
    match line {
        Line::Table(target, json, expected) => is_told(cells, tables, target, json, expected),
        Line::Item(target, json, expected) => {
            is_shown(cells, items, looks, target, json, Some(expected))
        }
        Line::Again(target, json) => is_shown(cells, items, looks, target, json, None),
    }
}

/// Whether so it is with each line, one after another.
pub(crate) fn are_right<C: Transacts>(
    cells: &C,
    tables: &mut C::Pass,
    items: &mut C::Pass,
    looks: &mut Looks,
    lines: &[Line],
) -> bool
    requires tables { C.fits cells.now tables.old }
    requires items { C.fits cells.now items.old }
    requires told { AreTold (reverse (C.seen items.old).front) looks.old }
    ensures tables { C.fits cells.now tables.new }
    ensures items { C.fits cells.now items.new }
    ensures told { AreTold (reverse (C.seen items.new).front) looks.new }
{
    for line in lines {
        if !is_right(cells, tables, items, looks, *line) {
            return false;
        }
    }
    true
}

/// Whether the lines go right on new cells.
fn go_right<R: Wait>(rt: &R, alloc: Global, partitions: u32) -> Result<bool, NoMemory>
    requires { (1 ≤ partitions) × (partitions ≤ 64) }
{
    let (shop, mut passes) = TableCells::make(alloc, partitions, 2)?;
    let Some(mut tables) = passes.pop() else {
        return Ok(false);
    };
    let Some(mut items) = passes.pop() else {
        return Ok(false);
    };
    let mut looks = Looks::new(alloc);
    let caller = shop.caller(rt, alloc);
    Ok(are_right(&caller, &mut tables, &mut items, &mut looks, &LINES))
}

#[test]
fn requests_by_one_partition(rt: HostRuntime) -> Result<(), Fail> {
    assert!(rt; go_right(&rt, rt.alloc(), 1)?);
    Ok(())
}

#[test]
fn requests_by_five_partitions(rt: HostRuntime) -> Result<(), Fail> {
    assert!(rt; go_right(&rt, rt.alloc(), 5)?);
    Ok(())
}
