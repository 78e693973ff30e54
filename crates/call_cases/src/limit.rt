//! There are 256 tables at most.

ghost use Rattle.cluster.specs.Steps.{IsAtRest};

use crate::calls::{is_told, told};
use crate::sessions::CREATE;
use cell_asks::Asks;
use std::alloc::{AllocError as NoMemory, Global};
use std::sync::Wait;
use std::test::*;
use table_cells::{TableCaller, TableCells, TablePass};

/// How many tables there are at most.
const MOST: u32 = 256;

const FULL: &str =
    r#"{"__type":"com.amazonaws.dynamodb.v20120810#LimitExceededException","message":"There are 256 tables"}"#;

const IN_USE: &str =
    r#"{"__type":"com.amazonaws.dynamodb.v20120810#ResourceInUseException","message":"Table already exists: table7"}"#;

/// The creation of a table of this number.
fn creation(alloc: Global, number: u32) -> Result<String, NoMemory> {
    format!(in alloc;
        "{{\"AttributeDefinitions\":[{{\"AttributeName\":\"id\",\"AttributeType\":\"S\"}}],\"KeySchema\":[{{\"AttributeName\":\"id\",\"KeyType\":\"HASH\"}}],\"TableName\":\"table{number}\",\"BillingMode\":\"PAY_PER_REQUEST\"}}"
    )
}

/// Whether the table is made.
fn is_made<T: Wait>(cells: &TableCaller<'_, T>, pass: &mut TablePass, number: u32) -> bool
    requires fits { IsAtRest cells.now.caller pass.old }
    ensures fits { IsAtRest cells.now.caller pass.new }
{
    let Ok(json) = creation(cells.alloc(), number) else {
        return false;
    };
    match told(cells, pass, CREATE, json.as_str()) {
        Some(text) => text.starts_with(r#"{"TableDescription":"#),
        None => false,
    }
}

/// Whether as many tables are made as there may be.
fn are_made<T: Wait>(cells: &TableCaller<'_, T>, pass: &mut TablePass) -> bool
    requires fits { IsAtRest cells.now.caller pass.old }
    ensures fits { IsAtRest cells.now.caller pass.new }
{
    for number in 0..MOST {
        if !is_made(cells, pass, number) {
            return false;
        }
    }
    true
}

/// Whether another table is refused with this body.
fn is_refused<T: Wait>(
    cells: &TableCaller<'_, T>,
    pass: &mut TablePass,
    number: u32,
    expected: &str,
) -> bool
    requires fits { IsAtRest cells.now.caller pass.old }
    ensures fits { IsAtRest cells.now.caller pass.new }
{
    let Ok(json) = creation(cells.alloc(), number) else {
        return false;
    };
    is_told(cells, pass, CREATE, json.as_str(), expected)
}

/// Whether new cells take so many tables and no more.
fn is_the_limit<R: Wait>(rt: &R, alloc: Global) -> Result<bool, NoMemory> {
    let (shop, mut passes) = TableCells::make(alloc, 3, 1)?;
    let Some(mut pass) = passes.pop() else {
        return Ok(false);
    };
    let caller = shop.caller(rt, alloc);
    if !are_made(&caller, &mut pass) {
        return Ok(false);
    }
    Ok(is_refused(&caller, &mut pass, MOST, FULL) && is_refused(&caller, &mut pass, 7, IN_USE))
}

#[test]
fn the_table_after_256_is_refused(rt: HostRuntime) -> Result<(), Fail> {
    assert!(rt; is_the_limit(&rt, rt.alloc())?);
    Ok(())
}
