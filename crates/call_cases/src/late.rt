//! A transaction whose moment lies before that of a later change of its item.

use crate::calls::{is_shown, is_told};
use crate::left::WRITE;
use crate::sessions::{CREATE, DELETE, PUT};
use cell_asks::Looks;
use std::alloc::{AllocError as NoMemory, Global};
use std::sync::Wait;
use std::test::*;
use table_cells::TableCells;

const TABLE: &str =
    r#"{"AttributeDefinitions":[{"AttributeName":"id","AttributeType":"S"}],"KeySchema":[{"AttributeName":"id","KeyType":"HASH"}],"TableName":"Tab","BillingMode":"PAY_PER_REQUEST"}"#;

const DESCRIPTION: &str =
    r#"{"TableDescription":{"AttributeDefinitions":[{"AttributeName":"id","AttributeType":"S"}],"BillingModeSummary":{"BillingMode":"PAY_PER_REQUEST"},"CreationDateTime":0,"KeySchema":[{"AttributeName":"id","KeyType":"HASH"}],"ProvisionedThroughput":{"NumberOfDecreasesToday":0,"ReadCapacityUnits":0,"WriteCapacityUnits":0},"TableArn":"arn:aws:dynamodb:ddblocal:000000000000:table/Tab","TableName":"Tab","TableStatus":"ACTIVE"}}"#;

const ITEM: &str = r#"{"TableName":"Tab","Item":{"id":{"S":"a"}}}"#;

const KEY: &str = r#"{"TableName":"Tab","Key":{"id":{"S":"a"}}}"#;

const AGAIN: &str = r#"{"TransactItems":[{"Put":{"TableName":"Tab","Item":{"id":{"S":"a"}}}}]}"#;

const LATE: &str =
    r#"{"CancellationReasons":[{"Code":"TransactionConflict","Message":"A later change of the item is there"}],"Message":"Transaction cancelled, please refer cancellation reasons for specific reasons [TransactionConflict]","__type":"com.amazonaws.dynamodb.v20120810#TransactionCanceledException"}"#;

/// Whether it is refused that an item is put at second 50 that was deleted at second 100.
fn is_late<R: Wait>(rt: &R, alloc: Global) -> Result<bool, NoMemory> {
    let (cells, mut passes) = TableCells::make(alloc, 3, 2)?;
    let Some(mut later) = passes.pop() else {
        return Ok(false);
    };
    let Some(mut earlier) = passes.pop() else {
        return Ok(false);
    };
    let caller = cells.caller(rt, alloc);
    let mut looks = Looks::new(alloc);
    let mut others = Looks::new(alloc);
    if !is_told(&caller, &mut earlier, CREATE, TABLE, DESCRIPTION) {
        return Ok(false);
    }
    later.tick(100_000_000);
    earlier.tick(50_000_000);
    Ok(
        is_shown(&caller, &mut later, &mut looks, PUT, ITEM, Some("{}"))
            && is_shown(&caller, &mut later, &mut looks, DELETE, KEY, Some("{}"))
            && is_shown(&caller, &mut earlier, &mut others, WRITE, AGAIN, Some(LATE)),
    )
}

#[test]
fn a_transaction_before_a_later_change_is_refused(rt: HostRuntime) -> Result<(), Fail> {
    assert!(rt; is_late(&rt, rt.alloc())?);
    Ok(())
}
