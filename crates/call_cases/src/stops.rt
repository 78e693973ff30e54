//! A transaction of two puts is left at each point of its way: what is replied then, and after a sweep.

ghost use Rattle.std.specs.Prelude.{reverse};
ghost use Rattle.cell_asks.specs.Told.{AreTold};
ghost use Rattle.cluster.specs.Steps.{IsAtRest};

use crate::calls::is_shown;
use crate::left::{are_swept, is_left};
use crate::sessions::{CREATE, GET, Line, PUT, are_right};
use cell_asks::Looks;
use coordinator::Point;
use std::alloc::{AllocError as NoMemory, Global};
use std::sync::Wait;
use std::test::*;
use table_cells::{TableCaller, TableCells, TablePass};
use transact_asks::Transacts;

const READ: &str = "DynamoDB_20120810.TransactGetItems";

static BEFORE: [Line; 3] = [
    Line::Table(
        CREATE,
        r#"{"AttributeDefinitions":[{"AttributeName":"id","AttributeType":"S"}],"KeySchema":[{"AttributeName":"id","KeyType":"HASH"}],"TableName":"Tab","BillingMode":"PAY_PER_REQUEST"}"#,
        r#"{"TableDescription":{"AttributeDefinitions":[{"AttributeName":"id","AttributeType":"S"}],"BillingModeSummary":{"BillingMode":"PAY_PER_REQUEST"},"CreationDateTime":0,"KeySchema":[{"AttributeName":"id","KeyType":"HASH"}],"ProvisionedThroughput":{"NumberOfDecreasesToday":0,"ReadCapacityUnits":0,"WriteCapacityUnits":0},"TableArn":"arn:aws:dynamodb:ddblocal:000000000000:table/Tab","TableName":"Tab","TableStatus":"ACTIVE"}}"#,
    ),
    Line::Item(
        PUT,
        r#"{"TableName":"Tab","Item":{"id":{"S":"a"},"v":{"N":"1"}}}"#,
        "{}",
    ),
    Line::Item(
        PUT,
        r#"{"TableName":"Tab","Item":{"id":{"S":"b"},"v":{"N":"1"}}}"#,
        "{}",
    ),
];

/// The transaction.
const PUTS: &str =
    r#"{"TransactItems":[{"Put":{"TableName":"Tab","Item":{"id":{"S":"a"},"v":{"N":"2"}}}},{"Put":{"TableName":"Tab","Item":{"id":{"S":"b"},"v":{"N":"2"}}}}]}"#;

const A: &str = r#"{"TableName":"Tab","Key":{"id":{"S":"a"}}}"#;

const B: &str = r#"{"TableName":"Tab","Key":{"id":{"S":"b"}}}"#;

const BOTH: &str =
    r#"{"TransactItems":[{"Get":{"TableName":"Tab","Key":{"id":{"S":"a"}}}},{"Get":{"TableName":"Tab","Key":{"id":{"S":"b"}}}}]}"#;

const A_OLD: &str = r#"{"Item":{"id":{"S":"a"},"v":{"N":"1"}}}"#;

const A_NEW: &str = r#"{"Item":{"id":{"S":"a"},"v":{"N":"2"}}}"#;

const B_OLD: &str = r#"{"Item":{"id":{"S":"b"},"v":{"N":"1"}}}"#;

const B_NEW: &str = r#"{"Item":{"id":{"S":"b"},"v":{"N":"2"}}}"#;

const BOTH_OLD: &str =
    r#"{"Responses":[{"Item":{"id":{"S":"a"},"v":{"N":"1"}}},{"Item":{"id":{"S":"b"},"v":{"N":"1"}}}]}"#;

const BOTH_NEW: &str =
    r#"{"Responses":[{"Item":{"id":{"S":"a"},"v":{"N":"2"}}},{"Item":{"id":{"S":"b"},"v":{"N":"2"}}}]}"#;

const A_HELD: &str =
    r#"{"CancellationReasons":[{"Code":"TransactionConflict","Message":"Transaction is ongoing for the item"},{"Code":"None"}],"Message":"Transaction cancelled, please refer cancellation reasons for specific reasons [TransactionConflict, None]","__type":"com.amazonaws.dynamodb.v20120810#TransactionCanceledException"}"#;

const B_HELD: &str =
    r#"{"CancellationReasons":[{"Code":"None"},{"Code":"TransactionConflict","Message":"Transaction is ongoing for the item"}],"Message":"Transaction cancelled, please refer cancellation reasons for specific reasons [None, TransactionConflict]","__type":"com.amazonaws.dynamodb.v20120810#TransactionCanceledException"}"#;

const BOTH_HELD: &str =
    r#"{"CancellationReasons":[{"Code":"TransactionConflict","Message":"Transaction is ongoing for the item"},{"Code":"TransactionConflict","Message":"Transaction is ongoing for the item"}],"Message":"Transaction cancelled, please refer cancellation reasons for specific reasons [TransactionConflict, TransactionConflict]","__type":"com.amazonaws.dynamodb.v20120810#TransactionCanceledException"}"#;

/// What is replied to a GetItem of each item, and to a TransactGetItems of both.
#[derive(Clone, Copy)]
struct Found {
    one: &'static str,
    other: &'static str,
    both: &'static str,
}

const OLD: Found = Found {
    one: A_OLD,
    other: B_OLD,
    both: BOTH_OLD,
};

const NEW: Found = Found {
    one: A_NEW,
    other: B_NEW,
    both: BOTH_NEW,
};

/// Where the transaction is left, what is found then, and how many transactions a sweep ends.
#[derive(Clone, Copy)]
struct Stop {
    point: Point,
    found: Found,
    swept: u64,
}

static STOPS: [Stop; 7] = [
    Stop {
        point: Point::AfterBegin,
        found: OLD,
        swept: 1,
    },
    Stop {
        point: Point::AfterPrepare(0),
        found: Found {
            one: A_OLD,
            other: B_OLD,
            both: A_HELD,
        },
        swept: 1,
    },
    Stop {
        point: Point::AfterPrepare(1),
        found: Found {
            one: A_OLD,
            other: B_OLD,
            both: BOTH_HELD,
        },
        swept: 1,
    },
    Stop {
        point: Point::AfterDecide,
        found: Found {
            one: A_OLD,
            other: B_OLD,
            both: BOTH_HELD,
        },
        swept: 1,
    },
    Stop {
        point: Point::AfterFinish(0),
        found: Found {
            one: A_NEW,
            other: B_OLD,
            both: B_HELD,
        },
        swept: 1,
    },
    Stop {
        point: Point::AfterFinish(1),
        found: NEW,
        swept: 1,
    },
    Stop {
        point: Point::AfterDone,
        found: NEW,
        swept: 0,
    },
];

/// Whether this is found.
fn is_found<C: Transacts>(cells: &C, pass: &mut C::Pass, looks: &mut Looks, found: &Found) -> bool
    requires fits { C.fits cells.now pass.old }
    requires told { AreTold (reverse (C.seen pass.old).front) looks.old }
    ensures fits { C.fits cells.now pass.new }
    ensures told { AreTold (reverse (C.seen pass.new).front) looks.new }
{
    is_shown(cells, pass, looks, GET, A, Some(found.one))
        && is_shown(cells, pass, looks, GET, B, Some(found.other))
        && is_shown(cells, pass, looks, READ, BOTH, Some(found.both))
}

/// Whether the transaction is left so, ended by one sweep, and by a second one no more.
fn goes_so<T: Wait>(
    cells: &TableCaller<'_, T>,
    sweeper: &mut TablePass,
    items: &mut TablePass,
    looks: &mut Looks,
    stop: &Stop,
) -> bool
    requires sweeper { IsAtRest cells.now.caller sweeper.old }
    requires items { IsAtRest cells.now.caller items.old }
    requires told { AreTold (reverse items.old.front) looks.old }
{
    is_left(cells, items, looks, PUTS, stop.point)
        && is_found(cells, items, looks, &stop.found)
        && are_swept(cells, sweeper, stop.swept)
        && is_found(cells, items, looks, &NEW)
        && are_swept(cells, sweeper, 0)
}

/// Whether it goes so on new cells.
fn stops_so<R: Wait>(rt: &R, alloc: Global, stop: &Stop) -> Result<bool, NoMemory> {
    let (cells, mut passes) = TableCells::make(alloc, 3, 2)?;
    let Some(mut tables) = passes.pop() else {
        return Ok(false);
    };
    let Some(mut items) = passes.pop() else {
        return Ok(false);
    };
    let mut looks = Looks::new(alloc);
    let caller = cells.caller(rt, alloc);
    if !are_right(&caller, &mut tables, &mut items, &mut looks, &BEFORE) {
        return Ok(false);
    }
    Ok(goes_so(&caller, &mut tables, &mut items, &mut looks, stop))
}

#[test]
fn a_sweep_ends_what_was_left(rt: HostRuntime) -> Result<(), Fail> {
    for stop in &STOPS {
        assert!(rt; stops_so(&rt, rt.alloc(), stop)?);
    }
    Ok(())
}
