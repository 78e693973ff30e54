//! Items that expire: they are shown until they are removed, and removed from their second on, unless a transaction holds them.

ghost use Rattle.std.specs.Prelude.{◌≡◌, ◌≤◌, reverse};
ghost use Rattle.cell_asks.specs.Told.{AreTold};
ghost use Rattle.cluster.specs.Steps.{IsAtRest, partitions_of};

use crate::left::{are_swept, is_left};
use crate::sessions::{CREATE, EXPIRE, GET, Line, PUT, is_right};
use cell_asks::Looks;
use coordinator::Point;
use std::alloc::{AllocError as NoMemory, Global};
use std::sync::Wait;
use std::test::*;
use table_cells::{TableCaller, TableCells, TablePass, expire};

/// How many microseconds a second has.
const SECOND: u64 = 1_000_000;

/// What happens, and what is told of it.
#[derive(Clone, Copy)]
enum Step {
    /// It becomes this second.
    At(u64),
    Ask(Line),
    /// At most so many expired items are removed from each partition. So many were, and whether one may have more.
    Expire(u32, u64, bool),
    /// A transaction that checks the item `a` is left when it holds it, and is ended later.
    Hold,
    Release,
}

const TABLE: Step = Step::Ask(Line::Table(
    CREATE,
    r#"{"AttributeDefinitions":[{"AttributeName":"id","AttributeType":"S"}],"KeySchema":[{"AttributeName":"id","KeyType":"HASH"}],"TableName":"Tab","BillingMode":"PAY_PER_REQUEST"}"#,
    r#"{"TableDescription":{"AttributeDefinitions":[{"AttributeName":"id","AttributeType":"S"}],"BillingModeSummary":{"BillingMode":"PAY_PER_REQUEST"},"CreationDateTime":100,"KeySchema":[{"AttributeName":"id","KeyType":"HASH"}],"ProvisionedThroughput":{"NumberOfDecreasesToday":0,"ReadCapacityUnits":0,"WriteCapacityUnits":0},"TableArn":"arn:aws:dynamodb:ddblocal:000000000000:table/Tab","TableName":"Tab","TableStatus":"ACTIVE"}}"#,
));

const ENABLED: Step = Step::Ask(Line::Table(
    EXPIRE,
    r#"{"TableName":"Tab","TimeToLiveSpecification":{"AttributeName":"exp","Enabled":true}}"#,
    r#"{"TimeToLiveSpecification":{"AttributeName":"exp","Enabled":true}}"#,
));

const PUT_A: Step = Step::Ask(Line::Item(
    PUT,
    r#"{"TableName":"Tab","Item":{"id":{"S":"a"},"exp":{"N":"150"}}}"#,
    "{}",
));

const PUT_B: Step = Step::Ask(Line::Item(
    PUT,
    r#"{"TableName":"Tab","Item":{"id":{"S":"b"},"exp":{"N":"150"}}}"#,
    "{}",
));

const PUT_C: Step = Step::Ask(Line::Item(
    PUT,
    r#"{"TableName":"Tab","Item":{"id":{"S":"c"},"exp":{"N":"150"}}}"#,
    "{}",
));

/// What is no number is no second either.
const PUT_TEXT: Step = Step::Ask(Line::Item(
    PUT,
    r#"{"TableName":"Tab","Item":{"id":{"S":"text"},"exp":{"S":"150"}}}"#,
    "{}",
));

const A: &str = r#"{"TableName":"Tab","Key":{"id":{"S":"a"}}}"#;

const B: &str = r#"{"TableName":"Tab","Key":{"id":{"S":"b"}}}"#;

const C: &str = r#"{"TableName":"Tab","Key":{"id":{"S":"c"}}}"#;

/// A transaction that finds the item `a` there.
const CHECK: &str =
    r#"{"TransactItems":[{"ConditionCheck":{"TableName":"Tab","Key":{"id":{"S":"a"}},"ConditionExpression":"attribute_exists(id)"}}]}"#;

const A_IS_SHOWN: Step = Step::Ask(Line::Item(
    GET,
    A,
    r#"{"Item":{"exp":{"N":"150"},"id":{"S":"a"}}}"#,
));

const A_IS_GONE: Step = Step::Ask(Line::Item(GET, A, "{}"));

const B_IS_GONE: Step = Step::Ask(Line::Item(GET, B, "{}"));

const C_IS_GONE: Step = Step::Ask(Line::Item(GET, C, "{}"));

const TEXT_IS_SHOWN: Step = Step::Ask(Line::Item(
    GET,
    r#"{"TableName":"Tab","Key":{"id":{"S":"text"}}}"#,
    r#"{"Item":{"exp":{"S":"150"},"id":{"S":"text"}}}"#,
));

/// On one partition.
static ALONE: [Step; 31] = [
    Step::At(100),
    TABLE,
    PUT_A,
    // Nothing expires in a table without a time to live.
    Step::At(151),
    Step::Expire(25, 0, false),
    ENABLED,
    Step::Expire(25, 1, false),
    A_IS_GONE,
    PUT_A,
    PUT_B,
    PUT_C,
    PUT_TEXT,
    A_IS_SHOWN,
    Step::Hold,
    Step::Expire(1, 1, true),
    Step::Expire(2, 1, false),
    Step::Expire(2, 0, false),
    A_IS_SHOWN,
    B_IS_GONE,
    C_IS_GONE,
    TEXT_IS_SHOWN,
    Step::Release,
    A_IS_SHOWN,
    Step::Expire(1, 1, true),
    Step::Expire(1, 0, false),
    A_IS_GONE,
    TEXT_IS_SHOWN,
    // What expired more than five times 365 days ago stays.
    PUT_A,
    Step::At(157_680_151),
    Step::Expire(25, 0, false),
    A_IS_SHOWN,
];

/// On several: no item goes before its second is over, and then each goes.
static SHARED: [Step; 17] = [
    Step::At(100),
    TABLE,
    ENABLED,
    PUT_A,
    PUT_B,
    PUT_C,
    PUT_TEXT,
    Step::At(150),
    Step::Expire(25, 0, false),
    A_IS_SHOWN,
    Step::At(151),
    A_IS_SHOWN,
    Step::Expire(25, 3, false),
    A_IS_GONE,
    B_IS_GONE,
    C_IS_GONE,
    TEXT_IS_SHOWN,
];

/// Whether so many items of these partitions are removed, at most `limit` of each, and whether one may have more.
fn are_removed<T: Wait>(
    cells: &TableCaller<'_, T>,
    pass: &mut TablePass,
    partitions: u32,
    limit: u32,
    expected: (u64, bool),
) -> bool
    requires fits { IsAtRest cells.now.caller pass.old }
    requires partitions { partitions ≤ partitions_of cells.now.caller }
    requires some { 1 ≤ limit }
    ensures fits { IsAtRest cells.now.caller pass.new }
{
    let mut removed: u64 = 0;
    let mut more = false;
    for cell in 0..partitions {
        match expire(cells, pass, limit, cell) {
            Ok(expiry) => {
                removed = expiry.removed.saturating_add(removed);
                more = more || expiry.more;
            }
            Err(_) => return false,
        }
    }
    (removed, more) == expected
}

/// It becomes this second.
fn tick(pass: &mut TablePass, second: u64)
    ensures { pass.new ≡ record pass.old { moment = pass.new.moment } }
{
    pass.tick(second.saturating_mul(SECOND));
}

/// Whether a step goes so.
fn goes_so<T: Wait>(
    cells: &TableCaller<'_, T>,
    tables: &mut TablePass,
    items: &mut TablePass,
    looks: &mut Looks,
    partitions: u32,
    step: Step,
) -> bool
    requires tables { IsAtRest cells.now.caller tables.old }
    requires items { IsAtRest cells.now.caller items.old }
    requires told { AreTold (reverse items.old.front) looks.old }
    requires partitions { partitions ≤ partitions_of cells.now.caller }
    ensures tables { IsAtRest cells.now.caller tables.new }
    ensures items { IsAtRest cells.now.caller items.new }
    ensures told { AreTold (reverse items.new.front) looks.new }
{
    match step {
        Step::At(second) => {
            tick(tables, second);
            tick(items, second);
            true
        }
        Step::Ask(line) => is_right(cells, tables, items, looks, line),
        Step::Expire(limit, removed, more) => {
            limit > 0 && are_removed(cells, tables, partitions, limit, (removed, more))
        }
        Step::Hold => is_left(cells, items, looks, CHECK, Point::AfterPrepare(0)),
        Step::Release => are_swept(cells, tables, 1),
    }
}

/// Whether so it goes with each step, one after another.
fn go_so<T: Wait>(
    cells: &TableCaller<'_, T>,
    tables: &mut TablePass,
    items: &mut TablePass,
    looks: &mut Looks,
    partitions: u32,
    steps: &[Step],
) -> bool
    requires tables { IsAtRest cells.now.caller tables.old }
    requires items { IsAtRest cells.now.caller items.old }
    requires told { AreTold (reverse items.old.front) looks.old }
    requires partitions { partitions ≤ partitions_of cells.now.caller }
    ensures tables { IsAtRest cells.now.caller tables.new }
    ensures items { IsAtRest cells.now.caller items.new }
    ensures told { AreTold (reverse items.new.front) looks.new }
{
    for step in steps {
        if !goes_so(cells, tables, items, looks, partitions, *step) {
            return false;
        }
    }
    true
}

/// Whether so it goes on new cells.
fn expire_so<R: Wait>(
    rt: &R,
    alloc: Global,
    partitions: u32,
    steps: &[Step],
) -> Result<bool, NoMemory>
    requires { (1 ≤ partitions) × (partitions ≤ 64) }
{
    let (shop, mut passes) = TableCells::make(alloc, partitions, 2)?;
    let Some(mut tables) = passes.pop() else {
        return Ok(false);
    };
    let Some(mut items) = passes.pop() else {
        return Ok(false);
    };
    let mut looks = Looks::new(alloc);
    let caller = shop.caller(rt, alloc);
    Ok(go_so(
        &caller,
        &mut tables,
        &mut items,
        &mut looks,
        partitions,
        steps,
    ))
}

#[test]
fn items_of_one_partition_expire(rt: HostRuntime) -> Result<(), Fail> {
    assert!(rt; expire_so(&rt, rt.alloc(), 1, &ALONE)?);
    Ok(())
}

#[test]
fn items_of_four_partitions_expire(rt: HostRuntime) -> Result<(), Fail> {
    assert!(rt; expire_so(&rt, rt.alloc(), 4, &SHARED)?);
    Ok(())
}
