//! Items of a table with a time to live, at the seconds around which they go.

use crate::parts::{attribute, schema};
use attr_value::{Item, Value};
use base_types::{Seq, Text};
use number38::from_u64;
use plain_database::{SlowDb, effect_slow};
use std::alloc::{AllocError as NoMemory, Global};
use std::process::Abort;
use std::test::Fail;
use table_model::Reply;
use table_request::{CreateTable, GetItem, PutItem, Request, ReturnValues, UpdateTimeToLive};

/// How many microseconds a second has.
const SECOND: u64 = 1_000_000;

/// What an item's attribute `exp` holds.
#[derive(Clone, Copy)]
pub(crate) enum Expiry {
    Number(u64),
    /// The text `1`.
    Text,
}

/// An item, and whether it is there at a second.
static ROWS: [(Expiry, u64, bool); 9] = [
    (Expiry::Number(150), 100, true),
    (Expiry::Number(150), 150, true),
    (Expiry::Number(150), 151, false),
    (Expiry::Number(1), 1, true),
    (Expiry::Number(1), 2, false),
    // Five times 365 days later, and a second more.
    (Expiry::Number(1), 157_680_001, false),
    (Expiry::Number(1), 157_680_002, true),
    (Expiry::Text, 2, true),
    (Expiry::Text, 151, true),
];

fn create(alloc: Global) -> Result<Request, NoMemory> {
    Ok(Request::CreateTable(CreateTable {
        schema: schema(alloc)?,
    }))
}

fn enable(alloc: Global) -> Result<Request, NoMemory> {
    let table = Text::copied(alloc, "Tab")?;
    let name = Text::copied(alloc, "exp")?;
    Ok(Request::UpdateTimeToLive(UpdateTimeToLive {
        table,
        name,
        enabled: true,
    }))
}

fn value(alloc: Global, expiry: Expiry) -> Result<Value, NoMemory> {
    match expiry {
        Expiry::Number(seconds) => Ok(Value::N(from_u64(seconds))),
        Expiry::Text => Ok(Value::S(Text::copied(alloc, "1")?)),
    }
}

/// The attributes of the item's key.
fn key(alloc: Global, id: &str) -> Result<Item, NoMemory> {
    let mut key = Item::new(alloc);
    attribute(alloc, &mut key, "id", id)?;
    Ok(key)
}

/// The item of this key that expires so.
pub(crate) fn expiring(alloc: Global, id: &str, expiry: Expiry) -> Result<Item, NoMemory> {
    let mut item = key(alloc, id)?;
    let name = Text::copied(alloc, "exp")?;
    let value = value(alloc, expiry)?;
    item.put(name, value)?;
    Ok(item)
}

fn putting(alloc: Global, table: Text, item: Item) -> Request {
    Request::PutItem(PutItem {
        table,
        item,
        condition: None,
        values: Seq::new(alloc),
        return_values: ReturnValues::None,
        show_old: false,
        capacity: false,
    })
}

fn put(alloc: Global, expiry: Expiry) -> Result<Request, NoMemory> {
    let table = Text::copied(alloc, "Tab")?;
    Ok(putting(alloc, table, expiring(alloc, "a", expiry)?))
}

fn get(alloc: Global) -> Result<Request, NoMemory> {
    let table = Text::copied(alloc, "Tab")?;
    let key = key(alloc, "a")?;
    Ok(Request::GetItem(GetItem {
        table,
        key,
        projection: None,
        consistent: true,
        capacity: false,
    }))
}

/// Makes the table, lets its items expire and puts one, all at second 0.
fn fill(db: &mut SlowDb, alloc: Global, expiry: Expiry) -> Result<(), NoMemory> {
    drop(effect_slow(db, alloc, create(alloc)?, 0)?);
    drop(effect_slow(db, alloc, enable(alloc)?, 0)?);
    drop(effect_slow(db, alloc, put(alloc, expiry)?, 0)?);
    Ok(())
}

/// Whether the item is there at a second.
fn is_there(db: &mut SlowDb, alloc: Global, second: u64) -> Result<bool, NoMemory> {
    db.sweep(alloc, second.saturating_mul(SECOND))?;
    let reply = effect_slow(db, alloc, get(alloc)?, second.saturating_mul(SECOND))?;
    Ok(matches!(&reply, Reply::Read { shown: Some(_), .. }))
}

fn is_right(alloc: Global, row: (Expiry, u64, bool)) -> Result<bool, NoMemory> {
    let (expiry, second, there) = row;
    let mut db = SlowDb::new(alloc)?;
    fill(&mut db, alloc, expiry)?;
    Ok(is_there(&mut db, alloc, second)? == there)
}

fn expect<R: Abort>(rt: &R, right: bool) {
    assert!(rt; right);
}

#[test]
fn items_go_at_their_second(rt: HostRuntime) -> Result<(), Fail> {
    let alloc = rt.alloc();
    for row in &ROWS {
        expect(&rt, is_right(alloc, *row)?);
    }
    Ok(())
}
