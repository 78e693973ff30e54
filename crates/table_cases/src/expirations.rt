//! Expirations of a table's items, replayed.

use crate::cells::{Asked, Told};
use crate::expiry::{Expiry, expiring};
use crate::parts::{changing, row_key, schema};
use attr_value::SharedItem;
use base_types::{Seq, Text};
use cell_model::{CatalogAnswer, CatalogCommand, CellKey, ItemKey, KeyedAction, StatedChange};
use cell_rules::TableRules;
use std::alloc::{AllocError as NoMemory, Global};
use std::process::Abort;
use std::test::Fail;
use table_model::TtlFault;
use table_schema::Schema;
use txn_core::{Answer, Break, BreakKind, Entry, Event, Message, Rules, Stamp};
use txn_replay::{ReplayEnd, replay_check};

/// How many microseconds a second has.
const SECOND: u64 = 1_000_000;

/// An item by its key, with what its `exp` holds.
#[derive(Clone, Copy)]
struct Row {
    id: &'static str,
    expiry: Expiry,
}

const OLD: Row = Row {
    id: "a",
    expiry: Expiry::Number(1),
};

const YOUNG: Row = Row {
    id: "b",
    expiry: Expiry::Number(150),
};

const TEXT: Row = Row {
    id: "c",
    expiry: Expiry::Text,
};

/// Put later, and then held by the transaction of number 1.
const HELD: Row = Row {
    id: "d",
    expiry: Expiry::Number(150),
};

/// What is asked, with what is answered.
#[derive(Clone, Copy)]
enum Line {
    /// The table is made, without a time to live.
    Create,
    /// Its items are to expire by `exp`; then, once more.
    Enable,
    Again,
    /// The item is put where there was none.
    Put(Row),
    /// The transaction of number 1 is begun at this second, to put the item, and then holds it.
    Begin(Row),
    Prepare(Row, u64),
    /// An expiration of the item.
    Kept(Row),
    Expired(Row),
    Held(Row),
    /// The keys of these items are listed, as a Scan would meet them.
    Due(&'static [Row]),
}

/// Each at a second.
static LINES: [(u64, Line); 30] = [
    (0, Line::Create),
    (0, Line::Put(OLD)),
    // Nothing expires in a table without a time to live.
    (2, Line::Due(&[])),
    (2, Line::Kept(OLD)),
    (2, Line::Enable),
    (2, Line::Again),
    (2, Line::Due(&[OLD])),
    (2, Line::Put(YOUNG)),
    (2, Line::Put(TEXT)),
    (2, Line::Kept(TEXT)),
    (150, Line::Kept(YOUNG)),
    (150, Line::Due(&[OLD])),
    (151, Line::Due(&[OLD, YOUNG])),
    (151, Line::Put(HELD)),
    (151, Line::Begin(HELD)),
    (151, Line::Due(&[HELD, OLD, YOUNG])),
    (151, Line::Prepare(HELD, 151)),
    (151, Line::Due(&[OLD, YOUNG])),
    (151, Line::Held(HELD)),
    (151, Line::Expired(YOUNG)),
    (151, Line::Kept(YOUNG)),
    (151, Line::Kept(TEXT)),
    (151, Line::Due(&[OLD])),
    // Five times 365 days later, and a second more.
    (157_680_001, Line::Expired(OLD)),
    (157_680_001, Line::Put(OLD)),
    (157_680_001, Line::Due(&[OLD])),
    (157_680_002, Line::Due(&[])),
    (157_680_002, Line::Kept(OLD)),
    (157_680_002, Line::Kept(TEXT)),
    (157_680_002, Line::Held(HELD)),
];

/// What is not answered, after so many of the lines.
static WRONG: [(usize, u64, Line); 8] = [
    (3, 2, Line::Expired(OLD)),
    (10, 150, Line::Expired(YOUNG)),
    (11, 150, Line::Due(&[OLD, YOUNG])),
    (17, 151, Line::Due(&[HELD, OLD, YOUNG])),
    (18, 151, Line::Expired(HELD)),
    (19, 151, Line::Kept(YOUNG)),
    (21, 151, Line::Expired(TEXT)),
    (27, 157_680_002, Line::Expired(OLD)),
];

/// A message to a cell, or to all of them, with its answer.
type Said = (Option<u32>, Asked, Told);

fn key_of(alloc: Global, row: Row) -> Result<CellKey, NoMemory> {
    Ok(CellKey::Item(ItemKey {
        table: 1,
        key: row_key(alloc, row.id)?,
    }))
}

fn keys_of(alloc: Global, rows: &[Row]) -> Result<Seq<CellKey>, NoMemory> {
    let mut keys = Seq::new(alloc);
    for row in rows {
        keys.push(key_of(alloc, *row)?)?;
    }
    Ok(keys)
}

fn item_of(alloc: Global, row: Row) -> Result<SharedItem, NoMemory> {
    SharedItem::new(alloc, expiring(alloc, row.id, row.expiry)?)
}

/// Puts an item.
fn putting(alloc: Global, row: Row) -> Result<KeyedAction, NoMemory> {
    let table = Text::copied(alloc, "Tab")?;
    let item = expiring(alloc, row.id, row.expiry)?;
    Ok(changing(alloc, table, StatedChange::Put(item), key_of(alloc, row)?))
}

/// The table as it is made at second 0.
fn made(alloc: Global) -> Result<Schema, NoMemory> {
    let mut made = schema(alloc)?;
    made.created = 0;
    Ok(made)
}

fn create(alloc: Global) -> Result<Said, NoMemory> {
    let command = CatalogCommand::Create {
        schema: schema(alloc)?,
    };
    let told = CatalogAnswer::Made { number: 1 };
    Ok((None, Message::Command { command }, Answer::Changed { told }))
}

fn enabling(alloc: Global) -> Result<Asked, NoMemory> {
    let command = CatalogCommand::TimeToLive {
        name: Text::copied(alloc, "Tab")?,
        attribute: Text::copied(alloc, "exp")?,
        enabled: true,
    };
    Ok(Message::Command { command })
}

fn enable(alloc: Global) -> Result<Said, NoMemory> {
    let mut schema = made(alloc)?;
    schema.ttl = Some(Text::copied(alloc, "exp")?);
    let told = CatalogAnswer::Changed { schema };
    Ok((None, enabling(alloc)?, Answer::Changed { told }))
}

fn again(alloc: Global) -> Result<Said, NoMemory> {
    let told = CatalogAnswer::TtlRefused {
        fault: TtlFault::AlreadyEnabled,
    };
    Ok((None, enabling(alloc)?, Answer::Refused { told }))
}

fn put(alloc: Global, row: Row) -> Result<Said, NoMemory> {
    let action = putting(alloc, row)?;
    let told = Answer::Written {
        old: None,
        new: Some(item_of(alloc, row)?),
    };
    Ok((Some(0), Message::Write { action }, told))
}

fn begin(alloc: Global, row: Row, second: u64) -> Result<Said, NoMemory> {
    let mut actions = Seq::new(alloc);
    actions.push(putting(alloc, row)?)?;
    let message = Message::Begin {
        token: None,
        actions,
    };
    let told = Answer::Begun {
        number: 1,
        stamp: stamp(second),
    };
    Ok((Some(1), message, told))
}

/// The stamp of the transaction that is begun at this second.
fn stamp(second: u64) -> Stamp {
    Stamp {
        moment: second.saturating_mul(SECOND),
        number: 1,
    }
}

fn prepare(alloc: Global, row: Row, second: u64) -> Result<Said, NoMemory> {
    let message = Message::Prepare {
        number: 1,
        stamp: stamp(second),
        action: putting(alloc, row)?,
    };
    Ok((Some(0), message, Answer::Accepted))
}

/// An expiration, with its answer.
fn expiration(alloc: Global, row: Row, told: Told) -> Result<Said, NoMemory> {
    let action = TableRules::removal(alloc, &key_of(alloc, row)?)?;
    Ok((Some(0), Message::Expire { action }, told))
}

fn due(alloc: Global, rows: &[Row]) -> Result<Said, NoMemory> {
    let keys = keys_of(alloc, rows)?;
    let message = Message::ExpiredKeys { cell: 0, limit: 9 };
    Ok((Some(0), message, Answer::ExpiredList { keys }))
}

fn said(alloc: Global, second: u64, line: Line) -> Result<Said, NoMemory> {
    match line {
        Line::Create => create(alloc),
        Line::Enable => enable(alloc),
        Line::Again => again(alloc),
        Line::Put(row) => put(alloc, row),
        Line::Begin(row) => begin(alloc, row, second),
        Line::Prepare(row, begun) => prepare(alloc, row, begun),
        Line::Kept(row) => expiration(alloc, row, Answer::Kept),
        Line::Expired(row) => {
            let old = item_of(alloc, row)?;
            expiration(alloc, row, Answer::Expired { old })
        }
        Line::Held(row) => expiration(alloc, row, Answer::Held { number: 1 }),
        Line::Due(rows) => due(alloc, rows),
    }
}

fn entry(alloc: Global, second: u64, line: Line) -> Result<Event<TableRules>, NoMemory> {
    let (cell, message, answer) = said(alloc, second, line)?;
    Ok(Entry {
        pass: 0,
        cell,
        message,
        answer,
        moment: second.saturating_mul(SECOND),
    })
}

fn history(alloc: Global, lines: &[(u64, Line)]) -> Result<Vec<Event<TableRules>>, NoMemory> {
    let mut entries = Vec::new(alloc);
    for (second, line) in lines {
        entries.push(entry(alloc, *second, *line)?)?;
    }
    Ok(entries)
}

/// Whether a line is found to be wrong after the first ones.
fn is_found(alloc: Global, wrong: (usize, u64, Line)) -> Result<bool, NoMemory> {
    let (place, second, line) = wrong;
    let mut entries = history(alloc, LINES.get(..place).unwrap_or(&[]))?;
    entries.push(entry(alloc, second, line)?)?;
    let kind = BreakKind::WrongAnswer;
    let end = Err(ReplayEnd::Break(Break { place, kind }));
    Ok(replay_check::<TableRules>(alloc, 1, &entries) == end)
}

fn expect(rt: &impl Abort, is_right: bool) {
    assert!(rt; is_right);
}

#[test]
fn items_are_removed_so(rt: HostRuntime) -> Result<(), Fail> {
    let alloc = rt.alloc();
    let entries = history(alloc, &LINES)?;
    assert!(rt; replay_check::<TableRules>(alloc, 1, &entries) == Ok(()));
    Ok(())
}

#[test]
fn other_expirations_are_found(rt: HostRuntime) -> Result<(), Fail> {
    for wrong in &WRONG {
        expect(&rt, is_found(rt.alloc(), *wrong)?);
    }
    Ok(())
}
