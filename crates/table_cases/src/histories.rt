//! A table comes with its index, gets an item, and goes.

use crate::cells::{Cells, Told};
use crate::parts::{index_key, item, item_key, keep, position, put, row_key, schema};
use attr_value::SharedItem;
use base_types::Text;
use cell_model::{
    CatalogAnswer, CatalogCommand, CatalogQuestion, CellKey, PageQuestion, PageRoom, PageRow,
    PageSource,
};
use cell_rules::TableRules;
use page_ranges::Span;
use row_keys::Position;
use std::alloc::{AllocError as NoMemory, Global};
use std::process::Abort;
use std::test::Fail;
use table_schema::SchemaFault;
use txn_core::{Answer, Message, Rules};

/// The bytes of a page, and the one that ends it.
const BYTES: u64 = 1_048_577;

/// What is done, and what comes of it.
#[derive(Clone, Copy)]
enum Line {
    /// A table of a name that is too short is refused.
    Short,
    /// The table is made under this number.
    Create(u64),
    /// It is there already.
    Again,
    Drop,
    /// It is there, with its index.
    Look,
    /// The item is put where there was none.
    Put,
    /// An update without an expression leaves it as it is.
    Keep,
    /// The item is there or not.
    Get(bool),
    /// A page of the table's items, of which there is one or none.
    Scan(bool),
    /// The item's row waits for its index.
    Peek,
    /// The row is fed.
    Feed,
    /// A page of the index's rows, of which there is one or none.
    Rows(bool),
}

static LINES: [Line; 15] = [
    Line::Short,
    Line::Create(1),
    Line::Again,
    Line::Look,
    Line::Get(false),
    Line::Put,
    Line::Get(true),
    Line::Keep,
    Line::Scan(true),
    Line::Rows(false),
    Line::Peek,
    Line::Feed,
    Line::Rows(true),
    Line::Drop,
    // A number that was drawn never comes again: 2 is the index's.
    Line::Create(3),
];

fn create(alloc: Global) -> Result<CatalogCommand, NoMemory> {
    let schema = schema(alloc)?;
    Ok(CatalogCommand::Create { schema })
}

fn told_of_create(alloc: Global, cells: &mut Cells) -> Result<CatalogAnswer, NoMemory> {
    let command = create(alloc)?;
    cells.change(alloc, &command)
}

fn told_of_short(alloc: Global, cells: &mut Cells) -> Result<CatalogAnswer, NoMemory> {
    let mut schema = schema(alloc)?;
    schema.name = Text::copied(alloc, "T")?;
    cells.change(alloc, &CatalogCommand::Create { schema })
}

fn is_badly_named(told: &CatalogAnswer) -> bool {
    matches!(
        told,
        CatalogAnswer::BadSchema {
            fault: SchemaFault::BadName
        }
    )
}

fn is_made(told: &CatalogAnswer, drawn: u64) -> bool {
    match told {
        CatalogAnswer::Made { number } => *number == drawn,
        _ => false,
    }
}

fn told_of_drop(alloc: Global, cells: &mut Cells) -> Result<CatalogAnswer, NoMemory> {
    let name = Text::copied(alloc, "Tab")?;
    cells.change(alloc, &CatalogCommand::Drop { name })
}

fn is_dropped(told: &CatalogAnswer) -> bool {
    match told {
        CatalogAnswer::Dropped { schema } => schema.name.as_str() == "Tab",
        _ => false,
    }
}

fn look(alloc: Global, cells: &Cells) -> Result<Told, NoMemory> {
    let name = Text::copied(alloc, "Tab")?;
    cells.look(alloc, &CatalogQuestion::Look { name })
}

fn is_there(told: &Told) -> bool {
    match told {
        Answer::Told {
            told: CatalogAnswer::Table {
                table,
                schema,
                indexes,
            },
        } => *table == 1 && schema.name.as_str() == "Tab" && indexes.as_slice() == [2].as_slice(),
        _ => false,
    }
}

fn write(alloc: Global, cells: &mut Cells) -> Result<Told, NoMemory> {
    let action = put(alloc)?;
    cells.ask(alloc, Message::Write { action })
}

fn update(alloc: Global, cells: &mut Cells) -> Result<Told, NoMemory> {
    let action = keep(alloc)?;
    cells.ask(alloc, Message::Write { action })
}

fn is_written(told: &Told, item: &SharedItem) -> bool {
    match told {
        Answer::Written {
            old: None,
            new: Some(new),
        } => TableRules::are_equal_values(new, item),
        _ => false,
    }
}

fn is_left(told: &Told, item: &SharedItem) -> bool {
    match told {
        Answer::Written {
            old: Some(old),
            new: Some(new),
        } => TableRules::are_equal_values(old, item) && TableRules::are_equal_values(new, item),
        _ => false,
    }
}

fn get(alloc: Global, cells: &mut Cells) -> Result<Told, NoMemory> {
    let key = item_key(alloc)?;
    cells.ask(alloc, Message::Get { key })
}

fn is_found(told: &Told, item: &SharedItem, is_there: bool) -> bool {
    match told {
        Answer::Row { item: Some(found) } => is_there && TableRules::are_equal_values(found, item),
        Answer::Row { item: None } => !is_there,
        _ => false,
    }
}

/// The question of a page of at most ten rows, from this key on.
fn question(alloc: Global, source: PageSource, read: &str) -> Result<PageQuestion, NoMemory> {
    let low = row_key(alloc, read)?;
    Ok(PageQuestion {
        cell: 0,
        table: 1,
        source,
        span: Span {
            low: Some(low),
            high: None,
        },
        forward: true,
        after: None,
        room: PageRoom::whole(Some(10)),
    })
}

fn page(
    alloc: Global,
    cells: &mut Cells,
    source: PageSource,
    read: &str,
) -> Result<Told, NoMemory> {
    let page = CatalogQuestion::Page(question(alloc, source, read)?);
    cells.ask(alloc, Message::ScanPage { page })
}

/// Whether a page has the row of the item at this place alone, of 8 bytes, or nothing.
fn is_page(
    rows: &[PageRow],
    room: PageRoom,
    at: &Position,
    item: &SharedItem,
    is_there: bool,
) -> bool {
    match rows {
        [row] => {
            is_there
                && row.at == *at
                && TableRules::are_equal_values(&row.item, item)
                && (room.rows, room.bytes) == (Some(9), BYTES - 8)
        }
        [] => !is_there && (room.rows, room.bytes) == (Some(10), BYTES),
        _ => false,
    }
}

fn is_part(told: &Told, at: &Position, item: &SharedItem, is_there: bool) -> bool {
    match told {
        Answer::Part {
            told: CatalogAnswer::Part {
                rows,
                room,
                stopped: false,
            },
        } => is_page(rows.as_slice(), *room, at, item, is_there),
        _ => false,
    }
}

fn peek(alloc: Global, cells: &mut Cells) -> Result<Told, NoMemory> {
    cells.ask(alloc, Message::PeekOut { source: 0 })
}

fn is_out(told: &Told, key: &CellKey, item: &SharedItem) -> bool {
    match told {
        Answer::Out {
            sequence: 1,
            index: 2,
            target: 0,
            row_key,
            after: Some(after),
        } => row_key == key && TableRules::are_equal_values(after, item),
        _ => false,
    }
}

fn feed(alloc: Global, cells: &mut Cells) -> Result<Told, NoMemory> {
    let row_key = index_key(alloc)?;
    let item = item(alloc)?;
    let message = Message::ApplyIndex {
        source: 0,
        sequence: 1,
        index: 2,
        row_key,
        after: Some(item),
    };
    cells.ask(alloc, message)
}

/// Whether it comes to what the line says.
fn is_right(
    alloc: Global,
    cells: &mut Cells,
    item: &SharedItem,
    line: Line,
) -> Result<bool, NoMemory> {
    match line {
        Line::Short => Ok(is_badly_named(&told_of_short(alloc, cells)?)),
        Line::Create(number) => Ok(is_made(&told_of_create(alloc, cells)?, number)),
        Line::Again => Ok(matches!(&told_of_create(alloc, cells)?, CatalogAnswer::Exists)),
        Line::Drop => Ok(is_dropped(&told_of_drop(alloc, cells)?)),
        Line::Look => Ok(is_there(&look(alloc, cells)?)),
        _ => is_right_of_items(alloc, cells, item, line),
    }
}

fn is_right_of_items(
    alloc: Global,
    cells: &mut Cells,
    item: &SharedItem,
    line: Line,
) -> Result<bool, NoMemory> {
    match line {
        Line::Put => Ok(is_written(&write(alloc, cells)?, item)),
        Line::Keep => Ok(is_left(&update(alloc, cells)?, item)),
        Line::Get(is_there) => Ok(is_found(&get(alloc, cells)?, item, is_there)),
        Line::Peek => is_waiting(alloc, cells, item),
        Line::Feed => Ok(matches!(&feed(alloc, cells)?, Answer::Fed)),
        Line::Scan(is_there) => has_page(alloc, cells, item, PageSource::Table, "a", is_there),
        Line::Rows(is_there) => has_page(
            alloc,
            cells,
            item,
            PageSource::Global { number: 2 },
            "b",
            is_there,
        ),
        _ => Ok(false),
    }
}

fn is_waiting(alloc: Global, cells: &mut Cells, item: &SharedItem) -> Result<bool, NoMemory> {
    let key = index_key(alloc)?;
    Ok(is_out(&peek(alloc, cells)?, &key, item))
}

/// Whether a page from this key on has the item's row there alone, or none.
fn has_page(
    alloc: Global,
    cells: &mut Cells,
    item: &SharedItem,
    source: PageSource,
    read: &str,
    is_there: bool,
) -> Result<bool, NoMemory> {
    let at = position(alloc, read)?;
    let told = page(alloc, cells, source, read)?;
    Ok(is_part(&told, &at, item, is_there))
}

fn expect(rt: &impl Abort, is_right: bool) {
    assert!(rt; is_right);
}

#[test]
fn a_table_comes_and_goes(rt: HostRuntime) -> Result<(), Fail> {
    let alloc = rt.alloc();
    let item = item(alloc)?;
    let mut cells = Cells::new(alloc)?;
    for line in &LINES {
        expect(&rt, is_right(alloc, &mut cells, &item, *line)?);
    }
    Ok(())
}
