//! Whether two answers of the catalog are equal.

ghost use Rattle.std.specs.Prelude.{◌≡◌, ◌↔◌, IsTrue};
ghost use Rattle.cell_model.specs.declared.answer.CatalogAnswer.{CatalogAnswer};

use crate::equal::{are_equal_items, are_equal_schemas};
use base_types::{Seq, Text};
use cell_model::{CatalogAnswer, PageRoom, PageRow};
use row_keys::Position;
use table_model::TtlFault;
use table_schema::{Schema, SchemaFault};

/// Whether both lists have the same numbers in the same order.
fn are_equal_numbers(left: &Seq<u64>, right: &Seq<u64>) -> bool
    ensures { IsTrue result ↔ (left.now ≡ right.now) }
{
    left == right
}

/// Whether both lists have the same names in the same order.
fn are_equal_names(left: &Seq<Text>, right: &Seq<Text>) -> bool
    ensures { IsTrue result ↔ (left.now ≡ right.now) }
{
    left == right
}

/// Whether both stand at one place.
fn are_equal_positions(left: &Position, right: &Position) -> bool
    ensures { IsTrue result ↔ (left.now ≡ right.now) }
{
    left == right
}

/// Whether both rows are one.
fn are_equal_rows(left: &PageRow, right: &PageRow) -> bool
    ensures { IsTrue result ↔ (left.now ≡ right.now) }
{
    if !are_equal_positions(&left.at, &right.at) {
        return false;
    }
    are_equal_items(left.item.item(), right.item.item())
}

/// Whether both lists have the same rows in the same order.
fn are_equal_lists(left: &[PageRow], right: &[PageRow]) -> bool
    ensures { IsTrue result ↔ (left.now ≡ right.now) }
{
    if left.len() != right.len() {
        return false;
    }
    for place in 0..left.len() {
        if !are_equal_rows(&left[place], &right[place]) {
            return false;
        }
    }
    true
}

/// Whether both are one fault.
fn are_one_fault(left: SchemaFault, right: SchemaFault) -> bool
    ensures { IsTrue result ↔ (left ≡ right) }
{
    left == right
}

/// Whether both are one fault of a time to live.
fn are_one_ttl_fault(left: TtlFault, right: TtlFault) -> bool
    ensures { IsTrue result ↔ (left ≡ right) }
{
    left == right
}

/// Whether both may still take as much.
fn are_equal_rooms(left: PageRoom, right: PageRoom) -> bool
    ensures { IsTrue result ↔ (left ≡ right) }
{
    left == right
}

/// Whether an answer is this table's.
fn is_table(table: u64, schema: &Schema, indexes: &Seq<u64>, answer: &CatalogAnswer) -> bool
    ensures { IsTrue result ↔ (CatalogAnswer.Table table schema.now indexes.now ≡ answer.now) }
{
    match answer {
        CatalogAnswer::Table {
            table: other,
            schema: another,
            indexes: numbers,
        } => {
            table == *other
                && are_equal_schemas(schema, another)
                && are_equal_numbers(indexes, numbers)
        }
        _ => false,
    }
}

/// Whether an answer is this list of names.
fn is_name_list(names: &Seq<Text>, more: bool, answer: &CatalogAnswer) -> bool
    ensures { IsTrue result ↔ (CatalogAnswer.NameList names.now more ≡ answer.now) }
{
    match answer {
        CatalogAnswer::NameList {
            names: others,
            more: follow,
        } => are_equal_names(names, others) && more == *follow,
        _ => false,
    }
}

/// Whether an answer is this page.
fn is_part(rows: &Seq<PageRow>, room: PageRoom, stopped: bool, answer: &CatalogAnswer) -> bool
    ensures { IsTrue result ↔ (CatalogAnswer.Part rows.now room stopped ≡ answer.now) }
{
    match answer {
        CatalogAnswer::Part {
            rows: others,
            room: left_over,
            stopped: ended,
        } => {
            are_equal_lists(rows.as_slice(), others.as_slice())
                && are_equal_rooms(room, *left_over)
                && stopped == *ended
        }
        _ => false,
    }
}

/// Whether both are the same answer.
pub(crate) fn are_equal_told(left: &CatalogAnswer, right: &CatalogAnswer) -> bool
    ensures { IsTrue result ↔ (left.now ≡ right.now) }
{
    match (left, right) {
        (CatalogAnswer::Made { number }, CatalogAnswer::Made { number: other }) => {
            *number == *other
        }
        (CatalogAnswer::Exists, CatalogAnswer::Exists) => true,
        (CatalogAnswer::Full, CatalogAnswer::Full) => true,
        (CatalogAnswer::Dropped { schema }, CatalogAnswer::Dropped { schema: other }) => {
            are_equal_schemas(schema, other)
        }
        (CatalogAnswer::NoTable, CatalogAnswer::NoTable) => true,
        (CatalogAnswer::Changed { schema }, CatalogAnswer::Changed { schema: other }) => {
            are_equal_schemas(schema, other)
        }
        (CatalogAnswer::NoIndex, CatalogAnswer::NoIndex) => true,
        (CatalogAnswer::IndexExists, CatalogAnswer::IndexExists) => true,
        (CatalogAnswer::BadSchema { fault }, CatalogAnswer::BadSchema { fault: other }) => {
            are_one_fault(*fault, *other)
        }
        (CatalogAnswer::TtlRefused { fault }, CatalogAnswer::TtlRefused { fault: other }) => {
            are_one_ttl_fault(*fault, *other)
        }
        (
            CatalogAnswer::Table {
                table,
                schema,
                indexes,
            },
            _,
        ) => is_table(*table, schema, indexes, right),
        (CatalogAnswer::NameList { names, more }, _) => is_name_list(names, *more, right),
        (
            CatalogAnswer::Part {
                rows,
                room,
                stopped,
            },
            _,
        ) => is_part(rows, *room, *stopped, right),
        _ => false,
    }
}
