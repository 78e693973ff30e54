//! Items that may not be written.

ghost use Rattle.std.specs.Prelude.{◌≡◌, option_map};
ghost use Rattle.std.specs.List.{list_any};
ghost use Rattle.std.specs.Option.{option_copied};
ghost use Rattle.table_model.specs.Database.{table_named};
ghost use Rattle.table_model.specs.Batches.{is_oversized, is_unfit_write};
ghost use Rattle.numbered_tables.specs.Tables.{table_in};
ghost use Rattle.table_batches.specs.Answers.{tables_alone};

use base_types::Text;
use numbered_tables::NumberedTable;
use row_keys::is_refused;
use std::collections::BTreeMap;
use table_items::is_too_large;
use table_request::{TableWrites, WriteRequest};

/// Whether the item that is put has more than 409,600 bytes.
fn is_oversized(write: &WriteRequest) -> bool
    ensures { result ≡ is_oversized write.now }
{
    match write {
        WriteRequest::Put(item) => is_too_large(item),
        WriteRequest::Delete(_) => false,
    }
}

/// Whether an index of the table, where it is there, refuses the item that is put.
fn is_unfit(table: Option<&NumberedTable>, write: &WriteRequest) -> bool
    ensures { result ≡ is_unfit_write (option_map table_in (option_copied table.entry)) write.now }
{
    match (table, write) {
        (Some(table), WriteRequest::Put(item)) => is_refused(table.rows.schema(), item),
        (Some(_), WriteRequest::Delete(_)) => false,
        (None, _) => false,
    }
}

/// Whether an item of one table has more than 409,600 bytes.
fn has_oversized(writes: &[WriteRequest]) -> bool
    ensures { result ≡ list_any is_oversized writes.now }
{
    for write in writes {
        if is_oversized(write) {
            return true;
        }
    }
    false
}

/// Whether an index of the table refuses one of its items.
fn has_unfit(table: Option<&NumberedTable>, writes: &[WriteRequest]) -> bool
    ensures { result ≡ list_any (is_unfit_write (option_map table_in (option_copied table.entry))) writes.now }
{
    for write in writes {
        if is_unfit(table, write) {
            return true;
        }
    }
    false
}

/// Whether an item has more than 409,600 bytes.
pub(crate) fn some_oversized(requests: &[TableWrites]) -> bool
    ensures { result ≡ list_any (λ t. list_any is_oversized t.writes) requests.now }
{
    for asked in requests {
        if has_oversized(asked.writes.as_slice()) {
            return true;
        }
    }
    false
}

/// Whether an index refuses an item.
pub(crate) fn some_unfit(tables: &BTreeMap<Text, NumberedTable>, requests: &[TableWrites]) -> bool
    ensures { result ≡ list_any (λ t. list_any (is_unfit_write (table_named (tables_alone tables.now.entries) t.table)) t.writes) requests.now }
{
    for asked in requests {
        if has_unfit(tables.get(&asked.table), asked.writes.as_slice()) {
            return true;
        }
    }
    false
}
