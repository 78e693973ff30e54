//! The items that a BatchGetItem asks for.

ghost use Rattle.std.specs.Prelude.{◌≡◌, map, ◌++◌, IfOk, OnOk};
ghost use Rattle.std.specs.List.{flat_map};
ghost use Rattle.std.specs.Option.{option_copied};
ghost use Rattle.row_keys.specs.Rows.{item_at};
ghost use Rattle.table_model.specs.Batches.{asked_keys, asked_items, batch_get_refusal};
ghost use Rattle.table_batches.specs.Answers.{tables_alone};
ghost use Rattle.table_batches.specs.Refusals.{RefusesOr};
ghost use Rattle.table_batches.specs.Keys.{IsAsked, keys_refusal};

use crate::keys::{has_twice, row_keys};
use crate::missing::missing;
use attr_value::SharedItem;
use base_types::Text;
use item_keys::KeyFault;
use numbered_tables::NumberedTable;
use row_keys::RowKey;
use std::alloc::{AllocError as NoMemory, Global};
use std::collections::BTreeMap;
use table_model::{Invalid, Refusal};
use table_request::TableKeys;
use table_rows::TableRows;

/// Adds the items of these keys, each where it is there.
fn look_up<'t>(
    rows: &'t TableRows,
    keys: &[RowKey],
    items: &mut Vec<Option<&'t SharedItem>>,
) -> Result<(), NoMemory>
    ensures { OnOk result (map option_copied items.new.items ≡ map option_copied items.old.items ++ map (item_at rows.now.rows) keys.now) }
{
    for key in keys {
        items.push(rows.get(key))?;
    }
    Ok(())
}

/// Adds the items that are asked of a table, each where it is there, and answers whether a key stands twice, or the first
/// fault of a key. Of a table that is not there nothing is asked.
fn items_of<'t>(
    tables: &'t BTreeMap<Text, NumberedTable>,
    alloc: Global,
    asked: &TableKeys,
    items: &mut Vec<Option<&'t SharedItem>>,
) -> Result<Result<bool, KeyFault>, NoMemory>
    ensures { IfOk result (λ found. IsAsked (asked_keys (tables_alone tables.now.entries) asked.now) found
        (map option_copied items.new.items ≡ map option_copied items.old.items ++ asked_items (tables_alone tables.now.entries) asked.now)) }
{
    let Some(table) = tables.get(&asked.table) else {
        return Ok(Ok(false));
    };
    let keys = match row_keys(alloc, table.rows.schema(), asked.keys.as_slice())? {
        Ok(keys) => keys,
        Err(fault) => return Ok(Err(fault)),
    };
    look_up(&table.rows, keys.as_slice(), items)?;
    Ok(Ok(has_twice(alloc, keys.as_slice())?))
}

/// The items that are asked of all tables, each where it is there, or the refusal of a key.
fn items_of_all<'t>(
    tables: &'t BTreeMap<Text, NumberedTable>,
    alloc: Global,
    requests: &[TableKeys],
) -> Result<Result<Vec<Option<&'t SharedItem>>, Refusal>, NoMemory>
    ensures { let db = tables_alone tables.now.entries in IfOk result (RefusesOr (keys_refusal (asked_keys db) requests.now)
        (λ items. map option_copied items.items ≡ flat_map (asked_items db) requests.now)) }
{
    let mut items = Vec::new(alloc);
    let mut twice = false;
    for asked in requests {
        match items_of(tables, alloc, asked, &mut items)? {
            Ok(repeats) => twice |= repeats,
            Err(fault) => return Ok(Err(Refusal::Invalid(Invalid::Key(fault)))),
        }
    }
    if twice {
        return Ok(Err(Refusal::Invalid(Invalid::Twice)));
    }
    Ok(Ok(items))
}

/// The items that are asked of all tables, each where it is there, or the refusal of the request.
pub(crate) fn asked_items<'t>(
    tables: &'t BTreeMap<Text, NumberedTable>,
    alloc: Global,
    requests: &[TableKeys],
) -> Result<Result<Vec<Option<&'t SharedItem>>, Refusal>, NoMemory>
    ensures { let db = tables_alone tables.now.entries in IfOk result (RefusesOr (batch_get_refusal db requests.now)
        (λ items. map option_copied items.items ≡ flat_map (asked_items db) requests.now)) }
{
    if let Some(refusal) = missing(tables, requests)? {
        return Ok(Err(refusal));
    }
    items_of_all(tables, alloc, requests)
}
