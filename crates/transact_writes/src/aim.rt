//! Requests checked against the tables: their tables, their keys, items that stand twice, and updates of keys.

ghost use Rattle.std.specs.Prelude.{◌≡◌, None, map, IfOk, option_map};
ghost use Rattle.std.specs.Option.{option_copied};
ghost use Rattle.std.specs.List.{AllByRecursion};
ghost use Rattle.table_items.specs.Outcomes.{row_key_if};
ghost use Rattle.table_model.specs.declared.refusal.Refusal.TheVariants as refusal;
ghost use Rattle.table_model.specs.declared.refusal.Invalid.TheVariants as invalid;
ghost use Rattle.table_model.specs.Database.{first};
ghost use Rattle.table_model.specs.Batches.{missing};
ghost use Rattle.table_model.specs.Transactions.{change_key, updates_key};
ghost use Rattle.transact_writes.specs.Aimed.{database_of, action_in, IsPlaced, IsTarget, IsAimed, AreAimed, IsFit, IsChecked};

use crate::aimed::Aimed;
use base_types::{Seq, Text};
use item_keys::KeyFault;
use numbered_tables::NumberedTable;
use row_keys::RowKey;
use std::alloc::{AllocError as NoMemory, Global};
use std::collections::BTreeMap;
use table_items::{key_of_item, key_of_key, touched_key};
use table_model::{Invalid, NumberedAction, Refusal};
use table_request::{ActionChange, TransactAction};
use table_schema::Schema;
use transact_reads::has_repeat;

/// Where an action's item is: the number of its table, and its key.
#[derive(Drop)]
struct Place {
    table: u64,
    key: RowKey,
}

/// The first table that is not there, refused. `NoMemory` is for want of memory.
pub fn missing_table(
    tables: &BTreeMap<Text, NumberedTable>,
    actions: &[TransactAction],
) -> Result<Option<Refusal>, NoMemory>
    ensures { IfOk result (λ refusal. refusal ≡ first (map (λ action. missing (database_of tables.now.entries) action.table) actions.now)) }
{
    for action in actions {
        if !tables.contains_key(&action.table) {
            return Ok(Some(Refusal::NoTable(action.table.try_clone()?)));
        }
    }
    Ok(None)
}

/// The key of the row that a change is of, or the first fault of it.
fn row_key(
    alloc: Global,
    schema: &Schema,
    change: &ActionChange,
) -> Result<Result<RowKey, KeyFault>, NoMemory>
    ensures { IfOk result (λ key. key ≡ row_key_if (change_key schema.now change.now)) }
{
    match change {
        ActionChange::Put(item) => key_of_item(alloc, schema, item),
        ActionChange::Update { key, .. } => key_of_key(alloc, schema, key),
        ActionChange::Delete(key) => key_of_key(alloc, schema, key),
        ActionChange::Check(key) => key_of_key(alloc, schema, key),
    }
}

/// Where an action's item is, or its refusal: NoTable, or the first fault of its key.
fn placed(
    tables: &BTreeMap<Text, NumberedTable>,
    alloc: Global,
    action: &TransactAction,
) -> Result<Result<Place, Refusal>, NoMemory>
    ensures { IfOk result (IsPlaced (database_of tables.now.entries) action.now) }
{
    let Some(table) = tables.get(&action.table) else {
        return Ok(Err(Refusal::NoTable(action.table.try_clone()?)));
    };
    table.rows.are_in_order();
    match row_key(alloc, table.rows.schema(), &action.change)? {
        Ok(key) => Ok(Ok(Place {
            table: table.number,
            key,
        })),
        Err(fault) => Ok(Err(Refusal::Invalid(Invalid::Key(fault)))),
    }
}

/// An action with its number and key, or its refusal.
fn aim(
    tables: &BTreeMap<Text, NumberedTable>,
    alloc: Global,
    action: TransactAction,
) -> Result<Result<Aimed, Refusal>, NoMemory>
    ensures { IfOk result (IsAimed (database_of tables.now.entries) action) }
{
    match placed(tables, alloc, &action) {
        Ok(Ok(place)) => {
            let Place { table, key } = place;
            Ok(Ok(Aimed {
                key,
                action: NumberedAction { table, action },
            }))
        }
        Ok(Err(refusal)) => {
            drop(action);
            Ok(Err(refusal))
        }
        Err(refused) => {
            drop(action);
            Err(refused)
        }
    }
}

/// All actions with their numbers and keys, or the first refusal.
fn aim_all(
    tables: &BTreeMap<Text, NumberedTable>,
    alloc: Global,
    actions: Seq<TransactAction>,
) -> Result<Result<Seq<Aimed>, Refusal>, NoMemory>
    ensures { IfOk result (AreAimed (database_of tables.now.entries) actions) }
{
    let mut all = Seq::with_capacity(alloc, actions.len())?;
    for action in Vec::from(actions) {
        match aim(tables, alloc, action)? {
            Ok(aimed) => all.push(aimed)?,
            Err(refusal) => return Ok(Err(refusal)),
        }
    }
    Ok(Ok(all))
}

/// The key attribute that an action updates, if it does.
fn updated_key<'a>(
    tables: &'a BTreeMap<Text, NumberedTable>,
    action: &TransactAction,
) -> Option<&'a Text>
    ensures { option_map (λ name. refusal.Invalid (invalid.UpdateOfKey name)) (option_copied result)
        ≡ updates_key (database_of tables.now.entries) action.now }
{
    let Some(table) = tables.get(&action.table) else {
        return None;
    };
    match &action.change {
        ActionChange::Update { update, .. } => touched_key(&table.rows.schema().keys, Some(update)),
        ActionChange::Put(_) => None,
        ActionChange::Delete(_) => None,
        ActionChange::Check(_) => None,
    }
}

/// The first update of a key attribute, refused.
fn key_update(
    tables: &BTreeMap<Text, NumberedTable>,
    aimed: &[Aimed],
) -> Result<Option<Refusal>, NoMemory>
    ensures { IfOk result (λ refusal. refusal ≡ first (map (updates_key (database_of tables.now.entries)) (map action_in aimed.now))) }
{
    for aimed in aimed {
        if let Some(name) = updated_key(tables, &aimed.action.action) {
            let name = name.try_clone()?;
            return Ok(Some(Refusal::Invalid(Invalid::UpdateOfKey(name))));
        }
    }
    Ok(None)
}

/// The same actions, unless an item stands twice or a key attribute is updated.
fn fit(
    tables: &BTreeMap<Text, NumberedTable>,
    alloc: Global,
    aimed: Seq<Aimed>,
) -> Result<Result<Seq<Aimed>, Refusal>, NoMemory>
    requires { AllByRecursion (IsTarget (database_of tables.now.entries)) aimed }
    ensures { IfOk result (IsFit (database_of tables.now.entries) aimed) }
{
    if has_repeat(alloc, aimed.as_slice())? {
        return Ok(Err(Refusal::Invalid(Invalid::Twice)));
    }
    match key_update(tables, aimed.as_slice())? {
        Some(refusal) => Ok(Err(refusal)),
        None => Ok(Ok(aimed)),
    }
}

/// The actions with their numbers and keys, or the first refusal of the request: of a table, of a key, of an item that
/// stands twice, of an update of a key attribute. It is told by the tables' schemas alone. `NoMemory` is for want of memory.
pub fn checked(
    tables: &BTreeMap<Text, NumberedTable>,
    alloc: Global,
    actions: Seq<TransactAction>,
) -> Result<Result<Seq<Aimed>, Refusal>, NoMemory>
    ensures { IfOk result (IsChecked (database_of tables.now.entries) actions) }
{
    if let Some(refusal) = missing_table(tables, actions.as_slice())? {
        return Ok(Err(refusal));
    }
    match aim_all(tables, alloc, actions)? {
        Ok(aimed) => fit(tables, alloc, aimed),
        Err(refusal) => Ok(Err(refusal)),
    }
}
