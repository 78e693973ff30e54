//! The actions of a TransactWriteItems.

ghost use Rattle.std.specs.Prelude.{◌≡◌, ◌+◌, IfOk, min, sum_by};
ghost use Rattle.serde_json.specs.View.{view, items_view};
ghost use Rattle.attr_value.specs.Sizes.{size, item_size};
ghost use Rattle.api_form.specs.declared.name.Name.TheVariants as name;
ghost use Rattle.request_parts.specs.Members.{item_at};
ghost use Rattle.request_parts.specs.Placeholders.{known};
ghost use Rattle.request_parts.specs.Ends.{IsToldOf};
ghost use Rattle.request_parts.specs.Asks.{IsPart};
ghost use Rattle.api_request.specs.Transactions.{APut, AnUpdate, ADelete, ACheck, action_in, of_code, asks_of, StatesAction, size_of, total_size, value_size, read_size};

use crate::item::shows_old;
use crate::part::Part;
use api_form::Name;
use attr_value::{Item, Value};
use request_parts::{
    Conditional, Placed, Placeholders, RequestEnd, item_at, object_at, read_change, stated_text,
    text_at, values,
};
use serde_json::Value as Json;
use std::alloc::{AllocError as NoMemory, Global};
use table_request::{ActionChange, TransactAction};

/// The member of an element that is there.
#[derive(Clone, Copy)]
pub(crate) enum Action<'a> {
    Put(&'a Json),
    Update(&'a Json),
    Delete(&'a Json),
    Check(&'a Json),
}

/// The action that an element states.
fn action_in(json: &Json) -> Action<'_>
    ensures { of_code result ≡ action_in (view json.now) }
{
    if let Some(put) = object_at(json, Name::Put) {
        return Action::Put(put);
    }
    if let Some(update) = object_at(json, Name::Update) {
        return Action::Update(update);
    }
    if let Some(delete) = object_at(json, Name::Delete) {
        return Action::Delete(delete);
    }
    match object_at(json, Name::ConditionCheck) {
        Some(check) => Action::Check(check),
        None => Action::Check(json),
    }
}

impl Part for TransactAction {
    ghost use Rattle.api_request.specs.Transactions.{action_asks, StatesActionIn};

    ghost asks = { action_asks };

    ghost states = { StatesActionIn };

    fn read(alloc: Global, json: &Json) -> Result<TransactAction, RequestEnd> {
        match action_in(json) {
            Action::Put(put) => put_action(alloc, put),
            Action::Update(update) => update_action(alloc, update),
            Action::Delete(delete) => delete_action(alloc, delete),
            Action::Check(check) => check_action(alloc, check),
        }
    }
}

/// An item that is put (API Reference: Put).
fn put_action(alloc: Global, json: &Json) -> Result<TransactAction, RequestEnd>
    ensures { IsToldOf (IsPart asks_of StatesAction (APut (view json.now))) result }
{
    let parts = Conditional::read(alloc, json, Name::Item)?;
    Ok(TransactAction {
        table: parts.placed.table,
        change: ActionChange::Put(parts.placed.item),
        condition: parts.condition,
        values: parts.values,
        show_old: shows_old(json),
    })
}

/// An item that is dropped (API Reference: Delete).
fn delete_action(alloc: Global, json: &Json) -> Result<TransactAction, RequestEnd>
    ensures { IsToldOf (IsPart asks_of StatesAction (ADelete (view json.now))) result }
{
    let parts = Conditional::read(alloc, json, Name::Key)?;
    Ok(TransactAction {
        table: parts.placed.table,
        change: ActionChange::Delete(parts.placed.item),
        condition: parts.condition,
        values: parts.values,
        show_old: shows_old(json),
    })
}

/// An item that is looked at (API Reference: ConditionCheck).
fn check_action(alloc: Global, json: &Json) -> Result<TransactAction, RequestEnd>
    ensures { IsToldOf (IsPart asks_of StatesAction (ACheck (view json.now))) result }
{
    let parts = Conditional::read(alloc, json, Name::Key)?;
    Ok(TransactAction {
        table: parts.placed.table,
        change: ActionChange::Check(parts.placed.item),
        condition: parts.condition,
        values: parts.values,
        show_old: shows_old(json),
    })
}

/// An item that is changed (API Reference: Update).
fn update_action(alloc: Global, json: &Json) -> Result<TransactAction, RequestEnd>
    ensures { IsToldOf (IsPart asks_of StatesAction (AnUpdate (view json.now))) result }
{
    let placed = Placed::read(alloc, json, Name::Key)?;
    let placeholders = Placeholders::read(alloc, json)?;
    let update = text_at(json, Name::UpdateExpression);
    let condition = stated_text(json, Name::ConditionExpression);
    let trees = read_change(alloc, &placeholders, update, condition)?;
    Ok(TransactAction {
        table: placed.table,
        change: ActionChange::Update {
            key: placed.item,
            update: trees.update,
        },
        condition: trees.condition,
        values: placeholders.values,
        show_old: shows_old(json),
    })
}

/// The size of all actions together, or the most that a number holds.
#[tactic(auto, using(crate::proofs::Totals::adds))]
pub(crate) fn total_size(alloc: Global, items: &[Json]) -> Result<u64, NoMemory>
    ensures { IfOk result (λ total. total ≡ min (total_size (items_view items.now)) u64.MAX) }
{
    let mut total = 0u64;
    for item in items {
        total = total.saturating_add(action_size(alloc, item)?);
    }
    Ok(total)
}

/// The size of an action: of the item that is put, else of the key and the values.
fn action_size(alloc: Global, json: &Json) -> Result<u64, NoMemory>
    ensures { IfOk result (λ n. n ≡ min (size_of (action_in (view json.now))) u64.MAX) }
{
    match action_in(json) {
        Action::Put(put) => Ok(item_at(alloc, put, Name::Item)?.size()),
        Action::Update(update) => keyed_size(alloc, update),
        Action::Delete(delete) => keyed_size(alloc, delete),
        Action::Check(check) => keyed_size(alloc, check),
    }
}

/// The size of a key and of the values that a body states.
fn keyed_size(alloc: Global, json: &Json) -> Result<u64, NoMemory>
    ensures { let d = view json.now in
        IfOk result (λ n. n ≡ min (item_size (item_at name.Key d) + sum_by size (known d).values) u64.MAX) }
{
    let key = item_at(alloc, json, Name::Key)?;
    let values = values(alloc, json)?;
    Ok(with_values(&key, values.as_slice()))
}

/// The size of all actions together that were read, or the most that a number holds.
#[tactic(auto, using(crate::proofs::Totals::both_add))]
pub(crate) fn read_total(actions: &[TransactAction]) -> u64
    ensures { result ≡ min (sum_by read_size actions.now) u64.MAX }
{
    let mut total = 0u64;
    for action in actions {
        total = total.saturating_add(read_size(action));
    }
    total
}

/// The size of an action that was read: of the item that is put, else of the key and the values.
pub(crate) fn read_size(action: &TransactAction) -> u64
    ensures { result ≡ min (read_size action.now) u64.MAX }
{
    match &action.change {
        ActionChange::Put(item) => item.size(),
        ActionChange::Update { key, update: _ } => with_values(key, action.values.as_slice()),
        ActionChange::Delete(key) => with_values(key, action.values.as_slice()),
        ActionChange::Check(key) => with_values(key, action.values.as_slice()),
    }
}

/// The size of a key and of values together.
#[tactic(auto, using(crate::proofs::Totals::both_add))]
fn with_values(key: &Item, values: &[Value]) -> u64
    ensures { result ≡ min (item_size key.now + sum_by value_size values.now) u64.MAX }
{
    key.size().saturating_add(values_size(values))
}

/// The size of values together.
#[tactic(auto, using(crate::proofs::Totals::both_add))]
fn values_size(values: &[Value]) -> u64
    ensures { result ≡ min (sum_by value_size values.now) u64.MAX }
{
    let mut total = 0u64;
    for value in values {
        total = total.saturating_add(value.size());
    }
    total
}
