//! What a write makes of one item: the condition, then the evaluation, then the size, then the keys of indexes.

ghost use Rattle.std.specs.Prelude.{◌≡◌, IfOk, unwrap_or};
ghost use Rattle.std.specs.Option.{option_copied};
ghost use Rattle.update_eval.specs.Answers.{Gives};
ghost use Rattle.table_model.specs.Outcome.{fit, is_met, is_too_large, where_met, updated_by};
ghost use Rattle.table_model.specs.Outcome as model;
ghost use Rattle.table_items.specs.Outcomes.{outcome_of};

use attr_value::{Item, SharedItem, Value, lent};
use base_types::Seq;
use condition_eval::holds;
use expr_parse::Update;
use expr_words::Condition;
use row_keys::is_refused;
use std::alloc::{AllocError as NoMemory, Global};
use table_schema::Schema;
use update_eval::{EvalEnd, EvalFault, MAX_SIZE, apply};

/// What becomes of an item that may be there.
#[derive(Drop)]
pub enum ItemOutcome {
    /// It is this one, or none.
    Becomes(Option<Item>),
    /// It stays, since the condition is false.
    False,
    /// It stays, since the update or the new item has this fault.
    Faulty(EvalFault),
}

/// Whether the condition is true of the item, which has no attribute where it is absent. No condition is always met.
pub fn is_met(condition: Option<&Condition>, values: &Seq<Value>, item: Option<&Item>) -> bool
    ensures { result ≡ is_met (option_copied condition.entry) values.now (option_copied item.entry) }
{
    let Some(condition) = condition else {
        return true;
    };
    match item {
        Some(item) => holds(condition, values, item),
        None => holds(condition, values, &Item::new(values.allocator())),
    }
}

/// Whether the item has more than 409,600 bytes, names and values (Developer Guide: Quotas, Item size).
pub fn is_too_large(item: &Item) -> bool
    ensures { result ≡ is_too_large item.now }
{
    item.size() > MAX_SIZE
}

/// An item that may stand in the table, or its fault: `ItemTooLarge`, then `IndexKey`.
fn fit(schema: &Schema, item: Item) -> ItemOutcome
    ensures { outcome_of result ≡ fit schema.now item }
{
    if is_too_large(&item) {
        return ItemOutcome::Faulty(EvalFault::ItemTooLarge);
    }
    if is_refused(schema, &item) {
        return ItemOutcome::Faulty(EvalFault::IndexKey);
    }
    ItemOutcome::Becomes(Some(item))
}

/// What a put makes of the item at its key: the new item, where the condition is true of the old one (API Reference:
/// PutItem).
pub fn put_outcome(
    schema: &Schema,
    condition: Option<&Condition>,
    values: &Seq<Value>,
    item: Item,
    old: Option<&SharedItem>,
) -> ItemOutcome
    ensures { outcome_of result ≡ where_met (is_met (option_copied condition.entry) values.now (option_copied old.entry))
        (model.put_outcome schema.now item) }
{
    if is_met(condition, values, lent(old)) {
        fit(schema, item)
    } else {
        ItemOutcome::False
    }
}

/// What an update makes of the item at this key, where the condition is true of the old one (API Reference: UpdateItem).
///
/// It works on the old item, or on the key alone where that is absent. Without actions the item is there afterwards, as it
/// was or with its key alone.
pub fn update_outcome(
    alloc: Global,
    schema: &Schema,
    condition: Option<&Condition>,
    update: Option<&Update>,
    values: &Seq<Value>,
    key: Item,
    old: Option<&SharedItem>,
) -> Result<ItemOutcome, NoMemory>
    ensures { IfOk result (λ outcome. outcome_of outcome
        ≡ where_met (is_met (option_copied condition.entry) values.now (option_copied old.entry))
        (model.update_outcome schema.now (option_copied update.entry) values.now key (option_copied old.entry))) }
{
    if !is_met(condition, values, lent(old)) {
        return Ok(ItemOutcome::False);
    }
    match updated_by(alloc, update, values, key, lent(old)) {
        Ok(item) => Ok(fit(schema, item)),
        Err(EvalEnd::Fault(fault)) => Ok(ItemOutcome::Faulty(fault)),
        Err(EvalEnd::NoMemory) => Err(NoMemory),
    }
}

/// What the actions, if there are some, make of the old item, or of the key.
fn updated_by(
    alloc: Global,
    update: Option<&Update>,
    values: &Seq<Value>,
    key: Item,
    old: Option<&Item>,
) -> Result<Item, EvalEnd>
    ensures { Gives (λ item. item) (updated_by (option_copied update.entry) values.now (unwrap_or (option_copied old.entry) key)) result }
{
    let Some(update) = update else {
        return match old {
            Some(old) => Ok(old.try_clone()?),
            None => Ok(key),
        };
    };
    match old {
        Some(old) => apply(alloc, update, values, old),
        None => apply(alloc, update, values, &key),
    }
}

/// What a delete makes of the item at its key: none, where the condition is true of the old one (API Reference: DeleteItem).
pub fn delete_outcome(
    condition: Option<&Condition>,
    values: &Seq<Value>,
    old: Option<&SharedItem>,
) -> ItemOutcome
    ensures { outcome_of result ≡ where_met (is_met (option_copied condition.entry) values.now (option_copied old.entry))
        model.delete_outcome }
{
    if !is_met(condition, values, lent(old)) {
        return ItemOutcome::False;
    }
    ItemOutcome::Becomes(None)
}
