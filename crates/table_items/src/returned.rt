//! What a write answers, and which key attribute an update would write.

ghost use Rattle.std.specs.Prelude.{◌≡◌, IfOk, option_map};
ghost use Rattle.std.specs.Option.{option_copied};
ghost use Rattle.table_model.specs.Writes.{shown, shown_if, some_of, touched_in, touched_key, touched_name};

use crate::touched::only_touched;
use attr_value::{Item, SharedItem, kept, lent};
use base_types::Text;
use expr_parse::Update;
use std::alloc::{AllocError as NoMemory, Global};
use table_request::ReturnValues;
use table_schema::KeyNames;
use update_eval::touches;

/// What a write that is made shows of the item as it was and as it is (API Reference: UpdateItem, ReturnValues). A whole
/// item is not copied.
///
/// `UpdatedOld` and `UpdatedNew` show whole attributes, those at or below which the update writes, and nothing where the
/// item has none of them.
pub fn shown(
    alloc: Global,
    return_values: ReturnValues,
    update: Option<&Update>,
    old: Option<&SharedItem>,
    new: Option<&SharedItem>,
) -> Result<Option<SharedItem>, NoMemory>
    ensures { IfOk result (λ item. item
        ≡ shown return_values (option_copied update.entry) (option_copied old.entry) (option_copied new.entry)) }
{
    match return_values {
        ReturnValues::None => Ok(None),
        ReturnValues::AllOld => shared(old),
        ReturnValues::AllNew => shared(new),
        ReturnValues::UpdatedOld => kept(alloc, touched_in(alloc, update, lent(old))?),
        ReturnValues::UpdatedNew => kept(alloc, touched_in(alloc, update, lent(new))?),
    }
}

/// The item of which a condition was false, where it is to be shown (API Reference: PutItem,
/// ReturnValuesOnConditionCheckFailure). It is not copied.
pub fn shown_old(show_old: bool, old: Option<&SharedItem>) -> Result<Option<SharedItem>, NoMemory>
    ensures { IfOk result (λ shown. shown ≡ shown_if show_old (option_copied old.entry)) }
{
    if show_old { shared(old) } else { Ok(None) }
}

fn shared(item: Option<&SharedItem>) -> Result<Option<SharedItem>, NoMemory>
    ensures { IfOk result (λ shared. shared ≡ option_copied item.entry) }
{
    match item {
        Some(item) => Ok(Some(item.share()?)),
        None => Ok(None),
    }
}

/// The attributes at or below which the update writes, if there are some.
fn touched_in(
    alloc: Global,
    update: Option<&Update>,
    item: Option<&Item>,
) -> Result<Option<Item>, NoMemory>
    ensures { IfOk result (λ touched. touched ≡ touched_in (option_copied update.entry) (option_copied item.entry)) }
{
    let Some(update) = update else {
        return Ok(None);
    };
    let Some(item) = item else {
        return Ok(None);
    };
    Ok(some_of(only_touched(alloc, update, item)?))
}

/// The item, unless it has no attribute.
fn some_of(item: Item) -> Option<Item>
    ensures { result ≡ some_of item }
{
    if item.is_empty() {
        return None;
    }
    Some(item)
}

/// The key attribute at or below which the update writes, the partition key first, if there is one.
pub fn touched_key<'k>(keys: &'k KeyNames, update: Option<&Update>) -> Option<&'k Text>
    ensures { option_copied result ≡ touched_key keys.now (option_copied update.entry) }
{
    let Some(update) = update else {
        return None;
    };
    if touches(update, keys.partition.as_str()) {
        return Some(&keys.partition);
    }
    match &keys.sort {
        Some(name) => touched_name(update, name),
        None => None,
    }
}

/// The name, where the update writes at or below the attribute.
fn touched_name<'k>(update: &Update, name: &'k Text) -> Option<&'k Text>
    ensures { option_copied result ≡ touched_name update.now (Some name.now) }
{
    if !touches(update, name.as_str()) {
        return None;
    }
    Some(name)
}
