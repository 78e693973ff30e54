//! Writes of one item.

ghost use Rattle.std.specs.Prelude.{◌≡◌, [], IfOk, OnErr};
ghost use Rattle.std.specs.Option.{option_copied};
ghost use Rattle.attr_value.specs.Tree.{no_attributes};
ghost use Rattle.table_model.specs.Writes.{put_item, update_item, delete_item, put_fault, shown_if};
ghost use Rattle.table_items.specs.Effects.{IsDone};
ghost use Rattle.table_items.specs.Steps.{IsMade, IsPut, IsUpdate, IsUpdateAt, IsDelete, put_of, update_of, delete_of};

use crate::key::{key_of_item, key_of_key};
use crate::outcome::{ItemOutcome, delete_outcome, put_outcome, update_outcome};
use crate::returned::{shown_old, touched_key};
use crate::telling::Telling;
use attr_value::{Item, SharedItem, Value, kept};
use base_types::Seq;
use expr_parse::Update;
use expr_words::Condition;
use row_keys::RowKey;
use std::alloc::{AllocError as NoMemory, Global};
use table_model::{Invalid, Refusal, Reply};
use table_request::{DeleteItem, PutItem, UpdateItem};
use table_rows::TableRows;
use update_eval::EvalFault;

/// Makes the item at a key this one, or none, and answers what is told of that.
fn make(
    table: &mut TableRows,
    alloc: Global,
    key: RowKey,
    new: Option<SharedItem>,
    told: Reply,
) -> Result<Reply, NoMemory>
    requires { table.old.pending ≡ [] }
    ensures made { IfOk result (IsMade table.old key new told table.new) }
    ensures err { OnErr result (table.new ≡ table.old) }
{
    table.prepare(alloc, key, new)?;
    table.commit();
    Ok(told)
}

/// What is told of a request that does not fit the table.
fn invalid(why: Invalid) -> Reply
    ensures { result ≡ Reply.Refused (Refusal.Invalid why) }
{
    Reply::Refused(Refusal::Invalid(why))
}

/// Why an item can't be put: its size has a text of its own.
pub fn put_fault(fault: EvalFault) -> Invalid
    ensures { result ≡ put_fault fault }
{
    match fault {
        EvalFault::ItemTooLarge => Invalid::ItemTooLarge,
        fault => Invalid::Evaluation(fault),
    }
}

/// What is told where the condition is false of the item that may be there.
pub fn condition_failed(show_old: bool, old: Option<&SharedItem>) -> Result<Reply, NoMemory>
    ensures { IfOk result (λ reply. reply ≡ Reply.Refused (Refusal.ConditionFailed (shown_if show_old (option_copied old.entry)))) }
{
    let old = shown_old(show_old, old)?;
    Ok(Reply::Refused(Refusal::ConditionFailed { old }))
}

/// Puts the item at its key.
fn put_at(
    table: &mut TableRows,
    alloc: Global,
    key: RowKey,
    item: Item,
    condition: Option<&Condition>,
    values: &Seq<Value>,
    telling: Telling,
) -> Result<Reply, NoMemory>
    requires { table.old.pending ≡ [] }
    ensures done { IfOk result (IsPut (put_of item (option_copied condition.entry) values.now telling) table.old key table.new) }
    ensures err { OnErr result (table.new ≡ table.old) }
{
    let old = table.get(&key);
    match put_outcome(table.schema(), condition, values, item, old) {
        ItemOutcome::Becomes(new) => {
            let new = kept(alloc, new)?;
            let told = telling.written(alloc, None, old, new.as_ref())?;
            make(table, alloc, key, new, told)
        }
        ItemOutcome::False => condition_failed(telling.show_old, old),
        ItemOutcome::Faulty(fault) => Ok(invalid(put_fault(fault))),
    }
}

/// Puts the item, where it has a key of the table.
fn put(
    table: &mut TableRows,
    alloc: Global,
    item: Item,
    condition: Option<&Condition>,
    values: &Seq<Value>,
    telling: Telling,
) -> Result<Reply, NoMemory>
    requires { table.old.pending ≡ [] }
    ensures done { IfOk result (IsDone telling.table
        (λ db. put_item db (put_of item (option_copied condition.entry) values.now telling)) table.old table.new) }
    ensures err { OnErr result (table.new ≡ table.old) }
{
    match key_of_item(alloc, table.schema(), &item)? {
        Ok(key) => put_at(table, alloc, key, item, condition, values, telling),
        Err(fault) => Ok(invalid(Invalid::Key(fault))),
    }
}

/// Makes an item, in place of one with its key (API Reference: PutItem). It is refused, in this order, for its key, where
/// the condition is false of the item that is there, above 409,600 bytes, and for the key of an index.
///
/// Where memory is refused nothing changes.
pub fn put_item(table: &mut TableRows, alloc: Global, request: PutItem) -> Result<Reply, NoMemory>
    requires idle { table.old.pending ≡ [] }
    ensures done { IfOk result (IsDone request.table (λ db. put_item db request) table.old table.new) }
    ensures err { OnErr result (table.new ≡ table.old) }
{
    let PutItem {
        table: name,
        item,
        condition,
        values,
        return_values,
        show_old,
        capacity,
    } = request;
    let telling = Telling {
        table: name,
        return_values,
        show_old,
        capacity,
    };
    let done = put(table, alloc, item, condition.as_ref(), &values, telling);
    drop(condition);
    drop(values);
    done
}

/// Updates the item at a key, which the update does not write.
fn update_row(
    table: &mut TableRows,
    alloc: Global,
    row: RowKey,
    key: Item,
    update: Option<&Update>,
    condition: Option<&Condition>,
    values: &Seq<Value>,
    telling: Telling,
) -> Result<Reply, NoMemory>
    requires { table.old.pending ≡ [] }
    ensures done { IfOk result (IsUpdate
        (update_of key (option_copied update.entry) (option_copied condition.entry) values.now telling) table.old row table.new) }
    ensures err { OnErr result (table.new ≡ table.old) }
{
    let old = table.get(&row);
    let outcome = update_outcome(alloc, table.schema(), condition, update, values, key, old)?;
    match outcome {
        ItemOutcome::Becomes(new) => {
            let new = kept(alloc, new)?;
            let told = telling.written(alloc, update, old, new.as_ref())?;
            make(table, alloc, row, new, told)
        }
        ItemOutcome::False => condition_failed(telling.show_old, old),
        ItemOutcome::Faulty(fault) => Ok(invalid(Invalid::Evaluation(fault))),
    }
}

/// Updates the item at a key.
fn update_at(
    table: &mut TableRows,
    alloc: Global,
    row: RowKey,
    key: Item,
    update: Option<&Update>,
    condition: Option<&Condition>,
    values: &Seq<Value>,
    telling: Telling,
) -> Result<Reply, NoMemory>
    requires { table.old.pending ≡ [] }
    ensures done { IfOk result (IsUpdateAt
        (update_of key (option_copied update.entry) (option_copied condition.entry) values.now telling) table.old row table.new) }
    ensures err { OnErr result (table.new ≡ table.old) }
{
    match touched_key(&table.schema().keys, update) {
        Some(name) => Ok(invalid(Invalid::UpdateOfKey(name.try_clone()?))),
        None => update_row(table, alloc, row, key, update, condition, values, telling),
    }
}

/// Updates the item, where the key is one of the table.
fn update(
    table: &mut TableRows,
    alloc: Global,
    key: Item,
    update: Option<&Update>,
    condition: Option<&Condition>,
    values: &Seq<Value>,
    telling: Telling,
) -> Result<Reply, NoMemory>
    requires { table.old.pending ≡ [] }
    ensures done { IfOk result (IsDone telling.table
        (λ db. update_item db (update_of key (option_copied update.entry) (option_copied condition.entry) values.now telling))
        table.old table.new) }
    ensures err { OnErr result (table.new ≡ table.old) }
{
    match key_of_key(alloc, table.schema(), &key)? {
        Ok(row) => update_at(table, alloc, row, key, update, condition, values, telling),
        Err(fault) => Ok(invalid(Invalid::Key(fault))),
    }
}

/// Changes attributes of an item, or makes it (API Reference: UpdateItem). It is refused, in this order, for its key,
/// where the update writes a key attribute, where the condition is false of the item that is there, for what
/// [`update_eval::apply`] finds wrong, above 409,600 bytes, and for the key of an index.
///
/// Where memory is refused nothing changes.
pub fn update_item(
    table: &mut TableRows,
    alloc: Global,
    request: UpdateItem,
) -> Result<Reply, NoMemory>
    requires idle { table.old.pending ≡ [] }
    ensures done { IfOk result (IsDone request.table (λ db. update_item db request) table.old table.new) }
    ensures err { OnErr result (table.new ≡ table.old) }
{
    let UpdateItem {
        table: name,
        key,
        update: actions,
        condition,
        values,
        return_values,
        show_old,
        capacity,
    } = request;
    let telling = Telling {
        table: name,
        return_values,
        show_old,
        capacity,
    };
    let done = update(
        table,
        alloc,
        key,
        actions.as_ref(),
        condition.as_ref(),
        &values,
        telling,
    );
    drop(actions);
    drop(condition);
    drop(values);
    done
}

/// Drops the item at a key.
fn delete_at(
    table: &mut TableRows,
    alloc: Global,
    row: RowKey,
    condition: Option<&Condition>,
    values: &Seq<Value>,
    telling: Telling,
) -> Result<Reply, NoMemory>
    requires { table.old.pending ≡ [] }
    ensures done { IfOk result (IsDelete (delete_of no_attributes (option_copied condition.entry) values.now telling) table.old row table.new) }
    ensures err { OnErr result (table.new ≡ table.old) }
{
    let old = table.get(&row);
    match delete_outcome(condition, values, old) {
        ItemOutcome::Becomes(new) => {
            let new = kept(alloc, new)?;
            let told = telling.written(alloc, None, old, new.as_ref())?;
            make(table, alloc, row, new, told)
        }
        ItemOutcome::False => condition_failed(telling.show_old, old),
        ItemOutcome::Faulty(fault) => Ok(invalid(Invalid::Evaluation(fault))),
    }
}

/// Drops the item, where the key is one of the table.
fn delete(
    table: &mut TableRows,
    alloc: Global,
    key: &Item,
    condition: Option<&Condition>,
    values: &Seq<Value>,
    telling: Telling,
) -> Result<Reply, NoMemory>
    requires { table.old.pending ≡ [] }
    ensures done { IfOk result (IsDone telling.table
        (λ db. delete_item db (delete_of key.now (option_copied condition.entry) values.now telling)) table.old table.new) }
    ensures err { OnErr result (table.new ≡ table.old) }
{
    match key_of_key(alloc, table.schema(), key)? {
        Ok(row) => delete_at(table, alloc, row, condition, values, telling),
        Err(fault) => Ok(invalid(Invalid::Key(fault))),
    }
}

/// Drops an item; where there is none that is no fault (API Reference: DeleteItem). It is refused for its key, and where
/// the condition is false of the item that is there.
///
/// Where memory is refused nothing changes.
pub fn delete_item(
    table: &mut TableRows,
    alloc: Global,
    request: DeleteItem,
) -> Result<Reply, NoMemory>
    requires idle { table.old.pending ≡ [] }
    ensures done { IfOk result (IsDone request.table (λ db. delete_item db request) table.old table.new) }
    ensures err { OnErr result (table.new ≡ table.old) }
{
    let DeleteItem {
        table: name,
        key,
        condition,
        values,
        return_values,
        show_old,
        capacity,
    } = request;
    let telling = Telling {
        table: name,
        return_values,
        show_old,
        capacity,
    };
    let done = delete(table, alloc, &key, condition.as_ref(), &values, telling);
    drop(key);
    drop(condition);
    drop(values);
    done
}
