//! Expirations: which items are expired, and their removal.

ghost use Rattle.std.specs.Prelude.{◌≡◌, ◌++◌, ◌≤◌, ℕ, true, length, take, IfOk, OnOk, OnErr};
ghost use Rattle.std.specs.Option.{option_copied};
ghost use Rattle.std.specs.BTreeMap.{IsOrdered};
ghost use Rattle.txn_core.specs.History.{is_expired};
ghost use Rattle.txn_core.specs.Legal.{only_expired};
ghost use Rattle.txn_core.specs.declared.message.Message.{Message};
ghost use Rattle.item_store.specs.Slots.{row_of};
ghost use Rattle.partition.specs.Changes.{Unchanged};
ghost use Rattle.partition.specs.Evaluations.{EvaluatesExpire, IsRemoval};
ghost use Rattle.partition.specs.Expiry.{AreAtHome, AreOfTable, SaysExpired, due_in, due_of_all, is_due_slot, removal_answer};
ghost use Rattle.partition.specs.InStep.{StaysInStep};
ghost use Rattle.partition.specs.Knows.{LeftByWrite, expired, kept_at};
ghost use Rattle.partition.specs.Makes.{MakesItem};
ghost use Rattle.partition.specs.Pendings.{AreOrdered};
ghost use Rattle.partition.specs.Says.{Keeps, Leaves, Says, expire_says};

use crate::cell::PartitionOf;
use crate::evaluation::{Evaluation, EvaluationOf};
use crate::writes::put_item;
use base_types::Seq;
use index_changes::{CellRules, IndexChangesOf, index_changes};
use item_store::{Slot, TableItems, holder_of, row_of};
use std::alloc::{AllocError as NoMemory, Global};
use txn_core::{Answer, Outcome, Reply, Rules};

/// An item, where it is expired.
fn only_expired<'a, R: Rules>(
    catalog: &R::Catalog,
    key: &R::Key,
    item: Option<&'a R::Value>,
    moment: u64,
) -> Option<&'a R::Value>
    ensures { (n : ℕ) → option_copied result ≡ only_expired (R.protocol n) catalog.now key.now moment (option_copied item.entry) }
{
    let item = item?;
    if !R::is_expired(catalog, key, item, moment) {
        return None;
    }
    Some(item)
}

/// What an action comes to that is to remove an item, which is there where it is expired.
fn evaluate_removal<R: CellRules>(
    alloc: Global,
    catalog: &R::Catalog,
    action: &R::Action,
    over: Option<&R::Value>,
) -> Result<EvaluationOf<R>, NoMemory>
    ensures { IfOk result (λ made. (n : ℕ) → IsRemoval (R.protocol n) R.locals catalog.now action.now (option_copied over.entry) made) }
{
    if over.is_none() {
        return Ok(Evaluation::Answered {
            answer: Answer::Kept,
        });
    }
    match R::act(alloc, catalog, action, over)? {
        Outcome::New { item: None } => {
            let key = R::key_of(action);
            let gone = None;
            let changes = index_changes::<R>(alloc, catalog, key, over, gone.as_ref())?;
            Ok(Evaluation::Made {
                item: gone,
                changes,
            })
        }
        Outcome::New { item: Some(_) } => Ok(Evaluation::Answered {
            answer: Answer::Kept,
        }),
        Outcome::Unmet => Ok(Evaluation::Answered {
            answer: Answer::Kept,
        }),
        Outcome::Fails { fault: _ } => Ok(Evaluation::Answered {
            answer: Answer::Kept,
        }),
    }
}

/// What an Expire comes to, by what the cell keeps of its item.
fn evaluate_expiration<R: CellRules>(
    alloc: Global,
    cell: &PartitionOf<R>,
    action: &R::Action,
    moment: u64,
) -> Result<EvaluationOf<R>, NoMemory>
    ensures { IfOk result (λ made. (n : ℕ) → EvaluatesExpire (R.protocol n) R.locals cell.now action.now moment made) }
{
    let key = R::key_of(action);
    if !R::is_there(&cell.catalog, key) {
        return Ok(Evaluation::Answered {
            answer: Answer::Stale,
        });
    }
    let slot = cell.items.slot(R::table_of(key), key);
    if let Some(number) = holder_of(slot) {
        return Ok(Evaluation::Answered {
            answer: Answer::Held { number },
        });
    }
    let over = only_expired::<R>(&cell.catalog, key, row_of(slot), moment);
    evaluate_removal::<R>(alloc, &cell.catalog, action, over)
}

/// Removes an item that no transaction holds, with what that makes of indexes.
fn remove<R: CellRules>(
    alloc: Global,
    cell: &mut PartitionOf<R>,
    action: R::Action,
    item: Option<R::Value>,
    changes: IndexChangesOf<R>,
    moment: u64,
) -> Result<Reply<R>, NoMemory>
    requires { (n : ℕ) → MakesItem (R.protocol n) R.locals cell.old action item changes }
    ensures says { IfOk result (λ a. (n : ℕ) → a
        ≡ removal_answer (row_of (kept_at (R.protocol n) cell.old ((R.protocol n).core.key_of action)))) }
    ensures left { OnOk result ((n : ℕ) → LeftByWrite (R.protocol n) cell.old cell.new action moment true) }
    ensures err { OnErr result (Unchanged cell.old cell.new) }
    ensures in_step { (n : ℕ) → StaysInStep (R.protocol n) R.locals cell.old cell.new }
{
    match put_item::<R>(alloc, cell, action, item, changes, moment)? {
        Some(old) => Ok(Answer::Expired { old }),
        None => Ok(Answer::Kept),
    }
}

/// Removes an action's item, where it is expired and no transaction holds it.
fn attempt_removal<R: CellRules>(
    alloc: Global,
    cell: &mut PartitionOf<R>,
    action: R::Action,
    moment: u64,
) -> Result<Reply<R>, NoMemory>
    ensures says { IfOk result (λ a. (n : ℕ) → a ≡ expired (R.protocol n) cell.old action moment) }
    ensures left { IfOk result (λ a. (n : ℕ) → LeftByWrite (R.protocol n) cell.old cell.new action moment (is_expired a)) }
    ensures err { OnErr result (Unchanged cell.old cell.new) }
    ensures in_step { (n : ℕ) → StaysInStep (R.protocol n) R.locals cell.old cell.new }
{
    match evaluate_expiration::<R>(alloc, cell, &action, moment)? {
        Evaluation::Answered { answer } => Ok(answer),
        Evaluation::Made { item, changes } => {
            remove::<R>(alloc, cell, action, item, changes, moment)
        }
    }
}

/// An Expire: carries out an action that removes its item, where the item is there, expired, and held by no transaction.
pub fn expire<R: CellRules>(
    alloc: Global,
    cell: &mut PartitionOf<R>,
    action: R::Action,
    moment: u64,
) -> Result<Reply<R>, NoMemory>
    ensures says { IfOk result (λ a. (n : ℕ) → Says (R.protocol n) ((R.protocol n).core.cell_of ((R.protocol n).core.key_of action))
        cell.old (λ w f. expire_says (R.protocol n) w action moment) a) }
    ensures leaves { IfOk result (λ a. (n : ℕ) → Leaves (R.protocol n)
        ((R.protocol n).core.cell_of ((R.protocol n).core.key_of action)) cell.old cell.new moment (Message.Expire action) a) }
    ensures err { OnErr result ((n i : ℕ) → Keeps (R.protocol n) i cell.old cell.new) }
    ensures in_step { (n : ℕ) → StaysInStep (R.protocol n) R.locals cell.old cell.new }
{
    attempt_removal::<R>(alloc, cell, action, moment)
}

/// Whether an item is there and expired, and no transaction holds it.
fn is_due<R: CellRules>(
    catalog: &R::Catalog,
    key: &R::Key,
    slot: &Slot<R::Value>,
    moment: u64,
) -> bool
    ensures { (n : ℕ) → result ≡ is_due_slot (R.protocol n) catalog.now moment (key.now, slot.now) }
{
    match &slot.committed {
        None => false,
        Some(committed) => {
            R::is_expired(catalog, key, &committed.item, moment) && slot.pending.is_none()
        }
    }
}

/// Adds the keys of those items that are expired and that no transaction holds, in their order, up to so many keys in all.
fn add_due<R: CellRules>(
    alloc: Global,
    catalog: &R::Catalog,
    items: &TableItems<R::Key, R::Value>,
    moment: u64,
    limit: usize,
    keys: &mut Vec<R::Key>,
) -> Result<(), NoMemory>
    ensures due { OnOk result ((n : ℕ) → take limit keys.new.items
        ≡ take limit (keys.old.items ++ due_in (R.protocol n) catalog.now moment items.now.slots.entries)) }
    ensures few { OnOk result (length keys.old.items ≤ limit → length keys.new.items ≤ limit) }
    ensures order { OnOk result (IsOrdered R.Key.cmp items.now.slots) }
{
    items.are_in_order();
    for (key, slot) in items.slots().iter() {
        if limit <= keys.len() {
            return Ok(());
        }
        if is_due::<R>(catalog, key, slot, moment) {
            keys.push(R::copy_of_key(alloc, key)?)?;
        }
    }
    Ok(())
}

/// The same of a table by its number. Where its items never expire, it looks at none.
fn add_due_of_table<R: CellRules>(
    alloc: Global,
    catalog: &R::Catalog,
    table: u64,
    items: &TableItems<R::Key, R::Value>,
    moment: u64,
    limit: usize,
    keys: &mut Vec<R::Key>,
) -> Result<(), NoMemory>
    ensures due { OnOk result ((n : ℕ) → AreOfTable (R.protocol n) table items.now.slots.entries → take limit keys.new.items
        ≡ take limit (keys.old.items ++ due_in (R.protocol n) catalog.now moment items.now.slots.entries)) }
    ensures few { OnOk result (length keys.old.items ≤ limit → length keys.new.items ≤ limit) }
    ensures order { OnOk result (IsOrdered R.Key.cmp items.now.slots) }
{
    if !R::may_expire(catalog, table) {
        items.are_in_order();
        return Ok(());
    }
    add_due::<R>(alloc, catalog, items, moment, limit, keys)
}

/// The keys of the first expired items of all tables that no transaction holds.
fn first_due<R: CellRules>(
    alloc: Global,
    cell: &PartitionOf<R>,
    moment: u64,
    limit: usize,
) -> Result<Vec<R::Key>, NoMemory>
    ensures due { IfOk result (λ keys. (n : ℕ) → AreAtHome (R.protocol n) cell.now.items.tables.entries
        → keys.items ≡ take limit (due_of_all (R.protocol n) cell.now.catalog moment cell.now.items.tables)) }
    ensures order { OnOk result (AreOrdered cell.now.items.tables) }
{
    let mut keys = Vec::new(alloc);
    for (number, table) in cell.items.tables().iter() {
        add_due_of_table::<R>(
            alloc,
            &cell.catalog,
            *number,
            table,
            moment,
            limit,
            &mut keys,
        )?;
    }
    Ok(keys)
}

/// An ExpiredKeys: the keys of the cell's first items that are expired and that no transaction holds, by the numbers of their
/// tables, those of one table in their order. It looks at the items of those tables alone of which some may expire.
pub fn expired_keys<R: CellRules>(
    alloc: Global,
    cell: &PartitionOf<R>,
    limit: u32,
    moment: u64,
) -> Result<Reply<R>, NoMemory>
    ensures { IfOk result (λ a. (n i : ℕ) → SaysExpired (R.protocol n) i cell.now moment limit a) }
{
    let keys = first_due::<R>(alloc, cell, moment, limit as usize)?;
    Ok(Answer::ExpiredList {
        keys: Seq::from(keys),
    })
}
