//! What a command of the catalog will do to a cell.

ghost use Rattle.std.specs.Prelude.{◌≡◌, ◌≤◌, ℕ, not, IfOk, OnOk};
ghost use Rattle.std.specs.List.{list_any};
ghost use Rattle.std.specs.Option.{option_copied};
ghost use Rattle.index_changes.specs.Commands.{is_in, without};
ghost use Rattle.index_changes.specs.declared.command_rules.TableChange.{TableChange};
ghost use Rattle.index_changes.specs.Entering.{AreEntered};
ghost use Rattle.index_changes.specs.Plans.{IsMade, IsOrderedFor, IsPlan, brought, closed_by, founding_in, has_new, queued_for, queued_in};

use crate::bringing::brought_items;
use crate::command_rules::{CommandRules, TableChange};
use crate::entering::entries_of_items;
use crate::founding::add_foundings;
use crate::plan::{CatalogPlan, MadeTable};
use crate::row_changes::ChangesOf;
use crate::rules::CellRules;
use crate::served::is_one_of;
use item_store::ItemStore;
use std::alloc::{AllocError as NoMemory, Global};
use txn_core::Stamp;

/// The numbers that are not among others, in their order.
fn without(alloc: Global, others: &[u64], numbers: &[u64]) -> Result<Vec<u64>, NoMemory>
    ensures { IfOk result (λ rest. rest.items ≡ without others.now numbers.now) }
{
    let mut rest = Vec::new(alloc);
    for number in numbers {
        if !is_one_of(others, *number) {
            rest.push(*number)?;
        }
    }
    Ok(rest)
}

/// Whether some number is not among others.
fn has_other(others: &[u64], numbers: &[u64]) -> bool
    ensures { result ≡ list_any (λ g. not (is_in others.now g)) numbers.now }
{
    for number in numbers {
        if !is_one_of(others, *number) {
            return true;
        }
    }
    false
}

/// The numbers of the indexes that go with a change of the catalog, where it drops or alters the table of this number.
pub(crate) fn closed_by<R: CommandRules>(
    alloc: Global,
    subject: Option<u64>,
    before: &R::Catalog,
    after: &R::Catalog,
) -> Result<Vec<u64>, NoMemory>
    ensures { IfOk result (λ closed. closed.items ≡ closed_by R.numbers subject before.now after.now) }
{
    let Some(table) = subject else {
        return Ok(Vec::new(alloc));
    };
    let old = R::table_indexes(alloc, before, table)?;
    let new = R::table_indexes(alloc, after, table)?;
    without(alloc, new.as_slice(), old.as_slice())
}

/// Whether a table gets an index that it did not have.
fn has_new<R: CommandRules>(
    alloc: Global,
    table: u64,
    before: &R::Catalog,
    after: &R::Catalog,
) -> Result<bool, NoMemory>
    ensures { IfOk result (λ is. is ≡ has_new R.numbers table before.now after.now) }
{
    let old = R::table_indexes(alloc, before, table)?;
    let new = R::table_indexes(alloc, after, table)?;
    Ok(has_other(old.as_slice(), new.as_slice()))
}

/// The rows that the items of a table that is altered get in indexes that are new. Where no index is new, it looks at no item.
fn altered<R: CommandRules>(
    alloc: Global,
    before: &R::Catalog,
    items: &ItemStore<R::Key, R::Value>,
    after: &R::Catalog,
    table: u64,
) -> Result<ChangesOf<R>, NoMemory>
    ensures changes { IfOk result (λ changes. (n : ℕ) → changes.items
        ≡ queued_in (R.protocol n) R.numbers table before.now after.now items.now.tables) }
    ensures order { OnOk result (IsOrderedFor (TableChange.Alters table) items.now.tables) }
{
    let mut changes = Vec::new(alloc);
    let Some(kept) = items.table(table) else {
        return Ok(changes);
    };
    kept.are_in_order();
    if has_new::<R>(alloc, table, before, after)? {
        add_foundings::<R>(alloc, before, after, kept, &mut changes)?;
    }
    Ok(changes)
}

/// The rows that the items of a table that is made get.
fn founded<R: CommandRules>(
    alloc: Global,
    before: &R::Catalog,
    after: &R::Catalog,
    made: &MadeTable<R::Key, R::Value, R::LocalEntry>,
) -> Result<ChangesOf<R>, NoMemory>
    ensures { IfOk result (λ changes. (n : ℕ) → changes.items
        ≡ founding_in (R.protocol n) before.now after.now made.now.items.slots.entries) }
{
    let mut changes = Vec::new(alloc);
    add_foundings::<R>(alloc, before, after, &made.items, &mut changes)?;
    Ok(changes)
}

/// The rows of items in indexes that are new.
fn queued_by<R: CommandRules>(
    alloc: Global,
    before: &R::Catalog,
    items: &ItemStore<R::Key, R::Value>,
    after: &R::Catalog,
    change: TableChange,
    made: Option<&MadeTable<R::Key, R::Value, R::LocalEntry>>,
) -> Result<ChangesOf<R>, NoMemory>
    ensures changes { IfOk result (λ changes. (n : ℕ) → changes.items
        ≡ queued_for (R.protocol n) R.numbers change before.now after.now items.now.tables (option_copied made.entry)) }
    ensures order { OnOk result (IsOrderedFor change items.now.tables) }
{
    match (change, made) {
        (TableChange::Makes { .. }, Some(table)) => founded::<R>(alloc, before, after, table),
        (TableChange::Alters { number }, _) => altered::<R>(alloc, before, items, after, number),
        _ => Ok(Vec::new(alloc)),
    }
}

/// The table that a command makes, with the items that come with it to this cell and their local entries.
fn made_by<R: CommandRules>(
    alloc: Global,
    partitions: u32,
    here: u32,
    command: &R::Command,
    before: &R::Catalog,
    after: &R::Catalog,
    change: TableChange,
    stamp: Stamp,
    version: u64,
) -> Result<Option<MadeTable<R::Key, R::Value, R::LocalEntry>>, NoMemory>
    requires { 1 ≤ partitions }
    ensures items { IfOk result (λ made. IsMade change
        (brought (R.protocol partitions) here command.now before.now after.now stamp version) made) }
    ensures entries { IfOk result (λ made. AreEntered R.locals after.now made) }
{
    let TableChange::Makes { number } = change else {
        return Ok(None);
    };
    let items = brought_items::<R>(
        alloc, partitions, here, command, before, after, stamp, version,
    )?;
    let entries = entries_of_items::<R>(alloc, after, &items)?;
    Ok(Some(MadeTable {
        number,
        items,
        entries,
    }))
}

/// What a command will do to the cell of this number, one of so many, that has this catalog and these items, at a moment.
/// `NoMemory` also where no number is left for the change.
pub fn plan_of<R: CommandRules>(
    alloc: Global,
    partitions: u32,
    here: u32,
    before: &R::Catalog,
    items: &ItemStore<R::Key, R::Value>,
    command: &R::Command,
    moment: u64,
) -> Result<CatalogPlan<R::Key, R::Value, R::Catalog, R::LocalEntry>, NoMemory>
    requires { 1 ≤ partitions }
    ensures plan { IfOk result (λ plan.
        IsPlan (R.protocol partitions) R.target R.numbers here before.now items.now command.now moment plan) }
    ensures entries { IfOk result (λ plan. AreEntered R.locals plan.catalog plan.made) }
{
    let version = items.next_number()?;
    let change = R::on_table(command, before)?;
    let catalog = R::change(alloc, command, moment, before)?;
    let closed = closed_by::<R>(alloc, change.subject(), before, &catalog)?;
    let stamp = items.floor().later(Stamp { moment, number: 0 });
    let made = made_by::<R>(
        alloc, partitions, here, command, before, &catalog, change, stamp, version,
    )?;
    let changes = queued_by::<R>(alloc, before, items, &catalog, change, made.as_ref())?;
    Ok(CatalogPlan {
        catalog,
        dropped: change.dropped(),
        closed,
        made,
        changes,
    })
}
