//! The rows that items get in indexes that are new.

ghost use Rattle.std.specs.Prelude.{◌≡◌, ◌++◌, ℕ, [], None, Some, not, IfOk, OnOk, if◌then◌else◌};
ghost use Rattle.std.specs.BTreeMap.{IsOrdered};
ghost use Rattle.std.specs.List.{list_any};
ghost use Rattle.index_feed.specs.Feed.{change_of, founding, row_in};
ghost use Rattle.txn_core.specs.Indexing.{indexed};
ghost use Rattle.index_changes.specs.Commands.{is_in};
ghost use Rattle.index_changes.specs.Founding.{founded_for};
ghost use Rattle.index_changes.specs.Plans.{founding_in};

use crate::row_changes::{ChangesOf, add_new, row_in};
use crate::rules::CellRules;
use crate::served::is_one_of;
use item_store::TableItems;
use std::alloc::{AllocError as NoMemory, Global};

/// Adds the row that an item has in an index, where the index is not one of those that its table had.
fn add_in_new<R: CellRules>(
    alloc: Global,
    old: &[u64],
    after: &R::Catalog,
    index: u64,
    key: &R::Key,
    item: &R::Value,
    changes: &mut ChangesOf<R>,
) -> Result<(), NoMemory>
    ensures { IfOk result (λ _. (n : ℕ) → changes.new.items ≡ changes.old.items
        ++ founded_for (R.protocol n) old.now after.now key.now (Some item.now) index) }
{
    if is_one_of(old, index) {
        return Ok(());
    }
    let row = row_in::<R>(alloc, after, index, key, Some(item))?;
    add_new::<R>(index, row, changes)
}

/// Adds the rows that an item has in the indexes that are new.
fn add_founding<R: CellRules>(
    alloc: Global,
    before: &R::Catalog,
    after: &R::Catalog,
    key: &R::Key,
    item: &R::Value,
    changes: &mut ChangesOf<R>,
) -> Result<(), NoMemory>
    ensures { IfOk result (λ _. (n : ℕ) → changes.new.items ≡ changes.old.items
        ++ founding (indexed (R.protocol n).core (R.protocol n).index) before.now after.now key.now (Some item.now)) }
{
    let old = R::indexes(alloc, before, key)?;
    let new = R::indexes(alloc, after, key)?;
    for index in new.as_slice() {
        add_in_new::<R>(alloc, old.as_slice(), after, *index, key, item, changes)?;
    }
    Ok(())
}

/// Adds the rows that the items of a table have in the indexes that are new, in the order of the items' keys.
pub(crate) fn add_foundings<R: CellRules>(
    alloc: Global,
    before: &R::Catalog,
    after: &R::Catalog,
    items: &TableItems<R::Key, R::Value>,
    changes: &mut ChangesOf<R>,
) -> Result<(), NoMemory>
    ensures founded { IfOk result (λ _. (n : ℕ) → changes.new.items ≡ changes.old.items
        ++ founding_in (R.protocol n) before.now after.now items.now.slots.entries) }
    ensures order { IsOrdered R.Key.cmp items.now.slots }
{
    items.are_in_order();
    for (key, slot) in items.slots().iter() {
        if let Some(committed) = &slot.committed {
            add_founding::<R>(alloc, before, after, key, &committed.item, changes)?;
        }
    }
    Ok(())
}
