//! The changes of index rows that a change of an item gives rise to.

ghost use Rattle.std.specs.Prelude.{◌≡◌, ◌++◌, ℕ, IfOk, None, Some};
ghost use Rattle.std.specs.List.{flat_map};
ghost use Rattle.std.specs.Option.{option_copied};
ghost use Rattle.index_feed.specs.Feed.{change_of, changes, row_in};
ghost use Rattle.txn_core.specs.Indexing.{indexed};
ghost use Rattle.index_changes.specs.Index.{changes_in};

use index_feed::{Change, Row};
use std::alloc::{AllocError as NoMemory, Global};
use txn_core::Rules;

/// The changes of index rows, under these rules.
pub(crate) type ChangesOf<R> = Vec<Change<<R as Rules>::Key, <R as Rules>::Value>>;

/// A row of an index, under these rules.
pub(crate) type RowOf<R> = Row<<R as Rules>::Key, <R as Rules>::Value>;

/// The row in an index of an item that may be absent.
pub(crate) fn row_in<R: Rules>(
    alloc: Global,
    catalog: &R::Catalog,
    index: u64,
    key: &R::Key,
    item: Option<&R::Value>,
) -> Result<Option<RowOf<R>>, NoMemory>
    ensures { IfOk result (λ row. (n : ℕ) → row
        ≡ row_in (indexed (R.protocol n).core (R.protocol n).index) catalog.now index key.now (option_copied item.entry)) }
{
    match item {
        Some(value) => R::row_of(alloc, catalog, index, key, value),
        None => Ok(None),
    }
}

/// Adds a row as it is now.
fn add_row<R: Rules>(index: u64, row: RowOf<R>, changes: &mut ChangesOf<R>) -> Result<(), NoMemory>
    ensures { IfOk result (λ _. (n : ℕ) → changes.new.items
        ≡ changes.old.items ++ change_of (indexed (R.protocol n).core (R.protocol n).index) index None (Some row)) }
{
    changes.push(Change {
        index,
        key: row.key,
        after: Some(row.content),
    })?;
    Ok(())
}

/// Adds the removal of a row.
fn add_removal<R: Rules>(
    index: u64,
    row: RowOf<R>,
    changes: &mut ChangesOf<R>,
) -> Result<(), NoMemory>
    ensures { IfOk result (λ _. (n : ℕ) → changes.new.items
        ≡ changes.old.items ++ change_of (indexed (R.protocol n).core (R.protocol n).index) index (Some row) None) }
{
    changes.push(Change {
        index,
        key: row.key,
        after: None,
    })?;
    Ok(())
}

/// Whether both rows hold the same.
fn are_equal<R: Rules>(left: &R::Value, right: &R::Value) -> bool
    ensures { (n : ℕ) → result ≡ (R.protocol n).index.equal left.now right.now }
{
    R::are_equal_values(left, right)
}

/// Adds what takes one row to the other: where the keys differ, the old row's removal first.
fn add_both<R: Rules>(
    index: u64,
    old: RowOf<R>,
    new: RowOf<R>,
    changes: &mut ChangesOf<R>,
) -> Result<(), NoMemory>
    ensures { IfOk result (λ _. (n : ℕ) → changes.new.items
        ≡ changes.old.items ++ change_of (indexed (R.protocol n).core (R.protocol n).index) index (Some old) (Some new)) }
{
    if !R::is_same(&old.key, &new.key) {
        add_removal::<R>(index, old, changes)?;
        return add_row::<R>(index, new, changes);
    }
    if are_equal::<R>(&old.content, &new.content) {
        return Ok(());
    }
    add_row::<R>(index, new, changes)
}

/// Adds a row that is new, if there is one.
pub(crate) fn add_new<R: Rules>(
    index: u64,
    new: Option<RowOf<R>>,
    changes: &mut ChangesOf<R>,
) -> Result<(), NoMemory>
    ensures { IfOk result (λ _. (n : ℕ) → changes.new.items
        ≡ changes.old.items ++ change_of (indexed (R.protocol n).core (R.protocol n).index) index None new) }
{
    match new {
        Some(row) => add_row::<R>(index, row, changes),
        None => Ok(()),
    }
}

/// Adds what takes an index from the old row to the new one.
fn add_change<R: Rules>(
    index: u64,
    old: Option<RowOf<R>>,
    new: Option<RowOf<R>>,
    changes: &mut ChangesOf<R>,
) -> Result<(), NoMemory>
    ensures { IfOk result (λ _. (n : ℕ) → changes.new.items
        ≡ changes.old.items ++ change_of (indexed (R.protocol n).core (R.protocol n).index) index old new) }
{
    let Some(before) = old else {
        return add_new::<R>(index, new, changes);
    };
    let Some(after) = new else {
        return add_removal::<R>(index, before, changes);
    };
    add_both::<R>(index, before, after, changes)
}

/// Adds what a change of an item makes of its row in one index.
fn add_in<R: Rules>(
    alloc: Global,
    catalog: &R::Catalog,
    index: u64,
    key: &R::Key,
    old: Option<&R::Value>,
    new: Option<&R::Value>,
    changes: &mut ChangesOf<R>,
) -> Result<(), NoMemory>
    ensures { IfOk result (λ _. (n : ℕ) → changes.new.items ≡ changes.old.items
        ++ changes_in (R.protocol n) catalog.now key.now (option_copied old.entry) (option_copied new.entry) index) }
{
    let before = row_in::<R>(alloc, catalog, index, key, old)?;
    let after = row_in::<R>(alloc, catalog, index, key, new)?;
    add_change::<R>(index, before, after, changes)
}

/// The changes of index rows that a change of an item gives rise to, in the order of the indexes' numbers: in each the removal
/// of the old row where its key is not the new row's, then the new row where it differs.
pub(crate) fn changes_of<R: Rules>(
    alloc: Global,
    catalog: &R::Catalog,
    key: &R::Key,
    old: Option<&R::Value>,
    new: Option<&R::Value>,
) -> Result<ChangesOf<R>, NoMemory>
    ensures { IfOk result (λ made. (n : ℕ) → made.items ≡ changes
        (indexed (R.protocol n).core (R.protocol n).index) catalog.now key.now (option_copied old.entry) (option_copied new.entry)) }
{
    let numbers = R::indexes(alloc, catalog, key)?;
    let mut changes = Vec::new(alloc);
    for index in numbers.as_slice() {
        add_in::<R>(alloc, catalog, *index, key, old, new, &mut changes)?;
    }
    Ok(changes)
}
