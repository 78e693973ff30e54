//! What a change of an item makes of indexes.

ghost use Rattle.std.specs.Prelude.{◌≡◌, ℕ, Some, IfOk};
ghost use Rattle.std.specs.Option.{option_copied};
ghost use Rattle.index_feed.specs.Feed.{changes};
ghost use Rattle.txn_core.specs.Indexing.{indexed};
ghost use Rattle.index_changes.specs.Prepared.{moves_of};
ghost use Rattle.index_changes.specs.Entries.{entries_at, moves_by};

use crate::change::IndexChanges;
use crate::row_changes::changes_of;
use crate::rules::CellRules;
use std::alloc::{AllocError as NoMemory, Global};
use txn_core::Rules;

/// What a change of an item makes of indexes, under these rules.
pub type IndexChangesOf<R> = IndexChanges<
    <R as Rules>::Key,
    <R as Rules>::Value,
    <R as CellRules>::LocalEntry,
>;

/// The local entries of an item that may be absent.
fn entries_at<R: CellRules>(
    alloc: Global,
    catalog: &R::Catalog,
    key: &R::Key,
    item: Option<&R::Value>,
) -> Result<Vec<R::LocalEntry>, NoMemory>
    ensures { IfOk result (λ entries. entries.items ≡ entries_at R.locals catalog.now key.now (option_copied item.entry)) }
{
    match item {
        Some(item) => R::entries_of(alloc, catalog, key, item),
        None => Ok(Vec::new(alloc)),
    }
}

/// What a change of an item makes of indexes: the changes of its rows, and its local entries before and after.
pub fn index_changes<R: CellRules>(
    alloc: Global,
    catalog: &R::Catalog,
    key: &R::Key,
    old: Option<&R::Value>,
    new: Option<&R::Value>,
) -> Result<IndexChangesOf<R>, NoMemory>
    ensures rows { IfOk result (λ made. (n : ℕ) → made.rows.items ≡ changes
        (indexed (R.protocol n).core (R.protocol n).index) catalog.now key.now (option_copied old.entry) (option_copied new.entry)) }
    ensures moves { IfOk result (λ made. moves_of (Some made)
        ≡ moves_by R.locals catalog.now key.now (option_copied old.entry) (option_copied new.entry)) }
{
    let rows = changes_of::<R>(alloc, catalog, key, old, new)?;
    let before = entries_at::<R>(alloc, catalog, key, old)?;
    let after = entries_at::<R>(alloc, catalog, key, new)?;
    Ok(IndexChanges {
        rows,
        old: before,
        new: after,
    })
}
