//! Messages that only read an item.

ghost use Rattle.std.specs.Prelude.{◌≡◌, ℕ, IfOk};
ghost use Rattle.std.specs.Option.{option_copied};
ghost use Rattle.partition.specs.Knows.{got, versioned};
ghost use Rattle.partition.specs.Says.{Says, get_says, version_says};

use crate::cell::PartitionOf;
use index_changes::CellRules;
use item_store::{holder_of, row_of};
use std::alloc::{AllocError as NoMemory, Global};
use txn_core::{Answer, Reply, Rules};

/// A copy of an item, where there is one.
pub(crate) fn copy_of_row<R: Rules>(
    alloc: Global,
    row: Option<&R::Value>,
) -> Result<Option<R::Value>, NoMemory>
    ensures { IfOk result (λ copy. copy ≡ option_copied row.entry) }
{
    match row {
        None => Ok(None),
        Some(value) => Ok(Some(R::copy_of_value(alloc, value)?)),
    }
}

/// Answers a Get by what the cell keeps of its item.
fn read<R: CellRules>(
    alloc: Global,
    cell: &PartitionOf<R>,
    key: &R::Key,
) -> Result<Reply<R>, NoMemory>
    ensures { IfOk result (λ a. (n : ℕ) → a ≡ got (R.protocol n) cell.now key.now) }
{
    if !R::is_there(&cell.catalog, key) {
        return Ok(Answer::Stale);
    }
    let slot = cell.items.slot(R::table_of(key), key);
    let item = copy_of_row::<R>(alloc, row_of(slot))?;
    Ok(Answer::Row { item })
}

/// A Get: the committed item.
pub fn get<R: CellRules>(
    alloc: Global,
    cell: &PartitionOf<R>,
    key: &R::Key,
) -> Result<Reply<R>, NoMemory>
    ensures { IfOk result (λ a. (n : ℕ) → Says (R.protocol n) ((R.protocol n).core.cell_of key.now) cell.now
        (λ w f. get_says (R.protocol n) w key.now) a) }
{
    read::<R>(alloc, cell, key)
}

/// Answers a ReadVersion by what the cell keeps of its item.
fn read_with_version<R: CellRules>(
    alloc: Global,
    cell: &PartitionOf<R>,
    key: &R::Key,
) -> Result<Reply<R>, NoMemory>
    ensures { IfOk result (λ a. (n : ℕ) → a ≡ versioned (R.protocol n) cell.now key.now) }
{
    if !R::is_there(&cell.catalog, key) {
        return Ok(Answer::Stale);
    }
    let slot = cell.items.slot(R::table_of(key), key);
    let item = copy_of_row::<R>(alloc, row_of(slot))?;
    Ok(Answer::Version {
        item,
        version: cell.items.version(slot),
        held: holder_of(slot),
    })
}

/// A ReadVersion: the committed item with its version, and who holds it.
pub fn read_version<R: CellRules>(
    alloc: Global,
    cell: &PartitionOf<R>,
    key: &R::Key,
) -> Result<Reply<R>, NoMemory>
    ensures { IfOk result (λ a. (n : ℕ) → Says (R.protocol n) ((R.protocol n).core.cell_of key.now) cell.now
        (λ w f. version_says (R.protocol n) w key.now) a) }
{
    read_with_version::<R>(alloc, cell, key)
}
