//! The items that transactions hold.

ghost use Rattle.std.specs.Prelude.{◌≡◌, ◌++◌, ℕ, [], IfOk, OnOk};
ghost use Rattle.std.specs.BTreeMap.{IsOrdered};
ghost use Rattle.txn_core.specs.declared.answer.Answer.{Answer};
ghost use Rattle.partition.specs.Pendings.{AreOrdered, held_in_table, held_items};
ghost use Rattle.partition.specs.Says.{SaysPendings};

use crate::cell::PartitionOf;
use base_types::Seq;
use index_changes::CellRules;
use item_store::{ItemStore, TableItems};
use std::alloc::{AllocError as NoMemory, Global};
use txn_core::{Answer, HeldItem, Reply};

/// Adds the items of a table that transactions hold, in the order of their keys. Where none is held, it looks at no item.
fn add_held<R: CellRules>(
    alloc: Global,
    items: &TableItems<R::Key, R::Value>,
    held: &mut Vec<HeldItem<R::Key>>,
) -> Result<(), NoMemory>
    ensures held { OnOk result (held.new.items ≡ held.old.items ++ held_in_table items.now.slots.entries) }
    ensures order { IsOrdered R.Key.cmp items.now.slots }
{
    items.are_in_order();
    if items.held() == 0 {
        return Ok(());
    }
    for (key, slot) in items.slots().iter() {
        if let Some(pending) = &slot.pending {
            held.push(HeldItem {
                key: R::copy_of_key(alloc, key)?,
                number: pending.number,
            })?;
        }
    }
    Ok(())
}

/// The items of all tables that transactions hold. It looks at no item of a table of which none is held.
fn all_held<R: CellRules>(
    alloc: Global,
    items: &ItemStore<R::Key, R::Value>,
) -> Result<Vec<HeldItem<R::Key>>, NoMemory>
    ensures held { IfOk result (λ held. held.items ≡ held_items items.now.tables) }
    ensures order { OnOk result (AreOrdered items.now.tables) }
{
    let mut held = Vec::new(alloc);
    for (_number, table) in items.tables().iter() {
        add_held::<R>(alloc, table, &mut held)?;
    }
    Ok(held)
}

/// A Pendings: the items of the cell that transactions hold, each once, with who holds it. It costs a look at the items of
/// those tables of which some are held.
pub fn pendings<R: CellRules>(alloc: Global, cell: &PartitionOf<R>) -> Result<Reply<R>, NoMemory>
    ensures { IfOk result (λ a. (n i : ℕ) → SaysPendings (R.protocol n) i cell.now a) }
{
    let held = all_held::<R>(alloc, &cell.items)?;
    Ok(Answer::PendingList {
        pendings: Seq::from(held),
    })
}
