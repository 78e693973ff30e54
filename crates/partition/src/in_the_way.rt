//! Whether a transaction stands in a command's way.

ghost use Rattle.std.specs.Prelude.{◌≡◌, ℕ, None, Some};
ghost use Rattle.std.specs.BTreeMap.{IsOrdered};
ghost use Rattle.partition.specs.Holders.{TellsHolder, least_in, lesser};

use crate::cell::PartitionOf;
use index_changes::{CellRules, CommandRules};
use item_store::TableItems;

/// The lesser of two numbers, where there are any.
fn lesser(left: Option<u64>, right: Option<u64>) -> Option<u64>
    ensures { result ≡ lesser left right }
{
    match (left, right) {
        (Some(left), Some(right)) => Some(left.min(right)),
        (Some(left), None) => Some(left),
        (None, other) => other,
    }
}

/// The least number of those that hold an item of a table. Where none is held, it looks at no item.
fn least_holder<R: CellRules>(items: &TableItems<R::Key, R::Value>) -> Option<u64>
    ensures least { result ≡ least_in items.now.slots.entries }
    ensures order { IsOrdered R.Key.cmp items.now.slots }
{
    items.are_in_order();
    if items.held() == 0 {
        return None;
    }
    let mut least = None;
    for (_key, slot) in items.slots().iter() {
        if let Some(pending) = &slot.pending {
            least = lesser(least, Some(pending.number));
        }
    }
    least
}

/// The least number of the transactions that hold an item of a command's table in this cell; none, where no item of it is held.
pub fn first_holder<R: CommandRules>(cell: &PartitionOf<R>, command: &R::Command) -> Option<u64>
    ensures { (n i : ℕ) → TellsHolder (R.protocol n) i cell.now command.now result }
{
    let number = R::subject_of(command, &cell.catalog)?;
    least_holder::<R>(cell.items.table(number)?)
}
