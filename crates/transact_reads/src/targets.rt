//! Items that are named by a request, and whether one is named twice.

ghost use Rattle.std.specs.Prelude.{◌≡◌, map, IfOk};
ghost use Rattle.table_model.specs.Transactions.{Target, has_repeat};

use base_types::Text;
use row_keys::RowKey;
use std::alloc::{AllocError as NoMemory, Global};
use std::collections::BTreeSet;

/// What names an item, by its table's name and its key.
pub trait Targeted {
    /// The item. The number of its table decides nothing here.
    ghost target_of: { Self → Target };

    /// The name of the item's table.
    fn table(&self) -> &Text
        ensures { result.now ≡ (target_of self.now).name };

    /// The item's key.
    fn key(&self) -> &RowKey
        ensures { result.now ≡ (target_of self.now).key };
}

/// An item of a table, lent.
#[derive(Clone, Copy, PartialEq, Eq, PartialOrd, Ord)]
struct Spot<'a> {
    table: &'a str,
    key: &'a RowKey,
}

/// Whether some item is named twice. `NoMemory` is for want of memory.
pub fn has_repeat<T: Targeted>(alloc: Global, targets: &[T]) -> Result<bool, NoMemory>
    ensures { IfOk result (λ twice. twice ≡ has_repeat (map T.target_of targets.now)) }
{
    let mut seen = BTreeSet::new(alloc);
    for target in targets {
        let spot = Spot {
            table: target.table().as_str(),
            key: target.key(),
        };
        if !seen.insert(spot)? {
            return Ok(true);
        }
    }
    Ok(false)
}
