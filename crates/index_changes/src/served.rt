//! Whether an index is there.

ghost use Rattle.std.specs.Prelude.{◌≡◌, ℕ, nat_eq, IfOk};
ghost use Rattle.std.specs.List.{list_any};
ghost use Rattle.index_feed.specs.Feed.{served};
ghost use Rattle.txn_core.specs.Indexing.{indexed};

use std::alloc::{AllocError as NoMemory, Global};
use txn_core::Rules;

/// Whether the number is one of these.
pub(crate) fn is_one_of(numbers: &[u64], index: u64) -> bool
    ensures { result ≡ list_any (λ h. nat_eq h index) numbers.now }
{
    for number in numbers {
        if *number == index {
            return true;
        }
    }
    false
}

/// Whether the table of a row's item has the index.
pub fn is_served<R: Rules>(
    alloc: Global,
    catalog: &R::Catalog,
    index: u64,
    row_key: &R::Key,
) -> Result<bool, NoMemory>
    ensures { IfOk result (λ is. (n : ℕ) → is ≡ served (indexed (R.protocol n).core (R.protocol n).index) catalog.now index
        ((R.protocol n).index.item_of row_key.now)) }
{
    let item = R::item_of(alloc, row_key)?;
    let numbers = R::indexes(alloc, catalog, &item)?;
    Ok(is_one_of(numbers.as_slice(), index))
}
