//! Where items stand in the local order of their table.

ghost use Rattle.std.specs.Prelude.{◌≡◌};
ghost use Rattle.std.specs.Option.{option_to_list};
ghost use Rattle.case_rules.specs.Entries.{entries_of};

use crate::item::Item;
use crate::key::Key;

/// Where an item stands in the local order of its table: by its amount, and then by the item.
#[derive(Clone, Copy, PartialEq, Eq, PartialOrd, Ord, Drop)]
pub struct ShopEntry {
    /// The item's amount.
    pub amount: u64,
    /// Which item.
    pub item: Key,
}

impl ShopEntry {
    /// The entry of an item. One whose customer is not known has none.
    pub(crate) fn of(key: &Key, item: &Item) -> Option<ShopEntry>
        ensures { option_to_list result ≡ entries_of key.now item.now }
    {
        match item.customer {
            None => None,
            Some(_) => Some(ShopEntry {
                amount: item.amount,
                item: *key,
            }),
        }
    }
}
