//! Items with several owners.
//!
//! A [`SharedItem`] is an item that nobody changes any more: it stands in a table, and in the replies that show it, and is
//! there once. So a reply that shows a whole item costs no copy of it, and where a database is asked by one thread at a
//! time, what is shown is written out after the next one's turn has begun.
//!
//! Contracts see the item.
ghost use Rattle.std.specs.Prelude.{◌≡◌, IfOk};
ghost use Rattle.std.specs.Option.{option_copied};

use crate::value::Item;
use std::alloc::{AllocError as NoMemory, Global};
use std::marker::Model;
use std::sync::Arc;

/// An item that may stand in several places at once, and is dropped with the last of them.
pub struct SharedItem {
    item: Arc<Item, Global>,
}

impl Model for SharedItem {
    ghost use Rattle.std.specs.Arc.{arc_value};
    ghost use Rattle.attr_value.specs.Tree.{Attributes};
    ghost use Rattle.attr_value.specs.Codes.{attributes_code};

    ghost Value = { Attributes };

    ghost coded = { attributes_code };

    ghost view = { λ shared. arc_value shared.item };
}

// By hand, so that no crate above proves it again.
impl Drop for SharedItem {
    fn drop(self) {
        let SharedItem { item: _ } = self;
    }
}

impl SharedItem {
    /// The item, with one owner. Memory is taken for the count of its owners.
    pub fn new(alloc: Global, item: Item) -> Result<SharedItem, NoMemory>
        ensures { IfOk result (λ shared. shared ≡ item) }
    {
        match Arc::new(alloc, item) {
            Ok(item) => Ok(SharedItem { item }),
            Err(refused) => {
                drop(refused);
                Err(NoMemory)
            }
        }
    }

    /// The same item for one more owner. It is refused where an item has more owners than can be counted.
    pub fn share(&self) -> Result<SharedItem, NoMemory>
        ensures { IfOk result (λ shared. shared ≡ self.now) }
    {
        let item = Arc::try_clone(&self.item)?;
        Ok(SharedItem { item })
    }

    /// The item, lent.
    pub fn item(&self) -> &Item
        ensures { result.now ≡ self.now }
    {
        &self.item
    }
}

/// The item, where there is one, lent.
pub fn lent(shared: Option<&SharedItem>) -> Option<&Item>
    ensures { option_copied result ≡ option_copied shared.entry }
{
    match shared {
        Some(shared) => Some(shared.item()),
        None => None,
    }
}

/// The item, where there is one, with one owner. Memory is taken for the count of its owners.
pub fn kept(alloc: Global, item: Option<Item>) -> Result<Option<SharedItem>, NoMemory>
    ensures { IfOk result (λ kept. kept ≡ item) }
{
    match item {
        Some(item) => Ok(Some(SharedItem::new(alloc, item)?)),
        None => Ok(None),
    }
}
