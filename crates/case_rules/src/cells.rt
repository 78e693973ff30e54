//! What a cell needs to know of the shop.

ghost use Rattle.std.specs.Prelude.{refl};
ghost use Rattle.case_rules.specs.Entries.{local_entries};
ghost use Rattle.case_rules.specs.EntryLaws.{entries_lawful};

use crate::action::Action;
use crate::catalog::Catalog;
use crate::entry::ShopEntry;
use crate::item::Item;
use crate::key::Key;
use crate::rules::Shop;
use partition::CellRules;
use std::alloc::{AllocError as NoMemory, Global};

impl CellRules for Shop {
    type LocalEntry = ShopEntry;

    ghost locals = { local_entries };

    fn table_of(key: &Key) -> u64 {
        key.table
    }

    fn into_key(action: Action) -> Key {
        action.key
    }

    fn entries_of(
        alloc: Global,
        _catalog: &Catalog,
        key: &Key,
        item: &Item,
    ) -> Result<Vec<ShopEntry>, NoMemory> {
        let mut entries = Vec::new(alloc);
        if let Some(entry) = ShopEntry::of(key, item) {
            entries.push(entry)?;
        }
        Ok(entries)
    }

    fn may_expire(_catalog: &Catalog, _table: u64) -> bool {
        true
    }

    ghost ordered = { λ partitions x y. refl };

    ghost entries_lawful = { entries_lawful };

    ghost copied = { λ entry copy same. same };
}
