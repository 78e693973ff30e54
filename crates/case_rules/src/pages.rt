//! Pages of the shop, over what a cell keeps.

ghost use Rattle.std.specs.Prelude.{◌≡◌, ◌++◌, ◌∷◌, [], filter, IfOk, OnOk};
ghost use Rattle.partition.specs.Pages.{committed_among};
ghost use Rattle.case_rules.specs.Rows.{is_of, page, page_table};
ghost use Rattle.case_rules.specs.PageLaws.{own_rows};

use crate::catalog::Catalog;
use crate::entry::ShopEntry;
use crate::item::Item;
use crate::key::Key;
use crate::question::{Question, Told};
use crate::rules::Shop;
use base_types::Seq;
use item_store::Slot;
use local_index::Claim;
use partition::PageRules;
use std::alloc::{AllocError as NoMemory, Global};
use std::collections::BTreeMap;

/// Adds a row, where it is of the page's table.
fn add(
    page: &Question,
    key: &Key,
    item: &Item,
    shown: &mut Seq<(Key, Item)>,
) -> Result<(), NoMemory>
    ensures { OnOk result (shown.new ≡ shown.old ++ filter (λ r. is_of page.now r.0) ((key.now, item.now) ∷ [])) }
{
    if page.is_of(key) {
        shown.push((*key, *item))?;
    }
    Ok(())
}

/// Adds the item of a slot, where one is committed.
fn add_committed(
    page: &Question,
    key: &Key,
    slot: &Slot<Item>,
    shown: &mut Seq<(Key, Item)>,
) -> Result<(), NoMemory>
    ensures { OnOk result (shown.new ≡ shown.old ++ filter (λ r. is_of page.now r.0) (committed_among ((key.now, slot.now) ∷ []))) }
{
    match &slot.committed {
        Some(committed) => add(page, key, &committed.item, shown),
        None => Ok(()),
    }
}

impl PageRules for Shop {
    ghost read_table = { page_table };

    fn page_table(page: &Question) -> u64 {
        page.table()
    }

    fn page_of_items(
        alloc: Global,
        _catalog: &Catalog,
        items: &BTreeMap<Key, Slot<Item>>,
        _entries: &BTreeMap<ShopEntry, Claim>,
        page: &Question,
    ) -> Result<Told, NoMemory> {
        let mut shown = Seq::new(alloc);
        for (key, slot) in items.iter() {
            add_committed(page, key, slot, &mut shown)?;
        }
        Ok(Told::Rows { rows: shown })
    }

    fn page_of_rows(
        alloc: Global,
        _catalog: &Catalog,
        rows: &BTreeMap<Key, Item>,
        page: &Question,
    ) -> Result<Told, NoMemory> {
        let mut shown = Seq::new(alloc);
        for (key, item) in rows.iter() {
            add(page, key, item, &mut shown)?;
        }
        Ok(Told::Rows { rows: shown })
    }

    ghost own_rows = { own_rows };
}
