//! What a cell needs to know of real tables.

ghost use Rattle.std.specs.Prelude.{refl};
ghost use Rattle.cell_model.specs.IndexRows.{numbers_at};
ghost use Rattle.cell_rules.specs.Targets.{IsSound, target};
ghost use Rattle.cell_rules.specs.TargetLaws.{commands_lawful};
ghost use Rattle.cell_rules.specs.Entries.{entries_lawful, entries_stay, table_entries};
ghost use Rattle.cell_rules.specs.PageLaws.{own_rows, read_table};

use crate::expiry::may_expire;
use crate::questions::page_table;
use crate::rules::TableRules;
use crate::targets::{on_table, subject_of};
use crate::told::{told_of_items, told_of_rows};
use attr_value::SharedItem;
use cell_catalog::{numbers_at, table_of};
use cell_entries::{LocalEntry, entries_of};
use cell_model::{Catalog, CatalogAnswer, CatalogCommand, CatalogQuestion, CellKey, KeyedAction};
use item_store::Slot;
use local_index::Claim;
use partition::{CellRules, CommandRules, PageRules, TableChange};
use std::alloc::{AllocError as NoMemory, Global};
use std::collections::BTreeMap;

impl CellRules for TableRules {
    type LocalEntry = LocalEntry;

    ghost locals = { table_entries };

    fn table_of(key: &CellKey) -> u64 {
        table_of(key)
    }

    fn into_key(action: KeyedAction) -> CellKey {
        action.into_key()
    }

    fn entries_of(
        alloc: Global,
        catalog: &Catalog,
        key: &CellKey,
        item: &SharedItem,
    ) -> Result<Vec<LocalEntry>, NoMemory> {
        entries_of(alloc, catalog, key, item)
    }

    fn may_expire(catalog: &Catalog, table: u64) -> bool {
        may_expire(catalog, table)
    }

    ghost ordered = { λ partitions x y. refl };

    ghost entries_lawful = { entries_lawful };

    ghost copied = { λ entry copy same. same };
}

impl CommandRules for TableRules {
    ghost sound = { IsSound };

    ghost target = { target };

    ghost numbers = { numbers_at };

    fn on_table(command: &CatalogCommand, catalog: &Catalog) -> Result<TableChange, NoMemory> {
        on_table(command, catalog)
    }

    fn subject_of(command: &CatalogCommand, catalog: &Catalog) -> Option<u64> {
        subject_of(command, catalog)
    }

    fn table_indexes(alloc: Global, catalog: &Catalog, table: u64) -> Result<Vec<u64>, NoMemory> {
        Ok(Vec::from(numbers_at(alloc, catalog, table)?))
    }

    ghost commands = { commands_lawful };

    ghost entries_stay = { entries_stay };
}

impl PageRules for TableRules {
    ghost read_table = { read_table };

    fn page_table(page: &CatalogQuestion) -> u64 {
        page_table(page)
    }

    fn page_of_items(
        alloc: Global,
        catalog: &Catalog,
        items: &BTreeMap<CellKey, Slot<SharedItem>>,
        entries: &BTreeMap<LocalEntry, Claim>,
        page: &CatalogQuestion,
    ) -> Result<CatalogAnswer, NoMemory> {
        told_of_items(alloc, catalog, items, entries, page)
    }

    fn page_of_rows(
        alloc: Global,
        catalog: &Catalog,
        rows: &BTreeMap<CellKey, SharedItem>,
        page: &CatalogQuestion,
    ) -> Result<CatalogAnswer, NoMemory> {
        told_of_rows(alloc, catalog, rows, page)
    }

    ghost own_rows = { own_rows };
}
