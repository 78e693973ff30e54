//! The type that meets `Rules`.

ghost use Rattle.cell_model.specs.Service.{service};
ghost use Rattle.cell_rules.specs.Laws.{lawful, numbered};

use crate::act::act;
use crate::answers::are_equal_told;
use crate::copies::copy_of_action;
use crate::equal::{
    are_equal_actions, are_equal_faults, are_equal_items, are_equal_keys, are_same_actions,
};
use crate::expiry::is_expired;
use crate::keys::{cell_of, item_of};
use crate::questions::{page_cell, page_index, serves};
use crate::removal::removal;
use crate::rows::row_of;
use crate::told::told_of;
use attr_value::SharedItem;
use base_types::Seq;
use cell_catalog::{catalog_after, has_table, numbers_at, refusal, ruling, table_of};
use cell_model::{Catalog, CatalogAnswer, CatalogCommand, CatalogQuestion, CellKey, KeyedAction};
use index_feed::Row;
use std::alloc::{AllocError as NoMemory, Global};
use txn_core::{Outcome, Rules, Ruling};
use update_eval::EvalFault;

/// What the protocol knows of tables: nothing is kept in it.
pub struct TableRules;

impl Rules for TableRules {
    type Key = CellKey;

    type Value = SharedItem;

    type Action = KeyedAction;

    type Fault = EvalFault;

    type Catalog = Catalog;

    type Command = CatalogCommand;

    type Question = CatalogQuestion;

    type Told = CatalogAnswer;

    ghost protocol = { service };

    ghost numbered = { numbered };

    ghost lawful = { lawful };

    fn is_same(left: &CellKey, right: &CellKey) -> bool {
        left == right
    }

    fn cell_of(partitions: u32, key: &CellKey) -> u32 {
        cell_of(partitions, key)
    }

    fn page_cell(partitions: u32, page: &CatalogQuestion) -> u32 {
        page_cell(partitions, page)
    }

    fn key_of(action: &KeyedAction) -> &CellKey {
        action.key()
    }

    fn act(
        alloc: Global,
        catalog: &Catalog,
        action: &KeyedAction,
        item: Option<&SharedItem>,
    ) -> Result<Outcome<SharedItem, EvalFault>, NoMemory> {
        act(alloc, catalog, action, item)
    }

    fn removal(alloc: Global, key: &CellKey) -> Result<KeyedAction, NoMemory> {
        removal(alloc, key)
    }

    fn is_expired(catalog: &Catalog, key: &CellKey, item: &SharedItem, moment: u64) -> bool {
        is_expired(catalog, key, item.item(), moment)
    }

    fn no_table(alloc: Global) -> Result<Catalog, NoMemory> {
        Ok(Catalog {
            drawn: 0,
            tables: Seq::new(alloc),
        })
    }

    fn is_there(catalog: &Catalog, key: &CellKey) -> bool {
        has_table(catalog, table_of(key))
    }

    fn change(
        alloc: Global,
        command: &CatalogCommand,
        moment: u64,
        catalog: &Catalog,
    ) -> Result<Catalog, NoMemory> {
        catalog_after(alloc, command, moment, catalog)
    }

    fn adds(
        _alloc: Global,
        _command: &CatalogCommand,
        _catalog: &Catalog,
        _key: &CellKey,
    ) -> Result<Option<SharedItem>, NoMemory> {
        Ok(None)
    }

    fn brings(
        alloc: Global,
        _command: &CatalogCommand,
        _catalog: &Catalog,
    ) -> Result<Vec<CellKey>, NoMemory> {
        Ok(Vec::new(alloc))
    }

    fn item_of(_alloc: Global, row_key: &CellKey) -> Result<CellKey, NoMemory> {
        item_of(row_key)
    }

    fn indexes(alloc: Global, catalog: &Catalog, key: &CellKey) -> Result<Vec<u64>, NoMemory> {
        Ok(Vec::from(numbers_at(alloc, catalog, table_of(key))?))
    }

    fn row_of(
        alloc: Global,
        catalog: &Catalog,
        index: u64,
        key: &CellKey,
        item: &SharedItem,
    ) -> Result<Option<Row<CellKey, SharedItem>>, NoMemory> {
        row_of(alloc, catalog, index, key, item)
    }

    fn are_same_actions(left: &[KeyedAction], right: &[KeyedAction]) -> bool {
        are_same_actions(left, right)
    }

    fn tell(
        alloc: Global,
        catalog: &Catalog,
        question: &CatalogQuestion,
    ) -> Result<CatalogAnswer, NoMemory> {
        told_of(alloc, catalog, &[], question)
    }

    fn serves(catalog: &Catalog, page: &CatalogQuestion) -> bool {
        serves(catalog, page)
    }

    fn page_index(page: &CatalogQuestion) -> Option<u64> {
        page_index(page)
    }

    fn refuses(
        _alloc: Global,
        command: &CatalogCommand,
        catalog: &Catalog,
    ) -> Result<Option<CatalogAnswer>, NoMemory> {
        Ok(refusal(command, catalog))
    }

    fn rule(
        alloc: Global,
        command: &CatalogCommand,
        _moment: u64,
        catalog: &Catalog,
    ) -> Result<Ruling<CatalogAnswer>, NoMemory> {
        ruling(alloc, command, catalog)
    }

    fn are_equal_keys(left: &CellKey, right: &CellKey) -> bool {
        are_equal_keys(left, right)
    }

    fn are_equal_values(left: &SharedItem, right: &SharedItem) -> bool {
        are_equal_items(left.item(), right.item())
    }

    fn are_equal_actions(left: &KeyedAction, right: &KeyedAction) -> bool {
        are_equal_actions(left, right)
    }

    fn are_equal_faults(left: &EvalFault, right: &EvalFault) -> bool {
        are_equal_faults(left, right)
    }

    fn are_equal_told(left: &CatalogAnswer, right: &CatalogAnswer) -> bool {
        are_equal_told(left, right)
    }

    fn copy_of_key(_alloc: Global, key: &CellKey) -> Result<CellKey, NoMemory> {
        key.try_clone()
    }

    fn copy_of_value(_alloc: Global, value: &SharedItem) -> Result<SharedItem, NoMemory> {
        value.share()
    }

    fn copy_of_action(_alloc: Global, action: &KeyedAction) -> Result<KeyedAction, NoMemory> {
        copy_of_action(action)
    }
}
