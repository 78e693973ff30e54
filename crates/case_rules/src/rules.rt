ghost use Rattle.std.specs.Prelude.{refl};
ghost use Rattle.case_rules.specs.Shop.{service};
ghost use Rattle.case_rules.specs.Laws.{service_lawful};

use crate::action::{Action, Fault};
use crate::catalog::{Catalog, Command, index_of};
use crate::equality::{
    are_equal_actions, are_equal_faults, are_equal_items, are_equal_keys, are_equal_told,
    are_same_actions,
};
use crate::item::Item;
use crate::key::Key;
use crate::question::{Question, Told};
use index_feed::Row;
use std::alloc::{AllocError as NoMemory, Global};
use txn_core::{Outcome, Rules, Ruling};

/// What the protocol knows of the shop. Items and rows of one rest, divided by the number of
/// partitions, are in one cell.
pub struct Shop;

impl Rules for Shop {
    type Key = Key;

    type Value = Item;

    type Action = Action;

    type Fault = Fault;

    type Catalog = Catalog;

    type Command = Command;

    type Question = Question;

    type Told = Told;

    ghost protocol = { service };

    ghost numbered = { λ n. refl };

    ghost lawful = { service_lawful };

    fn is_same(left: &Key, right: &Key) -> bool {
        left.compare(right).is_eq()
    }

    fn cell_of(partitions: u32, key: &Key) -> u32 {
        (key.place() % u64::from(partitions)) as u32
    }

    fn page_cell(partitions: u32, page: &Question) -> u32 {
        (page.place() % u64::from(partitions)) as u32
    }

    fn key_of(action: &Action) -> &Key {
        &action.key
    }

    fn act(
        _alloc: Global,
        catalog: &Catalog,
        action: &Action,
        item: Option<&Item>,
    ) -> Result<Outcome<Item, Fault>, NoMemory> {
        Ok(action.act(catalog, item))
    }

    fn removal(_alloc: Global, key: &Key) -> Result<Action, NoMemory> {
        Ok(Action::removal(key))
    }

    fn is_expired(_catalog: &Catalog, _key: &Key, item: &Item, moment: u64) -> bool {
        item.is_expired(moment)
    }

    fn no_table(_alloc: Global) -> Result<Catalog, NoMemory> {
        Ok(Catalog::empty())
    }

    fn is_there(catalog: &Catalog, key: &Key) -> bool {
        catalog.has(key)
    }

    fn change(
        _alloc: Global,
        command: &Command,
        _moment: u64,
        catalog: &Catalog,
    ) -> Result<Catalog, NoMemory> {
        Ok(catalog.after(command))
    }

    fn adds(
        _alloc: Global,
        command: &Command,
        catalog: &Catalog,
        key: &Key,
    ) -> Result<Option<Item>, NoMemory> {
        Ok(match command.first(catalog) {
            Some((first, item)) if first.compare(key).is_eq() => Some(item),
            _ => None,
        })
    }

    fn brings(alloc: Global, command: &Command, catalog: &Catalog) -> Result<Vec<Key>, NoMemory> {
        let mut keys = Vec::new(alloc);
        if let Some((key, _)) = command.first(catalog) {
            keys.push(key)?;
        }
        Ok(keys)
    }

    fn item_of(_alloc: Global, row_key: &Key) -> Result<Key, NoMemory> {
        Ok(row_key.item())
    }

    fn indexes(alloc: Global, catalog: &Catalog, key: &Key) -> Result<Vec<u64>, NoMemory> {
        let mut numbers = Vec::new(alloc);
        if let Some(index) = catalog.index_at(key) {
            numbers.push(index)?;
        }
        Ok(numbers)
    }

    fn row_of(
        _alloc: Global,
        _catalog: &Catalog,
        _index: u64,
        key: &Key,
        item: &Item,
    ) -> Result<Option<Row<Key, Item>>, NoMemory> {
        Ok(key.row(item))
    }

    fn are_same_actions(left: &[Action], right: &[Action]) -> bool {
        are_same_actions(left, right)
    }

    fn tell(_alloc: Global, catalog: &Catalog, question: &Question) -> Result<Told, NoMemory> {
        Ok(Told::number_of(catalog.table(question.name())))
    }

    fn serves(catalog: &Catalog, page: &Question) -> bool {
        page.is_served(catalog)
    }

    fn page_index(page: &Question) -> Option<u64> {
        page.index()
    }

    fn refuses(
        _alloc: Global,
        command: &Command,
        catalog: &Catalog,
    ) -> Result<Option<Told>, NoMemory> {
        Ok(match (command, catalog.table(command.name())) {
            (Command::Create { .. }, None) => None,
            (Command::Create { .. }, Some(_)) => Some(Told::InUse),
            (Command::AddIndex { .. } | Command::Drop { .. }, None) => Some(Told::NoTable),
            (Command::AddIndex { .. } | Command::Drop { .. }, Some(_)) => None,
        })
    }

    fn rule(
        _alloc: Global,
        command: &Command,
        _moment: u64,
        catalog: &Catalog,
    ) -> Result<Ruling<Told>, NoMemory> {
        let table = catalog.table(command.name());
        Ok(match command {
            Command::Create { .. } => Told::drawing(catalog.next_number()),
            Command::AddIndex { .. } if index_of(table).is_some() => Ruling::Refuses {
                told: Told::HasIndex,
            },
            Command::AddIndex { .. } => Told::drawing(catalog.next_number()),
            Command::Drop { .. } => Ruling::Carries {
                told: Told::number_of(table),
            },
        })
    }

    fn are_equal_keys(left: &Key, right: &Key) -> bool {
        are_equal_keys(left, right)
    }

    fn are_equal_values(left: &Item, right: &Item) -> bool {
        are_equal_items(left, right)
    }

    fn are_equal_actions(left: &Action, right: &Action) -> bool {
        are_equal_actions(left, right)
    }

    fn are_equal_faults(left: &Fault, right: &Fault) -> bool {
        are_equal_faults(*left, *right)
    }

    fn are_equal_told(left: &Told, right: &Told) -> bool {
        are_equal_told(left, right)
    }

    fn copy_of_key(_alloc: Global, key: &Key) -> Result<Key, NoMemory> {
        Ok(*key)
    }

    fn copy_of_value(_alloc: Global, value: &Item) -> Result<Item, NoMemory> {
        Ok(*value)
    }

    fn copy_of_action(_alloc: Global, action: &Action) -> Result<Action, NoMemory> {
        Ok(*action)
    }
}
