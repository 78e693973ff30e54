//! What a cell needs to know of the shop's commands.

ghost use Rattle.std.specs.Prelude.{◌≡◌, IfOk, OnOk, ◌++◌, refl};
ghost use Rattle.std.specs.Option.{option_to_list};
ghost use Rattle.case_rules.specs.Catalogs.{indexes_in};
ghost use Rattle.case_rules.specs.Targets.{IsSound, altered, dropped, made, numbers, target};
ghost use Rattle.case_rules.specs.TargetLaws.{commands_lawful};

use crate::catalog::{Catalog, Command, Table, index_of, is_numbered};
use crate::rules::Shop;
use partition::{CommandRules, TableChange};
use std::alloc::{AllocError as NoMemory, Global};

fn made(number: Option<u64>) -> TableChange
    ensures { result ≡ made number }
{
    match number {
        None => TableChange::Nothing,
        Some(number) => TableChange::Makes { number },
    }
}

fn altered(table: Option<Table>) -> TableChange
    ensures { result ≡ altered table }
{
    match table {
        None => TableChange::Nothing,
        Some(table) => TableChange::Alters {
            number: table.number,
        },
    }
}

fn dropped(table: Option<Table>) -> TableChange
    ensures { result ≡ dropped table }
{
    match table {
        None => TableChange::Nothing,
        Some(table) => TableChange::Drops {
            number: table.number,
        },
    }
}

/// The index of a table, where it is there under this number.
fn index_under(table: Option<Table>, number: u64) -> Option<u64>
    ensures { option_to_list result ≡ indexes_in table number }
{
    if is_numbered(table, number) {
        index_of(table)
    } else {
        None
    }
}

/// Adds a number, where there is one.
fn add(number: Option<u64>, numbers: &mut Vec<u64>) -> Result<(), NoMemory>
    ensures { OnOk result (numbers.new.items ≡ numbers.old.items ++ option_to_list number) }
{
    if let Some(number) = number {
        numbers.push(number)?;
    }
    Ok(())
}

/// What a command does to the shop's tables.
fn change_by(command: &Command, catalog: &Catalog) -> TableChange
    ensures { result ≡ target command.now catalog.now }
{
    match command {
        Command::Create { .. } => made(catalog.next_number()),
        Command::AddIndex { name } => altered(catalog.table(*name)),
        Command::Drop { name } => dropped(catalog.table(*name)),
    }
}

impl CommandRules for Shop {
    ghost sound = { IsSound };

    ghost target = { target };

    ghost numbers = { numbers };

    fn on_table(command: &Command, catalog: &Catalog) -> Result<TableChange, NoMemory> {
        Ok(change_by(command, catalog))
    }

    fn subject_of(command: &Command, catalog: &Catalog) -> Option<u64> {
        change_by(command, catalog).subject()
    }

    fn table_indexes(alloc: Global, catalog: &Catalog, table: u64) -> Result<Vec<u64>, NoMemory> {
        let mut numbers = Vec::new(alloc);
        add(index_under(catalog.orders, table), &mut numbers)?;
        add(index_under(catalog.payments, table), &mut numbers)?;
        Ok(numbers)
    }

    ghost commands = { commands_lawful };

    ghost entries_stay = { λ partitions d moment c k v ok fits altered there. refl };
}
