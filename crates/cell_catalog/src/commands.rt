//! What commands make of the catalog, and what is told of them.

ghost use Rattle.std.specs.Prelude.{◌≡◌, ℕ, ◌+◌, ◌^◌, ◌≤◌, IfOk, MatchOption, is_some, length, None, Some, if◌then◌else◌};
ghost use Rattle.std.specs.List.{filter_map, insert, list_all, range_with_len};
ghost use Rattle.table_model.specs.Catalog.{updated_schema};
ghost use Rattle.cell_model.specs.Catalogs.{named, numbered_indexes, entered};
ghost use Rattle.cell_model.specs.Commands.{number_named, subject, waits_for, is_number, refusal, has_sort_kind, has_kinds, is_typed};
ghost use Rattle.cell_model.specs.Commands.{numbers_after, updated_table, expiring_table, changed_table, new_table, with_new, draws, kept, catalog_after};
ghost use Rattle.cell_model.specs.declared.catalog.CatalogTable.{CatalogTable as AnyTable};

use crate::copies::{copy_of_table, copy_of_update};
use crate::tables::{has_name, index_numbers, last_drawn, numbers_beside, table_named};
use base_types::{Seq, Text};
use cell_model::{Catalog, CatalogAnswer, CatalogCommand, CatalogTable};
use schema_update::{expiring, stated_schema};
use std::alloc::{AllocError as NoMemory, Global};
use table_request::{IndexChange, TableUpdate};
use table_schema::{KeyNames, Schema};

/// The number of the table of this name.
pub fn number_named(catalog: &Catalog, name: &Text) -> Option<u64>
    ensures { result ≡ number_named catalog.now.tables name.now }
{
    match table_named(catalog, name) {
        Some(table) => Some(table.number),
        None => None,
    }
}

/// The number of the table that a command drops or changes.
pub fn subject(command: &CatalogCommand, catalog: &Catalog) -> Option<u64>
    ensures { result ≡ subject command.now catalog.now }
{
    match command {
        CatalogCommand::Create { .. } => None,
        CatalogCommand::Drop { name } => number_named(catalog, name),
        CatalogCommand::Change { name, .. } => number_named(catalog, name),
        CatalogCommand::TimeToLive { name, .. } => number_named(catalog, name),
    }
}

/// The number of the table of which no item may be held when the command is carried out.
pub fn waits_for(command: &CatalogCommand, catalog: &Catalog) -> Option<u64>
    ensures { result ≡ waits_for command.now catalog.now }
{
    match command {
        CatalogCommand::Create { .. } | CatalogCommand::TimeToLive { .. } => None,
        CatalogCommand::Drop { name } => number_named(catalog, name),
        CatalogCommand::Change { name, .. } => number_named(catalog, name),
    }
}

/// Whether it is this number.
fn is_number(on: Option<u64>, number: u64) -> bool
    ensures { result ≡ is_number on number }
{
    match on {
        Some(on) => on == number,
        None => false,
    }
}

/// The refusal of a command whose table is not there.
fn unless_named(catalog: &Catalog, name: &Text) -> Option<CatalogAnswer>
    ensures { result ≡ (if is_some (named catalog.now.tables name.now) then None else Some CatalogAnswer.NoTable) }
{
    if has_name(catalog, name) {
        None
    } else {
        Some(CatalogAnswer::NoTable)
    }
}

/// The refusal of a command by its name, which is there already or is not there.
pub fn refusal(command: &CatalogCommand, catalog: &Catalog) -> Option<CatalogAnswer>
    ensures { result ≡ refusal command.now catalog.now }
{
    match command {
        CatalogCommand::Create { schema } => {
            if has_name(catalog, &schema.name) {
                Some(CatalogAnswer::Exists)
            } else {
                None
            }
        }
        CatalogCommand::Drop { name } => unless_named(catalog, name),
        CatalogCommand::Change { name, .. } => unless_named(catalog, name),
        CatalogCommand::TimeToLive { name, .. } => unless_named(catalog, name),
    }
}

/// Whether the sort key's attribute has a type, where there is a sort key.
fn has_sort_kind(schema: &Schema, sort: &Option<Text>) -> bool
    ensures { result ≡ has_sort_kind schema.now sort.now }
{
    match sort {
        Some(name) => schema.kind_of(name).is_some(),
        None => true,
    }
}

/// Whether the attributes of the key have types.
fn has_kinds(schema: &Schema, keys: &KeyNames) -> bool
    ensures { result ≡ has_kinds schema.now keys.now }
{
    schema.kind_of(&keys.partition).is_some() && has_sort_kind(schema, &keys.sort)
}

/// Whether the attributes of the keys of all local indexes have types.
fn are_locals_typed(schema: &Schema) -> bool
    ensures { result ≡ list_all (λ index. has_kinds schema.now index.keys) schema.now.locals }
{
    for index in schema.locals.as_slice() {
        if !has_kinds(schema, &index.keys) {
            return false;
        }
    }
    true
}

/// Whether the attributes of the keys of all global indexes have types.
fn are_globals_typed(schema: &Schema) -> bool
    ensures { result ≡ list_all (λ index. has_kinds schema.now index.keys) schema.now.globals }
{
    for index in schema.globals.as_slice() {
        if !has_kinds(schema, &index.keys) {
            return false;
        }
    }
    true
}

/// Whether the attributes of the keys of all indexes have types.
pub(crate) fn is_typed(schema: &Schema) -> bool
    ensures { result ≡ is_typed schema.now }
{
    are_locals_typed(schema) && are_globals_typed(schema)
}

/// The schema as the update states it.
fn updated_schema(alloc: Global, schema: &Schema, update: &TableUpdate) -> Result<Schema, NoMemory>
    ensures { IfOk result (λ after. after ≡ updated_schema schema.now update.now) }
{
    stated_schema(alloc, schema, copy_of_update(update)?)
}

/// The numbers of a table's global indexes after a change of them, of which one that is made has this number.
fn numbers_after(
    alloc: Global,
    change: &Option<IndexChange>,
    next: u64,
    table: &CatalogTable,
) -> Result<Seq<u64>, NoMemory>
    ensures { IfOk result (λ numbers. (drawn : ℕ) → next ≡ drawn + 1 → numbers ≡ numbers_after change.now drawn (numbered_indexes table.now)) }
{
    match change {
        None => index_numbers(alloc, table),
        Some(IndexChange::Make(_)) => {
            let mut numbers = index_numbers(alloc, table)?;
            numbers.push(next)?;
            Ok(numbers)
        }
        Some(IndexChange::Remove(name)) => numbers_beside(alloc, table, Some(name)),
    }
}

/// The table after an update. An index that it makes has the number `next`.
fn updated_table(
    alloc: Global,
    update: &TableUpdate,
    next: u64,
    table: &CatalogTable,
) -> Result<CatalogTable, NoMemory>
    ensures { IfOk result (λ after. (drawn : ℕ) → next ≡ drawn + 1 → after ≡ updated_table update.now drawn table.now) }
{
    if !is_typed(&table.schema) {
        return copy_of_table(table);
    }
    Ok(CatalogTable {
        number: table.number,
        schema: updated_schema(alloc, &table.schema, update)?,
        indexes: numbers_after(alloc, &update.index, next, table)?,
    })
}

/// The table with a time to live, or without one.
fn expiring_table(
    attribute: &Text,
    enabled: bool,
    table: &CatalogTable,
) -> Result<CatalogTable, NoMemory>
    ensures { IfOk result (λ after. after ≡ expiring_table attribute.now enabled table.now) }
{
    Ok(CatalogTable {
        number: table.number,
        schema: expiring(&table.schema, attribute, enabled)?,
        indexes: table.indexes.try_clone()?,
    })
}

/// A table that the command is on, as it is afterwards.
fn changed_table(
    alloc: Global,
    command: &CatalogCommand,
    next: u64,
    table: &CatalogTable,
) -> Result<Option<CatalogTable>, NoMemory>
    ensures { IfOk result (λ after. (drawn : ℕ) → next ≡ drawn + 1 → after ≡ changed_table command.now drawn table.now) }
{
    match command {
        CatalogCommand::Create { .. } => Ok(Some(copy_of_table(table)?)),
        CatalogCommand::Drop { .. } => Ok(None),
        CatalogCommand::Change { change, .. } => {
            Ok(Some(updated_table(alloc, change, next, table)?))
        }
        CatalogCommand::TimeToLive {
            attribute,
            enabled,
            ..
        } => Ok(Some(expiring_table(attribute, *enabled, table)?)),
    }
}

/// A table as the command leaves it.
fn kept(
    alloc: Global,
    command: &CatalogCommand,
    on: Option<u64>,
    next: u64,
    table: &CatalogTable,
) -> Result<Option<CatalogTable>, NoMemory>
    ensures { IfOk result (λ after. (drawn : ℕ) → next ≡ drawn + 1 → after ≡ kept command.now on drawn table.now) }
{
    if is_number(on, table.number) {
        changed_table(alloc, command, next, table)
    } else {
        Ok(Some(copy_of_table(table)?))
    }
}

/// The tables as the command leaves them.
fn kept_tables(
    alloc: Global,
    command: &CatalogCommand,
    on: Option<u64>,
    next: u64,
    tables: &[CatalogTable],
) -> Result<Seq<CatalogTable>, NoMemory>
    ensures { IfOk result (λ left. (drawn : ℕ) → next ≡ drawn + 1 → left ≡ filter_map (kept command.now on drawn) tables.now) }
{
    let mut left = Seq::new(alloc);
    for table in tables {
        if let Some(after) = kept(alloc, command, on, next, table)? {
            left.push(after)?;
        }
    }
    Ok(left)
}

/// So many numbers, from this one on.
fn numbers_from(alloc: Global, first: u64, many: usize) -> Result<Seq<u64>, NoMemory>
    ensures { IfOk result (λ numbers. numbers ≡ range_with_len first many) }
{
    let mut numbers = Seq::new(alloc);
    for place in 0..many {
        let Some(number) = first.checked_add(place as u64) else {
            return Err(NoMemory);
        };
        numbers.push(number)?;
    }
    Ok(numbers)
}

/// A new table of this number, made at the moment. Its global indexes have the numbers behind it.
fn new_table(
    alloc: Global,
    schema: &Schema,
    moment: u64,
    number: u64,
) -> Result<CatalogTable, NoMemory>
    ensures { IfOk result (λ table. (drawn : ℕ) → number ≡ drawn + 1 → table ≡ new_table schema.now moment drawn) }
{
    let Some(first) = number.checked_add(1) else {
        return Err(NoMemory);
    };
    let mut made = schema.try_clone()?;
    made.created = moment;
    let indexes = numbers_from(alloc, first, schema.globals.len())?;
    Ok(CatalogTable {
        number,
        schema: made,
        indexes,
    })
}

/// How many of the tables, from the first on, stand before a table of this name: those before the first of a greater name.
fn place_of(name: &Text, tables: &[CatalogTable]) -> usize
    ensures within { result ≤ length tables.now }
    ensures place { (table : AnyTable) → table.schema.name ≡ name.now → entered table tables.now ≡ insert tables.now result table }
{
    for (place, table) in tables.iter().enumerate() {
        if *name < table.schema.name {
            return place;
        }
    }
    tables.len()
}

/// Puts the table before those of greater names.
fn enter(table: CatalogTable, tables: Seq<CatalogTable>) -> Result<Seq<CatalogTable>, NoMemory>
    ensures { IfOk result (λ after. after ≡ entered table tables) }
{
    let place = place_of(&table.schema.name, tables.as_slice());
    let mut after = Vec::from(tables);
    match after.insert(place, table) {
        Ok(()) => Ok(Seq::from(after)),
        Err(refused) => {
            drop(refused);
            Err(NoMemory)
        }
    }
}

/// The tables with a new one, where the command makes one. It has the number `next`.
fn with_new(
    alloc: Global,
    command: &CatalogCommand,
    moment: u64,
    next: u64,
    tables: Seq<CatalogTable>,
) -> Result<Seq<CatalogTable>, NoMemory>
    ensures { IfOk result (λ after. (drawn : ℕ) → next ≡ drawn + 1 → after ≡ with_new command.now moment drawn tables) }
{
    match command {
        CatalogCommand::Create { schema } => {
            enter(new_table(alloc, schema, moment, next)?, tables)
        }
        _ => Ok(tables),
    }
}

/// The greatest number that was drawn after a command, or none where there are no more numbers.
fn drawn_after(command: &CatalogCommand, drawn: u64) -> Option<u64>
    ensures { MatchOption result (2 ^ 64 ≤ drawn + draws command.now) (λ last. last ≡ drawn + draws command.now) }
{
    match command {
        CatalogCommand::Create { schema } => {
            drawn
                .checked_add(1)?
                .checked_add(schema.globals.len() as u64)
        }
        CatalogCommand::Drop { .. } | CatalogCommand::TimeToLive { .. } => Some(drawn),
        CatalogCommand::Change { change, .. } => match &change.index {
            Some(IndexChange::Make(_)) => drawn.checked_add(1),
            _ => Some(drawn),
        },
    }
}

/// The catalog after a command that is carried out at a moment. `NoMemory` is for want of memory or of numbers.
pub fn catalog_after(
    alloc: Global,
    command: &CatalogCommand,
    moment: u64,
    catalog: &Catalog,
) -> Result<Catalog, NoMemory>
    ensures { IfOk result (λ after. after ≡ catalog_after command.now moment catalog.now) }
{
    let last = last_drawn(catalog);
    let (Some(next), Some(drawn)) = (last.checked_add(1), drawn_after(command, last)) else {
        return Err(NoMemory);
    };
    let on = subject(command, catalog);
    let kept = kept_tables(alloc, command, on, next, catalog.tables.as_slice())?;
    let tables = with_new(alloc, command, moment, next, kept)?;
    Ok(Catalog { drawn, tables })
}
