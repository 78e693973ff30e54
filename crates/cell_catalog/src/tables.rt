//! Tables by their numbers and names, and their global indexes by their numbers.

ghost use Rattle.std.specs.Prelude.{◌≡◌, ◌+◌, ◌∷◌, [], ◌++◌, if◌then◌else◌, IfOk, OnOk, is_some};
ghost use Rattle.std.specs.List.{zip};
ghost use Rattle.std.specs.Option.{option_copied};
ghost use Rattle.cell_model.specs.Keys.{table_of};
ghost use Rattle.cell_model.specs.Catalogs.{numbered, named, has_table, ascend_from, numbered_indexes, index_numbers, index_at, greatest_of, greatest_in, last_drawn};
ghost use Rattle.cell_model.specs.IndexRows.{numbers_at};
ghost use Rattle.cell_catalog.specs.Numbers.{stays, numbers_beside};

use base_types::{Seq, Text};
use cell_model::{Catalog, CatalogTable, CellKey};
use std::alloc::{AllocError as NoMemory, Global};
use table_schema::GlobalIndex;

/// The number of the key's table.
pub fn table_of(key: &CellKey) -> u64
    ensures { result ≡ table_of key.now }
{
    match key {
        CellKey::Item(key) => key.table,
        CellKey::Row(key) => key.table,
    }
}

/// The table of this number, where it is there.
pub fn table_numbered(catalog: &Catalog, number: u64) -> Option<&CatalogTable>
    ensures { option_copied result ≡ numbered catalog.now.tables number }
{
    find_numbered(catalog.tables.as_slice(), number)
}

/// The first of the tables that has the number.
fn find_numbered(tables: &[CatalogTable], number: u64) -> Option<&CatalogTable>
    ensures { option_copied result ≡ numbered tables.now number }
{
    for table in tables {
        if table.number == number {
            return Some(table);
        }
    }
    None
}

/// The table of this name, where it is there.
pub(crate) fn table_named<'a>(catalog: &'a Catalog, name: &Text) -> Option<&'a CatalogTable>
    ensures { option_copied result ≡ named catalog.now.tables name.now }
{
    find_named(catalog.tables.as_slice(), name)
}

/// The first of the tables that has the name.
fn find_named<'a>(tables: &'a [CatalogTable], name: &Text) -> Option<&'a CatalogTable>
    ensures { option_copied result ≡ named tables.now name.now }
{
    for table in tables {
        if table.schema.name == *name {
            return Some(table);
        }
    }
    None
}

/// Whether there is a table of this number.
pub fn has_table(catalog: &Catalog, number: u64) -> bool
    ensures { result ≡ has_table catalog.now number }
{
    table_numbered(catalog, number).is_some()
}

/// Whether there is a table of this name.
pub(crate) fn has_name(catalog: &Catalog, name: &Text) -> bool
    ensures { result ≡ is_some (named catalog.now.tables name.now) }
{
    table_named(catalog, name).is_some()
}

/// Whether the numbers ascend, each above the one before it, and the first above `last`.
fn ascend_behind(last: u64, numbers: &[u64]) -> bool
    ensures { result ≡ ascend_from (last + 1) numbers.now }
{
    match numbers.split_first() {
        None => true,
        Some((number, others)) => last < *number && ascend_behind(*number, others),
    }
}

/// Whether the numbers ascend.
fn ascend(numbers: &[u64]) -> bool
    ensures { result ≡ ascend_from 0 numbers.now }
{
    match numbers.split_first() {
        None => true,
        Some((number, others)) => ascend_behind(*number, others),
    }
}

/// The index that stands at the place of the number.
fn find_index<'a>(
    number: u64,
    numbers: &[u64],
    indexes: &'a [GlobalIndex],
) -> Option<&'a GlobalIndex>
    ensures { option_copied result ≡ index_at number (zip numbers.now indexes.now) }
{
    match (numbers.split_first(), indexes.split_first()) {
        (Some((first, numbers)), Some((index, indexes))) => {
            if *first == number {
                Some(index)
            } else {
                find_index(number, numbers, indexes)
            }
        }
        _ => None,
    }
}

/// The global index of this number, where the table has it.
pub fn index_numbered(table: &CatalogTable, number: u64) -> Option<&GlobalIndex>
    ensures { option_copied result ≡ index_at number (numbered_indexes table.now) }
{
    let numbers = table.indexes.as_slice();
    if !ascend(numbers) {
        return None;
    }
    find_index(number, numbers, table.schema.globals.as_slice())
}

/// Whether the index does not have the name that goes.
fn stays(gone: Option<&Text>, index: &GlobalIndex) -> bool
    ensures { result ≡ stays (option_copied gone.entry) index.now }
{
    match gone {
        Some(name) => index.name != *name,
        None => true,
    }
}

/// Adds the number, where it is to be added.
fn add_if(added: &mut Seq<u64>, is_added: bool, number: u64) -> Result<(), NoMemory>
    ensures { OnOk result (added.new ≡ (if is_added then added.old ++ number ∷ [] else added.old)) }
{
    if is_added {
        added.push(number)?;
    }
    Ok(())
}

/// Adds the numbers of these indexes, but for one of this name.
fn add_numbers(
    added: &mut Seq<u64>,
    numbers: &[u64],
    indexes: &[GlobalIndex],
    gone: Option<&Text>,
) -> Result<(), NoMemory>
    ensures { OnOk result (added.new ≡ added.old ++ numbers_beside (option_copied gone.entry) (zip numbers.now indexes.now)) }
{
    match (numbers.split_first(), indexes.split_first()) {
        (Some((number, numbers)), Some((index, indexes))) => {
            add_if(added, stays(gone, index), *number)?;
            add_numbers(added, numbers, indexes, gone)
        }
        _ => Ok(()),
    }
}

/// The numbers of the table's global indexes, but for one of this name.
pub(crate) fn numbers_beside(
    alloc: Global,
    table: &CatalogTable,
    gone: Option<&Text>,
) -> Result<Seq<u64>, NoMemory>
    ensures { IfOk result (λ numbers. numbers ≡ numbers_beside (option_copied gone.entry) (numbered_indexes table.now)) }
{
    let mut numbers = Seq::new(alloc);
    if ascend(table.indexes.as_slice()) {
        let indexes = table.schema.globals.as_slice();
        add_numbers(&mut numbers, table.indexes.as_slice(), indexes, gone)?;
    }
    Ok(numbers)
}

/// The numbers of the table's global indexes.
pub fn index_numbers(alloc: Global, table: &CatalogTable) -> Result<Seq<u64>, NoMemory>
    ensures { IfOk result (λ numbers. numbers ≡ index_numbers table.now) }
{
    numbers_beside(alloc, table, None)
}

/// The numbers of the global indexes of the table of this number; none, where it is not there.
pub fn numbers_at(alloc: Global, catalog: &Catalog, number: u64) -> Result<Seq<u64>, NoMemory>
    ensures { IfOk result (λ numbers. numbers ≡ numbers_at catalog.now number) }
{
    match table_numbered(catalog, number) {
        Some(table) => index_numbers(alloc, table),
        None => Ok(Seq::new(alloc)),
    }
}

/// The greatest of the numbers, or 0.
fn greatest_of(numbers: &[u64]) -> u64
    ensures { result ≡ greatest_of numbers.now }
{
    match numbers.split_first() {
        None => 0,
        Some((number, others)) => (*number).max(greatest_of(others)),
    }
}

/// The greatest number of these tables and their indexes, or 0.
fn greatest_in(tables: &[CatalogTable]) -> u64
    ensures { result ≡ greatest_in tables.now }
{
    match tables.split_first() {
        None => 0,
        Some((table, others)) => {
            let own = table.number.max(greatest_of(table.indexes.as_slice()));
            own.max(greatest_in(others))
        }
    }
}

/// The greatest number that was drawn for a table or an index.
pub fn last_drawn(catalog: &Catalog) -> u64
    ensures { result ≡ last_drawn catalog.now }
{
    catalog.drawn.max(greatest_in(catalog.tables.as_slice()))
}
