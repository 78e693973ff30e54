//! What is told of the catalog.

ghost use Rattle.std.specs.Prelude.{◌≡◌, IfOk, map, filter};
ghost use Rattle.std.specs.Option.{option_copied};
ghost use Rattle.table_model.specs.Catalog.{is_after};
ghost use Rattle.cell_model.specs.Catalogs.{named};
ghost use Rattle.cell_model.specs.Pages.{told_table, name_list};

use crate::tables::{index_numbers, table_named};
use base_types::{Seq, Text};
use cell_model::{Catalog, CatalogAnswer, CatalogTable};
use std::alloc::{AllocError as NoMemory, Global};

/// What is told of a table that may be there.
fn told_table(alloc: Global, table: Option<&CatalogTable>) -> Result<CatalogAnswer, NoMemory>
    ensures { IfOk result (λ told. told ≡ told_table (option_copied table.entry)) }
{
    match table {
        None => Ok(CatalogAnswer::NoTable),
        Some(table) => Ok(CatalogAnswer::Table {
            table: table.number,
            schema: table.schema.try_clone()?,
            indexes: index_numbers(alloc, table)?,
        }),
    }
}

/// What is told of the table of a name.
pub fn told_named(alloc: Global, catalog: &Catalog, name: &Text) -> Result<CatalogAnswer, NoMemory>
    ensures { IfOk result (λ told. told ≡ told_table (named catalog.now.tables name.now)) }
{
    told_table(alloc, table_named(catalog, name))
}

/// Whether the name comes after the one that is stated.
fn is_after(after: &Option<Text>, name: &Text) -> bool
    ensures { result ≡ is_after after.now name.now }
{
    match after {
        Some(start) => start < name,
        None => true,
    }
}

/// The names of the tables behind the one that is stated.
fn names_after(
    alloc: Global,
    tables: &[CatalogTable],
    after: &Option<Text>,
) -> Result<Seq<Text>, NoMemory>
    ensures { IfOk result (λ names. names ≡ filter (is_after after.now) (map (λ table. table.schema.name) tables.now)) }
{
    let mut names = Seq::new(alloc);
    for table in tables {
        if is_after(after, &table.schema.name) {
            names.push(table.schema.name.try_clone()?)?;
        }
    }
    Ok(names)
}

/// The first of the names, and whether more follow.
fn name_list(limit: u64, mut names: Seq<Text>) -> CatalogAnswer
    ensures { result ≡ name_list limit names }
{
    let more = limit < names.len() as u64;
    if more {
        names.truncate(limit as usize);
    }
    CatalogAnswer::NameList { names, more }
}

/// The first names of tables behind the one that is stated, in the order of their bytes, and whether more follow.
pub fn told_names(
    alloc: Global,
    catalog: &Catalog,
    after: &Option<Text>,
    limit: u64,
) -> Result<CatalogAnswer, NoMemory>
    ensures { IfOk result (λ told. told
        ≡ name_list limit (filter (is_after after.now) (map (λ table. table.schema.name) catalog.now.tables))) }
{
    let names = names_after(alloc, catalog.tables.as_slice(), after)?;
    Ok(name_list(limit, names))
}
