//! What becomes of a command that no name and no pending stands in the way of.

ghost use Rattle.std.specs.Prelude.{◌≡◌, ◌+◌, IfOk, is_some};
ghost use Rattle.std.specs.Option.{option_copied};
ghost use Rattle.table_model.specs.Catalog.{has_index};
ghost use Rattle.table_model.specs.Pages.{global_named, local_named};
ghost use Rattle.table_schema.specs.Index.{stated_of};
ghost use Rattle.cell_model.specs.Catalogs.{last_drawn};
ghost use Rattle.cell_model.specs.FirstFault.{first_fault};
ghost use Rattle.cell_model.specs.Commands.{index_fault, typed_ruling, update_ruling, create_ruling, drop_ruling, change_ruling, ttl_ruling, ruling};
ghost use Rattle.cell_catalog.specs.Faults.{schema_fault};

use crate::commands::is_typed;
use crate::copies::copy_of_update;
use crate::tables::{last_drawn, table_named};
use base_types::Text;
use cell_model::{Catalog, CatalogAnswer, CatalogCommand, CatalogTable};
use schema_update::{expiring, ttl_fault, updated};
use std::alloc::{AllocError as NoMemory, Global};
use table_model::{Invalid, Refusal};
use table_request::{IndexChange, TableUpdate};
use table_schema::{Schema, SchemaFault, check_schema};
use txn_core::Ruling;

/// The most tables of a catalog.
const MAX_TABLES: usize = 256;

/// Whether a global index of the table has the name.
fn has_global(schema: &Schema, name: &Text) -> bool
    ensures { result ≡ is_some (global_named name.now schema.now.globals) }
{
    for index in schema.globals.as_slice() {
        if index.name == *name {
            return true;
        }
    }
    false
}

/// Whether a local index of the table has the name.
fn has_local(schema: &Schema, name: &Text) -> bool
    ensures { result ≡ is_some (local_named name.now schema.now.locals) }
{
    for index in schema.locals.as_slice() {
        if index.name == *name {
            return true;
        }
    }
    false
}

/// Whether an index of the table has the name.
fn has_index(schema: &Schema, name: &Text) -> bool
    ensures { result ≡ has_index schema.now name.now }
{
    has_local(schema, name) || has_global(schema, name)
}

/// The refusal of a change of an index: one that goes is not there, or one that comes is.
fn index_fault(schema: &Schema, change: &Option<IndexChange>) -> Option<CatalogAnswer>
    ensures { result ≡ index_fault schema.now change.now }
{
    match change {
        None => None,
        Some(IndexChange::Remove(name)) if has_global(schema, name) => None,
        Some(IndexChange::Remove(_)) => Some(CatalogAnswer::NoIndex),
        Some(IndexChange::Make(index)) if has_index(schema, &index.name) => {
            Some(CatalogAnswer::IndexExists)
        }
        Some(IndexChange::Make(_)) => None,
    }
}

/// The fault of a schema that a refusal tells of.
fn schema_fault(refusal: Refusal) -> Option<SchemaFault>
    ensures { result ≡ schema_fault refusal }
{
    match &refusal {
        Refusal::Invalid(Invalid::Schema(fault)) => Some(*fault),
        _ => None,
    }
}

/// What becomes of an update of a table whose keys have types: first its index, then its definitions, then the schema that
/// it states.
fn typed_ruling(
    alloc: Global,
    update: &TableUpdate,
    table: &CatalogTable,
) -> Result<Ruling<CatalogAnswer>, NoMemory>
    ensures { IfOk result (λ told. told ≡ typed_ruling update.now table.now) }
{
    if let Some(told) = index_fault(&table.schema, &update.index) {
        return Ok(Ruling::Refuses { told });
    }
    match updated(alloc, &table.schema, copy_of_update(update)?)? {
        Ok(schema) => Ok(Ruling::Carries {
            told: CatalogAnswer::Changed { schema },
        }),
        Err(refusal) => match schema_fault(refusal) {
            Some(fault) => Ok(Ruling::Refuses {
                told: CatalogAnswer::BadSchema { fault },
            }),
            None => unreachable!(),
        },
    }
}

/// What becomes of an update of a table.
fn update_ruling(
    alloc: Global,
    update: &TableUpdate,
    table: &CatalogTable,
) -> Result<Ruling<CatalogAnswer>, NoMemory>
    ensures { IfOk result (λ told. told ≡ update_ruling update.now table.now) }
{
    if is_typed(&table.schema) {
        return typed_ruling(alloc, update, table);
    }
    Ok(Ruling::Refuses {
        told: CatalogAnswer::BadSchema {
            fault: SchemaFault::DefinitionMismatch,
        },
    })
}

/// The first fault of a schema.
fn first_fault(schema: &Schema) -> Option<SchemaFault>
    ensures { result ≡ first_fault (stated_of schema.now) }
{
    check_schema(schema).err()
}

/// What becomes of a Create: it is refused where there are 256 tables, then for the first fault of its schema, and has the
/// next number else. `NoMemory` is for want of numbers.
fn create_ruling(schema: &Schema, catalog: &Catalog) -> Result<Ruling<CatalogAnswer>, NoMemory>
    ensures { IfOk result (λ told. told ≡ create_ruling schema.now catalog.now) }
{
    if catalog.tables.len() >= MAX_TABLES {
        return Ok(Ruling::Refuses {
            told: CatalogAnswer::Full,
        });
    }
    match first_fault(schema) {
        Some(fault) => Ok(Ruling::Refuses {
            told: CatalogAnswer::BadSchema { fault },
        }),
        None => made_ruling(catalog),
    }
}

/// A table is made, with the next number. `NoMemory` is for want of numbers.
fn made_ruling(catalog: &Catalog) -> Result<Ruling<CatalogAnswer>, NoMemory>
    ensures { IfOk result (λ told. told ≡ Ruling.Carries (CatalogAnswer.Made (last_drawn catalog.now + 1))) }
{
    match last_drawn(catalog).checked_add(1) {
        Some(number) => Ok(Ruling::Carries {
            told: CatalogAnswer::Made { number },
        }),
        None => Err(NoMemory),
    }
}

/// What becomes of a Drop.
fn drop_ruling(table: Option<&CatalogTable>) -> Result<Ruling<CatalogAnswer>, NoMemory>
    ensures { IfOk result (λ told. told ≡ drop_ruling (option_copied table.entry)) }
{
    match table {
        None => Ok(Ruling::Refuses {
            told: CatalogAnswer::NoTable,
        }),
        Some(table) => Ok(Ruling::Carries {
            told: CatalogAnswer::Dropped {
                schema: table.schema.try_clone()?,
            },
        }),
    }
}

/// What becomes of a Change.
fn change_ruling(
    alloc: Global,
    update: &TableUpdate,
    table: Option<&CatalogTable>,
) -> Result<Ruling<CatalogAnswer>, NoMemory>
    ensures { IfOk result (λ told. told ≡ change_ruling update.now (option_copied table.entry)) }
{
    match table {
        None => Ok(Ruling::Refuses {
            told: CatalogAnswer::NoTable,
        }),
        Some(table) => update_ruling(alloc, update, table),
    }
}

/// What becomes of a TimeToLive.
fn ttl_ruling(
    attribute: &Text,
    enabled: bool,
    table: Option<&CatalogTable>,
) -> Result<Ruling<CatalogAnswer>, NoMemory>
    ensures { IfOk result (λ told. told ≡ ttl_ruling attribute.now enabled (option_copied table.entry)) }
{
    let Some(table) = table else {
        return Ok(Ruling::Refuses {
            told: CatalogAnswer::NoTable,
        });
    };
    match ttl_fault(&table.schema.ttl, attribute, enabled) {
        Some(fault) => Ok(Ruling::Refuses {
            told: CatalogAnswer::TtlRefused { fault },
        }),
        None => Ok(Ruling::Carries {
            told: CatalogAnswer::Changed {
                schema: expiring(&table.schema, attribute, enabled)?,
            },
        }),
    }
}

/// What becomes of a command that no name and no pending stands in the way of.
pub fn ruling(
    alloc: Global,
    command: &CatalogCommand,
    catalog: &Catalog,
) -> Result<Ruling<CatalogAnswer>, NoMemory>
    ensures { IfOk result (λ told. told ≡ ruling command.now catalog.now) }
{
    match command {
        CatalogCommand::Create { schema } => create_ruling(schema, catalog),
        CatalogCommand::Drop { name } => drop_ruling(table_named(catalog, name)),
        CatalogCommand::Change { name, change } => {
            change_ruling(alloc, change, table_named(catalog, name))
        }
        CatalogCommand::TimeToLive {
            name,
            attribute,
            enabled,
        } => ttl_ruling(attribute, *enabled, table_named(catalog, name)),
    }
}
