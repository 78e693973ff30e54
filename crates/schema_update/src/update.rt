//! The schema that an update states, and its judgement.

ghost use Rattle.std.specs.Prelude.{◌≡◌, IfOk};
ghost use Rattle.table_model.specs.Catalog.{updated_schema};
ghost use Rattle.schema_update.specs.Updated.{refusal_of, IsUpdated};

use crate::definitions::join_definitions;
use crate::index::{changed_indexes, index_refusal};
use crate::kinds::has_bad_definition;
use base_types::Seq;
use std::alloc::{AllocError as NoMemory, Global};
use std::mem::replace;
use table_model::{Invalid, Refusal};
use table_request::TableUpdate;
use table_schema::{Schema, SchemaFault, check_schema};

/// The schema that a table of this schema has after an update, or the first refusal: NoIndex, for an index that goes and
/// is not there; then the schema's faults, which are BadIndexName for an index that comes and is there, BadDefinition for
/// a definition whose name does not have 1 to 255 bytes or that gives another type to a name, and then the first fault of the schema that the update states
/// (API Reference: UpdateTable).
///
/// Definitions that no key uses are dropped. `NoMemory` is for want of memory.
pub fn updated(
    alloc: Global,
    schema: &Schema,
    update: TableUpdate,
) -> Result<Result<Schema, Refusal>, NoMemory>
    ensures { IfOk result (IsUpdated schema.now update) }
{
    if let Some(refusal) = refusal_of(alloc, schema, &update)? {
        return Ok(Err(refusal));
    }
    let stated = stated_schema(alloc, schema, update)?;
    match check_schema(&stated) {
        Ok(()) => Ok(Ok(stated)),
        Err(fault) => Ok(Err(Refusal::Invalid(Invalid::Schema(fault)))),
    }
}

/// The first refusal for which the schema that is stated need not be looked at.
fn refusal_of(
    alloc: Global,
    schema: &Schema,
    update: &TableUpdate,
) -> Result<Option<Refusal>, NoMemory>
    ensures { IfOk result (λ refusal. refusal ≡ refusal_of schema.now update.now) }
{
    let refusal = index_refusal(schema, update.index.as_ref())?;
    if refusal.is_some() {
        return Ok(refusal);
    }
    let known = schema.definitions.as_slice();
    if has_bad_definition(alloc, known, update.definitions.as_slice())? {
        let fault = SchemaFault::BadDefinition;
        return Ok(Some(Refusal::Invalid(Invalid::Schema(fault))));
    }
    Ok(None)
}

/// The schema as an update states it, whether or not the update is refused. Definitions that no key uses are dropped.
/// `NoMemory` is for want of memory.
pub fn stated_schema(
    alloc: Global,
    schema: &Schema,
    update: TableUpdate,
) -> Result<Schema, NoMemory>
    ensures { IfOk result (λ stated. stated ≡ updated_schema schema.now update) }
{
    let mut stated = schema.try_clone()?;
    stated.on_demand = update.on_demand.unwrap_or(stated.on_demand);
    stated.read_units = update.read_units.unwrap_or(stated.read_units);
    stated.write_units = update.write_units.unwrap_or(stated.write_units);
    let globals = replace(&mut stated.globals, Seq::new(alloc));
    stated.globals = changed_indexes(globals, update.index)?;
    join_definitions(alloc, &mut stated, update.definitions)?;
    Ok(stated)
}
