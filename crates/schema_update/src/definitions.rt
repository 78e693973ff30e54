//! The definitions that a schema has after an update.

ghost use Rattle.std.specs.Prelude.{◌≡◌, OnOk, filter};
ghost use Rattle.std.specs.List.{list_any};
ghost use Rattle.table_schema.specs.Kind.{kind_of};
ghost use Rattle.table_schema.specs.KeyName.{is_key_name};
ghost use Rattle.row_keys.specs.Rows.{index_keys};
ghost use Rattle.table_model.specs.Catalog.{added_if, is_used, with_definitions, with_used};

use base_types::{Seq, Text};
use std::alloc::{AllocError as NoMemory, Global};
use std::mem::replace;
use table_schema::{Definition, Schema};

/// Adds definitions to those of a schema, each name once, and drops those that no key uses.
pub(crate) fn join_definitions(
    alloc: Global,
    schema: &mut Schema,
    added: Seq<Definition>,
) -> Result<(), NoMemory>
    ensures { OnOk result (schema.new ≡ with_used (record schema.old { definitions = with_definitions schema.old.definitions added })) }
{
    let known = replace(&mut schema.definitions, Seq::new(alloc));
    schema.definitions = used_definitions(schema, known);
    let added = used_definitions(schema, added);
    add_definitions(schema, added)
}

/// Those of the definitions that a key of the schema uses.
fn used_definitions(schema: &Schema, definitions: Seq<Definition>) -> Seq<Definition>
    ensures { result ≡ filter (λ definition. is_used schema.now definition.name) definitions }
{
    let mut used = Vec::from(definitions);
    used.retain(|definition| is_used(schema, &definition.name));
    Seq::from(used)
}

/// Whether some key of the table or of an index has the name.
fn is_used(schema: &Schema, name: &Text) -> bool
    ensures { result ≡ is_used schema.now name.now }
{
    schema.keys.names(name) || is_index_key(schema, name)
}

/// Whether some key of an index has the name.
fn is_index_key(schema: &Schema, name: &Text) -> bool
    ensures { result ≡ list_any (λ keys. is_key_name keys name.now) (index_keys schema.now) }
{
    if schema.locals.iter().any(|index| index.keys.names(name)) {
        return true;
    }
    schema.globals.iter().any(|index| index.keys.names(name))
}

/// Adds the definitions of names that the schema does not define.
fn add_definitions(schema: &mut Schema, added: Seq<Definition>) -> Result<(), NoMemory>
    ensures { OnOk result (schema.new ≡ record schema.old { definitions = with_definitions schema.old.definitions added }) }
{
    for definition in Vec::from(added) {
        add_definition(schema, definition)?;
    }
    Ok(())
}

/// Adds a definition, where the schema does not define its name.
fn add_definition(schema: &mut Schema, definition: Definition) -> Result<(), NoMemory>
    ensures { OnOk result (schema.new
        ≡ record schema.old { definitions = added_if (kind_of definition.name schema.old.definitions) definition schema.old.definitions }) }
{
    if schema.kind_of(&definition.name).is_none() {
        schema.definitions.push(definition)?;
    }
    Ok(())
}
