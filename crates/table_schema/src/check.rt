ghost use Rattle.std.specs.Prelude.{IsTrue, ◌↔◌, IsOk, IfErr, All};
ghost use Rattle.table_schema.specs.Key.{IsLocalTo, elements_of};
ghost use Rattle.table_schema.specs.Index.{indexes_of, stated_of};
ghost use Rattle.table_schema.specs.Rule.{HasValidDefinitions, Defines, IsKeyAttribute, DefinesParts, DefinesEveryKey, DefinesItsKeys, HasValidIndexNames, HasValidIndexKeys, HasFewIndexes, IsValid};
ghost use Rattle.table_schema.specs.Fault.{IsFirstFault};

use crate::definition::{contain_name, have_distinct_names, have_valid_names};
use crate::fault::SchemaFault;
use crate::indexes::Indexes;
use crate::keys::KeyNames;
use crate::name::is_table_name;
use crate::schema::Schema;
use base_types::Text;

/// The most local indexes of a table.
pub const MAX_LOCALS: usize = 5;

/// The most global indexes of a table.
pub const MAX_GLOBALS: usize = 20;

/// Whether the schema keeps every rule: `Ok` exactly where it does, else the [`SchemaFault`] of the least
/// number among those that are there.
///
/// It takes no memory, so names are compared pair by pair: the time grows with the square of the number of
/// definitions and indexes. A valid table has at most 47 definitions and 25 indexes, but which fault of a
/// longer schema comes first is still looked for among all its names.
pub fn check_schema(schema: &Schema) -> Result<(), SchemaFault>
    ensures valid { IsOk result ↔ IsValid schema.now }
    ensures first { IfErr result (IsFirstFault (stated_of schema.now)) }
{
    if !is_table_name(&schema.name) {
        return Err(SchemaFault::BadName);
    }
    if !schema.keys.are_apart() {
        return Err(SchemaFault::BadKeySchema);
    }
    if !has_valid_definitions(schema) {
        return Err(SchemaFault::BadDefinition);
    }
    if !defines_its_keys(schema) {
        return Err(SchemaFault::DefinitionMismatch);
    }
    if !has_valid_index_names(schema) {
        return Err(SchemaFault::BadIndexName);
    }
    if !has_valid_index_keys(schema) {
        return Err(SchemaFault::BadIndexKey);
    }
    if !Indexes::of(schema).have_valid_projections() {
        return Err(SchemaFault::BadProjection);
    }
    if !has_few_indexes(schema) {
        return Err(SchemaFault::TooManyIndexes);
    }
    Ok(())
}

/// Whether the definitions have names that they may have, each once.
fn has_valid_definitions(schema: &Schema) -> bool
    ensures { IsTrue result ↔ HasValidDefinitions (stated_of schema.now) }
{
    let definitions = schema.definitions.as_slice();
    have_valid_names(definitions) && have_distinct_names(definitions)
}

/// Whether exactly the attributes of the keys are defined.
fn defines_its_keys(schema: &Schema) -> bool
    ensures { IsTrue result ↔ DefinesItsKeys (stated_of schema.now) }
{
    uses_its_definitions(schema) && defines_every_key(schema)
}

/// Whether every definition is of an attribute that serves in a key.
fn uses_its_definitions(schema: &Schema) -> bool
    ensures { IsTrue result ↔ All (λ d. IsKeyAttribute (stated_of schema.now) d.name) schema.now.definitions }
{
    schema
        .definitions
        .iter()
        .all(|definition| has_key_attribute(schema, &definition.name))
}

/// Whether the table or an index has the attribute in its key.
#[tactic(auto, unfolding(crate::specs::Rule::IsKeyAttribute))]
fn has_key_attribute(schema: &Schema, name: &Text) -> bool
    ensures { IsTrue result ↔ IsKeyAttribute (stated_of schema.now) name.now }
{
    schema.keys.names(name) || Indexes::of(schema).any(|index| index.keys.names(name))
}

/// Whether every attribute that serves in a key is defined.
fn defines_every_key(schema: &Schema) -> bool
    ensures { IsTrue result ↔ DefinesEveryKey (stated_of schema.now) }
{
    defines_parts(schema, &schema.keys) && defines_index_keys(schema)
}

/// Whether the parts of every index's key are defined.
fn defines_index_keys(schema: &Schema) -> bool
    ensures { IsTrue result ↔ All (λ i. DefinesParts (stated_of schema.now) i.keys) (indexes_of (stated_of schema.now)) }
{
    Indexes::of(schema).all(|index| defines_parts(schema, index.keys))
}

/// Whether the parts of a key are all defined.
#[tactic(auto, unfolding(crate::specs::Rule::DefinesParts))]
fn defines_parts(schema: &Schema, keys: &KeyNames) -> bool
    ensures { IsTrue result ↔ DefinesParts (stated_of schema.now) (elements_of keys.now) }
{
    if !defines(schema, &keys.partition) {
        return false;
    }
    match &keys.sort {
        Some(sort) => defines(schema, sort),
        None => true,
    }
}

/// Whether the table defines the attribute.
#[tactic(auto, unfolding(crate::specs::Rule::Defines))]
fn defines(schema: &Schema, name: &Text) -> bool
    ensures { IsTrue result ↔ Defines (stated_of schema.now) name.now }
{
    contain_name(schema.definitions.as_slice(), name)
}

/// Whether the indexes have names that they may have, each once.
fn has_valid_index_names(schema: &Schema) -> bool
    ensures { IsTrue result ↔ HasValidIndexNames (stated_of schema.now) }
{
    Indexes::of(schema).have_valid_names() && Indexes::of(schema).have_distinct_names()
}

/// Whether the indexes have keys that they may have on this table.
fn has_valid_index_keys(schema: &Schema) -> bool
    ensures { IsTrue result ↔ HasValidIndexKeys (stated_of schema.now) }
{
    Indexes::of(schema).have_keys_apart() && has_local_keys(schema)
}

/// Whether the key of every local index goes with that of the table.
fn has_local_keys(schema: &Schema) -> bool
    ensures { IsTrue result ↔ All (λ i. IsLocalTo (elements_of schema.now.keys) (elements_of i.keys)) schema.now.locals }
{
    schema
        .locals
        .iter()
        .all(|index| index.keys.are_local_to(&schema.keys))
}

/// Whether there are no more indexes of each kind than a table may have.
fn has_few_indexes(schema: &Schema) -> bool
    ensures { IsTrue result ↔ HasFewIndexes (stated_of schema.now) }
{
    schema.locals.len() <= MAX_LOCALS && schema.globals.len() <= MAX_GLOBALS
}
