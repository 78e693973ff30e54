//! CreateTable: the schema that its body states.

ghost use Rattle.std.specs.Prelude.{◌≡◌, IfOk};
ghost use Rattle.serde_json.specs.View.{view};
ghost use Rattle.api_form.specs.declared.name.Name.TheVariants as name;
ghost use Rattle.request_parts.specs.Members.{inside};
ghost use Rattle.request_parts.specs.Ends.{IsToldOf};
ghost use Rattle.api_request.specs.Schemas.{kind_named, role_named, projection, units_of, stated_schema, IsCreateTable};

use crate::stated::{Stated, read_all};
use api_form::Name;
use request_parts::{Refusal, RequestEnd, copy_at, list_at, stated_whole, text_at, texts};
use serde_json::Value;
use std::alloc::{AllocError as NoMemory, Global};
use table_request::CreateTable;
use table_schema::{
    Definition, KeyElement, KeyKind, KeyRole, Projection, SchemaEnd, StatedIndex, StatedSchema,
};

/// What the body of a CreateTable states (API Reference: CreateTable), or the first rule that its schema breaks.
pub fn create_table(alloc: Global, json: &Value) -> Result<CreateTable, RequestEnd>
    ensures { IsToldOf (IsCreateTable (view json.now)) result }
{
    match stated_schema(alloc, json)?.into_schema(alloc) {
        Ok(schema) => Ok(CreateTable { schema }),
        Err(SchemaEnd::Fault(fault)) => Err(RequestEnd::Fault(Refusal::Schema(fault))),
        Err(SchemaEnd::NoMemory) => Err(RequestEnd::NoMemory),
    }
}

/// The schema as it is stated.
fn stated_schema(alloc: Global, json: &Value) -> Result<StatedSchema, NoMemory>
    ensures { IfOk result (λ schema. schema ≡ stated_schema (view json.now)) }
{
    Ok(StatedSchema {
        name: copy_at(alloc, json, Name::TableName)?,
        definitions: read_all::<Definition>(alloc, list_at(json, Name::AttributeDefinitions))?,
        keys: read_all::<KeyElement>(alloc, list_at(json, Name::KeySchema))?,
        locals: read_all::<StatedIndex>(alloc, list_at(json, Name::LocalSecondaryIndexes))?,
        globals: read_all::<StatedIndex>(alloc, list_at(json, Name::GlobalSecondaryIndexes))?,
        on_demand: text_at(json, Name::BillingMode) == "PAY_PER_REQUEST",
        read_units: units_of(json, Name::ReadCapacityUnits).unwrap_or(0),
        write_units: units_of(json, Name::WriteCapacityUnits).unwrap_or(0),
        created: 0,
        ttl: None,
        stream: None,
    })
}

/// Units of the throughput, where they are stated.
pub(crate) fn units_of(json: &Value, unit: Name) -> Option<u64>
    ensures { result ≡ units_of unit (view json.now) }
{
    match json.get(Name::ProvisionedThroughput.text()) {
        Some(inner) => stated_whole(inner, unit),
        None => None,
    }
}

/// The kind that a word names; the form has no other words.
fn kind_named(word: &str) -> KeyKind
    ensures { result ≡ kind_named word.now }
{
    match word {
        "S" => KeyKind::S,
        "N" => KeyKind::N,
        _ => KeyKind::B,
    }
}

/// The role that a word names; the form has no other words.
fn role_named(word: &str) -> KeyRole
    ensures { result ≡ role_named word.now }
{
    if word == "HASH" {
        KeyRole::Hash
    } else {
        KeyRole::Range
    }
}

impl Stated for Definition {
    ghost use Rattle.api_request.specs.Schemas.{definition};

    ghost stated = { definition };

    fn read(alloc: Global, json: &Value) -> Result<Definition, NoMemory> {
        Ok(Definition {
            name: copy_at(alloc, json, Name::AttributeName)?,
            kind: kind_named(text_at(json, Name::AttributeType)),
        })
    }
}

impl Stated for KeyElement {
    ghost use Rattle.api_request.specs.Schemas.{key_element};

    ghost stated = { key_element };

    fn read(alloc: Global, json: &Value) -> Result<KeyElement, NoMemory> {
        Ok(KeyElement {
            name: copy_at(alloc, json, Name::AttributeName)?,
            role: role_named(text_at(json, Name::KeyType)),
        })
    }
}

impl Stated for Projection {
    ghost use Rattle.api_request.specs.Schemas.{projection};

    ghost stated = { projection };

    fn read(alloc: Global, json: &Value) -> Result<Projection, NoMemory> {
        match text_at(json, Name::ProjectionType) {
            "KEYS_ONLY" => Ok(Projection::KeysOnly),
            "INCLUDE" => Ok(Projection::Include(texts(
                alloc,
                list_at(json, Name::NonKeyAttributes),
            )?)),
            _ => Ok(Projection::All),
        }
    }
}

/// The projection of an index, which its form has.
fn projection_of(alloc: Global, json: &Value) -> Result<Projection, NoMemory>
    ensures { IfOk result (λ p. p ≡ projection (inside name.Projection (view json.now))) }
{
    match json.get(Name::Projection.text()) {
        Some(inner) => Projection::read(alloc, inner),
        None => Ok(Projection::All),
    }
}

impl Stated for StatedIndex {
    ghost use Rattle.api_request.specs.Schemas.{stated_index};

    ghost stated = { stated_index };

    fn read(alloc: Global, json: &Value) -> Result<StatedIndex, NoMemory> {
        Ok(StatedIndex {
            name: copy_at(alloc, json, Name::IndexName)?,
            keys: read_all::<KeyElement>(alloc, list_at(json, Name::KeySchema))?,
            projection: projection_of(alloc, json)?,
        })
    }
}
