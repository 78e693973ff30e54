//! From a schema as it is stated to the schema.

ghost use Rattle.std.specs.Prelude.{◌≡◌, ◌↔◌, IsTrue, IfOk, IfErr, IfSome, All, is_some, map};
ghost use Rattle.table_schema.specs.Key.{IsKeySchema, elements_of};
ghost use Rattle.table_schema.specs.Index.{of_local, of_global, stated_of};
ghost use Rattle.table_schema.specs.Rule.{IsSound, IsValid};
ghost use Rattle.table_schema.specs.Fault.{IsFirstFault, IfFault};

use crate::fault::SchemaEnd;
use crate::index::{GlobalIndex, LocalIndex};
use crate::keys::KeyNames;
use crate::schema::Schema;
use crate::sound::is_key_schema;
use crate::stated::{KeyElement, StatedIndex, StatedSchema};
use base_types::Seq;
use std::alloc::{AllocError as NoMemory, Global};

impl StatedSchema {
    /// The schema that is stated, where it keeps every rule; else the [`SchemaFault`](crate::SchemaFault) of the least
    /// number among those that are there.
    ///
    /// A list of key elements of another form than one HASH and then at most one RANGE is BadKeySchema, that of an index
    /// BadIndexKey; the names in it count as key attributes all the same. Nothing is copied, and the time is that of
    /// sorting the names.
    pub fn into_schema(self, alloc: Global) -> Result<Schema, SchemaEnd>
        ensures stated { IfOk result (λ schema. stated_of schema ≡ self) }
        ensures valid { IfOk result (λ schema. IsValid schema) }
        ensures first { IfErr result (λ end. IfFault end (IsFirstFault self)) }
    {
        self.check(alloc)?;
        Ok(self.converted(alloc)?)
    }

    /// The schema, each list of key elements as key names.
    fn converted(self, alloc: Global) -> Result<Schema, NoMemory>
        requires { IsSound self }
        ensures { IfOk result (λ schema. stated_of schema ≡ self) }
    {
        let locals = local_indexes(alloc, self.locals)?;
        let globals = global_indexes(alloc, self.globals)?;
        Ok(Schema {
            name: self.name,
            definitions: self.definitions,
            keys: key_names(self.keys),
            locals,
            globals,
            on_demand: self.on_demand,
            read_units: self.read_units,
            write_units: self.write_units,
            created: self.created,
            ttl: self.ttl,
            stream: self.stream,
        })
    }
}

impl StatedIndex {
    /// The global index that is stated, where its list of key elements has the form of a key: one HASH and then at most one
    /// RANGE, of another attribute. No other rule is asked.
    pub fn into_global(self) -> Option<GlobalIndex>
        ensures stated { IfSome result (λ index. of_global index ≡ self) }
        ensures some { IsTrue (is_some result) ↔ IsKeySchema self.keys }
    {
        if !is_key_schema(self.keys.as_slice()) {
            return None;
        }
        Some(GlobalIndex {
            name: self.name,
            keys: key_names(self.keys),
            projection: self.projection,
        })
    }
}

/// The names that a list of key elements states.
fn key_names(elements: Seq<KeyElement>) -> KeyNames
    requires { IsKeySchema elements }
    ensures { elements_of result ≡ elements }
{
    let mut elements = Vec::from(elements).into_iter();
    let hash = elements.next();
    let range = elements.next();
    match hash {
        Some(hash) => KeyNames {
            partition: hash.name,
            sort: range.map(|element| element.name),
        },
        None => unreachable!(),
    }
}

/// The local indexes that are stated.
fn local_indexes(alloc: Global, stated: Seq<StatedIndex>) -> Result<Seq<LocalIndex>, NoMemory>
    requires { All (λ i. IsKeySchema i.keys) stated }
    ensures { IfOk result (λ locals. map of_local locals ≡ stated) }
{
    let mut locals = Seq::with_capacity(alloc, stated.len())?;
    for index in Vec::from(stated) {
        locals.push(LocalIndex {
            name: index.name,
            keys: key_names(index.keys),
            projection: index.projection,
        })?;
    }
    Ok(locals)
}

/// The global indexes that are stated.
fn global_indexes(alloc: Global, stated: Seq<StatedIndex>) -> Result<Seq<GlobalIndex>, NoMemory>
    requires { All (λ i. IsKeySchema i.keys) stated }
    ensures { IfOk result (λ globals. map of_global globals ≡ stated) }
{
    let mut globals = Seq::with_capacity(alloc, stated.len())?;
    for index in Vec::from(stated) {
        globals.push(GlobalIndex {
            name: index.name,
            keys: key_names(index.keys),
            projection: index.projection,
        })?;
    }
    Ok(globals)
}
