ghost use Rattle.std.specs.Prelude.{◌≡◌, IfOk};
ghost use Rattle.table_schema.specs.Kind.{kind_of};

use crate::definition::{Definition, KeyKind};
use crate::index::{GlobalIndex, LocalIndex};
use crate::keys::KeyNames;
use crate::stream::Stream;
use base_types::{Seq, Text};
use std::alloc::AllocError as NoMemory;

/// What a table was made with (API Reference: CreateTable, TableDescription).
#[derive(Debug, PartialEq, Eq)]
pub struct Schema {
    pub name: Text,
    pub definitions: Seq<Definition>,
    pub keys: KeyNames,
    pub locals: Seq<LocalIndex>,
    pub globals: Seq<GlobalIndex>,
    /// Whether the table is billed by request (PAY_PER_REQUEST), and not by the units below (PROVISIONED).
    pub on_demand: bool,
    /// Read capacity units per second.
    pub read_units: u64,
    /// Write capacity units per second.
    pub write_units: u64,
    /// The moment at which the table was made, in microseconds.
    pub created: u64,
    /// The name of the attribute that says when an item is expired, where items expire (API Reference:
    /// TimeToLiveSpecification).
    pub ttl: Option<Text>,
    /// The stream of the table's changes, where it has one.
    pub stream: Option<Stream>,
}

// By hand, so that no crate above proves it again.
impl Drop for Schema {
    fn drop(self) {
        let Schema {
            name: _,
            definitions: _,
            keys: _,
            locals: _,
            globals: _,
            on_demand: _,
            read_units: _,
            write_units: _,
            created: _,
            ttl: _,
            stream: _,
        } = self;
    }
}

impl Schema {
    /// The type of the attribute of this name, where it is defined.
    pub fn kind_of(&self, name: &Text) -> Option<KeyKind>
        ensures { result ≡ kind_of name.now self.now.definitions }
    {
        for definition in self.definitions.as_slice() {
            if definition.name == *name {
                return Some(definition.kind);
            }
        }
        None
    }

    /// The table's name.
    pub fn into_name(self) -> Text
        ensures { result ≡ self.name }
    {
        let Schema {
            name,
            definitions: _,
            keys: _,
            locals: _,
            globals: _,
            on_demand: _,
            read_units: _,
            write_units: _,
            created: _,
            ttl: _,
            stream: _,
        } = self;
        name
    }

    /// An equal schema.
    pub fn try_clone(&self) -> Result<Schema, NoMemory>
        ensures { IfOk result (λ copy. copy ≡ self.now) }
    {
        let ttl = match &self.ttl {
            Some(name) => Some(name.try_clone()?),
            None => None,
        };
        Ok(Schema {
            name: self.name.try_clone()?,
            definitions: self.definitions.try_clone()?,
            keys: self.keys.try_clone()?,
            locals: self.locals.try_clone()?,
            globals: self.globals.try_clone()?,
            on_demand: self.on_demand,
            read_units: self.read_units,
            write_units: self.write_units,
            created: self.created,
            ttl,
            stream: self.stream,
        })
    }
}

impl Clone for Schema {
    ghost is_clone = { λ schema copy. copy ≡ schema };

    fn clone(&self) -> Result<Schema, NoMemory> {
        self.try_clone()
    }
}
