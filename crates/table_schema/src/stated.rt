//! A schema as a request states it, with lists of key elements of any form.

use crate::definition::Definition;
use crate::index::Projection;
use crate::name_set::Named;
use crate::stream::Stream;
use base_types::{Seq, Text};

/// The part that an attribute has in a key: HASH is the partition key, RANGE the sort key (API Reference:
/// KeySchemaElement, KeyType).
#[derive(Clone, Copy, Debug, PartialEq, Eq)]
pub enum KeyRole {
    Hash,
    Range,
}

/// An element of the list that states a key (API Reference: KeySchemaElement).
#[derive(Debug, PartialEq, Eq, Drop)]
pub struct KeyElement {
    pub name: Text,
    pub role: KeyRole,
}

/// An index of either kind as it is stated. Its list of key elements may have any form.
#[derive(Debug, PartialEq, Eq, Drop)]
pub struct StatedIndex {
    pub name: Text,
    pub keys: Seq<KeyElement>,
    pub projection: Projection,
}

/// A schema as it is stated (API Reference: CreateTable). Its lists of key elements may have any form.
#[derive(Debug, PartialEq, Eq, Drop)]
pub struct StatedSchema {
    pub name: Text,
    pub definitions: Seq<Definition>,
    pub keys: Seq<KeyElement>,
    pub locals: Seq<StatedIndex>,
    pub globals: Seq<StatedIndex>,
    /// Whether the table is billed by request (PAY_PER_REQUEST), and not by the units below (PROVISIONED).
    pub on_demand: bool,
    /// Read capacity units per second.
    pub read_units: u64,
    /// Write capacity units per second.
    pub write_units: u64,
    /// The moment at which the table is made, in microseconds.
    pub created: u64,
    /// The name of the attribute that says when an item is expired, where items expire.
    pub ttl: Option<Text>,
    /// The stream of the table's changes, where it has one.
    pub stream: Option<Stream>,
}

impl Named for KeyElement {
    ghost name_of = { λ element. element.name };

    fn name(&self) -> &Text {
        &self.name
    }
}

impl Named for StatedIndex {
    ghost name_of = { λ index. index.name };

    fn name(&self) -> &Text {
        &self.name
    }
}
