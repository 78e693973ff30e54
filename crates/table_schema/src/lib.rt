//! The schema of a table, and the check of its rules.
//!
//! A [`Schema`] is what a table was made with: its name, the attributes that serve in keys, its own key, its
//! indexes and its billing. Every part is plain and public, in the order in which the request gave it, and
//! contracts see it as it stands: a text as the list of its bytes, a list as the list of its items. A type
//! that owns memory has a `try_clone`, which gives an equal value or is refused memory.
//!
//! [`check_schema`] tells the layer above whether a schema keeps the eight rules of [`SchemaFault`], and where
//! it doesn't, the first of them that it breaks. It takes any schema and no memory, and its answer is exact.
//!
//! The rules are those of the Amazon DynamoDB API Reference (CreateTable, AttributeDefinition,
//! KeySchemaElement, LocalSecondaryIndex, GlobalSecondaryIndex, Projection) and of the Developer Guide's
//! naming rules and quotas. The order of the faults is this project's own.
#![tactic(auto)]

mod check;
mod conversion;
mod definition;
mod fault;
mod index;
mod indexes;
mod keys;
mod name;
mod name_set;
mod schema;
mod sound;
mod stated;
mod stream;

pub use check::check_schema;
pub use definition::{Definition, KeyKind};
pub use fault::{SchemaEnd, SchemaFault};
pub use index::{GlobalIndex, LocalIndex, Projection};
pub use keys::KeyNames;
pub use schema::Schema;
pub use stated::{KeyElement, KeyRole, StatedIndex, StatedSchema};
pub use stream::{Stream, View};
