//! Requests on many items, each of which is done by itself.

ghost use Rattle.std.specs.Prelude.{IsTrue};
ghost use Rattle.table_request.specs.Batches.{ascend};

use attr_value::Item;
use base_types::{Seq, Text};
use expr_words::{NamePair, Paths};

/// Reads up to 100 items (API Reference: BatchGetItem).
#[derive(Drop)]
pub struct BatchGet {
    /// In the order of their names' bytes, each name once.
    pub tables: Seq<TableKeys>,
    /// Whether the capacity that was used is told (ReturnConsumedCapacity, TOTAL or INDEXES).
    pub capacity: bool,
}

/// The items that are asked of a table (API Reference: KeysAndAttributes).
///
/// Keys that were not read are given back in the shape of the request, so the members that state how to read them are
/// kept as they came.
#[derive(Drop)]
pub struct TableKeys {
    pub table: Text,
    /// The attributes of each key.
    pub keys: Seq<Item>,
    /// What is shown of each item; all of it where nothing is stated.
    pub projection: Option<Paths>,
    /// ConsistentRead, where it is stated.
    pub consistent: Option<bool>,
    /// The text of ProjectionExpression, where it is stated.
    pub expression: Option<Text>,
    /// ExpressionAttributeNames, where they are stated.
    pub names: Option<Seq<NamePair>>,
    /// AttributesToGet, where it is stated in place of an expression.
    pub attributes: Option<Seq<Text>>,
}

/// Makes and drops up to 25 items (API Reference: BatchWriteItem).
#[derive(Drop)]
pub struct BatchWrite {
    /// In the order of their names' bytes, each name once.
    pub tables: Seq<TableWrites>,
    /// Whether the capacity that was used is told (ReturnConsumedCapacity, TOTAL or INDEXES).
    pub capacity: bool,
    pub ghost ascending: { IsTrue (ascend tables) },
}

/// The items of a table that are made and dropped.
#[derive(Drop)]
pub struct TableWrites {
    pub table: Text,
    pub writes: Seq<WriteRequest>,
}

/// An item that is made or dropped (API Reference: WriteRequest).
#[derive(Drop)]
pub enum WriteRequest {
    Put(Item),
    /// The attributes of the key.
    Delete(Item),
}
