//! Requests on many items at one point, all or nothing.

use crate::consumed::Consumed;
use attr_value::{Item, Value};
use base_types::{Seq, Text};
use expr_parse::Update;
use expr_words::{Condition, Paths};

/// Changes up to 100 items together (API Reference: TransactWriteItems).
#[derive(Drop)]
pub struct TransactWrite {
    /// At least 1.
    pub actions: Seq<TransactAction>,
    /// What tells a repeat of this call from another call (ClientRequestToken).
    pub token: Option<Text>,
    /// The capacity that it uses of each table, in the order of the tables' names, where that is to be told
    /// (ReturnConsumedCapacity, TOTAL or INDEXES).
    pub consumed: Option<Seq<Consumed>>,
}

/// A part of a transaction (API Reference: TransactWriteItem).
#[derive(PartialEq, Drop)]
pub struct TransactAction {
    pub table: Text,
    pub change: ActionChange,
    /// What has to be true of the item that is there. A check states one.
    pub condition: Option<Condition>,
    /// The values that update and condition name, by their places.
    pub values: Seq<Value>,
    /// Whether the item is shown where the condition is false of it (ReturnValuesOnConditionCheckFailure, ALL_OLD).
    pub show_old: bool,
}

/// What becomes of an item.
#[derive(PartialEq, Drop)]
pub enum ActionChange {
    /// It is made, in place of one with its key.
    Put(Item),
    /// Attributes of it are changed, or it is made.
    Update { key: Item, update: Update },
    /// It is dropped.
    Delete(Item),
    /// It stays as it is.
    Check(Item),
}

/// Reads up to 100 items at one point (API Reference: TransactGetItems).
#[derive(Drop)]
pub struct TransactGet {
    /// At least 1.
    pub reads: Seq<TransactRead>,
    /// Whether the capacity that was used is told (ReturnConsumedCapacity, TOTAL or INDEXES).
    pub capacity: bool,
}

/// An item that is read (API Reference: Get).
#[derive(Drop)]
pub struct TransactRead {
    pub table: Text,
    /// The attributes of the key.
    pub key: Item,
    /// What is shown of the item; all of it where nothing is stated.
    pub projection: Option<Paths>,
}
