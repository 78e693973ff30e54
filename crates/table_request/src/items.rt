//! Requests on one item.

use attr_value::{Item, Value};
use base_types::{Seq, Text};
use expr_parse::Update;
use expr_words::{Condition, Paths};

/// Which attributes a write answers (API Reference: PutItem, UpdateItem and DeleteItem, ReturnValues).
#[derive(Clone, Copy)]
pub enum ReturnValues {
    None,
    /// The whole item as it was.
    AllOld,
    /// The attributes that the update names, as they were.
    UpdatedOld,
    /// The whole item as it is.
    AllNew,
    /// The attributes that the update names, as they are.
    UpdatedNew,
}

/// Reads an item (API Reference: GetItem).
#[derive(Drop)]
pub struct GetItem {
    pub table: Text,
    /// The attributes of the key.
    pub key: Item,
    /// What is shown of the item; all of it where nothing is stated.
    pub projection: Option<Paths>,
    pub consistent: bool,
    /// Whether the capacity that was used is told (ReturnConsumedCapacity, TOTAL or INDEXES).
    pub capacity: bool,
}

/// Makes an item, in place of one with its key (API Reference: PutItem).
#[derive(Drop)]
pub struct PutItem {
    pub table: Text,
    pub item: Item,
    /// What has to be true of the item that is there.
    pub condition: Option<Condition>,
    /// The values that the condition names, by their places.
    pub values: Seq<Value>,
    /// `None` or `AllOld`.
    pub return_values: ReturnValues,
    /// Whether the item is shown where the condition is false of it (ReturnValuesOnConditionCheckFailure, ALL_OLD).
    pub show_old: bool,
    /// Whether the capacity that was used is told (ReturnConsumedCapacity, TOTAL or INDEXES).
    pub capacity: bool,
}

/// Changes attributes of an item, or makes it (API Reference: UpdateItem).
#[derive(Drop)]
pub struct UpdateItem {
    pub table: Text,
    /// The attributes of the key.
    pub key: Item,
    /// What is changed; nothing but that the item is there, where nothing is stated.
    pub update: Option<Update>,
    /// What has to be true of the item that is there.
    pub condition: Option<Condition>,
    /// The values that update and condition name, by their places.
    pub values: Seq<Value>,
    pub return_values: ReturnValues,
    /// Whether the item is shown where the condition is false of it (ReturnValuesOnConditionCheckFailure, ALL_OLD).
    pub show_old: bool,
    /// Whether the capacity that was used is told (ReturnConsumedCapacity, TOTAL or INDEXES).
    pub capacity: bool,
}

/// Drops an item (API Reference: DeleteItem).
#[derive(Drop)]
pub struct DeleteItem {
    pub table: Text,
    /// The attributes of the key.
    pub key: Item,
    /// What has to be true of the item that is there.
    pub condition: Option<Condition>,
    /// The values that the condition names, by their places.
    pub values: Seq<Value>,
    /// `None` or `AllOld`.
    pub return_values: ReturnValues,
    /// Whether the item is shown where the condition is false of it (ReturnValuesOnConditionCheckFailure, ALL_OLD).
    pub show_old: bool,
    /// Whether the capacity that was used is told (ReturnConsumedCapacity, TOTAL or INDEXES).
    pub capacity: bool,
}
