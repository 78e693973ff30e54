//! Actions on items.

ghost use Rattle.std.specs.Prelude.{◌≡◌};
ghost use Rattle.cell_model.specs.Actions.{action_of, change_of, stated_action, stated_change};

use crate::key::CellKey;
use attr_value::{Item, Value};
use base_types::{Seq, Text};
use expr_parse::Update;
use expr_words::Condition;
use std::marker::Model;
use table_request::{ActionChange, TransactAction};

/// What becomes of an item.
pub enum StatedChange {
    /// It is made, in place of one with its key.
    Put(Item),
    /// Attributes of it are changed, or it is made. Without an update it stays as it is, or is made with its key alone (API
    /// Reference: UpdateItem, UpdateExpression).
    Update { key: Item, update: Option<Update> },
    /// It is dropped.
    Delete(Item),
    /// It stays as it is.
    Check(Item),
}

// By hand, so that no crate above proves it again.
impl Drop for StatedChange {
    fn drop(self) {
        match self {
            StatedChange::Put(_)
            | StatedChange::Update { key: _, update: _ }
            | StatedChange::Delete(_)
            | StatedChange::Check(_) => {}
        }
    }
}

/// What an action says of its item (API Reference: PutItem, UpdateItem, DeleteItem, TransactWriteItem).
pub struct Statement {
    /// The table's name.
    pub table: Text,
    pub change: StatedChange,
    /// What has to be true of the item that is there.
    pub condition: Option<Condition>,
    /// The values that update and condition name, by their places.
    pub values: Seq<Value>,
    /// Whether the item is shown where the condition is false of it (ReturnValuesOnConditionCheckFailure, ALL_OLD).
    pub show_old: bool,
}

// By hand, so that no crate above proves it again.
impl Drop for Statement {
    fn drop(self) {
        let Statement {
            table: _,
            change: _,
            condition: _,
            values: _,
            show_old: _,
        } = self;
    }
}

/// An action on one item, with the item's key, which was computed once.
///
/// Contracts see what it says, its expressions by their trees.
pub struct KeyedAction {
    key: CellKey,
    statement: Statement,
}

// By hand, so that no crate above proves it again.
impl Drop for KeyedAction {
    fn drop(self) {
        let KeyedAction {
            key: _,
            statement: _,
        } = self;
    }
}

impl Model for KeyedAction {
    ghost use Rattle.cell_model.specs.Actions.{ItemAction, action_of};
    ghost use Rattle.cell_model.specs.ActionCodes.{action_code};

    ghost Value = { ItemAction };

    ghost coded = { action_code };

    ghost view = { λ a. action_of a.key a.statement };
}

impl KeyedAction {
    /// The action on the item of this key.
    pub fn new(key: CellKey, statement: Statement) -> KeyedAction
        ensures { result ≡ action_of key statement }
    {
        KeyedAction { key, statement }
    }

    /// The action of a transaction on the item of this key.
    pub fn of_transaction(key: CellKey, action: TransactAction) -> KeyedAction
        ensures { result ≡ stated_action key action }
    {
        let TransactAction {
            table,
            change,
            condition,
            values,
            show_old,
        } = action;
        let statement = Statement {
            table,
            change: StatedChange::of_transaction(change),
            condition,
            values,
            show_old,
        };
        KeyedAction { key, statement }
    }

    /// The item that it is on.
    pub fn key(&self) -> &CellKey
        ensures { result.now ≡ self.now.key }
    {
        &self.key
    }

    /// The same. What is done to the item is let go.
    pub fn into_key(self) -> CellKey
        ensures { result ≡ self.key }
    {
        let KeyedAction { key, statement } = self;
        drop(statement);
        key
    }

    /// What it says of the item.
    pub fn statement(&self) -> &Statement
        ensures { self.now ≡ action_of self.now.key result.now }
    {
        &self.statement
    }
}

impl StatedChange {
    /// What an action of a transaction makes of its item.
    fn of_transaction(change: ActionChange) -> StatedChange
        ensures { change_of result ≡ stated_change change }
    {
        match change {
            ActionChange::Put(item) => StatedChange::Put(item),
            ActionChange::Update { key, update } => StatedChange::Update {
                key,
                update: Some(update),
            },
            ActionChange::Delete(key) => StatedChange::Delete(key),
            ActionChange::Check(key) => StatedChange::Check(key),
        }
    }
}
