//! Whether two values are equal, as contracts see them.

ghost use Rattle.std.specs.Prelude.{◌≡◌, ◌↔◌, IsTrue, option_map};
ghost use Rattle.expr_words.specs.Trees.{tree};
ghost use Rattle.expr_parse.specs.Update.{update_tree};
ghost use Rattle.std.specs.Cmp.Lexicographic.{pointwise};
ghost use Rattle.cell_model.specs.SameActions.{same_action};
ghost use Rattle.cell_model.specs.Actions.{action_of, change_of};
ghost use Rattle.cell_model.specs.declared.key.CellKey.{CellKey as AnyKey};

use attr_value::{Item, Value};
use base_types::{Seq, Text};
use cell_model::{CellKey, KeyedAction, StatedChange, Statement};
use expr_parse::Update;
use expr_words::Condition;
use table_schema::Schema;
use update_eval::EvalFault;

/// Whether both keys are one.
pub(crate) fn are_equal_keys(left: &CellKey, right: &CellKey) -> bool
    ensures { IsTrue result ↔ (left.now ≡ right.now) }
{
    left == right
}

/// Whether both are one name.
fn are_equal_names(left: &Text, right: &Text) -> bool
    ensures { IsTrue result ↔ (left.now ≡ right.now) }
{
    left == right
}

/// Whether both items have the same attributes.
pub(crate) fn are_equal_items(left: &Item, right: &Item) -> bool
    ensures { IsTrue result ↔ (left.now ≡ right.now) }
{
    left == right
}

/// Whether both are one fault.
pub(crate) fn are_equal_faults(left: &EvalFault, right: &EvalFault) -> bool
    ensures { IsTrue result ↔ (left.now ≡ right.now) }
{
    left == right
}

/// Whether both lists have the same values in the same order.
fn are_equal_values(left: &Seq<Value>, right: &Seq<Value>) -> bool
    ensures { IsTrue result ↔ (left.now ≡ right.now) }
{
    left == right
}

/// Whether both updates are one tree, or there is none.
fn are_equal_updates(left: &Option<Update>, right: &Option<Update>) -> bool
    ensures { IsTrue result ↔ (option_map update_tree left.now ≡ option_map update_tree right.now) }
{
    match (left, right) {
        (None, None) => true,
        (Some(one), Some(other)) => one == other,
        _ => false,
    }
}

/// Whether both conditions are one tree, or there is none.
fn are_equal_conditions(left: &Option<Condition>, right: &Option<Condition>) -> bool
    ensures { IsTrue result ↔ (option_map tree left.now ≡ option_map tree right.now) }
{
    match (left, right) {
        (None, None) => true,
        (Some(one), Some(other)) => one == other,
        _ => false,
    }
}

/// Whether both schemas are the same in every part.
pub(crate) fn are_equal_schemas(left: &Schema, right: &Schema) -> bool
    ensures { IsTrue result ↔ (left.now ≡ right.now) }
{
    left == right
}

/// Whether both changes say the same.
fn are_equal_changes(left: &StatedChange, right: &StatedChange) -> bool
    ensures { IsTrue result ↔ (change_of left.now ≡ change_of right.now) }
{
    match (left, right) {
        (StatedChange::Put(one), StatedChange::Put(other)) => are_equal_items(one, other),
        (
            StatedChange::Update { key, update },
            StatedChange::Update {
                key: other,
                update: another,
            },
        ) => are_equal_items(key, other) && are_equal_updates(update, another),
        (StatedChange::Delete(one), StatedChange::Delete(other)) => are_equal_items(one, other),
        (StatedChange::Check(one), StatedChange::Check(other)) => are_equal_items(one, other),
        _ => false,
    }
}

/// Whether both say the same of an item.
fn are_equal_statements(one: &Statement, other: &Statement) -> bool
    ensures { (key : AnyKey) → IsTrue result ↔ (action_of key one.now ≡ action_of key other.now) }
{
    if !are_equal_names(&one.table, &other.table) {
        return false;
    }
    if !are_equal_changes(&one.change, &other.change) {
        return false;
    }
    if !are_equal_conditions(&one.condition, &other.condition) {
        return false;
    }
    if !are_equal_values(&one.values, &other.values) {
        return false;
    }
    one.show_old == other.show_old
}

/// Whether both actions say the same of one item.
pub(crate) fn are_equal_actions(left: &KeyedAction, right: &KeyedAction) -> bool
    ensures { IsTrue result ↔ (left.now ≡ right.now) }
{
    if !are_equal_keys(left.key(), right.key()) {
        return false;
    }
    are_equal_statements(left.statement(), right.statement())
}

/// Whether both lists have the same actions in the same order.
fn are_equal_lists(left: &[KeyedAction], right: &[KeyedAction]) -> bool
    ensures { IsTrue result ↔ (left.now ≡ right.now) }
{
    if left.len() != right.len() {
        return false;
    }
    for place in 0..left.len() {
        if !are_equal_actions(&left[place], &right[place]) {
            return false;
        }
    }
    true
}

/// Whether two transactions with these actions have the same parameters.
pub(crate) fn are_same_actions(left: &[KeyedAction], right: &[KeyedAction]) -> bool
    ensures { result ≡ pointwise same_action left.now right.now }
{
    are_equal_lists(left, right)
}
