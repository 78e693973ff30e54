//! Copies of values, equal to them as contracts see them.

ghost use Rattle.std.specs.Prelude.{◌≡◌, IfOk};
ghost use Rattle.std.specs.Option.{option_map};
ghost use Rattle.expr_words.specs.Trees.{tree};
ghost use Rattle.expr_parse.specs.Update.{update_tree};
ghost use Rattle.cell_model.specs.Actions.{action_of, change_of};
ghost use Rattle.cell_model.specs.declared.key.CellKey.{CellKey as AnyKey};

use cell_model::{KeyedAction, StatedChange, Statement};
use expr_parse::Update;
use expr_words::Condition;
use std::alloc::AllocError as NoMemory;

/// A copy of an update, where there is one.
fn copy_of_update(update: &Option<Update>) -> Result<Option<Update>, NoMemory>
    ensures { IfOk result (λ copy. option_map update_tree copy ≡ option_map update_tree update.now) }
{
    match update {
        Some(update) => Ok(Some(update.try_clone()?)),
        None => Ok(None),
    }
}

/// A copy of what becomes of an item.
fn copy_of_change(change: &StatedChange) -> Result<StatedChange, NoMemory>
    ensures { IfOk result (λ copy. change_of copy ≡ change_of change.now) }
{
    match change {
        StatedChange::Put(item) => Ok(StatedChange::Put(item.try_clone()?)),
        StatedChange::Update { key, update } => Ok(StatedChange::Update {
            key: key.try_clone()?,
            update: copy_of_update(update)?,
        }),
        StatedChange::Delete(key) => Ok(StatedChange::Delete(key.try_clone()?)),
        StatedChange::Check(key) => Ok(StatedChange::Check(key.try_clone()?)),
    }
}

/// A copy of a condition, where there is one.
fn copy_of_condition(condition: &Option<Condition>) -> Result<Option<Condition>, NoMemory>
    ensures { IfOk result (λ copy. option_map tree copy ≡ option_map tree condition.now) }
{
    match condition {
        Some(condition) => Ok(Some(condition.try_clone()?)),
        None => Ok(None),
    }
}

/// A copy of an action, equal to it.
pub(crate) fn copy_of_action(action: &KeyedAction) -> Result<KeyedAction, NoMemory>
    ensures { IfOk result (λ copy. copy ≡ action.now) }
{
    let key = action.key().try_clone()?;
    let says = copy_of_statement(action.statement())?;
    Ok(KeyedAction::new(key, says))
}

/// A copy of what an action says.
fn copy_of_statement(statement: &Statement) -> Result<Statement, NoMemory>
    ensures { IfOk result (λ copy. (key : AnyKey) → action_of key copy ≡ action_of key statement.now) }
{
    Ok(Statement {
        table: statement.table.try_clone()?,
        change: copy_of_change(&statement.change)?,
        condition: copy_of_condition(&statement.condition)?,
        values: statement.values.try_clone()?,
        show_old: statement.show_old,
    })
}
