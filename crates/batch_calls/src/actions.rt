//! The single writes that a request asks for, as actions on their items.

ghost use Rattle.std.specs.Prelude.{◌≡◌, ◌++◌, IfOk, OnOk, zip};
ghost use Rattle.std.specs.List.{flat_map};
ghost use Rattle.cell_model.specs.Actions.{change_of};
ghost use Rattle.batch_calls.specs.Singles.{action_alone, change_alone};
ghost use Rattle.batch_calls.specs.Steps.{actions_among, actions_at};

use base_types::{Seq, Text};
use cell_model::{CellKey, KeyedAction, StatedChange, Statement};
use std::alloc::{AllocError as NoMemory, Global};
use table_request::{TableWrites, WriteRequest};

/// What a write makes of its item, as a copy: the write itself is given back where it is not made.
fn change_alone(write: &WriteRequest) -> Result<StatedChange, NoMemory>
    ensures { IfOk result (λ change. change_of change ≡ change_alone write.now) }
{
    match write {
        WriteRequest::Put(item) => Ok(StatedChange::Put(item.try_clone()?)),
        WriteRequest::Delete(key) => Ok(StatedChange::Delete(key.try_clone()?)),
    }
}

/// A write as an action on the item of this key.
fn action_alone(
    alloc: Global,
    name: &Text,
    write: &WriteRequest,
    key: CellKey,
) -> Result<KeyedAction, NoMemory>
    ensures { IfOk result (λ action. action ≡ action_alone name.now write.now key) }
{
    let table = name.try_clone()?;
    let change = change_alone(write)?;
    let statement = Statement {
        table,
        change,
        condition: None,
        values: Seq::new(alloc),
        show_old: false,
    };
    Ok(KeyedAction::new(key, statement))
}

/// Adds the writes of one table.
fn push_actions(
    alloc: Global,
    asked: &TableWrites,
    places: Seq<CellKey>,
    actions: &mut Seq<KeyedAction>,
) -> Result<(), NoMemory>
    ensures { OnOk result (actions.new ≡ actions.old ++ actions_at asked.now.table asked.now.writes places) }
{
    for (write, place) in asked.writes.as_slice().iter().zip(Vec::from(places)) {
        actions.push(action_alone(alloc, &asked.table, write, place)?)?;
    }
    Ok(())
}

/// All writes of a request, in its order. All memory that they take is taken here, before the first is sent.
pub(crate) fn all_actions(
    alloc: Global,
    requests: &[TableWrites],
    places: Seq<Seq<CellKey>>,
) -> Result<Seq<KeyedAction>, NoMemory>
    ensures { IfOk result (λ actions. actions ≡ actions_among requests.now places) }
{
    let mut actions = Seq::new(alloc);
    for (asked, mine) in requests.iter().zip(Vec::from(places)) {
        push_actions(alloc, asked, mine, &mut actions)?;
    }
    Ok(actions)
}
