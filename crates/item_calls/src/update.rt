//! Updates of one item.

ghost use Rattle.std.specs.Prelude.{◌≡◌, reverse, IfOk, IfErr};
ghost use Rattle.std.specs.Option.{option_copied};
ghost use Rattle.cell_model.specs.Actions.{stated_update};
ghost use Rattle.cell_asks.specs.Told.{AreTold};
ghost use Rattle.item_calls.specs.Items.{IsWriteTry, WriteGivesUp};
ghost use Rattle.item_calls.specs.Answers.{ShowAlike, TellsOf, UpdateAt, WriteStops};
ghost use Rattle.table_request.specs.declared.request.Request.{Request};

use crate::place::{Place, Wanted, find};
use crate::write::{Faults, WriteTelling, write};
use cell_asks::{Asks, Looks, StepError, Tried};
use cell_model::{CellKey, KeyedAction, StatedChange, Statement};
use expr_parse::Update;
use std::alloc::AllocError as NoMemory;
use table_items::Telling;
use table_model::Reply;
use table_request::{ReturnValues, UpdateItem};

/// What a reply has to know of the update: nothing, unless the attributes are shown that it writes.
fn update_told(
    return_values: ReturnValues,
    update: Option<&Update>,
) -> Result<Option<Update>, NoMemory>
    ensures { IfOk result (λ kept. ShowAlike return_values kept (option_copied update.entry)) }
{
    let Some(update) = update else {
        return Ok(None);
    };
    match return_values {
        ReturnValues::UpdatedOld | ReturnValues::UpdatedNew => Ok(Some(update.try_clone()?)),
        _ => Ok(None),
    }
}

/// What is told of an update.
fn update_telling(request: &UpdateItem) -> Result<WriteTelling, NoMemory>
    ensures { IfOk result (λ telling. TellsOf telling (Request.UpdateItem request.now)) }
{
    let update = update_told(request.return_values, request.update.as_ref())?;
    let table = request.table.try_clone()?;
    let telling = Telling {
        table,
        return_values: request.return_values,
        show_old: request.show_old,
        capacity: request.capacity,
    };
    Ok(WriteTelling {
        telling,
        update,
        faults: Faults::OfOther,
    })
}

/// An update as an action on the item of this key.
fn update_action(key: CellKey, request: UpdateItem) -> KeyedAction
    ensures { result ≡ stated_update key request }
{
    let UpdateItem {
        table,
        key: named,
        update,
        condition,
        values,
        return_values: _,
        show_old,
        capacity: _,
    } = request;
    let statement = Statement {
        table,
        change: StatedChange::Update { key: named, update },
        condition,
        values,
        show_old,
    };
    KeyedAction::new(key, statement)
}

/// Updates the item at its key.
fn update_at<C: Asks>(
    cells: &C,
    pass: &mut C::Pass,
    looks: &mut Looks,
    request: UpdateItem,
    key: CellKey,
) -> Result<Tried, StepError>
    requires fits { C.fits cells.now pass.old }
    requires told { AreTold (reverse (C.seen pass.old).front) looks.old }
    ensures ok { IfOk result (λ tried. UpdateAt (C.count cells.now) (C.seen pass.old) key request tried (C.seen pass.new)) }
    ensures err { IfErr result (λ why. WriteStops (C.count cells.now) (C.seen pass.old) (stated_update key request) why (C.seen pass.new)) }
    ensures told { AreTold (reverse (C.seen pass.new).front) looks.new }
    ensures fits { C.fits cells.now pass.new }
{
    match update_telling(&request) {
        Ok(telling) => write(cells, pass, looks, update_action(key, request), telling),
        Err(why) => {
            drop(request);
            Err(StepError::from(why))
        }
    }
}

/// Changes attributes of an item, or makes it (API Reference: UpdateItem). It is refused by an own Look where no table has the
/// name, the key is none of the table's, or the update writes an attribute of the key; then by the answer to its Write.
pub fn update_item<C: Asks>(
    cells: &C,
    pass: &mut C::Pass,
    looks: &mut Looks,
    request: UpdateItem,
) -> Result<Tried, StepError>
    requires fits { C.fits cells.now pass.old }
    requires told { AreTold (reverse (C.seen pass.old).front) looks.old }
    ensures ok { IfOk result (λ tried. IsWriteTry (C.count cells.now) (C.seen pass.old) (Request.UpdateItem request) tried (C.seen pass.new)) }
    ensures err { IfErr result (λ why. WriteGivesUp (C.count cells.now) (C.seen pass.old) (Request.UpdateItem request) why (C.seen pass.new)) }
    ensures told { AreTold (reverse (C.seen pass.new).front) looks.new }
    ensures fits { C.fits cells.now pass.new }
{
    let wanted = Wanted::Update {
        key: &request.key,
        update: request.update.as_ref(),
    };
    match find(cells, pass, looks, &request.table, wanted) {
        Ok(Place::At(key)) => update_at(cells, pass, looks, request, key),
        Ok(Place::Refused(why)) => {
            drop(request);
            Ok(Tried::Reply(Reply::Refused(why)))
        }
        Err(why) => {
            drop(request);
            Err(why)
        }
    }
}
