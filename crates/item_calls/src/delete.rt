//! Deletes of one item.

ghost use Rattle.std.specs.Prelude.{◌≡◌, reverse, IfOk, IfErr};
ghost use Rattle.cell_model.specs.Actions.{stated_delete};
ghost use Rattle.cell_asks.specs.Told.{AreTold};
ghost use Rattle.item_calls.specs.Items.{IsWriteTry, WriteGivesUp};
ghost use Rattle.item_calls.specs.Answers.{DeleteAt, TellsOf, WriteStops};
ghost use Rattle.table_request.specs.declared.request.Request.{Request};

use crate::place::{Place, Wanted, find};
use crate::write::{Faults, WriteTelling, write};
use cell_asks::{Asks, Looks, StepError, Tried};
use cell_model::{CellKey, KeyedAction, StatedChange, Statement};
use std::alloc::AllocError as NoMemory;
use table_items::Telling;
use table_model::Reply;
use table_request::DeleteItem;

/// What is told of a delete.
fn delete_telling(request: &DeleteItem) -> Result<WriteTelling, NoMemory>
    ensures { IfOk result (λ telling. TellsOf telling (Request.DeleteItem request.now)) }
{
    let telling = Telling {
        table: request.table.try_clone()?,
        return_values: request.return_values,
        show_old: request.show_old,
        capacity: request.capacity,
    };
    Ok(WriteTelling {
        telling,
        update: None,
        faults: Faults::OfOther,
    })
}

/// A delete as an action on the item of this key.
fn delete_action(key: CellKey, request: DeleteItem) -> KeyedAction
    ensures { result ≡ stated_delete key request }
{
    let DeleteItem {
        table,
        key: named,
        condition,
        values,
        return_values: _,
        show_old,
        capacity: _,
    } = request;
    let statement = Statement {
        table,
        change: StatedChange::Delete(named),
        condition,
        values,
        show_old,
    };
    KeyedAction::new(key, statement)
}

/// Drops the item at its key.
fn delete_at<C: Asks>(
    cells: &C,
    pass: &mut C::Pass,
    looks: &mut Looks,
    request: DeleteItem,
    key: CellKey,
) -> Result<Tried, StepError>
    requires fits { C.fits cells.now pass.old }
    requires told { AreTold (reverse (C.seen pass.old).front) looks.old }
    ensures ok { IfOk result (λ tried. DeleteAt (C.count cells.now) (C.seen pass.old) key request tried (C.seen pass.new)) }
    ensures err { IfErr result (λ why. WriteStops (C.count cells.now) (C.seen pass.old) (stated_delete key request) why (C.seen pass.new)) }
    ensures told { AreTold (reverse (C.seen pass.new).front) looks.new }
    ensures fits { C.fits cells.now pass.new }
{
    match delete_telling(&request) {
        Ok(telling) => write(cells, pass, looks, delete_action(key, request), telling),
        Err(why) => {
            drop(request);
            Err(StepError::from(why))
        }
    }
}

/// Drops an item; where there is none that is no fault (API Reference: DeleteItem). It is refused by an own Look where no table
/// has the name, or the key is none of the table's; then by the answer to its Write.
pub fn delete_item<C: Asks>(
    cells: &C,
    pass: &mut C::Pass,
    looks: &mut Looks,
    request: DeleteItem,
) -> Result<Tried, StepError>
    requires fits { C.fits cells.now pass.old }
    requires told { AreTold (reverse (C.seen pass.old).front) looks.old }
    ensures ok { IfOk result (λ tried. IsWriteTry (C.count cells.now) (C.seen pass.old) (Request.DeleteItem request) tried (C.seen pass.new)) }
    ensures err { IfErr result (λ why. WriteGivesUp (C.count cells.now) (C.seen pass.old) (Request.DeleteItem request) why (C.seen pass.new)) }
    ensures told { AreTold (reverse (C.seen pass.new).front) looks.new }
    ensures fits { C.fits cells.now pass.new }
{
    match find(
        cells,
        pass,
        looks,
        &request.table,
        Wanted::Key(&request.key),
    ) {
        Ok(Place::At(key)) => delete_at(cells, pass, looks, request, key),
        Ok(Place::Refused(why)) => {
            drop(request);
            Ok(Tried::Reply(Reply::Refused(why)))
        }
        Err(why) => {
            drop(request);
            Err(why)
        }
    }
}
