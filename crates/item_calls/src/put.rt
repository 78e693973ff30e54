//! Puts of one item.

ghost use Rattle.std.specs.Prelude.{◌≡◌, reverse, IfOk, IfErr};
ghost use Rattle.cell_model.specs.Actions.{stated_put};
ghost use Rattle.cell_asks.specs.Told.{AreTold};
ghost use Rattle.item_calls.specs.Items.{IsWriteTry, WriteGivesUp};
ghost use Rattle.item_calls.specs.Answers.{PutAt, TellsOf, WriteStops};
ghost use Rattle.table_request.specs.declared.request.Request.{Request};

use crate::place::{Place, Wanted, find};
use crate::write::{Faults, WriteTelling, write};
use cell_asks::{Asks, Looks, StepError, Tried};
use cell_model::{CellKey, KeyedAction, StatedChange, Statement};
use std::alloc::AllocError as NoMemory;
use table_items::Telling;
use table_model::Reply;
use table_request::PutItem;

/// What is told of a put.
fn put_telling(request: &PutItem) -> Result<WriteTelling, NoMemory>
    ensures { IfOk result (λ telling. TellsOf telling (Request.PutItem request.now)) }
{
    let telling = Telling {
        table: request.table.try_clone()?,
        return_values: request.return_values,
        show_old: request.show_old,
        capacity: request.capacity,
    };
    Ok(WriteTelling {
        telling,
        update: None,
        faults: Faults::OfPut,
    })
}

/// A put as an action on the item of this key.
fn put_action(key: CellKey, request: PutItem) -> KeyedAction
    ensures { result ≡ stated_put key request }
{
    let PutItem {
        table,
        item,
        condition,
        values,
        return_values: _,
        show_old,
        capacity: _,
    } = request;
    let change = StatedChange::Put(item);
    let statement = Statement {
        table,
        change,
        condition,
        values,
        show_old,
    };
    KeyedAction::new(key, statement)
}

/// Puts the item at its key.
fn put_at<C: Asks>(
    cells: &C,
    pass: &mut C::Pass,
    looks: &mut Looks,
    request: PutItem,
    key: CellKey,
) -> Result<Tried, StepError>
    requires fits { C.fits cells.now pass.old }
    requires told { AreTold (reverse (C.seen pass.old).front) looks.old }
    ensures ok { IfOk result (λ tried. PutAt (C.count cells.now) (C.seen pass.old) key request tried (C.seen pass.new)) }
    ensures err { IfErr result (λ why. WriteStops (C.count cells.now) (C.seen pass.old) (stated_put key request) why (C.seen pass.new)) }
    ensures told { AreTold (reverse (C.seen pass.new).front) looks.new }
    ensures fits { C.fits cells.now pass.new }
{
    match put_telling(&request) {
        Ok(telling) => write(cells, pass, looks, put_action(key, request), telling),
        Err(why) => {
            drop(request);
            Err(StepError::from(why))
        }
    }
}

/// Makes an item, in place of one with its key (API Reference: PutItem). It is refused by an own Look where no table has the
/// name, or the item has no key of the table's; then by the answer to its Write.
pub fn put_item<C: Asks>(
    cells: &C,
    pass: &mut C::Pass,
    looks: &mut Looks,
    request: PutItem,
) -> Result<Tried, StepError>
    requires fits { C.fits cells.now pass.old }
    requires told { AreTold (reverse (C.seen pass.old).front) looks.old }
    ensures ok { IfOk result (λ tried. IsWriteTry (C.count cells.now) (C.seen pass.old) (Request.PutItem request) tried (C.seen pass.new)) }
    ensures err { IfErr result (λ why. WriteGivesUp (C.count cells.now) (C.seen pass.old) (Request.PutItem request) why (C.seen pass.new)) }
    ensures told { AreTold (reverse (C.seen pass.new).front) looks.new }
    ensures fits { C.fits cells.now pass.new }
{
    match find(
        cells,
        pass,
        looks,
        &request.table,
        Wanted::Item(&request.item),
    ) {
        Ok(Place::At(key)) => put_at(cells, pass, looks, request, key),
        Ok(Place::Refused(why)) => {
            drop(request);
            Ok(Tried::Reply(Reply::Refused(why)))
        }
        Err(why) => {
            drop(request);
            Err(why)
        }
    }
}
