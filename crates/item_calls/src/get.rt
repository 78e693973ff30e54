//! Reads of one item.

ghost use Rattle.std.specs.Prelude.{◌≡◌, List, reverse, IfOk, IfErr};
ghost use Rattle.table_history.specs.Entries.{TableEvent};
ghost use Rattle.cell_asks.specs.Told.{AreTold};
ghost use Rattle.cell_asks.specs.Steps.{GivesUp};
ghost use Rattle.item_calls.specs.Items.{IsReadTry};
ghost use Rattle.item_calls.specs.Answers.{ReadAt, read_tried};

use crate::place::{Place, Wanted, find};
use cell_asks::{Asks, Got, Looks, StepError, Tried};
use cell_model::CellKey;
use std::alloc::{AllocError as NoMemory, Global};
use table_items::told_read;
use table_model::Reply;
use table_request::GetItem;

/// What a read comes to by the answer to its Get.
fn tried_read(
    alloc: Global,
    looks: &mut Looks,
    request: &GetItem,
    got: Got,
) -> Result<Tried, NoMemory>
    ensures tried { IfOk result (λ tried. tried ≡ read_tried request.now got) }
    ensures told { (es : List TableEvent) → AreTold es looks.old → AreTold es looks.new }
{
    match got {
        Got::Row(item) => Ok(Tried::Reply(told_read(alloc, request, item.as_ref())?)),
        Got::Stale => {
            looks.forget(alloc);
            Ok(Tried::Again)
        }
    }
}

/// Reads the item of a key.
fn get_at<C: Asks>(
    cells: &C,
    pass: &mut C::Pass,
    looks: &mut Looks,
    request: &GetItem,
    key: CellKey,
) -> Result<Tried, StepError>
    requires fits { C.fits cells.now pass.old }
    requires told { AreTold (reverse (C.seen pass.old).front) looks.old }
    ensures ok { IfOk result (λ tried. ReadAt (C.count cells.now) (C.seen pass.old) request.now key tried (C.seen pass.new)) }
    ensures err { IfErr result (λ why. GivesUp (C.count cells.now) (C.seen pass.old) why (C.seen pass.new)) }
    ensures told { AreTold (reverse (C.seen pass.new).front) looks.new }
    ensures fits { C.fits cells.now pass.new }
{
    let got = cells.get(pass, key)?;
    Ok(tried_read(cells.alloc(), looks, request, got)?)
}

/// Reads an item (API Reference: GetItem). It is refused by an own Look where no table has the name, or the key is none of
/// the table's.
pub fn get_item<C: Asks>(
    cells: &C,
    pass: &mut C::Pass,
    looks: &mut Looks,
    request: &GetItem,
) -> Result<Tried, StepError>
    requires fits { C.fits cells.now pass.old }
    requires told { AreTold (reverse (C.seen pass.old).front) looks.old }
    ensures ok { IfOk result (λ tried. IsReadTry (C.count cells.now) (C.seen pass.old) request.now tried (C.seen pass.new)) }
    ensures err { IfErr result (λ why. GivesUp (C.count cells.now) (C.seen pass.old) why (C.seen pass.new)) }
    ensures told { AreTold (reverse (C.seen pass.new).front) looks.new }
    ensures fits { C.fits cells.now pass.new }
{
    match find(
        cells,
        pass,
        looks,
        &request.table,
        Wanted::Key(&request.key),
    )? {
        Place::At(key) => get_at(cells, pass, looks, request, key),
        Place::Refused(why) => Ok(Tried::Reply(Reply::Refused(why))),
    }
}
