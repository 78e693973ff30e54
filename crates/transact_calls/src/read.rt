//! TransactGetItems.

ghost use Rattle.std.specs.Prelude.{◌≡◌, List, reverse, IfOk, IfErr};
ghost use Rattle.table_history.specs.Entries.{TableEvent};
ghost use Rattle.cell_asks.specs.Told.{AreTold};
ghost use Rattle.cell_asks.specs.Steps.{GivesUp};
ghost use Rattle.cell_asks.specs.declared.tried.Tried.{Tried};
ghost use Rattle.table_model.specs.declared.reply.Reply.TheVariants.{Refused};
ghost use Rattle.table_model.specs.declared.refusal.Refusal.TheVariants.{Cancelled};
ghost use Rattle.transact_reads.specs.Told.{reads_told};
ghost use Rattle.transact_calls.specs.Ends.{read_reasons_told};
ghost use Rattle.transact_calls.specs.Gets.{IsTransactGetTry, ReadsAt, TellsNoRead, TellsRead};

use crate::ends::read_reasons_told;
use crate::items::find;
use attr_value::SharedItem;
use base_types::Seq;
use cell_asks::{Looks, StepError, Tried};
use cell_model::CellKey;
use std::alloc::{AllocError as NoMemory, Global};
use table_model::{Refusal, Reply};
use table_request::TransactGet;
use transact_asks::{ItemsEnd, ReadEnd, Transacts};
use transact_reads::told_reads;
use txn_core::Reason;
use update_eval::EvalFault;

/// What is told of items that were read.
fn tell_items(
    alloc: Global,
    request: &TransactGet,
    items: Seq<Option<SharedItem>>,
) -> Result<Tried, NoMemory>
    ensures { IfOk result (λ tried. tried ≡ Tried.Reply (reads_told request.now.capacity request.now.reads items)) }
{
    let reply = told_reads(
        alloc,
        request.reads.as_slice(),
        request.capacity,
        items.as_slice(),
    );
    drop(items);
    Ok(Tried::Reply(reply?))
}

/// What is told where a transaction, or a change between the rounds, stood in the way.
fn tell_reasons(
    alloc: Global,
    reasons: Seq<Reason<SharedItem, EvalFault>>,
) -> Result<Tried, NoMemory>
    ensures { IfOk result (λ tried. tried ≡ Tried.Reply (Refused (Cancelled (read_reasons_told reasons)))) }
{
    let told = read_reasons_told(alloc, reasons.as_slice());
    drop(reasons);
    Ok(Tried::Reply(Reply::Refused(Refusal::Cancelled(told?))))
}

/// What is told by the end of the reads. Where a table was gone that was known, what is kept is let go.
fn tell(
    alloc: Global,
    looks: &mut Looks,
    request: &TransactGet,
    end: ItemsEnd,
) -> Result<Tried, StepError>
    ensures ok { IfOk result (λ tried. TellsRead request.now end tried) }
    ensures err { IfErr result (λ why. TellsNoRead end why) }
    ensures told { (es : List TableEvent) → AreTold es looks.old → AreTold es looks.new }
{
    match end {
        ReadEnd::Rows(items) => Ok(tell_items(alloc, request, items)?),
        ReadEnd::Cancelled(reasons) => Ok(tell_reasons(alloc, reasons)?),
        ReadEnd::NoTable(_) => {
            looks.forget(alloc);
            Ok(Tried::Again)
        }
        ReadEnd::Spent => Err(StepError::Spent),
        ReadEnd::NoMemory => Err(StepError::NoMemory),
    }
}

/// Reads the items at these places, and tells what came of it.
fn read_at<C: Transacts>(
    cells: &C,
    pass: &mut C::Pass,
    looks: &mut Looks,
    request: &TransactGet,
    keys: &[CellKey],
) -> Result<Tried, StepError>
    requires fits { C.fits cells.now pass.old }
    requires told { AreTold (reverse (C.seen pass.old).front) looks.old }
    ensures ok { IfOk result (λ tried. ReadsAt (C.count cells.now) (C.seen pass.old) request.now keys.now tried (C.seen pass.new)) }
    ensures err { IfErr result (λ why. GivesUp (C.count cells.now) (C.seen pass.old) why (C.seen pass.new)) }
    ensures told { AreTold (reverse (C.seen pass.new).front) looks.new }
    ensures fits { C.fits cells.now pass.new }
{
    let end = cells.transact_get(pass, keys);
    tell(cells.alloc(), looks, request, end)
}

/// Reads items of tables together, at one point (API Reference: TransactGetItems).
///
/// It is refused by own Looks for a table that is not there, for a key that is none of its table's, and where an item is read
/// twice, in this order. The items are then read in two rounds, beside transactions and writes. What is told of them is what the
/// sequential database tells that has the tables at a point between the rounds; or, where a transaction held one of them or one was
/// changed between the rounds, the reason of each read, and no item. Where a table is gone that was known, what is kept of Looks is
/// let go, and the caller tries again. `Spent` comes only where no unit is left, and `NoMemory` for want of memory; nothing is bound.
pub fn transact_get<C: Transacts>(
    cells: &C,
    pass: &mut C::Pass,
    looks: &mut Looks,
    request: TransactGet,
) -> Result<Tried, StepError>
    requires fits { C.fits cells.now pass.old }
    requires told { AreTold (reverse (C.seen pass.old).front) looks.old }
    ensures ok { IfOk result (λ tried. IsTransactGetTry (C.count cells.now) (C.seen pass.old) request tried (C.seen pass.new)) }
    ensures err { IfErr result (λ why. GivesUp (C.count cells.now) (C.seen pass.old) why (C.seen pass.new)) }
    ensures told { AreTold (reverse (C.seen pass.new).front) looks.new }
    ensures fits { C.fits cells.now pass.new }
{
    match find(cells, pass, looks, request.reads.as_slice()) {
        Ok(Ok(keys)) => {
            let tried = read_at(cells, pass, looks, &request, keys.as_slice());
            drop(keys);
            drop(request);
            tried
        }
        Ok(Err(why)) => {
            drop(request);
            Ok(Tried::Reply(Reply::Refused(why)))
        }
        Err(why) => {
            drop(request);
            Err(why)
        }
    }
}
