//! BatchWriteItem.

ghost use Rattle.std.specs.Prelude.{◌≡◌, List, [], ◌∷◌, ◌++◌, reverse, IfOk, IfErr, OnOk};
ghost use Rattle.table_history.specs.Entries.{TableEvent};
ghost use Rattle.cell_asks.specs.Told.{AreTold};
ghost use Rattle.cell_asks.specs.declared.tried.Tried.{Tried};
ghost use Rattle.batch_calls.specs.Writes.{BatchWriteGivesUp, IsBatchWriteTry, told_writes};
ghost use Rattle.batch_calls.specs.Steps.{WritesAt, WroteEach, WroteSome, actions_among};

use crate::actions::all_actions;
use crate::find::{Found, find};
use crate::told::told_writes;
use base_types::Seq;
use cell_asks::{Asks, Looks, StepError, Tried, Wrote};
use cell_model::{CellKey, KeyedAction};
use std::alloc::{AllocError as NoMemory, Global};
use table_model::Reply;
use table_request::BatchWrite;

/// Adds what came of a write.
fn push(wrotes: &mut Seq<Wrote>, wrote: Wrote) -> Result<(), NoMemory>
    ensures { OnOk result (wrotes.new ≡ wrotes.old ++ wrote ∷ []) }
{
    wrotes.push(wrote)?;
    Ok(())
}

/// Sends these writes, one after another, and answers what came of each.
fn write_all<C: Asks>(
    cells: &C,
    pass: &mut C::Pass,
    actions: Seq<KeyedAction>,
) -> Result<Seq<Wrote>, StepError>
    requires fits { C.fits cells.now pass.old }
    ensures ok { IfOk result (λ wrotes. WroteEach (C.count cells.now) (C.seen pass.old) actions wrotes (C.seen pass.new)) }
    ensures err { IfErr result (λ why. WroteSome (C.count cells.now) (C.seen pass.old) actions why (C.seen pass.new)) }
    ensures fits { C.fits cells.now pass.new }
{
    let mut wrotes = Seq::with_capacity(cells.alloc(), actions.len())?;
    for action in Vec::from(actions) {
        let wrote = cells.write(pass, action)?;
        push(&mut wrotes, wrote)?;
    }
    Ok(wrotes)
}

/// Whether the answer shows that what is kept of the write's table no longer holds: it is gone, or has an index that refuses
/// the item.
fn is_outdated(wrote: &Wrote) -> bool {
    match wrote {
        Wrote::Written { old: _, new: _ } => false,
        Wrote::Held { number: _ } => false,
        Wrote::CondFalse { old: _ } => false,
        Wrote::Invalid(_) => true,
        Wrote::Stale => true,
    }
}

/// Lets go of what is kept where one of these answers shows that it no longer holds, so that the next request looks.
fn forget_outdated(alloc: Global, looks: &mut Looks, wrotes: &[Wrote])
    ensures { (es : List TableEvent) → AreTold es looks.old → AreTold es looks.new }
{
    for wrote in wrotes {
        if is_outdated(wrote) {
            looks.forget(alloc);
            return;
        }
    }
}

/// What a request comes to where its writes were answered so.
fn tried(
    alloc: Global,
    looks: &mut Looks,
    request: BatchWrite,
    wrotes: &[Wrote],
) -> Result<Tried, NoMemory>
    ensures tried { IfOk result (λ tried. tried ≡ Tried.Reply (told_writes request wrotes.now)) }
    ensures told { (es : List TableEvent) → AreTold es looks.old → AreTold es looks.new }
{
    forget_outdated(alloc, looks, wrotes);
    Ok(Tried::Reply(told_writes(alloc, request, wrotes)?))
}

/// Makes the writes at these places.
fn write_at<C: Asks>(
    cells: &C,
    pass: &mut C::Pass,
    looks: &mut Looks,
    request: BatchWrite,
    places: Seq<Seq<CellKey>>,
) -> Result<Tried, StepError>
    requires fits { C.fits cells.now pass.old }
    requires told { AreTold (reverse (C.seen pass.old).front) looks.old }
    ensures ok { IfOk result (λ tried. WritesAt (C.count cells.now) (C.seen pass.old) request places tried (C.seen pass.new)) }
    ensures err { IfErr result (λ why.
        WroteSome (C.count cells.now) (C.seen pass.old) (actions_among request.tables places) why (C.seen pass.new)) }
    ensures told { AreTold (reverse (C.seen pass.new).front) looks.new }
    ensures fits { C.fits cells.now pass.new }
{
    let actions = all_actions(cells.alloc(), request.tables.as_slice(), places)?;
    let wrotes = write_all(cells, pass, actions)?;
    Ok(tried(cells.alloc(), looks, request, wrotes.as_slice())?)
}

/// Makes and drops items of several tables, each write by itself (API Reference: BatchWriteItem). It is refused by own Looks
/// of its tables, in this order, for a table that is not there, for the form of a key, for a key that stands twice in a
/// table, for an item of more than 409,600 bytes, and for the key of an index.
///
/// A write is given back where a transaction holds its item, its table is gone, or an index refuses its item that was made
/// since the table was looked up; all others are made. Where memory is refused, or no unit is left, the writes before are
/// made.
pub fn batch_write<C: Asks>(
    cells: &C,
    pass: &mut C::Pass,
    looks: &mut Looks,
    request: BatchWrite,
) -> Result<Tried, StepError>
    requires fits { C.fits cells.now pass.old }
    requires told { AreTold (reverse (C.seen pass.old).front) looks.old }
    ensures ok { IfOk result (λ tried. IsBatchWriteTry (C.count cells.now) (C.seen pass.old) request tried (C.seen pass.new)) }
    ensures err { IfErr result (λ why. BatchWriteGivesUp (C.count cells.now) (C.seen pass.old) request why (C.seen pass.new)) }
    ensures told { AreTold (reverse (C.seen pass.new).front) looks.new }
    ensures fits { C.fits cells.now pass.new }
{
    match find(cells, pass, looks, request.tables.as_slice()) {
        Ok(Found::At(places)) => write_at(cells, pass, looks, request, places),
        Ok(Found::Refused(why)) => {
            drop(request);
            Ok(Tried::Reply(Reply::Refused(why)))
        }
        Err(why) => {
            drop(request);
            Err(why)
        }
    }
}
