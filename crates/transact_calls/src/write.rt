//! TransactWriteItems.

ghost use Rattle.std.specs.Prelude.{◌≡◌, ◌≢◌, reverse, Ok, IfOk, IfErr};
ghost use Rattle.std.specs.Option.{option_copied};
ghost use Rattle.ddb_outside.specs.Causes.{Rose};
ghost use Rattle.cell_asks.specs.Told.{AreTold};
ghost use Rattle.cell_asks.specs.declared.tried.Tried.{Tried};
ghost use Rattle.coordinator.specs.declared.transact_end.TransactEnd.{TransactEnd};
ghost use Rattle.table_model.specs.declared.reply.Reply.TheVariants.{Refused};
ghost use Rattle.table_model.specs.declared.refusal.Refusal.TheVariants.{Cancelled};
ghost use Rattle.transact_calls.specs.declared.write.Transacted.{Transacted};
ghost use Rattle.transact_calls.specs.Ends.{reasons_told};
ghost use Rattle.transact_calls.specs.Sent.{Sends, SendsPartly, Tells, TellsPartly};
ghost use Rattle.transact_calls.specs.Transactions.{GivesUpOnce, IsTransactWriteTry};

use crate::ends::reasons_told;
use crate::gone::gone_name;
use crate::keyed::{Stated, state};
use attr_value::SharedItem;
use base_types::{Seq, Text};
use cell_asks::{Looks, StepError, Tried};
use cell_model::KeyedAction;
use std::alloc::{AllocError as NoMemory, Global};
use table_model::{Refusal, Reply};
use table_request::{Consumed, TransactWrite};
use transact_asks::{Gate, TransactEnd, Transacts, WritesEnd};
use txn_core::Reason;
use update_eval::EvalFault;

/// What one try of a transaction came to.
#[derive(Drop)]
pub enum Transacted {
    Tried(Tried),
    /// The gate stopped it between two messages.
    Stopped,
}

/// The most actions of a transaction.
const MOST: usize = 100;

/// What a refusal is told by.
fn refused(why: Refusal) -> Transacted
    ensures { result ≡ Transacted.Tried (Tried.Reply (Refused why)) }
{
    Transacted::Tried(Tried::Reply(Reply::Refused(why)))
}

/// What is told of a transaction that was cancelled.
fn tell_cancelled(
    alloc: Global,
    actions: &[KeyedAction],
    reasons: Seq<Reason<SharedItem, EvalFault>>,
) -> Result<Transacted, NoMemory>
    ensures { IfOk result (λ tried. tried ≡ Transacted.Tried (Tried.Reply (Refused (Cancelled (reasons_told actions.now reasons))))) }
{
    let told = reasons_told(alloc, actions, reasons.as_slice());
    drop(reasons);
    Ok(refused(Refusal::Cancelled(told?)))
}

/// What is told by the end of a transaction. Where a table was gone before it was begun, what is kept is let go.
fn tell<C: Transacts>(
    cells: &C,
    pass: &mut C::Pass,
    looks: &mut Looks,
    actions: &[KeyedAction],
    consumed: Option<Seq<Consumed>>,
    end: WritesEnd,
) -> Result<Transacted, StepError>
    requires fits { C.fits cells.now pass.old }
    requires told { AreTold (reverse (C.seen pass.old).front) looks.old }
    ensures ok { IfOk result (λ tried. Tells (C.count cells.now) (C.seen pass.old) actions.now consumed end tried (C.seen pass.new)) }
    ensures err { IfErr result (λ why. TellsPartly (C.count cells.now) (C.seen pass.old) end why (C.seen pass.new)) }
    ensures stopped { end ≡ TransactEnd.Stopped → result ≡ Ok Transacted.Stopped }
    ensures told { AreTold (reverse (C.seen pass.new).front) looks.new }
    ensures fits { C.fits cells.now pass.new }
{
    match end {
        TransactEnd::Committed => {
            Ok(Transacted::Tried(Tried::Reply(Reply::TransactWritten { consumed })))
        }
        TransactEnd::Cancelled(reasons) => Ok(tell_cancelled(cells.alloc(), actions, reasons)?),
        TransactEnd::Mismatch { number: _ } => Ok(refused(Refusal::Mismatch)),
        TransactEnd::NoTable { place } => {
            let name = gone_name(cells, pass, actions, place)?;
            Ok(refused(Refusal::NoTable(name)))
        }
        TransactEnd::Stale => {
            looks.forget(cells.alloc());
            Ok(Transacted::Tried(Tried::Again))
        }
        TransactEnd::Stopped => Ok(Transacted::Stopped),
        TransactEnd::Spent => Err(StepError::Spent),
        // Two actions of a request that was checked are on two items.
        TransactEnd::Twice => Err(StepError::NoMemory),
        TransactEnd::NoMemory => Err(StepError::NoMemory),
    }
}

/// Sends actions as one transaction, and tells what came of it.
fn send<C: Transacts, G: Gate>(
    cells: &C,
    pass: &mut C::Pass,
    looks: &mut Looks,
    actions: &[KeyedAction],
    token: Option<&Text>,
    consumed: Option<Seq<Consumed>>,
    gate: &mut G,
) -> Result<Transacted, StepError>
    requires fits { C.fits cells.now pass.old }
    requires told { AreTold (reverse (C.seen pass.old).front) looks.old }
    ensures ok { IfOk result (λ tried. Sends (C.count cells.now) (C.seen pass.old) (option_copied token.entry) actions.now consumed tried (C.seen pass.new)) }
    ensures err { IfErr result (λ why. SendsPartly (C.count cells.now) (C.seen pass.old) (option_copied token.entry) actions.now why (C.seen pass.new)) }
    ensures stopped { result ≡ Ok Transacted.Stopped → Rose (G.stops gate.old) (G.stops gate.new) }
    ensures obeyed { result ≢ Ok Transacted.Stopped → G.stops gate.new ≡ G.stops gate.old }
    ensures told { AreTold (reverse (C.seen pass.new).front) looks.new }
    ensures fits { C.fits cells.now pass.new }
{
    // A request states no more and no fewer.
    if actions.is_empty() || actions.len() > MOST {
        drop(consumed);
        return Err(StepError::NoMemory);
    }
    let end = cells.transact_write(pass, token, actions, gate);
    tell(cells, pass, looks, actions, consumed, end)
}

/// Changes items of tables together: all of them, or none, once within the life of the request's token (API Reference:
/// TransactWriteItems).
///
/// It is refused by own Looks for a table that is not there, for a key that is none of its table's, where an item stands twice, and
/// where a key attribute is updated, in this order. Its actions are then one transaction, of which one Begin at most draws a number:
/// what is told is that it is committed, by this call or an earlier one with its token; that it is cancelled, with the reason of each
/// action, and the item only where that was asked; that the token stands for other actions; or that a table was gone. The gate may
/// stop it between two messages. `Spent` comes only where no unit is left. `NoMemory` is for want of memory: the transaction is then
/// whole, or nowhere, or left for others to end.
pub fn transact_write<C: Transacts, G: Gate>(
    cells: &C,
    pass: &mut C::Pass,
    looks: &mut Looks,
    request: TransactWrite,
    gate: &mut G,
) -> Result<Transacted, StepError>
    requires fits { C.fits cells.now pass.old }
    requires told { AreTold (reverse (C.seen pass.old).front) looks.old }
    ensures ok { IfOk result (λ tried. IsTransactWriteTry (C.count cells.now) (C.seen pass.old) request tried (C.seen pass.new)) }
    ensures err { IfErr result (λ why. GivesUpOnce (C.count cells.now) (C.seen pass.old) request why (C.seen pass.new)) }
    ensures stopped { result ≡ Ok Transacted.Stopped → Rose (G.stops gate.old) (G.stops gate.new) }
    ensures obeyed { result ≢ Ok Transacted.Stopped → G.stops gate.new ≡ G.stops gate.old }
    ensures told { AreTold (reverse (C.seen pass.new).front) looks.new }
    ensures fits { C.fits cells.now pass.new }
{
    let TransactWrite {
        actions,
        token,
        consumed,
    } = request;
    match state(cells, pass, looks, actions) {
        Ok(Stated::Actions(actions)) => {
            let tried = send(
                cells,
                pass,
                looks,
                actions.as_slice(),
                token.as_ref(),
                consumed,
                gate,
            );
            drop(actions);
            drop(token);
            tried
        }
        Ok(Stated::Refused(why)) => {
            drop(token);
            drop(consumed);
            Ok(refused(why))
        }
        Ok(Stated::Again) => {
            drop(token);
            drop(consumed);
            Ok(Transacted::Tried(Tried::Again))
        }
        Err(why) => {
            drop(token);
            drop(consumed);
            Err(why)
        }
    }
}
