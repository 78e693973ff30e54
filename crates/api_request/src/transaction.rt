//! Requests on many items at one point.

ghost use Rattle.std.specs.Prelude.{◌≡◌, map, IfOk};
ghost use Rattle.serde_json.specs.View.{view, items_view};
ghost use Rattle.request_parts.specs.Ends.{IsToldOf};
ghost use Rattle.base_types.specs.declared.end.End.TheVariants as end;
ghost use Rattle.request_parts.specs.Members.{each};
ghost use Rattle.request_parts.specs.Asks.{IsPart, IsFirstRefused};
ghost use Rattle.request_parts.specs.Parts.{projection_asks};
ghost use Rattle.table_request.specs.Usage.{by_table};
ghost use Rattle.api_request.specs.Transactions.{StatesGet, IsTransactWrite, IsTransactGet, AreActions, AreFitting, action_asks, too_large, used_by, used_if};

use crate::action::{read_size, read_total, total_size};
use crate::item::asks_capacity;
use crate::part::{Part, read_parts};
use api_form::{Fault, Name};
use base_types::Seq;
use capacity::{Mode, write_halves};
use request_parts::{Projected, Refusal, RequestEnd, list_at, object_at, stated_copy};
use serde_json::Value;
use std::alloc::{AllocError as NoMemory, Global};
use table_request::{Consumed, TransactAction, TransactGet, TransactRead, TransactWrite, Usage};

/// The most bytes of the items, keys and values of a TransactWriteItems.
const MOST_BYTES: u64 = 4_194_304;

/// What the body of a TransactWriteItems states (API Reference: TransactWriteItems). OutOfRange of TransactItems where its
/// items, keys and values have more than 4,194,304 bytes together; else why the expressions of an action are refused.
pub fn transact_write(alloc: Global, json: &Value) -> Result<TransactWrite, RequestEnd>
    ensures { IsToldOf (IsTransactWrite (view json.now)) result }
{
    let token = stated_copy(alloc, json, Name::ClientRequestToken)?;
    let actions = read_actions(alloc, list_at(json, Name::TransactItems))?;
    let consumed = used_if(asks_capacity(json), alloc, actions.as_slice())?;
    Ok(TransactWrite {
        actions,
        token,
        consumed,
    })
}

/// What all actions use, of each table, in the order of the tables' names.
fn used(alloc: Global, actions: &[TransactAction]) -> Result<Seq<Consumed>, NoMemory>
    ensures { IfOk result (λ used. used ≡ by_table (map used_by actions.now)) }
{
    let mut usage = Usage::new(alloc);
    for action in actions {
        let halves = write_halves(read_size(action), Mode::Transact);
        usage.add(&action.table, halves)?;
    }
    usage.into_consumed(alloc)
}

/// The same where it is told. Else nothing is measured.
fn used_if(
    capacity: bool,
    alloc: Global,
    actions: &[TransactAction],
) -> Result<Option<Seq<Consumed>>, NoMemory>
    ensures { IfOk result (λ used. used ≡ used_if capacity actions.now) }
{
    if !capacity {
        return Ok(None);
    }
    Ok(Some(used(alloc, actions)?))
}

/// The actions that elements state, or why they are refused: they are too large together, or else an expression is refused.
///
/// Their size is taken of what was read, so that no item is made twice. Only where an expression is refused, and what is
/// behind it was not read, is it taken of the JSON.
fn read_actions(alloc: Global, items: &[Value]) -> Result<Seq<TransactAction>, RequestEnd>
    ensures { IsToldOf (AreActions (items_view items.now)) result }
{
    match read_parts::<TransactAction>(alloc, items) {
        Ok(actions) => fitting(actions),
        Err(RequestEnd::Fault(refusal)) => refused(alloc, items, refusal),
        Err(RequestEnd::NoMemory) => Err(RequestEnd::NoMemory),
    }
}

/// The actions, unless they are too large together.
#[tactic(auto, using(crate::proofs::Totals::fits, crate::proofs::Totals::fits_not))]
fn fitting(actions: Seq<TransactAction>) -> Result<Seq<TransactAction>, RequestEnd>
    ensures { IsToldOf (AreFitting actions) result }
{
    if read_total(actions.as_slice()) > MOST_BYTES {
        drop(actions);
        return Err(too_large());
    }
    Ok(actions)
}

/// Why actions are refused of which this is refused: that they are too large together comes before it.
#[tactic(auto, using(crate::proofs::Totals::refused_large, crate::proofs::Totals::refused_within))]
fn refused(
    alloc: Global,
    items: &[Value],
    refusal: Refusal,
) -> Result<Seq<TransactAction>, RequestEnd>
    ensures { IsFirstRefused (each action_asks (items_view items.now)) refusal → IsToldOf (AreActions (items_view items.now)) result }
{
    match total_size(alloc, items) {
        Ok(total) => {
            if total > MOST_BYTES {
                drop(refusal);
                return Err(too_large());
            }
            Err(RequestEnd::Fault(refusal))
        }
        Err(NoMemory) => {
            drop(refusal);
            Err(RequestEnd::NoMemory)
        }
    }
}

/// The refusal of actions that are too large together.
fn too_large() -> RequestEnd
    ensures { result ≡ end.Fault too_large }
{
    RequestEnd::Fault(Refusal::Body(Fault::OutOfRange(Name::TransactItems)))
}

/// What the body of a TransactGetItems states (API Reference: TransactGetItems), or why the expression of a read is
/// refused.
pub fn transact_get(alloc: Global, json: &Value) -> Result<TransactGet, RequestEnd>
    ensures { IsToldOf (IsTransactGet (view json.now)) result }
{
    let reads = read_parts::<TransactRead>(alloc, list_at(json, Name::TransactItems))?;
    Ok(TransactGet {
        reads,
        capacity: asks_capacity(json),
    })
}

impl Part for TransactRead {
    ghost use Rattle.api_request.specs.Transactions.{read_asks, StatesRead};

    ghost asks = { read_asks };

    ghost states = { StatesRead };

    fn read(alloc: Global, json: &Value) -> Result<TransactRead, RequestEnd> {
        match object_at(json, Name::Get) {
            Some(get) => get_read(alloc, get),
            None => get_read(alloc, json),
        }
    }
}

/// An item that is read (API Reference: Get).
fn get_read(alloc: Global, json: &Value) -> Result<TransactRead, RequestEnd>
    ensures { IsToldOf (IsPart projection_asks StatesGet (view json.now)) result }
{
    let parts = Projected::read(alloc, json)?;
    Ok(TransactRead {
        table: parts.placed.table,
        key: parts.placed.item,
        projection: parts.projection,
    })
}
