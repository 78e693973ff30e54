//! One request of a load, tried as often as it takes.

ghost use Rattle.std.specs.Prelude.{◌≡◌, ◌≢◌, reverse, Ok, Some, IfOk, IfErr};
ghost use Rattle.ddb_outside.specs.Causes.{Rose};
ghost use Rattle.turnstile.specs.Passes.{most_units};
ghost use Rattle.table_request.specs.declared.request.Request.TheVariants as request;
ghost use Rattle.api_request.specs.Requests.{IsRequest};
ghost use Rattle.cell_asks.specs.Told.{AreTold};
ghost use Rattle.transact_calls.specs.declared.write.Transacted.{Transacted};
ghost use Rattle.table_load.specs.declared.end.LoadFault.{LoadFault};
ghost use Rattle.table_load.specs.Sending.{Answers, Transacts, transact_target};

use crate::end::LoadFault;
use base_types::Bytes;
use cell_asks::{Looks, Tried};
use request_calls::try_request;
use std::alloc::{AllocError as NoMemory, Global};
use std::sync::Wait;
use table_model::Reply;
use table_request::{Request, TransactWrite};
use transact_asks::{Gate, Transacts};
use transact_calls::{Transacted, transact_write};

/// What tells that a body is a transaction's.
const TRANSACT_WRITE: &str = "DynamoDB_20120810.TransactWriteItems";

/// The request that a body of a load states. Each states one, so an error is for want of memory.
fn read_body(alloc: Global, target: &str, body: &Bytes) -> Result<Request, NoMemory>
    ensures { IfOk result (λ asked. IsRequest (Some target.now) body.now (Ok asked)) }
{
    match api_request::read(alloc, Some(target.as_bytes()), body.as_slice()) {
        Ok(request) => Ok(request),
        Err(_) => Err(NoMemory),
    }
}

/// The transaction that a body of a load states.
fn read_transaction(alloc: Global, body: &Bytes) -> Result<TransactWrite, NoMemory>
    ensures { IfOk result (λ asked. IsRequest (Some transact_target) body.now (Ok (request.TransactWrite asked))) }
{
    match read_body(alloc, TRANSACT_WRITE, body) {
        Ok(Request::TransactWrite(request)) => Ok(request),
        Ok(other) => {
            drop(other);
            Err(NoMemory)
        }
        Err(refused) => Err(refused),
    }
}

/// Sends the request that a body states under a target, and answers its reply.
#[tactic(auto, using(crate::proofs::Tried::none_tried, crate::proofs::Tried::tried_again))]
pub(crate) fn ask<R: Wait, C: Transacts>(
    rt: &R,
    cells: &C,
    pass: &mut C::Pass,
    looks: &mut Looks,
    target: &str,
    body: &Bytes,
) -> Result<Reply, LoadFault>
    requires fits { C.fits cells.now pass.old }
    requires told { AreTold (reverse (C.seen pass.old).front) looks.old }
    ensures ok { IfOk result (λ reply. Answers (C.count cells.now) (C.seen pass.old) target.now body.now reply (C.seen pass.new)) }
    ensures spent { IfErr result (λ why. why ≡ LoadFault.Spent → (C.seen pass.new).used ≡ most_units) }
    ensures unstopped { IfErr result (λ why. why ≢ LoadFault.Stopped) }
    ensures told { AreTold (reverse (C.seen pass.new).front) looks.new }
    ensures fits { C.fits cells.now pass.new }
{
    for _ in rt.forever() {
        let request = read_body(cells.alloc(), target, body)?;
        match try_request(cells, pass, looks, request) {
            Ok(Tried::Reply(reply)) => return Ok(reply),
            Ok(Tried::Again) => {}
            Err(why) => return Err(LoadFault::from(why)),
        }
    }
    unreachable!()
}

/// Sends the transaction that a body states, and answers what it came to: that is never that it is to be tried again.
#[tactic(auto, using(crate::proofs::Tried::none_tried, crate::proofs::Tried::tried_once_more))]
pub(crate) fn transact<R: Wait, C: Transacts, G: Gate>(
    rt: &R,
    cells: &C,
    pass: &mut C::Pass,
    looks: &mut Looks,
    body: &Bytes,
    gate: &mut G,
) -> Result<Transacted, LoadFault>
    requires fits { C.fits cells.now pass.old }
    requires told { AreTold (reverse (C.seen pass.old).front) looks.old }
    ensures ok { IfOk result (λ end. Transacts (C.count cells.now) (C.seen pass.old) body.now end (C.seen pass.new)) }
    ensures spent { IfErr result (λ why. why ≡ LoadFault.Spent → (C.seen pass.new).used ≡ most_units) }
    ensures unstopped { IfErr result (λ why. why ≢ LoadFault.Stopped) }
    ensures stopped { result ≡ Ok Transacted.Stopped → Rose (G.stops gate.old) (G.stops gate.new) }
    ensures obeyed { result ≢ Ok Transacted.Stopped → G.stops gate.new ≡ G.stops gate.old }
    ensures told { AreTold (reverse (C.seen pass.new).front) looks.new }
    ensures fits { C.fits cells.now pass.new }
{
    for _ in rt.forever() {
        let request = read_transaction(cells.alloc(), body)?;
        match transact_write(cells, pass, looks, request, gate) {
            Ok(Transacted::Tried(Tried::Reply(reply))) => {
                return Ok(Transacted::Tried(Tried::Reply(reply)));
            }
            Ok(Transacted::Tried(Tried::Again)) => {}
            Ok(Transacted::Stopped) => return Ok(Transacted::Stopped),
            Err(why) => return Err(LoadFault::from(why)),
        }
    }
    unreachable!()
}
