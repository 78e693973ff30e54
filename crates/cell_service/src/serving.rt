//! One try of what a message states, and what is told of it.

ghost use Rattle.std.specs.Prelude.{◌≡◌, true, reverse, IsTrue, MatchOption, IfSome};
ghost use Rattle.http_front.specs.Replies.{IsReplyStatus};
ghost use Rattle.api_request.specs.Requests.{IsRequest};
ghost use Rattle.request_parts.specs.Ends.{IsToldOf};
ghost use Rattle.cell_asks.specs.Steps.{IsInVain};
ghost use Rattle.cell_asks.specs.Told.{AreTold};
ghost use Rattle.table_service.specs.Telling.{told, told_reply, IsTold};
ghost use Rattle.request_calls.specs.Requests.{is_single_write};
ghost use Rattle.cell_service.specs.Right.{IsAnswered, IsConflict, IsServed, told_error};

use crate::hinting::{Hint, hint_of, may_feed};
use api_request::RequestEnd;
use cell_asks::{Looks, StepError, Tried};
use http_front::Message;
use http_session::Answer;
use request_calls::try_request;
use std::alloc::Global;
use std::sync::atomic::AtomicBool;
use std::sync::{Mutex, Wait};
use table_model::{Refusal, Reply};
use table_request::Request;
use table_service::{budget_error, memory_error, read, refuse, tell};
use transact_asks::Transacts;

/// A body of more bytes than this is large: it is read while no other large one is. Its tree of JSON may take 130 times its bytes.
const LARGE_BODY: usize = 1_048_576;

/// What all sessions share beside the cells.
#[derive(Drop)]
pub(crate) struct Shared {
    /// Held while a large body is read, so that the tree of one alone stands at a time.
    pub(crate) large_bodies: Mutex<()>,
    /// Whether any request so far asked for a global index.
    pub(crate) indexed: AtomicBool,
}

impl Shared {
    /// No body is read, and no index was asked for.
    pub(crate) fn new() -> Shared {
        Shared {
            large_bodies: Mutex::new(()),
            indexed: AtomicBool::new(false),
        }
    }
}

/// What a try of a message came to, and what helpers are told of it.
#[derive(Drop)]
pub(crate) struct Served {
    /// None where the message is to be tried again: a table was gone that was known, or a transaction holds the item of a write.
    pub(crate) answer: Option<Answer>,
    pub(crate) hint: Hint,
}

/// What is told of an error.
fn tell_error(why: StepError) -> Answer
    ensures status { IsReplyStatus result.status }
    ensures told { told result ≡ told_error why }
{
    match why {
        StepError::NoMemory => memory_error(),
        StepError::Spent => budget_error(),
    }
}

/// Whether a request is tried again where a transaction holds its item: one write, while the message has `patience`.
fn may_wait(patience: bool, request: &Request) -> bool
    ensures { IsTrue result → is_single_write request.now ≡ true }
{
    match request {
        Request::PutItem(_) | Request::UpdateItem(_) | Request::DeleteItem(_) => patience,
        _ => false,
    }
}

/// Whether a transaction holds the item of a write.
fn is_conflict(reply: &Reply) -> bool
    ensures { IsTrue result → IsConflict reply.now }
{
    match reply {
        Reply::Refused(Refusal::Conflict { number: _ }) => true,
        _ => false,
    }
}

/// What is told of a reply: nothing where its request waits for a transaction that holds its item.
fn serve_reply(alloc: Global, reply: Reply, may_feed: bool, may_wait: bool) -> Served
    ensures status { IfSome result.answer (λ answer. IsReplyStatus answer.status) }
    ensures told { MatchOption result.answer (IsTrue may_wait × IsConflict reply) (λ answer. IsTold (told_reply reply) (told answer)) }
{
    if may_wait && is_conflict(&reply) {
        drop(reply);
        // As a rule whoever drives the transaction ends it. Helpers are told where the tries end before it does.
        return Served {
            answer: None,
            hint: Hint::Nothing,
        };
    }
    let hint = hint_of(&reply, may_feed);
    let answer = tell(alloc, &reply);
    drop(reply);
    Served {
        answer: Some(answer),
        hint,
    }
}

/// Tries a request once, and tells what it came to.
fn serve<C: Transacts>(
    indexed: &AtomicBool,
    cells: &C,
    pass: &mut C::Pass,
    looks: &mut Looks,
    request: Request,
    patience: bool,
) -> Served
    requires fits { C.fits cells.now pass.old }
    requires told { AreTold (reverse (C.seen pass.old).front) looks.old }
    ensures status { IfSome result.answer (λ answer. IsReplyStatus answer.status) }
    ensures served { MatchOption result.answer (IsInVain (C.count cells.now) (C.seen pass.old) (C.seen pass.new))
        (λ answer. IsServed (C.count cells.now) (C.seen pass.old) request (told answer) (C.seen pass.new)) }
    ensures told { AreTold (reverse (C.seen pass.new).front) looks.new }
    ensures fits { C.fits cells.now pass.new }
{
    let may_feed = may_feed(indexed, &request);
    let may_wait = may_wait(patience, &request);
    match try_request(cells, pass, looks, request) {
        Ok(Tried::Reply(reply)) => serve_reply(cells.alloc(), reply, may_feed, may_wait),
        Ok(Tried::Again) => Served {
            answer: None,
            hint: Hint::Nothing,
        },
        // A transaction may have been left in the middle.
        Err(why) => Served {
            answer: Some(tell_error(why)),
            hint: Hint::Recover,
        },
    }
}

/// The request that a message states. Where its body is large, it is read once no other large body is.
fn read_in_turn<R: Wait>(
    large_bodies: &Mutex<()>,
    rt: &R,
    alloc: Global,
    message: &Message,
) -> Result<Request, RequestEnd>
    ensures { IsToldOf (IsRequest message.now.target message.now.body) result }
{
    if message.body.len() <= LARGE_BODY {
        return read(alloc, message);
    }
    let _turn = large_bodies.lock(rt);
    read(alloc, message)
}

/// A try that only tells.
fn only(answer: Answer) -> Served
    ensures { result.answer ≡ Some answer }
{
    Served {
        answer: Some(answer),
        hint: Hint::Nothing,
    }
}

/// Reads a message, and tries its request once. With `patience` a conflict of a single write is not told.
pub(crate) fn serve_message<R: Wait, C: Transacts>(
    rt: &R,
    shared: &Shared,
    cells: &C,
    pass: &mut C::Pass,
    looks: &mut Looks,
    message: &Message,
    patience: bool,
) -> Served
    requires fits { C.fits cells.now pass.old }
    requires told { AreTold (reverse (C.seen pass.old).front) looks.old }
    ensures status { IfSome result.answer (λ answer. IsReplyStatus answer.status) }
    ensures answered { MatchOption result.answer (IsInVain (C.count cells.now) (C.seen pass.old) (C.seen pass.new))
        (λ answer. IsAnswered (C.count cells.now) (C.seen pass.old) message.now (told answer) (C.seen pass.new)) }
    ensures told { AreTold (reverse (C.seen pass.new).front) looks.new }
    ensures fits { C.fits cells.now pass.new }
{
    match read_in_turn(&shared.large_bodies, rt, cells.alloc(), message) {
        Ok(request) => serve(&shared.indexed, cells, pass, looks, request, patience),
        Err(RequestEnd::Fault(refusal)) => only(refuse(cells.alloc(), &refusal)),
        Err(RequestEnd::NoMemory) => only(memory_error()),
    }
}
