//! How messages are read, and what is told of them.

ghost use Rattle.std.specs.Prelude.{◌≡◌, option_copied};
ghost use Rattle.http_front.specs.Replies.{IsReplyStatus};
ghost use Rattle.api_request.specs.Requests.{IsRequest};
ghost use Rattle.request_parts.specs.Ends.{IsToldOf};
ghost use Rattle.table_service.specs.Telling.{IsTold, told, told_budget, told_memory, told_refusal, told_reply};

use api_reply::ErrorKind;
use api_request::{Refusal, RequestEnd};
use http_front::Message;
use http_session::{Answer, Body};
use std::alloc::{AllocError as NoMemory, Global};
use table_model::Reply;
use table_request::Request;

/// The request that a message states.
pub fn read(alloc: Global, message: &Message) -> Result<Request, RequestEnd>
    ensures { IsToldOf (IsRequest message.now.target message.now.body) result }
{
    api_request::read(alloc, target(message), message.body.as_slice())
}

/// The X-Amz-Target of a message.
fn target(message: &Message) -> Option<&[u8]>
    ensures { option_copied result ≡ message.now.target }
{
    match &message.target {
        Some(target) => Some(target.as_slice()),
        None => None,
    }
}

/// The answer that tells a reply.
#[tactic(auto, using(crate::proofs::Serving::reply_known))]
pub fn tell(alloc: Global, reply: &Reply) -> Answer
    ensures status { IsReplyStatus result.status }
    ensures told { IsTold (told_reply reply.now) (told result) }
{
    match api_reply::body(alloc, reply) {
        Ok(body) => Answer {
            status: api_reply::status(reply),
            body: Body::Made(body),
        },
        Err(NoMemory) => memory_error(),
    }
}

/// The answer to a message that is refused before the database sees it.
pub fn refuse(alloc: Global, refusal: &Refusal) -> Answer
    ensures status { IsReplyStatus result.status }
    ensures told { IsTold (told_refusal refusal.now) (told result) }
{
    match api_reply::refusal_body(alloc, refusal) {
        Ok(body) => Answer {
            status: 400,
            body: Body::Made(body),
        },
        Err(NoMemory) => memory_error(),
    }
}

/// The answer for want of memory, which takes none.
pub fn memory_error() -> Answer
    ensures { told result ≡ told_memory }
{
    Answer {
        status: ErrorKind::InternalServer.status(),
        body: Body::Fixed(api_reply::memory_error_body()),
    }
}

/// The answer for a budget that is used up, which takes no memory.
pub fn budget_error() -> Answer
    ensures { told result ≡ told_budget }
{
    Answer {
        status: ErrorKind::InternalServer.status(),
        body: Body::Fixed(api_reply::budget_error_body()),
    }
}
