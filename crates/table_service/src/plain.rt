//! The database of one session.

ghost use Rattle.std.specs.Prelude.{◌≡◌};
ghost use Rattle.http_front.specs.Replies.{IsReplyStatus};
ghost use Rattle.table_service.specs.Plain.{IsServed};
ghost use Rattle.table_service.specs.Telling.{told};

use crate::telling::{memory_error, read, refuse, tell};
use api_request::RequestEnd;
use http_front::Message;
use http_session::{Answer, Service};
use plain_database::{SlowDb, effect_slow};
use std::alloc::{AllocError as NoMemory, Global};
use table_request::Request;

/// Answers the messages of a session out of a database that the session alone has.
pub struct PlainService;

impl<R> Service<R> for PlainService {
    ghost use Rattle.std.specs.Prelude.{⊤};
    ghost use Rattle.table_service.specs.Plain.{plain_ways};

    type State = SlowDb;

    ghost fits = { λ service database. ⊤ };

    ghost ways = { plain_ways };

    fn begin(&self, _database: &mut SlowDb) -> bool {
        true
    }

    fn answer(
        &self,
        _rt: &R,
        alloc: Global,
        database: &mut SlowDb,
        message: &Message,
        moment: u64,
    ) -> Answer {
        // Before the message is read: what is expired goes at its moment, also where it is refused.
        if database.sweep(alloc, moment).is_err() {
            return memory_error();
        }
        match read(alloc, message) {
            Ok(request) => serve(alloc, database, request, moment),
            Err(RequestEnd::Fault(refusal)) => refuse(alloc, &refusal),
            Err(RequestEnd::NoMemory) => memory_error(),
        }
    }
}

/// Applies a request, and tells what became of it.
#[tactic(auto, using(crate::proofs::Serving::served_reply))]
fn serve(alloc: Global, database: &mut SlowDb, request: Request, moment: u64) -> Answer
    ensures status { IsReplyStatus result.status }
    ensures served { IsServed database.old request moment (told result) database.new }
{
    match effect_slow(database, alloc, request, moment) {
        Ok(reply) => tell(alloc, &reply),
        Err(NoMemory) => memory_error(),
    }
}
