//! What helpers are told of a request.

use cell_helpers::Hints;
use std::sync::Wait;
use std::sync::atomic::{AtomicBool, Ordering};
use table_model::{Reason, Refusal, Reply};
use table_request::Request;

/// What there may be to do for helpers.
#[derive(Clone, Copy)]
pub(crate) enum Hint {
    Nothing,
    /// A change waits for an index.
    Feed,
    /// A transaction may have been left in the middle.
    Recover,
}

/// Whether a request may leave changes that wait for an index, once it is made. `indexed` is whether any request so far asked for
/// a global index, on any session: what this one was told by Looks may be older than an index.
pub(crate) fn may_feed(indexed: &AtomicBool, request: &Request) -> bool {
    match request {
        Request::CreateTable(request) => {
            if !request.schema.globals.is_empty() {
                indexed.store(true, Ordering::Relaxed);
            }
            false
        }
        Request::UpdateTable(_) => {
            indexed.store(true, Ordering::Relaxed);
            true
        }
        Request::PutItem(_)
        | Request::UpdateItem(_)
        | Request::DeleteItem(_)
        | Request::BatchWrite(_)
        | Request::TransactWrite(_) => indexed.load(Ordering::Relaxed),
        _ => false,
    }
}

/// Whether a transaction held an item of one that was cancelled.
fn is_held(reasons: &[Reason]) -> bool {
    for reason in reasons {
        if let Reason::Held { number: _ } = reason {
            return true;
        }
    }
    false
}

/// What a reply leaves to do. `may_feed` tells of its request.
pub(crate) fn hint_of(reply: &Reply, may_feed: bool) -> Hint {
    match reply {
        Reply::Refused(Refusal::Conflict { number: _ } | Refusal::TableHeld(_)) => Hint::Recover,
        Reply::Refused(Refusal::Cancelled(reasons)) if is_held(reasons.as_slice()) => Hint::Recover,
        Reply::Refused(_) => Hint::Nothing,
        _ if may_feed => Hint::Feed,
        _ => Hint::Nothing,
    }
}

/// Tells helpers, where there are some.
pub(crate) fn follow<R: Wait>(rt: &R, hints: &Option<Hints>, hint: Hint, moment: u64) {
    let Some(hints) = hints else {
        return;
    };
    match hint {
        Hint::Nothing => {}
        Hint::Feed => hints.feed(rt, moment),
        Hint::Recover => hints.recover(rt, moment),
    }
}
