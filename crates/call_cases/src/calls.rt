//! What is replied to a request over cells.

ghost use Rattle.std.specs.Prelude.{reverse};
ghost use Rattle.cell_asks.specs.Told.{AreTold};

use api_reply::body;
use api_request::read;
use cell_asks::{Asks, Looks, StepError, Tried};
use request_calls::try_request;
use std::alloc::Global;
use table_calls::{
    create_table, delete_table, describe_table, describe_time_to_live, list_tables, update_table,
    update_time_to_live,
};
use table_model::Reply;
use table_request::Request;
use transact_asks::Transacts;

/// The reply to a request on tables.
fn table_reply<C: Asks>(cells: &C, pass: &mut C::Pass, request: Request) -> Result<Reply, StepError>
    requires fits { C.fits cells.now pass.old }
    ensures fits { C.fits cells.now pass.new }
{
    match request {
        Request::CreateTable(request) => create_table(cells, pass, request),
        Request::DeleteTable(request) => delete_table(cells, pass, request),
        Request::UpdateTable(request) => update_table(cells, pass, request),
        Request::DescribeTable(request) => describe_table(cells, pass, request),
        Request::ListTables(request) => list_tables(cells, pass, request),
        Request::UpdateTimeToLive(request) => update_time_to_live(cells, pass, request),
        Request::DescribeTimeToLive(request) => describe_time_to_live(cells, pass, request),
        _ => Err(StepError::Spent),
    }
}

/// The body of the reply to a message on tables; none where the message is none, or was given up.
pub(crate) fn told<C: Asks>(
    cells: &C,
    pass: &mut C::Pass,
    target: &str,
    json: &str,
) -> Option<String>
    requires fits { C.fits cells.now pass.old }
    ensures fits { C.fits cells.now pass.new }
{
    let Ok(request) = read(cells.alloc(), Some(target.as_bytes()), json.as_bytes()) else {
        return None;
    };
    match table_reply(cells, pass, request) {
        Ok(reply) => body(cells.alloc(), &reply).ok(),
        Err(_) => None,
    }
}

/// Whether the reply to a message on tables has this body.
pub(crate) fn is_told<C: Asks>(
    cells: &C,
    pass: &mut C::Pass,
    target: &str,
    json: &str,
    expected: &str,
) -> bool
    requires fits { C.fits cells.now pass.old }
    ensures fits { C.fits cells.now pass.new }
{
    match told(cells, pass, target, json) {
        Some(text) => text.as_str() == expected,
        None => false,
    }
}

/// What is shown at one try of a message on items.
#[derive(Drop)]
pub(crate) enum Shown {
    /// The body of the reply.
    Body(String),
    /// Nothing: it is to be tried again.
    Again,
}

/// The body of a reply.
fn shown_body(alloc: Global, reply: &Reply) -> Option<Shown> {
    match body(alloc, reply) {
        Ok(text) => Some(Shown::Body(text)),
        Err(_) => None,
    }
}

/// What is shown at one try of a message on items; none where the message is none, or was given up.
pub(crate) fn show<C: Transacts>(
    cells: &C,
    pass: &mut C::Pass,
    looks: &mut Looks,
    target: &str,
    json: &str,
) -> Option<Shown>
    requires fits { C.fits cells.now pass.old }
    requires told { AreTold (reverse (C.seen pass.old).front) looks.old }
    ensures fits { C.fits cells.now pass.new }
    ensures told { AreTold (reverse (C.seen pass.new).front) looks.new }
{
    let Ok(request) = read(cells.alloc(), Some(target.as_bytes()), json.as_bytes()) else {
        return None;
    };
    match try_request(cells, pass, looks, request) {
        Ok(Tried::Reply(reply)) => shown_body(cells.alloc(), &reply),
        Ok(Tried::Again) => Some(Shown::Again),
        Err(_) => None,
    }
}

/// Whether the reply to a message on items has this body, at this try; none, where it is to be tried again.
pub(crate) fn is_shown<C: Transacts>(
    cells: &C,
    pass: &mut C::Pass,
    looks: &mut Looks,
    target: &str,
    json: &str,
    expected: Option<&str>,
) -> bool
    requires fits { C.fits cells.now pass.old }
    requires told { AreTold (reverse (C.seen pass.old).front) looks.old }
    ensures fits { C.fits cells.now pass.new }
    ensures told { AreTold (reverse (C.seen pass.new).front) looks.new }
{
    match show(cells, pass, looks, target, json) {
        Some(Shown::Body(text)) => expected == Some(text.as_str()),
        Some(Shown::Again) => expected.is_none(),
        None => false,
    }
}
