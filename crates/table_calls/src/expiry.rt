//! By which attribute the items of a table expire.

ghost use Rattle.std.specs.Prelude.{◌≡◌, Some, IfOk, IfErr, MatchOption, IsTrue, is_some};
ghost use Rattle.table_model.specs.declared.reply.Reply.{Reply as AnyReply};
ghost use Rattle.table_model.specs.declared.refusal.Refusal.{Refusal as AnyRefusal};
ghost use Rattle.table_history.specs.CommandEffects.{ttl_reply};
ghost use Rattle.cell_asks.specs.Steps.{GivesUp};
ghost use Rattle.table_calls.specs.Commands.{UpdatesTimeToLive};
ghost use Rattle.table_calls.specs.Questions.{DescribesTimeToLive};
ghost use Rattle.table_calls.specs.Replies.{ruled_reply};

use crate::refusal::held;
use base_types::Text;
use cell_asks::{Asks, Ruled, StepError};
use cell_model::{CatalogAnswer, CatalogCommand, TableLook};
use std::alloc::AllocError as NoMemory;
use table_model::{Invalid, Refusal, Reply};
use table_request::{DescribeTimeToLive, UpdateTimeToLive};

/// Lets the items of a table expire by an attribute, or no longer (API Reference: UpdateTimeToLive).
///
/// Where the budget of the pass is used up, or memory is refused, no command was carried out.
pub fn update_time_to_live<C: Asks>(
    cells: &C,
    pass: &mut C::Pass,
    request: UpdateTimeToLive,
) -> Result<Reply, StepError>
    requires fits { C.fits cells.now pass.old }
    ensures ok { IfOk result (λ reply. UpdatesTimeToLive (C.count cells.now) (C.seen pass.old) request reply (C.seen pass.new)) }
    ensures err { IfErr result (λ why. GivesUp (C.count cells.now) (C.seen pass.old) why (C.seen pass.new)) }
    ensures fits { C.fits cells.now pass.new }
{
    let kept = copy_of(&request)?;
    let command = CatalogCommand::TimeToLive {
        name: request.table,
        attribute: request.name,
        enabled: request.enabled,
    };
    let ruled = cells.command(pass, command)?;
    Ok(ttl_reply(kept, ruled))
}

/// A copy of a request.
fn copy_of(request: &UpdateTimeToLive) -> Result<UpdateTimeToLive, NoMemory>
    ensures { IfOk result (λ copy. copy ≡ request.now) }
{
    Ok(UpdateTimeToLive {
        table: request.table.try_clone()?,
        name: request.name.try_clone()?,
        enabled: request.enabled,
    })
}

/// The reply to a request by its command's answer.
fn ttl_reply(request: UpdateTimeToLive, ruled: Ruled) -> Reply
    requires { IsTrue (is_some (ruled_reply request.table (ttl_reply request) ruled)) }
    ensures { ruled_reply request.table (ttl_reply request) ruled ≡ Some result }
{
    match ruled {
        Ruled::Changed(told) => ttl_told(request, &told),
        Ruled::Refused(told) => ttl_told(request, &told),
        Ruled::Held { number: _ } => held(request.table),
    }
}

/// The reply to a request by what its command was told.
fn ttl_told(request: UpdateTimeToLive, told: &CatalogAnswer) -> Reply
    requires { IsTrue (is_some (ttl_reply request told.now)) }
    ensures { ttl_reply request told.now ≡ Some result }
{
    match told {
        CatalogAnswer::Changed { schema: _ } => Reply::TimeToLiveSet {
            name: request.name,
            enabled: request.enabled,
        },
        CatalogAnswer::NoTable => Reply::Refused(Refusal::NoTable(request.table)),
        CatalogAnswer::TtlRefused { fault } => {
            Reply::Refused(Refusal::Invalid(Invalid::TimeToLive(*fault)))
        }
        _ => unreachable!(),
    }
}

/// Describes by which attribute the items of a table expire (API Reference: DescribeTimeToLive).
///
/// The budget of the pass may be used up, and memory may be refused.
pub fn describe_time_to_live<C: Asks>(
    cells: &C,
    pass: &mut C::Pass,
    request: DescribeTimeToLive,
) -> Result<Reply, StepError>
    requires fits { C.fits cells.now pass.old }
    ensures ok { IfOk result (λ reply. DescribesTimeToLive (C.count cells.now) (C.seen pass.old) request reply (C.seen pass.new)) }
    ensures err { IfErr result (λ why. GivesUp (C.count cells.now) (C.seen pass.old) why (C.seen pass.new)) }
    ensures fits { C.fits cells.now pass.new }
{
    let name = request.table.try_clone()?;
    let told = cells.look(pass, name)?;
    let reply = ttl_described(request.table, told)?;
    Ok(reply)
}

/// The time to live of a table, or that none has the name.
fn ttl_described(name: Text, told: Option<TableLook>) -> Result<Reply, NoMemory>
    ensures { IfOk result (λ reply.
        MatchOption told (reply ≡ AnyReply.Refused (AnyRefusal.NoTable name)) (λ look. reply ≡ AnyReply.TimeToLive look.schema.ttl)) }
{
    let Some(look) = told else {
        return Ok(Reply::Refused(Refusal::NoTable(name)));
    };
    let attribute = match &look.schema.ttl {
        Some(attribute) => Some(attribute.try_clone()?),
        None => None,
    };
    Ok(Reply::TimeToLive(attribute))
}
