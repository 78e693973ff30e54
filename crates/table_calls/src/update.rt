//! Tables changed.

ghost use Rattle.std.specs.Prelude.{◌≡◌, Some, IfOk, IfErr, IsTrue, is_some};
ghost use Rattle.cell_asks.specs.Steps.{GivesUp};
ghost use Rattle.table_calls.specs.Commands.{UpdatesTable};
ghost use Rattle.table_calls.specs.Replies.{removed_name, ruled_reply, update_refusal, update_told};

use crate::refusal::{bad_schema, held};
use base_types::Text;
use cell_asks::{Asks, Ruled, StepError};
use cell_model::{CatalogAnswer, CatalogCommand};
use std::alloc::AllocError as NoMemory;
use table_model::{Refusal, Reply};
use table_request::{IndexChange, UpdateTable};
use table_schema::SchemaFault;

/// Changes the billing, the definitions and one index of a table (API Reference: UpdateTable).
///
/// Where the budget of the pass is used up, or memory is refused, no command was carried out.
pub fn update_table<C: Asks>(
    cells: &C,
    pass: &mut C::Pass,
    request: UpdateTable,
) -> Result<Reply, StepError>
    requires fits { C.fits cells.now pass.old }
    ensures ok { IfOk result (λ reply. UpdatesTable (C.count cells.now) (C.seen pass.old) request reply (C.seen pass.new)) }
    ensures err { IfErr result (λ why. GivesUp (C.count cells.now) (C.seen pass.old) why (C.seen pass.new)) }
    ensures fits { C.fits cells.now pass.new }
{
    let name = request.table.try_clone()?;
    let removed = removed_name(&request.update.index)?;
    let command = CatalogCommand::Change {
        name: request.table,
        change: request.update,
    };
    let ruled = cells.command(pass, command)?;
    Ok(update_reply(name, removed, ruled))
}

/// The name of an index that is to go.
fn removed_name(index: &Option<IndexChange>) -> Result<Option<Text>, NoMemory>
    ensures { IfOk result (λ name. name ≡ removed_name index.now) }
{
    match index {
        Some(IndexChange::Remove(name)) => Ok(Some(name.try_clone()?)),
        Some(IndexChange::Make(_)) => Ok(None),
        None => Ok(None),
    }
}

/// The reply to a request by its command's answer.
fn update_reply(name: Text, removed: Option<Text>, ruled: Ruled) -> Reply
    requires { IsTrue (is_some (ruled_reply name (update_told name removed) ruled)) }
    ensures { ruled_reply name (update_told name removed) ruled ≡ Some result }
{
    match ruled {
        Ruled::Changed(told) => update_told(name, removed, told),
        Ruled::Refused(told) => update_told(name, removed, told),
        Ruled::Held { number: _ } => held(name),
    }
}

/// The reply to a request by what its command was told.
fn update_told(name: Text, removed: Option<Text>, told: CatalogAnswer) -> Reply
    requires { IsTrue (is_some (update_told name removed told)) }
    ensures { update_told name removed told ≡ Some result }
{
    if let Some(refusal) = update_refusal(name, removed, &told) {
        return Reply::Refused(refusal);
    }
    match told.into_schema() {
        Some(schema) => Reply::Described(schema),
        None => unreachable!(),
    }
}

/// Why a request is refused, by what its command was told.
fn update_refusal(name: Text, removed: Option<Text>, told: &CatalogAnswer) -> Option<Refusal>
    ensures { result ≡ update_refusal name removed told.now }
{
    match told {
        CatalogAnswer::NoTable => Some(Refusal::NoTable(name)),
        CatalogAnswer::NoIndex => match removed {
            Some(index) => Some(Refusal::NoIndex(index)),
            None => None,
        },
        CatalogAnswer::IndexExists => Some(bad_schema(SchemaFault::BadIndexName)),
        CatalogAnswer::BadSchema { fault } => Some(bad_schema(*fault)),
        _ => None,
    }
}
