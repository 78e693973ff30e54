//! Tables dropped.

ghost use Rattle.std.specs.Prelude.{◌≡◌, Some, IfOk, IfErr, IsTrue, is_some};
ghost use Rattle.table_history.specs.CommandEffects.{delete_reply};
ghost use Rattle.cell_asks.specs.Steps.{GivesUp};
ghost use Rattle.table_calls.specs.Commands.{DeletesTable};
ghost use Rattle.table_calls.specs.Replies.{ruled_reply};

use crate::refusal::held;
use base_types::Text;
use cell_asks::{Asks, Ruled, StepError};
use cell_model::{CatalogAnswer, CatalogCommand};
use table_model::{Refusal, Reply};
use table_request::DeleteTable;

/// Drops a table with its items (API Reference: DeleteTable).
///
/// Where the budget of the pass is used up, or memory is refused, no command was carried out.
pub fn delete_table<C: Asks>(
    cells: &C,
    pass: &mut C::Pass,
    request: DeleteTable,
) -> Result<Reply, StepError>
    requires fits { C.fits cells.now pass.old }
    ensures ok { IfOk result (λ reply. DeletesTable (C.count cells.now) (C.seen pass.old) request reply (C.seen pass.new)) }
    ensures err { IfErr result (λ why. GivesUp (C.count cells.now) (C.seen pass.old) why (C.seen pass.new)) }
    ensures fits { C.fits cells.now pass.new }
{
    let name = request.table.try_clone()?;
    let command = CatalogCommand::Drop {
        name: request.table,
    };
    let ruled = cells.command(pass, command)?;
    Ok(delete_reply(name, ruled))
}

/// The reply to a request by its command's answer.
fn delete_reply(name: Text, ruled: Ruled) -> Reply
    requires { IsTrue (is_some (ruled_reply name (delete_reply name) ruled)) }
    ensures { ruled_reply name (delete_reply name) ruled ≡ Some result }
{
    match ruled {
        Ruled::Changed(told) => delete_told(name, told),
        Ruled::Refused(told) => delete_told(name, told),
        Ruled::Held { number: _ } => held(name),
    }
}

/// The reply to a request by what its command was told.
fn delete_told(name: Text, told: CatalogAnswer) -> Reply
    requires { IsTrue (is_some (delete_reply name told)) }
    ensures { delete_reply name told ≡ Some result }
{
    match told.into_schema() {
        Some(schema) => Reply::Described(schema),
        None => Reply::Refused(Refusal::NoTable(name)),
    }
}
