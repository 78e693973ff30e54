//! Names of tables.

ghost use Rattle.std.specs.Prelude.{◌≡◌, None, IfOk, IfErr, if◌then◌else◌};
ghost use Rattle.table_model.specs.Catalog.{last_name};
ghost use Rattle.cell_asks.specs.Steps.{GivesUp};
ghost use Rattle.table_calls.specs.Questions.{ListsTables};
ghost use Rattle.table_calls.specs.Replies.{listed_reply};

use base_types::Text;
use cell_asks::{Asks, StepError};
use cell_model::NameList;
use std::alloc::AllocError as NoMemory;
use table_model::{Reply, TableNames};
use table_request::ListTables;

/// Lists the names of tables (API Reference: ListTables).
///
/// The budget of the pass may be used up, and memory may be refused.
pub fn list_tables<C: Asks>(
    cells: &C,
    pass: &mut C::Pass,
    request: ListTables,
) -> Result<Reply, StepError>
    requires fits { C.fits cells.now pass.old }
    ensures ok { IfOk result (λ reply. ListsTables (C.count cells.now) (C.seen pass.old) request reply (C.seen pass.new)) }
    ensures err { IfErr result (λ why. GivesUp (C.count cells.now) (C.seen pass.old) why (C.seen pass.new)) }
    ensures fits { C.fits cells.now pass.new }
{
    let list = cells.names(pass, request.after, request.limit)?;
    let reply = listed(list)?;
    Ok(reply)
}

/// The reply to a request by the names that are told.
fn listed(list: NameList) -> Result<Reply, NoMemory>
    ensures { IfOk result (λ reply. reply ≡ listed_reply list) }
{
    let last = last_name(&list)?;
    Ok(Reply::Tables(TableNames {
        names: list.names,
        last,
    }))
}

/// The last of the names, where more follow.
fn last_name(list: &NameList) -> Result<Option<Text>, NoMemory>
    ensures { IfOk result (λ last. last ≡ if list.now.more then last_name list.now.names else None) }
{
    if !list.more {
        return Ok(None);
    }
    match list.names.as_slice().last() {
        Some(name) => Ok(Some(name.try_clone()?)),
        None => Ok(None),
    }
}
