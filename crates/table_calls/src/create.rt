//! Tables made.

ghost use Rattle.std.specs.Prelude.{◌≡◌, Some, IfOk, IfErr, IsTrue, is_some};
ghost use Rattle.table_model.specs.Catalog.{made_at};
ghost use Rattle.cell_asks.specs.Steps.{GivesUp};
ghost use Rattle.table_calls.specs.Commands.{CreatesTable};
ghost use Rattle.table_calls.specs.Replies.{create_told, ruled_reply};

use crate::refusal::{bad_schema, held};
use cell_asks::{Asks, Ruled, StepError};
use cell_model::{CatalogAnswer, CatalogCommand};
use std::alloc::AllocError as NoMemory;
use table_model::{Refusal, Reply};
use table_request::CreateTable;
use table_schema::Schema;

/// Makes a table (API Reference: CreateTable), whose `created` is the moment of the pass.
///
/// Where the budget of the pass is used up, or memory is refused, no command was carried out.
pub fn create_table<C: Asks>(
    cells: &C,
    pass: &mut C::Pass,
    request: CreateTable,
) -> Result<Reply, StepError>
    requires fits { C.fits cells.now pass.old }
    ensures ok { IfOk result (λ reply. CreatesTable (C.count cells.now) (C.seen pass.old) request reply (C.seen pass.new)) }
    ensures err { IfErr result (λ why. GivesUp (C.count cells.now) (C.seen pass.old) why (C.seen pass.new)) }
    ensures fits { C.fits cells.now pass.new }
{
    let made = made_at(&request.schema, cells.moment(pass))?;
    let command = CatalogCommand::Create {
        schema: request.schema,
    };
    let ruled = cells.command(pass, command)?;
    Ok(create_reply(made, ruled))
}

/// A copy of a schema, made at the moment.
fn made_at(schema: &Schema, moment: u64) -> Result<Schema, NoMemory>
    ensures { IfOk result (λ made. made ≡ made_at moment schema.now) }
{
    let mut made = schema.try_clone()?;
    made.created = moment;
    Ok(made)
}

/// The reply to a request by its command's answer, the table being made with this schema.
fn create_reply(made: Schema, ruled: Ruled) -> Reply
    requires { IsTrue (is_some (ruled_reply made.name (create_told made) ruled)) }
    ensures { ruled_reply made.name (create_told made) ruled ≡ Some result }
{
    match ruled {
        Ruled::Changed(told) => create_told(made, &told),
        Ruled::Refused(told) => create_told(made, &told),
        Ruled::Held { number: _ } => held(made.into_name()),
    }
}

/// The reply to a request by what its command was told.
fn create_told(made: Schema, told: &CatalogAnswer) -> Reply
    requires { IsTrue (is_some (create_told made told.now)) }
    ensures { create_told made told.now ≡ Some result }
{
    match told {
        CatalogAnswer::Made { number: _ } => Reply::Described(made),
        CatalogAnswer::Exists => Reply::Refused(Refusal::TableExists(made.into_name())),
        CatalogAnswer::Full => Reply::Refused(Refusal::TooManyTables),
        CatalogAnswer::BadSchema { fault } => Reply::Refused(bad_schema(*fault)),
        _ => unreachable!(),
    }
}
