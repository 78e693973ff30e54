//! Tables described.

ghost use Rattle.std.specs.Prelude.{◌≡◌, IfOk, IfErr, MatchOption};
ghost use Rattle.table_model.specs.declared.reply.Reply.{Reply as AnyReply};
ghost use Rattle.table_model.specs.declared.refusal.Refusal.{Refusal as AnyRefusal};
ghost use Rattle.cell_asks.specs.Steps.{GivesUp};
ghost use Rattle.table_calls.specs.Questions.{DescribesTable};

use base_types::Text;
use cell_asks::{Asks, StepError};
use cell_model::TableLook;
use table_model::{Refusal, Reply};
use table_request::DescribeTable;

/// Describes a table (API Reference: DescribeTable).
///
/// The budget of the pass may be used up, and memory may be refused.
pub fn describe_table<C: Asks>(
    cells: &C,
    pass: &mut C::Pass,
    request: DescribeTable,
) -> Result<Reply, StepError>
    requires fits { C.fits cells.now pass.old }
    ensures ok { IfOk result (λ reply. DescribesTable (C.count cells.now) (C.seen pass.old) request reply (C.seen pass.new)) }
    ensures err { IfErr result (λ why. GivesUp (C.count cells.now) (C.seen pass.old) why (C.seen pass.new)) }
    ensures fits { C.fits cells.now pass.new }
{
    let name = request.table.try_clone()?;
    let told = cells.look(pass, name)?;
    Ok(described(request.table, told))
}

/// The description of a table, or that none has the name.
fn described(name: Text, told: Option<TableLook>) -> Reply
    ensures { MatchOption told (result ≡ AnyReply.Refused (AnyRefusal.NoTable name)) (λ look. result ≡ AnyReply.Table look.schema) }
{
    match told {
        Some(look) => Reply::Table(look.schema),
        None => Reply::Refused(Refusal::NoTable(name)),
    }
}
