//! A try of any request.

ghost use Rattle.std.specs.Prelude.{IfOk, IfErr, reverse};
ghost use Rattle.cell_asks.specs.Told.{AreTold};
ghost use Rattle.request_calls.specs.Requests.{Stops, Tries};

use crate::call::Call;
use cell_asks::{Looks, StepError, Tried};
use table_request::Request;
use transact_asks::Transacts;

/// Tries a request once, by the call that is its (API Reference: Actions). Where a table was gone that was known, what is kept of
/// Looks was let go, nothing was bound, and the next try looks first.
///
/// The errors are `Spent`, where the pass has no unit left, and `NoMemory`: then a part of what a request writes may be written,
/// as `IsGivenUp` says of it.
pub fn try_request<C: Transacts>(
    cells: &C,
    pass: &mut C::Pass,
    looks: &mut Looks,
    request: Request,
) -> Result<Tried, StepError>
    requires fits { C.fits cells.now pass.old }
    requires told { AreTold (reverse (C.seen pass.old).front) looks.old }
    ensures ok { IfOk result (λ tried. Tries (C.count cells.now) (C.seen pass.old) request tried (C.seen pass.new)) }
    ensures err { IfErr result (λ why. Stops (C.count cells.now) (C.seen pass.old) request why (C.seen pass.new)) }
    ensures told { AreTold (reverse (C.seen pass.new).front) looks.new }
    ensures fits { C.fits cells.now pass.new }
{
    match request {
        Request::CreateTable(request) => request.try_once(cells, pass, looks),
        Request::DeleteTable(request) => request.try_once(cells, pass, looks),
        Request::UpdateTable(request) => request.try_once(cells, pass, looks),
        Request::DescribeTable(request) => request.try_once(cells, pass, looks),
        Request::ListTables(request) => request.try_once(cells, pass, looks),
        Request::UpdateTimeToLive(request) => request.try_once(cells, pass, looks),
        Request::DescribeTimeToLive(request) => request.try_once(cells, pass, looks),
        Request::GetItem(request) => request.try_once(cells, pass, looks),
        Request::PutItem(request) => request.try_once(cells, pass, looks),
        Request::UpdateItem(request) => request.try_once(cells, pass, looks),
        Request::DeleteItem(request) => request.try_once(cells, pass, looks),
        Request::BatchGet(request) => request.try_once(cells, pass, looks),
        Request::BatchWrite(request) => request.try_once(cells, pass, looks),
        Request::Query(request) => request.try_once(cells, pass, looks),
        Request::Scan(request) => request.try_once(cells, pass, looks),
        Request::TransactWrite(request) => request.try_once(cells, pass, looks),
        Request::TransactGet(request) => request.try_once(cells, pass, looks),
    }
}
