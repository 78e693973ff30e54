//! Transactions whose drivers leave off on their way, and the sweeps that end them.

ghost use Rattle.std.specs.Prelude.{reverse};
ghost use Rattle.cell_asks.specs.Told.{AreTold};
ghost use Rattle.cluster.specs.Steps.{IsAtRest};

use api_request::read;
use base_types::Seq;
use cell_asks::Looks;
use coordinator::{GoGate, Point, ScriptGate};
use std::alloc::{AllocError as NoMemory, Global};
use std::sync::Wait;
use table_cells::{TableCaller, TablePass, sweep};
use table_request::{Request, TransactWrite};
use transact_asks::Transacts;
use transact_calls::{Transacted, transact_write};

pub(crate) const WRITE: &str = "DynamoDB_20120810.TransactWriteItems";

/// The transaction that a body states.
pub(crate) fn stated(alloc: Global, json: &str) -> Option<TransactWrite> {
    match read(alloc, Some(WRITE.as_bytes()), json.as_bytes()) {
        Ok(Request::TransactWrite(request)) => Some(request),
        other => {
            drop(other);
            None
        }
    }
}

/// A gate that stops at a point.
fn gate_at(alloc: Global, point: Point) -> Result<ScriptGate, NoMemory> {
    let mut points = Seq::new(alloc);
    points.push(point)?;
    Ok(ScriptGate::make(points))
}

/// Whether a transaction, by its body, is left at a point of its way.
pub(crate) fn is_left<C: Transacts>(
    cells: &C,
    pass: &mut C::Pass,
    looks: &mut Looks,
    json: &str,
    point: Point,
) -> bool
    requires fits { C.fits cells.now pass.old }
    requires told { AreTold (reverse (C.seen pass.old).front) looks.old }
    ensures fits { C.fits cells.now pass.new }
    ensures told { AreTold (reverse (C.seen pass.new).front) looks.new }
{
    let Ok(mut gate) = gate_at(cells.alloc(), point) else {
        return false;
    };
    match stated(cells.alloc(), json) {
        Some(request) => matches!(
            transact_write(cells, pass, looks, request, &mut gate),
            Ok(Transacted::Stopped)
        ),
        None => false,
    }
}

/// Whether a sweep ends so many transactions that were left.
pub(crate) fn are_swept<T: Wait>(
    cells: &TableCaller<'_, T>,
    pass: &mut TablePass,
    count: u64,
) -> bool
    requires fits { IsAtRest cells.now.caller pass.old }
    ensures fits { IsAtRest cells.now.caller pass.new }
{
    match sweep(cells, pass, &mut GoGate) {
        Ok(swept) => swept == count,
        Err(_) => false,
    }
}
