//! What a helper does on a hint.

ghost use Rattle.std.specs.Prelude.{◌<◌};
ghost use Rattle.cluster.specs.Steps.{IsAtRest, partitions_of};
ghost use Rattle.cell_helpers.specs.Upkeep.{Upkeep};

use crate::hints::Calls;
use cell_asks::Asks;
use coordinator::GoGate;
use crossbeam_channel::Receiver;
use std::alloc::Global;
use std::sync::Wait;
use table_cells::{TableCaller, TablePass, drain, expire, sweep};

/// How many expired items of a partition are removed on one hint, at most: so no round is long.
const AT_ONCE: u32 = 25;

/// Raises the moment of a pass to that of a hint.
#[tactic(auto, using(crate::proofs::Kept::ticked, crate::proofs::Kept::rests_still))]
fn tick<T>(cells: &TableCaller<'_, T>, pass: &mut TablePass, moment: u64)
    requires rests { IsAtRest cells.now.caller pass.old }
    ensures upkeep { Upkeep pass.old pass.new }
    ensures rests { IsAtRest cells.now.caller pass.new }
{
    pass.tick(moment);
}

/// Brings all indexes up to date.
fn feed<T: Wait>(cells: &TableCaller<'_, T>, pass: &mut TablePass)
    requires rests { IsAtRest cells.now.caller pass.old }
    ensures upkeep { Upkeep pass.old pass.new }
    ensures rests { IsAtRest cells.now.caller pass.new }
{
    let _ = drain(cells, pass);
}

/// Ends all transactions that were left in the middle.
fn recover<T: Wait>(cells: &TableCaller<'_, T>, pass: &mut TablePass)
    requires rests { IsAtRest cells.now.caller pass.old }
    ensures upkeep { Upkeep pass.old pass.new }
    ensures rests { IsAtRest cells.now.caller pass.new }
{
    let _ = sweep(cells, pass, &mut GoGate);
}

/// Removes some expired items of a partition.
fn remove_some<T: Wait>(cells: &TableCaller<'_, T>, pass: &mut TablePass, cell: u32)
    requires rests { IsAtRest cells.now.caller pass.old }
    requires cell { cell < partitions_of cells.now.caller }
    ensures upkeep { Upkeep pass.old pass.new }
    ensures rests { IsAtRest cells.now.caller pass.new }
{
    let _ = expire(cells, pass, AT_ONCE, cell);
}

/// Removes some expired items of each partition, in order.
fn remove<T: Wait>(cells: &TableCaller<'_, T>, pass: &mut TablePass)
    requires rests { IsAtRest cells.now.caller pass.old }
    ensures upkeep { Upkeep pass.old pass.new }
    ensures rests { IsAtRest cells.now.caller pass.new }
{
    for cell in 0..cells.partitions() {
        remove_some(cells, pass, cell);
    }
}

/// Feeds on each hint, until none can come any more.
pub(crate) fn follow_feeds<T: Wait>(
    cells: &TableCaller<'_, T>,
    rt: &T,
    pass: &mut TablePass,
    told: &Receiver<u64, Global>,
)
    requires rests { IsAtRest cells.now.caller pass.old }
    ensures upkeep { Upkeep pass.old pass.new }
    ensures rests { IsAtRest cells.now.caller pass.new }
{
    for _ in rt.forever() {
        let Ok(moment) = told.recv(rt) else {
            return;
        };
        tick(cells, pass, moment);
        feed(cells, pass);
    }
}

/// Ends transactions where a hint asks for it.
fn answer_sweep<T: Wait>(
    cells: &TableCaller<'_, T>,
    rt: &T,
    pass: &mut TablePass,
    told: &Receiver<u64, Global>,
)
    requires rests { IsAtRest cells.now.caller pass.old }
    ensures upkeep { Upkeep pass.old pass.new }
    ensures rests { IsAtRest cells.now.caller pass.new }
{
    if let Ok(moment) = told.try_recv(rt) {
        tick(cells, pass, moment);
        recover(cells, pass);
    }
}

/// Removes expired items where a hint asks for it.
fn answer_removal<T: Wait>(
    cells: &TableCaller<'_, T>,
    rt: &T,
    pass: &mut TablePass,
    told: &Receiver<u64, Global>,
)
    requires rests { IsAtRest cells.now.caller pass.old }
    ensures upkeep { Upkeep pass.old pass.new }
    ensures rests { IsAtRest cells.now.caller pass.new }
{
    if let Ok(moment) = told.try_recv(rt) {
        tick(cells, pass, moment);
        remove(cells, pass);
    }
}

/// Ends transactions and removes expired items on hints, and brings indexes up to date behind them, until none can come any more.
pub(crate) fn follow_calls<T: Wait>(
    cells: &TableCaller<'_, T>,
    rt: &T,
    pass: &mut TablePass,
    calls: &Calls,
)
    requires rests { IsAtRest cells.now.caller pass.old }
    ensures upkeep { Upkeep pass.old pass.new }
    ensures rests { IsAtRest cells.now.caller pass.new }
{
    for _ in rt.forever() {
        if calls.wakes.recv(rt).is_err() {
            return;
        }
        answer_sweep(cells, rt, pass, &calls.sweeps);
        answer_removal(cells, rt, pass, &calls.removals);
        // What was done here may wait for indexes, and no session tells of it.
        feed(cells, pass);
    }
}
