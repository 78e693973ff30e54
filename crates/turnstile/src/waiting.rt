//! How threads wait. Nothing here changes the table, and no contract speaks of it.
ghost use Rattle.std.specs.Prelude.{◌<◌};
ghost use Rattle.turnstile.specs.Passes.{IsSized};

use crate::bells::Bells;
use crate::board::Board;
use crate::world::World;
use std::hint;
use std::sync::Wait;

/// How often a thread looks for a cell that nobody waits for, before it sleeps: some 23 µs in all.
const LOOKS: u32 = 60;

/// After so many looks the rests between two grow no longer, since a turn may be over in less than a microsecond.
const GROWING: u32 = 3;

/// Spins, some 50 ns a round on the processors of the day.
pub fn pause(count: u64) {
    for _ in 0..count {
        hint::spin_loop();
    }
}

// Whether nobody has a turn of the cell or waits for one, when the second word is read.
fn is_idle<W: World>(board: &Board<W>, cell: usize) -> bool
    requires sized { IsSized board.now.shared.table_id board.now.shared.key }
    requires cell { cell < board.now.shared.table_id.slots }
{
    let served = board.shared.peek(24 + 16 * cell);
    board.shared.peek(16 + 16 * cell) == served
}

// Looks for an idle cell, at first less and less often. Whether it was found.
fn hover<W: World>(board: &Board<W>, cell: usize) -> bool
    requires sized { IsSized board.now.shared.table_id board.now.shared.key }
    requires cell { cell < board.now.shared.table_id.slots }
{
    for look in 0..LOOKS {
        if is_idle(board, cell) {
            return true;
        }
        pause(1 << look.min(GROWING));
    }
    false
}

/// Keeps a thread out of the queue of a cell while others are in it. Tickets are served in order, so one that was drawn by
/// a thread that is not running holds up all behind it. A thread that sleeps outside leaves those that run to take turn
/// after turn, until one that leaves wakes it or it has slept for long; and since others may then have come first, it draws
/// a ticket all the same, now that it runs.
pub fn approach<W: World, R: Wait>(board: &Board<W>, bells: &Bells, rt: &R, cell: usize)
    requires sized { IsSized board.now.shared.table_id board.now.shared.key }
    requires cell { cell < board.now.shared.table_id.slots }
{
    if hover(board, cell) {
        return;
    }
    let lot = bells.lot(cell);
    lot.announce();
    if is_idle(board, cell) {
        return;
    }
    lot.park(rt);
    lot.announce();
}

/// Wakes who has the ticket that is served where it sleeps. Where nobody has it, wakes one of those that sleep outside:
/// where somebody has, that one does as it leaves.
pub fn call<W: World>(board: &Board<W>, bells: &Bells, cell: usize, served: u64)
    requires sized { IsSized board.now.shared.table_id board.now.shared.key }
    requires cell { cell < board.now.shared.table_id.slots }
{
    bells.of(cell, served).ring();
    let lot = bells.lot(cell);
    if lot.has_waiters() && board.shared.peek(16 + 16 * cell) == served {
        lot.unpark_one();
    }
}

/// Sleeps until the bell of the ticket rings, where its turn has not come.
pub fn sleep<W: World, R: Wait>(board: &Board<W>, bells: &Bells, rt: &R, cell: usize, number: u64)
    requires sized { IsSized board.now.shared.table_id board.now.shared.key }
    requires cell { cell < board.now.shared.table_id.slots }
{
    let bell = bells.of(cell, number);
    let heard = bell.lie_down();
    if board.shared.peek(24 + 16 * cell) != number {
        bell.sleep(rt, heard);
    }
    bell.get_up();
}
