//! The turns of all cells, taken in ascending order and left in descending order.
ghost use Rattle.std.specs.Prelude.{◌≡◌, ◌+◌, ◌<◌, ◌≤◌, ℕ, [], length, slice_get, Some, None, vec_capacity, ◌^◌};
ghost use Rattle.turnstile.specs.Histories.{at_cell, Trail};
ghost use Rattle.turnstile.specs.Passes.{most_units, emptied, stacked, IsSized, HoldsAll, EachStands};

use crate::bells::Bells;
use crate::board::{Board, Place};
use crate::pass::Pass;
use crate::steps::{draw, put_back, wait};
use crate::world::World;
use std::sync::Wait;

/// Takes one unit of the pass, and then turn after turn. There is room for the tickets and the values.
pub fn take_turns<W: World, R: Wait>(
    board: &Board<W>,
    bells: &Bells,
    pass: &mut Pass<W>,
    rt: &R,
    tickets: Vec<u64>,
    room: Vec<W::Cell>,
) -> (Vec<u64>, Vec<W::Cell>)
    requires of { pass.old.turnstile ≡ board.now.shared.table_id }
    requires sized { IsSized board.now.shared.table_id board.now.shared.key }
    requires free { pass.old.turns ≡ [] }
    requires unit { pass.old.used < most_units }
    requires empty { (tickets.items ≡ []) × (room.items ≡ []) }
    requires room { (board.now.shared.table_id.slots ≤ vec_capacity tickets) × (board.now.shared.table_id.slots ≤ vec_capacity room) }
    ensures count { length result.1.items ≡ board.now.shared.table_id.slots }
    ensures pass { pass.new ≡ record pass.old { used = pass.old.used + 1; front = pass.new.front; turns = pass.new.turns } }
    ensures holds { HoldsAll pass.new result.0.items }
    ensures stands { EachStands W.stands board.now.shared.table_id.slots result.1.items (λ c. at_cell W.cell c pass.new.front) }
    ensures trail { Trail W.by pass.old.number pass.old.front [] pass.new.front }
{
    let mut numbers = tickets;
    let mut values = room;
    pass.used += 1;
    for cell in 0..board.slot_count() {
        let number = draw(board, &mut pass.seat, cell);
        let value = wait(board, bells, &mut pass.seat, rt, cell, number);
        let Ok(()) = numbers.push(number) else {
            unreachable!()
        };
        let Ok(()) = values.push(value) else {
            unreachable!()
        };
    }
    (numbers, values)
}

/// Leaves turn after turn, the last taken first.
pub fn leave_turns<W: World>(
    board: &Board<W>,
    bells: &Bells,
    place: &mut Place<W>,
    tickets: Vec<u64>,
    cells: Vec<W::Cell>,
)
    requires of { place.old.table_id ≡ board.now.shared.table_id }
    requires sized { IsSized board.now.shared.table_id board.now.shared.key }
    requires idle { place.old.me.0.drew ≡ None }
    requires turns { (place.old.me.0.held ≡ stacked 0 tickets.items []) × (length tickets.items ≡ board.now.shared.table_id.slots) }
    requires hands { place.old.me.1 ≡ emptied place.old.me.0.held }
    requires small { (k : ℕ) (t : ℕ) → slice_get tickets.items k ≡ Some t → t < 2 ^ 60 }
    requires count { length cells.items ≡ length tickets.items }
    requires stands { EachStands W.stands board.now.shared.table_id.slots cells.items (λ c. at_cell W.cell c place.old.me.0.front) }
    ensures seat { (place.new.table_id ≡ place.old.table_id) × (place.new.id ≡ place.old.id) }
    ensures left { place.new.me ≡ (record place.old.me.0 { held = [] }, []) }
{
    let mut numbers = tickets;
    let mut values = cells;
    while let Some(number) = numbers.pop() {
        let Some(value) = values.pop() else {
            unreachable!()
        };
        put_back(board, bells, place, numbers.len(), number, value);
    }
}
