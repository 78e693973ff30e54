//! How a table is made, and how it is closed.
ghost use Rattle.std.specs.Prelude.{◌≡◌, ◌+◌, ◌<◌, ◌≤◌, ℕ, List, [], ◌∷◌, Some, length, map, slice_get, slice_index, IfOk, vec_capacity};
ghost use Rattle.turnstile.specs.Histories.{Has, IsBeginning, own, at_cell};
ghost use Rattle.turnstile.specs.Steps.{starting};
ghost use Rattle.turnstile.specs.Passes.{IsSized, EachStands, IsFree, HasPass, IsOneHistory, dealing, first_passes};
ghost use Rattle.turnstile.specs.Values.{AtHome, KeptBy};

use crate::board::{Board, Deal, Gather, Place, Size};
use crate::pass::Pass;
use crate::slot::Slot;
use crate::steps::meet;
use crate::world::World;
use atomic_table::Table;
use std::alloc::{AllocError as NoMemory, Global};

/// The cells, each in a slot of its own.
pub fn fill<C: Drop>(alloc: Global, cells: Vec<C>) -> Result<Vec<Slot<C>>, NoMemory>
    ensures { IfOk result (λ slots. slots.items ≡ map Some cells.items) }
{
    let mut slots = Vec::with_capacity(alloc, cells.len())?;
    for cell in cells {
        slots.push(Slot::new(Some(cell)))?;
    }
    Ok(slots)
}

// The words of a table of at most 65 cells, before anything was done.
static BLANK: [u64; 1056] = [0; 1056];

fn blank(count: usize) -> &'static [u64]
    requires { count ≤ 1056 }
    ensures count { length result.now ≡ count }
    ensures blank { (i : ℕ) → slice_index result.now i ≡ 0 }
{
    &BLANK[..count]
}

/// The table, and the seat that has all passes.
pub fn open<W: World>(
    alloc: Global,
    size: &Size,
    slots: Vec<Slot<W::Cell>>,
) -> Result<(Board<W>, Place<W>), NoMemory>
    requires cells { (size.now.cells ≡ length slots.items) × (length slots.items ≤ 65) }
    requires passes { size.now.passes ≤ 64 }
    requires stand { AtHome W.stands size.now.cells slots.items (λ _. []) }
    ensures board { IfOk result (λ t. IsSized t.0.shared.table_id t.0.shared.key × (t.0.shared.table_id.slots ≡ size.now.cells) × (t.0.shared.key ≡ size.now)) }
    ensures place { IfOk result (λ t. (t.1.table_id ≡ t.0.shared.table_id) × (t.1.me ≡ (starting size.now.passes, []))) }
{
    match Table::new(alloc, blank(16 + 16 * slots.len()), slots, size) {
        Ok((table, place)) => Ok((table, place)),
        Err(_) => Err(NoMemory),
    }
}

/// Deals the passes out.
pub fn deal<W: World>(
    board: &Board<W>,
    place: Place<W>,
    passes: u32,
    room: Vec<Pass<W>>,
) -> Result<Vec<Pass<W>>, NoMemory>
    requires of { place.table_id ≡ board.now.shared.table_id }
    requires sized { IsSized board.now.shared.table_id board.now.shared.key }
    requires first { place.me ≡ (starting passes, []) }
    requires empty { room.items ≡ [] }
    ensures { IfOk result (λ dealt. dealt.items ≡ first_passes board.now.shared.table_id passes passes) }
{
    let mut place = place;
    let mut dealt = room;
    for number in 0..passes {
        let seat = board.shared.split_seat::<Deal>(&mut place);
        dealt.push(Pass {
            seat,
            number,
            moment: 0,
            used: 0,
        })?;
    }
    Ok(dealt)
}

// Takes in what another seat has and has seen.
fn absorb<W: World>(board: &Board<W>, place: &mut Place<W>, other: Place<W>)
    requires of { (place.old.table_id ≡ board.now.shared.table_id) × (other.table_id ≡ board.now.shared.table_id) }
    requires sized { IsSized board.now.shared.table_id board.now.shared.key }
    requires free { IsFree place.old.me × IsFree other.me }
    ensures of { place.new.table_id ≡ place.old.table_id }
    ensures free { IsFree place.new.me }
    ensures kept { (q : ℕ) (f : List W.Entry) → HasPass W.by q f place.old.me.0 → HasPass W.by q f place.new.me.0 }
    ensures got { (q : ℕ) → Has other.me.0.numbers q → HasPass W.by q other.me.0.front place.new.me.0 }
{
    let mut other = other;
    meet(board, place, &mut other);
    board.shared.join_seat::<Gather>(place, other);
}

/// The seat that has all of these passes.
pub fn gather<W: World>(board: &Board<W>, first: Place<W>, passes: Vec<Pass<W>>) -> Place<W>
    requires of { (first.table_id ≡ board.now.shared.table_id) × IsFree first.me }
    requires sized { IsSized board.now.shared.table_id board.now.shared.key }
    requires each { (i : ℕ) (p : _) → slice_get passes.items i ≡ Some p → (p.turnstile ≡ board.now.shared.table_id) × (p.turns ≡ []) }
    ensures of { (result.table_id ≡ board.now.shared.table_id) × IsFree result.me }
    ensures kept { (q : ℕ) (f : List W.Entry) → HasPass W.by q f first.me.0 → HasPass W.by q f result.me.0 }
    ensures got { (i : ℕ) (p : _) → slice_get passes.items i ≡ Some p → HasPass W.by p.number p.front result.me.0 }
{
    let mut place = first;
    let mut passes = passes;
    while let Some(pass) = passes.pop() {
        absorb(board, &mut place, pass.into_seat());
    }
    place
}

/// The values, in the order of the cells.
pub fn take_values<W: World>(table: Board<W>, place: Place<W>, room: Vec<W::Cell>) -> Vec<W::Cell>
    requires of { (place.table_id ≡ table.shared.table_id) × IsFree place.me }
    requires sized { IsSized table.shared.table_id table.shared.key }
    requires all { (q : ℕ) → q < table.shared.key.passes → Has place.me.0.numbers q }
    requires room { (room.items ≡ []) × (table.shared.table_id.slots ≤ vec_capacity room) }
    ensures count { length result.items ≡ table.shared.table_id.slots }
    ensures kept { KeptBy W.by W.cell W.stands W.legal table.shared.table_id.slots place.me.0.numbers place.me.0.front result.items }
{
    let mut values = room;
    let mut closed = table.close_with(place);
    for slot in 0..closed.slot_count() {
        let value = closed.take(slot).into_inner().unwrap();
        let Ok(()) = values.push(value) else {
            unreachable!()
        };
    }
    closed.free();
    values
}
