//! Single steps of a seat.
ghost use Rattle.std.specs.Prelude.{◌≡◌, ◌≢◌, ℕ, ◌+◌, ◌*◌, ◌^◌, ◌<◌, ◌≤◌, true, [], ◌∷◌, ◌++◌, length, drop, Some, None};
ghost use Rattle.atomic_table.specs.Table.{rest};
ghost use Rattle.turnstile.specs.declared.board.Ticket.{Ticket};
ghost use Rattle.turnstile.specs.Histories.{Has, is_of, at_cell, IsBeginning, MayStill};
ghost use Rattle.turnstile.specs.Kept.{most_drawn, ticket};
ghost use Rattle.turnstile.specs.Steps.{waiting, outside, Taken, Counts, Met};
ghost use Rattle.turnstile.specs.Passes.{IsSized};

use crate::bells::Bells;
use crate::board::{Board, Count, Draw, Gather, Learn, Leave, Look, Note, Place};
use crate::waiting::{call, pause, sleep};
use crate::world::{EntryOf, World};
use std::sync::Wait;

/// How often a thread with a ticket looks whether its turn has come, before it sleeps.
const LOOKS: u32 = 100;

/// Draws a ticket of the cell.
pub fn draw<W: World>(board: &Board<W>, place: &mut Place<W>, cell: usize) -> u64
    requires of { place.old.table_id ≡ board.now.shared.table_id }
    requires sized { IsSized board.now.shared.table_id board.now.shared.key }
    requires cell { cell < board.now.shared.table_id.slots }
    requires idle { place.old.me.0.drew ≡ None }
    requires room { place.old.me.0.drawn + 1 ≤ length place.old.me.0.numbers * most_drawn }
    ensures seat { (place.new.table_id ≡ place.old.table_id) × (place.new.id ≡ place.old.id) }
    ensures small { result < 2 ^ 60 }
    ensures drew { place.new.me ≡ (waiting place.old.me.0 (ticket cell result), place.old.me.1) }
{
    board.shared.fetch_add::<Draw>(place, 16 + 16 * cell, 1)
}

/// Waits with a ticket until its turn comes, and takes the cell's value. The farther off the turn is,
/// the less often it looks.
pub fn wait<W: World, R: Wait>(
    board: &Board<W>,
    bells: &Bells,
    place: &mut Place<W>,
    rt: &R,
    cell: usize,
    number: u64,
) -> W::Cell
    requires of { place.old.table_id ≡ board.now.shared.table_id }
    requires sized { IsSized board.now.shared.table_id board.now.shared.key }
    requires cell { cell < board.now.shared.table_id.slots }
    requires drew { place.old.me.0.drew ≡ Some (ticket cell number) }
    ensures seat { (place.new.table_id ≡ place.old.table_id) × (place.new.id ≡ place.old.id) }
    ensures taken { Taken W.by W.cell W.legal board.now.shared.table_id.slots W.stands place.old.me (ticket cell number) result place.new.me }
{
    let word = 24 + 16 * cell;
    let mut looks = 0;
    for _ in rt.forever() {
        let found = board.shared.load::<Look<W>>(place, word);
        if found == number {
            let slot = place.slot_mut(&board.shared, cell);
            return slot.replace(None).unwrap();
        }
        if looks < LOOKS {
            looks += 1;
            pause(2 * number.saturating_sub(found).min(64));
        } else {
            sleep(board, bells, rt, cell, number);
        }
    }
    unreachable!()
}

/// Counts the entry.
pub fn count<W: World, E: EntryOf<W, W::Entry>>(board: &Board<W>, place: &mut Place<W>)
    requires of { place.old.table_id ≡ board.now.shared.table_id }
    requires sized { IsSized board.now.shared.table_id board.now.shared.key }
    requires mine { Has place.old.me.0.numbers (W.by E.entry) }
    requires idle { place.old.me.0.drew ≡ None }
    requires held { (d : ℕ) → d < board.now.shared.table_id.slots → is_of (W.cell E.entry) d ≡ true → (u : ℕ) × Has place.old.me.0.held (ticket d u) }
    requires may { MayStill W.by (W.may board.now.shared.table_id.slots) place.old.me.0.front E.entry }
    requires answers { W.answers board.now.shared.table_id.slots place.old.me.0.front E.entry }
    ensures seat { (place.new.table_id ≡ place.old.table_id) × (place.new.id ≡ place.old.id) }
    ensures counts { Counts W.by W.cell W.legal board.now.shared.table_id.slots E.entry place.old.me place.new.me }
{
    board.shared.fetch_add::<Count<W, E>>(place, 0, 1);
}

/// Puts the value back, serves the next ticket, and wakes who has it or waits for one.
pub fn put_back<W: World>(
    board: &Board<W>,
    bells: &Bells,
    place: &mut Place<W>,
    cell: usize,
    number: u64,
    value: W::Cell,
)
    requires of { place.old.table_id ≡ board.now.shared.table_id }
    requires sized { IsSized board.now.shared.table_id board.now.shared.key }
    requires cell { cell < board.now.shared.table_id.slots }
    requires small { number < 2 ^ 60 }
    requires idle { place.old.me.0.drew ≡ None }
    requires turn { place.old.me.0.held ≡ ticket cell number ∷ drop 1 place.old.me.0.held }
    requires alone { (u : Ticket) → Has (drop 1 place.old.me.0.held) u → u.cell ≢ cell }
    requires hand { place.old.me.1 ≡ (cell, None) ∷ rest place.old.me.1 }
    requires stands { W.stands board.now.shared.table_id.slots cell value (at_cell W.cell cell place.old.me.0.front) }
    ensures seat { (place.new.table_id ≡ place.old.table_id) × (place.new.id ≡ place.old.id) }
    ensures left { place.new.me ≡ (outside place.old.me.0, rest place.old.me.1) }
{
    let next = number + 1;
    let slot = place.slot_mut(&board.shared, cell);
    slot.replace(Some(value));
    board.shared.store::<Leave>(place, 24 + 16 * cell, next);
    call(board, bells, cell, next);
}

// Lets `place` learn what `other` has seen.
fn tell<W: World>(board: &Board<W>, place: &mut Place<W>, other: &mut Place<W>)
    requires of { (place.old.table_id ≡ board.now.shared.table_id) × (other.old.table_id ≡ board.now.shared.table_id) }
    requires sized { IsSized board.now.shared.table_id board.now.shared.key }
    ensures seat { (place.new.table_id ≡ place.old.table_id) × (place.new.id ≡ place.old.id) × (place.new.me.1 ≡ place.old.me.1) }
    ensures met { Met W.by W.cell W.legal board.now.shared.table_id.slots place.old.me.0 other.old.me.0.front place.new.me.0 }
    ensures other { (other.new.table_id ≡ other.old.table_id) × (other.new.id ≡ other.old.id) × (other.new.me ≡ other.old.me) }
{
    let note = board.shared.split_seat::<Note>(other);
    board.shared.join_seat::<Gather>(place, note);
    board.shared.load::<Learn<W>>(place, 0);
}

/// Lets each learn what the other has seen.
pub fn meet<W: World>(board: &Board<W>, place: &mut Place<W>, other: &mut Place<W>)
    requires of { (place.old.table_id ≡ board.now.shared.table_id) × (other.old.table_id ≡ board.now.shared.table_id) }
    requires sized { IsSized board.now.shared.table_id board.now.shared.key }
    ensures seat { (place.new.table_id ≡ place.old.table_id) × (place.new.id ≡ place.old.id) × (place.new.me.1 ≡ place.old.me.1) }
    ensures met { Met W.by W.cell W.legal board.now.shared.table_id.slots place.old.me.0 other.old.me.0.front place.new.me.0 }
    ensures other { (other.new.table_id ≡ other.old.table_id) × (other.new.id ≡ other.old.id) × (other.new.me.1 ≡ other.old.me.1) }
    ensures other_met { Met W.by W.cell W.legal board.now.shared.table_id.slots other.old.me.0 place.new.me.0.front other.new.me.0 }
    ensures same { other.new.me.0.front ≡ place.new.me.0.front }
{
    tell(board, place, other);
    tell(board, other, place);
}
