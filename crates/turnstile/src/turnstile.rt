ghost use Rattle.std.specs.Prelude.{◌≡◌, ◌↔◌, ◌+◌, ◌<◌, ◌≤◌, ℕ, List, true, false, Some, None, [], ◌∷◌, ◌++◌, length, slice_get, IfOk, IfErr, vec_capacity};
ghost use Rattle.turnstile.specs.Histories.{own, at_cell, longer, Trail, Ends, MayStill};
ghost use Rattle.turnstile.specs.Kept.{ticket};
ghost use Rattle.turnstile.specs.Passes.{most_units, first_passes, EachStands, HoldsAll, IsOneHistory};

use crate::bells::Bells;
use crate::board::{Board, Size};
use crate::life::{deal, fill, gather, open, take_values};
use crate::pass::{MOST_UNITS, Pass, Spent, TurnEnd};
use crate::steps::{count, draw, meet, put_back, wait};
use crate::turn::{AllTurns, Turn};
use crate::turns::{leave_turns, take_turns};
use crate::waiting::approach;
use crate::world::{EntryOf, World};
use base_types::Seq;
use std::alloc::{AllocError as NoMemory, Global};
use std::marker::Model;
use std::sync::Wait;

/// Cells behind turns, and one history of their entries.
pub struct Turnstile<W: World> {
    table: Board<W>,
    bells: Bells,
    // Room for the answer of `close`.
    room: Vec<W::Cell>,
}

impl<W: World> Model for Turnstile<W> {
    ghost use Rattle.std.specs.Prelude.{◌≡◌, ◌≤◌, ◌<◌, [], vec_capacity};
    ghost use Rattle.turnstile.specs.Passes.{TurnstileView, IsSized};

    ghost Value = { TurnstileView };

    ghost view = { λ t. record { id = t.table.shared.table_id; passes = t.table.shared.key.passes } };

    ghost invariant = { λ t. IsSized t.table.shared.table_id t.table.shared.key × (0 < t.table.shared.key.passes) × (t.room.items ≡ []) × (t.table.shared.table_id.slots ≤ vec_capacity t.room) };
}

impl<W: World> Turnstile<W> {
    /// Puts 1 to 65 cells behind turns, and makes 1 to 64 passes, numbered from 0.
    pub fn make(
        alloc: Global,
        cells: Seq<W::Cell>,
        passes: u32,
    ) -> Result<(Turnstile<W>, Seq<Pass<W>>), NoMemory>
        requires cells { (1 ≤ length cells) × (length cells ≤ 65) }
        requires passes { (1 ≤ passes) × (passes ≤ 64) }
        requires stand { EachStands W.stands (length cells) cells (λ _. []) }
        ensures turnstile { IfOk result (λ made. (made.0.id.slots ≡ length cells) × (made.0.passes ≡ passes)) }
        ensures passes { IfOk result (λ made. made.1 ≡ first_passes made.0.id passes passes) }
    {
        let cells: Vec<W::Cell> = cells.into();
        let room = Vec::with_capacity(alloc, cells.len())?;
        let dealt = Vec::with_capacity(alloc, passes as usize)?;
        let size = Size {
            cells: cells.len() as u64,
            passes: passes as u64,
        };
        let bells = Bells::new(alloc)?;
        let slots = fill(alloc, cells)?;
        let (table, place) = open::<W>(alloc, &size, slots)?;
        let dealt = deal(&table, place, passes, dealt)?;
        Ok((Turnstile { table, bells, room }, Seq::from(dealt)))
    }

    /// How many cells there are.
    pub fn cells(&self) -> usize
        ensures { result ≡ self.now.id.slots }
    {
        self.table.slot_count()
    }

    /// Takes one unit of the pass, waits for the turn of the cell and takes it.
    pub fn enter<R: Wait>(&self, pass: &mut Pass<W>, rt: &R, cell: u32) -> Result<Turn<W>, Spent>
        requires of { pass.old.turnstile ≡ self.now.id }
        requires free { pass.old.turns ≡ [] }
        requires cell { cell < self.now.id.slots }
        ensures turn { IfOk result (λ t. (t.cell ≡ cell) × (t.counted ≡ false)) }
        ensures pass { IfOk result (λ t. pass.new ≡ record pass.old { used = pass.old.used + 1; front = pass.new.front; turns = ticket cell t.number ∷ [] }) }
        ensures stands { IfOk result (λ t. W.stands self.now.id.slots cell t.value (at_cell W.cell cell pass.new.front)) }
        ensures trail { IfOk result (λ t. Trail W.by pass.old.number pass.old.front [] pass.new.front) }
        ensures unit { IfOk result (λ t. pass.old.used < most_units) }
        ensures spent { IfErr result (λ _. (pass.old.used ≡ most_units) × (pass.new ≡ pass.old)) }
    {
        if pass.used == MOST_UNITS {
            return Err(Spent);
        }
        pass.used += 1;
        approach(&self.table, &self.bells, rt, cell as usize);
        let number = draw(&self.table, &mut pass.seat, cell as usize);
        let value = wait(
            &self.table,
            &self.bells,
            &mut pass.seat,
            rt,
            cell as usize,
            number,
        );
        Ok(Turn {
            cell,
            number,
            value,
            counted: false,
        })
    }

    /// Counts the entry that the caller picks.
    pub fn commit_entry<E: EntryOf<W, W::Entry>>(&self, pass: &mut Pass<W>, turn: &mut Turn<W>)
        requires of { pass.old.turnstile ≡ self.now.id }
        requires turn { pass.old.turns ≡ ticket turn.old.cell turn.old.number ∷ [] }
        requires once { turn.old.counted ≡ false }
        requires entry { (W.by E.entry ≡ pass.old.number) × (W.moment E.entry ≡ pass.old.moment) × (W.cell E.entry ≡ Some turn.old.cell) }
        requires may { MayStill W.by (W.may self.now.id.slots) pass.old.front E.entry }
        requires answers { W.answers self.now.id.slots pass.old.front E.entry }
        requires stands { W.stands self.now.id.slots turn.old.cell turn.old.value (at_cell W.cell turn.old.cell pass.old.front ++ E.entry ∷ []) }
        ensures pass { pass.new ≡ record pass.old { front = pass.new.front } }
        ensures turn { turn.new ≡ record turn.old { counted = true } }
        ensures ends { Ends W.by pass.old.number pass.old.front E.entry pass.new.front }
        ensures stands { W.stands self.now.id.slots turn.new.cell turn.new.value (at_cell W.cell turn.new.cell pass.new.front) }
    {
        count::<W, E>(&self.table, &mut pass.seat);
        turn.counted = true;
    }

    /// Puts the value back and lets the next one in.
    pub fn leave<R: Wait>(&self, pass: &mut Pass<W>, _rt: &R, turn: Turn<W>)
        requires of { pass.old.turnstile ≡ self.now.id }
        requires turn { pass.old.turns ≡ ticket turn.cell turn.number ∷ [] }
        requires stands { W.stands self.now.id.slots turn.cell turn.value (at_cell W.cell turn.cell pass.old.front) }
        ensures { pass.new ≡ record pass.old { turns = [] } }
    {
        let Turn {
            cell,
            number,
            value,
            counted: _,
        } = turn;
        put_back(
            &self.table,
            &self.bells,
            &mut pass.seat,
            cell as usize,
            number,
            value,
        );
    }

    /// Takes one unit of the pass, and takes the turns of all cells, in ascending order.
    pub fn enter_all<R: Wait>(
        &self,
        alloc: Global,
        pass: &mut Pass<W>,
        rt: &R,
    ) -> Result<AllTurns<W>, TurnEnd>
        requires of { pass.old.turnstile ≡ self.now.id }
        requires free { pass.old.turns ≡ [] }
        ensures turns { IfOk result (λ t. (length t.values.items ≡ self.now.id.slots) × (t.counted ≡ false)) }
        ensures pass { IfOk result (λ t. pass.new ≡ record pass.old { used = pass.old.used + 1; front = pass.new.front; turns = pass.new.turns }) }
        ensures holds { IfOk result (λ t. HoldsAll pass.new t.numbers.items) }
        ensures stands { IfOk result (λ t. EachStands W.stands self.now.id.slots t.values.items (λ c. at_cell W.cell c pass.new.front)) }
        ensures trail { IfOk result (λ t. Trail W.by pass.old.number pass.old.front [] pass.new.front) }
        ensures unit { IfOk result (λ t. pass.old.used < most_units) }
        ensures spent { IfErr result (λ end. (end ≡ TurnEnd.Spent ↔ (pass.old.used ≡ most_units)) × (pass.new ≡ pass.old)) }
    {
        if pass.left() == 0 {
            return Err(TurnEnd::Spent);
        }
        let count = self.table.slot_count();
        let numbers = Vec::with_capacity(alloc, count)?;
        let values = Vec::with_capacity(alloc, count)?;
        let (numbers, values) = take_turns(&self.table, &self.bells, pass, rt, numbers, values);
        Ok(AllTurns {
            numbers,
            values,
            counted: false,
        })
    }

    /// Counts the entry that the caller picks, which is of all cells.
    pub fn commit_all<E: EntryOf<W, W::Entry>>(&self, pass: &mut Pass<W>, turns: &mut AllTurns<W>)
        requires of { pass.old.turnstile ≡ self.now.id }
        requires turns { HoldsAll pass.old turns.old.numbers.items }
        requires once { turns.old.counted ≡ false }
        requires entry { (W.by E.entry ≡ pass.old.number) × (W.moment E.entry ≡ pass.old.moment) × (W.cell E.entry ≡ None) }
        requires may { MayStill W.by (W.may self.now.id.slots) pass.old.front E.entry }
        requires answers { W.answers self.now.id.slots pass.old.front E.entry }
        requires count { length turns.old.values.items ≡ self.now.id.slots }
        requires stands { EachStands W.stands self.now.id.slots turns.old.values.items (λ c. at_cell W.cell c pass.old.front ++ E.entry ∷ []) }
        ensures pass { pass.new ≡ record pass.old { front = pass.new.front } }
        ensures turns { turns.new ≡ record turns.old { counted = true } }
        ensures ends { Ends W.by pass.old.number pass.old.front E.entry pass.new.front }
        ensures stands { EachStands W.stands self.now.id.slots turns.new.values.items (λ c. at_cell W.cell c pass.new.front) }
    {
        count::<W, E>(&self.table, &mut pass.seat);
        turns.counted = true;
    }

    /// Puts the values back and lets the next ones in.
    pub fn leave_all<R: Wait>(&self, pass: &mut Pass<W>, _rt: &R, turns: AllTurns<W>)
        requires of { pass.old.turnstile ≡ self.now.id }
        requires turns { HoldsAll pass.old turns.numbers.items }
        requires count { length turns.values.items ≡ self.now.id.slots }
        requires stands { EachStands W.stands self.now.id.slots turns.values.items (λ c. at_cell W.cell c pass.old.front) }
        ensures { pass.new ≡ record pass.old { turns = [] } }
    {
        let AllTurns {
            numbers,
            values,
            counted: _,
        } = turns;
        leave_turns(&self.table, &self.bells, &mut pass.seat, numbers, values);
    }

    /// Lets each of the two passes see all that the other had seen.
    pub fn meet(&self, pass: &mut Pass<W>, other: &mut Pass<W>)
        requires of { (pass.old.turnstile ≡ self.now.id) × (other.old.turnstile ≡ self.now.id) }
        requires free { (pass.old.turns ≡ []) × (other.old.turns ≡ []) }
        ensures pass { pass.new ≡ record pass.old { front = longer pass.old.front other.old.front } }
        ensures other { other.new ≡ record other.old { front = pass.new.front } }
        ensures trail { Trail W.by pass.old.number pass.old.front [] pass.new.front }
        ensures other_trail { Trail W.by other.old.number other.old.front [] pass.new.front }
    {
        meet(&self.table, &mut pass.seat, &mut other.seat);
    }

    /// The cells after all that was counted. It takes no memory.
    pub fn close(self, passes: Seq<Pass<W>>) -> Seq<W::Cell>
        requires of { (i : ℕ) (p : _) → slice_get passes i ≡ Some p → (p.turnstile ≡ self.id) × (p.turns ≡ []) }
        requires all { (q : ℕ) → q < self.passes → (i : ℕ) × (p : _) × (slice_get passes i ≡ Some p) × (p.number ≡ q) }
        ensures count { length result ≡ self.id.slots }
        ensures history { IsOneHistory W.by W.cell W.stands W.legal self.id.slots passes result }
    {
        let Turnstile {
            table,
            bells: _,
            room,
        } = self;
        let mut passes: Vec<Pass<W>> = passes.into();
        let Some(first) = passes.pop() else {
            unreachable!()
        };
        let place = gather(&table, first.into_seat(), passes);
        Seq::from(take_values::<W>(table, place, room))
    }
}

impl<W: World> Drop for Turnstile<W> {
    fn drop(self) {
        let Self {
            table: _,
            bells: _,
            room: _,
        } = self;
    }
}
