//! The places of an index.

ghost use Rattle.std.specs.Prelude.{◌≡◌, not, ◌&&◌, ◌||◌, IfOk, OnOk, OnErr};
ghost use Rattle.std.specs.Option.{option_copied};
ghost use Rattle.std.specs.List.Sorted.{IsStrictlySortedBy};
ghost use Rattle.std.specs.Map.{keys_of};
ghost use Rattle.std.specs.BTreeMap.Range.{entries_between};
ghost use Rattle.std.specs.Range.Bound.{bound_map};
ghost use Rattle.row_keys.specs.Keys.{position_order};
ghost use Rattle.table_rows.specs.Moves.{is_place, spot_of, move_in, enters};
ghost use Rattle.table_rows.specs.Places.{has_place, index_over};
ghost use Rattle.table_rows.specs.Slots.{rows_of};
ghost use Rattle.table_rows.specs.State.{empty_index, IsHeld, IsFresh, IsSettled, IsUndone};

use crate::change::RowChange;
use crate::moves::Move;
use crate::slots::Slots;
use attr_value::{Item, lent};
use paging::MapRange;
use row_keys::{Position, RowKey, position_of};
use std::alloc::{AllocError as NoMemory, Global};
use std::collections::BTreeMap;
use std::marker::Model;
use std::ops::Bound;
use table_schema::{KeyNames, Schema};

/// Where the item stands that may be there.
fn spot_of(
    alloc: Global,
    schema: &Schema,
    keys: &KeyNames,
    key: &RowKey,
    item: Option<&Item>,
) -> Result<Option<Position>, NoMemory>
    ensures { IfOk result (λ spot. spot ≡ spot_of schema.now keys.now key.now (option_copied item.entry)) }
{
    match item {
        Some(item) => position_of(alloc, schema, keys, key, item),
        None => Ok(None),
    }
}

/// The places of the rows of an index, in its order, with those that come by changes that are prepared.
pub(crate) struct Index {
    keys: KeyNames,
    places: BTreeMap<Position, ()>,
    /// What each change that is prepared moves, in their order.
    moves: Vec<Move>,
}

// By hand, so that no crate above proves it again.
impl Drop for Index {
    fn drop(self) {
        let Index {
            keys: _,
            places: _,
            moves: _,
        } = self;
    }
}

impl Model for Index {
    ghost use Rattle.std.specs.List.Sorted.{IsStrictlySortedBy};
    ghost use Rattle.std.specs.Map.{keys_of};
    ghost use Rattle.row_keys.specs.Keys.{position_order};
    ghost use Rattle.table_rows.specs.Places.{IndexView};

    ghost Value = { IndexView };

    ghost view = { λ x. record { keys = x.keys; places = x.places.entries; moves = x.moves.items } };

    ghost invariant = { λ x. IsStrictlySortedBy position_order (keys_of x.places.entries) };
}

impl Index {
    /// An index without rows, whose key has these names.
    pub fn new(alloc: Global, keys: KeyNames) -> Index
        ensures { result ≡ empty_index keys }
    {
        Index {
            keys,
            places: BTreeMap::new(alloc),
            moves: Vec::new(alloc),
        }
    }

    /// The places between two ends.
    pub fn between<'a>(
        &'a self,
        low: Bound<&'a Position>,
        high: Bound<&'a Position>,
    ) -> MapRange<'a, Position, ()>
        ensures places { result ≡ entries_between position_order (bound_map (λ end. end.now) low.entry) (bound_map (λ end. end.now) high.entry)
            self.now.places }
        ensures ordered { IsStrictlySortedBy position_order (keys_of self.now.places) }
    {
        MapRange::new(&self.places, low, high)
    }

    /// The index of these rows, whose key has these names. A row costs the logarithm of the rows.
    pub fn over(
        alloc: Global,
        schema: &Schema,
        keys: KeyNames,
        slots: &Slots,
    ) -> Result<Index, NoMemory>
        ensures { IfOk result (λ index. index ≡ index_over schema.now (rows_of slots.now) keys) }
    {
        let mut index = Index::new(alloc, keys);
        index.fill(alloc, schema, slots)?;
        Ok(index)
    }

    /// Enters the places of all rows.
    fn fill(&mut self, alloc: Global, schema: &Schema, slots: &Slots) -> Result<(), NoMemory>
        ensures keys { self.new.keys ≡ self.old.keys }
        ensures moves { self.new.moves ≡ self.old.moves }
        ensures places { OnOk result ((q : _) → has_place self.new.places q
            ≡ (has_place self.old.places q || enters schema.now self.old.keys slots.now q)) }
        ensures ordered { IsStrictlySortedBy position_order (keys_of self.new.places) }
    {
        for (key, slot) in slots.iter() {
            let come = spot_of(alloc, schema, &self.keys, key, lent(slot.as_ref()))?;
            self.enter(come)?;
        }
        // What `len` tells of a map: that its keys ascend.
        let _ = self.places.len();
        Ok(())
    }

    /// Adds a place, if there is one and it is not there. Where memory is refused nothing changes.
    fn enter(&mut self, come: Option<Position>) -> Result<(), NoMemory>
        ensures keys { self.new.keys ≡ self.old.keys }
        ensures moves { self.new.moves ≡ self.old.moves }
        ensures ok { OnOk result ((q : _) → has_place self.new.places q ≡ is_place come q || has_place self.old.places q) }
        ensures err { OnErr result (self.new ≡ self.old) }
    {
        let Some(place) = come else {
            return Ok(());
        };
        let Ok(_) = self.places.insert(place, ()) else {
            return Err(NoMemory);
        };
        Ok(())
    }

    /// Takes out a place, where there is one. It takes no memory.
    fn leave(&mut self, gone: &Option<Position>)
        ensures keys { self.new.keys ≡ self.old.keys }
        ensures moves { self.new.moves ≡ self.old.moves }
        ensures places { (q : _) → has_place self.new.places q ≡ has_place self.old.places q && not (is_place gone.now q) }
        ensures ordered { IsStrictlySortedBy position_order (keys_of self.new.places) }
    {
        if let Some(place) = gone {
            self.places.remove(place);
        }
    }
    /// Holds a move and enters the place that comes by it. Where memory is refused nothing changes.
    fn hold(&mut self, step: Move) -> Result<(), NoMemory>
        ensures ok { OnOk result (IsHeld step self.old self.new) }
        ensures err { OnErr result (self.new ≡ self.old) }
    {
        let come = step.coming()?;
        let held = self.moves.len();
        if self.moves.push(step).is_err() {
            return Err(NoMemory);
        }
        match self.enter(come) {
            Ok(()) => Ok(()),
            Err(refused) => {
                self.moves.truncate(held);
                Err(refused)
            }
        }
    }

    /// Takes all memory that a change of an item needs here: holds its move, where `old` is the item that is there.
    /// Where memory is refused nothing changes.
    pub fn prepare(
        &mut self,
        alloc: Global,
        schema: &Schema,
        change: &RowChange,
        old: Option<&Item>,
    ) -> Result<(), NoMemory>
        ensures ok { OnOk result
            (IsHeld (move_in schema.now self.old.keys change.now.key (option_copied old.entry) change.now.new) self.old self.new) }
        ensures err { OnErr result (self.new ≡ self.old) }
    {
        let gone = spot_of(alloc, schema, &self.keys, &change.key, old)?;
        let come = spot_of(
            alloc,
            schema,
            &self.keys,
            &change.key,
            lent(change.new.as_ref()),
        )?;
        self.hold(Move::between(gone, come))
    }

    /// Gives the last move up that is held: the index is as it was before. It takes no memory.
    pub fn take_back(&mut self)
        ensures { (step : _) (before : _) → IsHeld step before self.old → IsFresh step before → self.new ≡ before }
    {
        if let Some(step) = self.moves.pop() {
            self.leave(&step.come);
            drop(step);
        }
    }

    /// Makes the moves that are held: places that go are taken out. It takes no memory.
    pub fn settle(&mut self)
        ensures { IsSettled self.old self.new }
    {
        while let Some(step) = self.moves.pop() {
            self.leave(&step.gone);
            drop(step);
        }
    }

    /// Gives all moves up that are held: places that came are taken out. It takes no memory.
    pub fn undo(&mut self)
        ensures { IsUndone self.old self.new }
    {
        while let Some(step) = self.moves.pop() {
            self.leave(&step.come);
            drop(step);
        }
    }
}
