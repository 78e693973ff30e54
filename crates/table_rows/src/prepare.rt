//! Changes on all indexes of a table, its slots and what is prepared.

ghost use Rattle.std.specs.Prelude.{◌≡◌, true, [], ◌∷◌, ◌++◌, is_some, OnOk, OnErr};
ghost use Rattle.std.specs.List.{AllZip, AllByRecursion};
ghost use Rattle.std.specs.List.Sorted.{IsStrictlySortedBy};
ghost use Rattle.std.specs.Map.{keys_of};
ghost use Rattle.row_keys.specs.Keys.{row_order};
ghost use Rattle.row_keys.specs.Rows.{with_item};
ghost use Rattle.table_rows.specs.View.{committed};
ghost use Rattle.table_rows.specs.Slots.{rows_of, has_slot, IsFilled, KeepsOtherSlots};
ghost use Rattle.table_rows.specs.State.{AreDistinct, AreInStep, IsFresh, IsHeld, IsSettled, IsUndone, step_in};

use crate::change::RowChange;
use crate::index::Index;
use crate::slots::Slots;
use attr_value::lent;
use base_types::Seq;
use std::alloc::{AllocError as NoMemory, Global};
use table_schema::Schema;

/// Makes the slot of a change and holds the change. Where memory is refused it is not held, and no slot is left.
fn hold(slots: &mut Slots, pending: &mut Seq<RowChange>, change: RowChange) -> Result<(), NoMemory>
    requires { IsFilled slots.old change.key }
    ensures rows { rows_of slots.new ≡ rows_of slots.old }
    ensures others { KeepsOtherSlots change.key slots.old slots.new }
    ensures slot { OnOk result (has_slot slots.new change.key ≡ true) }
    ensures pending { OnOk result (pending.new ≡ pending.old ++ change ∷ []) }
    ensures err { OnErr result (pending.new ≡ pending.old) }
    ensures err_slot { OnErr result (has_slot slots.new change.key ≡ has_slot slots.old change.key) }
{
    slots.reserve(&change.key)?;
    match pending.push(change) {
        Ok(()) => Ok(()),
        Err(refused) => {
            slots.release(&refused.value.key);
            drop(refused);
            Err(NoMemory)
        }
    }
}

/// Takes all memory that a change needs: each index holds its move, and the change is held with a slot. What was held is
/// given up again where memory is refused further on.
pub(crate) fn prepare_in(
    alloc: Global,
    schema: &Schema,
    indexes: &mut [Index],
    slots: &mut Slots,
    pending: &mut Seq<RowChange>,
    change: RowChange,
) -> Result<(), NoMemory>
    requires filled { IsFilled slots.old change.key }
    requires fresh { AllByRecursion (λ index. IsFresh (step_in schema.now (rows_of slots.old) change index) index) indexes.old }
    ensures rows { rows_of slots.new ≡ rows_of slots.old }
    ensures others { KeepsOtherSlots change.key slots.old slots.new }
    ensures slot { OnOk result (has_slot slots.new change.key ≡ true) }
    ensures pending { OnOk result (pending.new ≡ pending.old ++ change ∷ []) }
    ensures indexes { OnOk result
        (AllZip (λ old new. IsHeld (step_in schema.now (rows_of slots.old) change old) old new) indexes.old indexes.new) }
    ensures err_slot { OnErr result (has_slot slots.new change.key ≡ has_slot slots.old change.key) }
    ensures err_pending { OnErr result (pending.new ≡ pending.old) }
    ensures err_indexes { OnErr result (indexes.new ≡ indexes.old) }
{
    let Some((first, rest)) = indexes.split_first_mut() else {
        return hold(slots, pending, change);
    };
    first.prepare(alloc, schema, &change, lent(slots.get(&change.key)))?;
    match prepare_in(alloc, schema, rest, slots, pending, change) {
        Ok(()) => Ok(()),
        Err(refused) => {
            first.take_back();
            Err(refused)
        }
    }
}

/// Makes the moves that the indexes hold.
pub(crate) fn settle_all(indexes: &mut [Index])
    ensures { AllZip IsSettled indexes.old indexes.new }
{
    let Some((first, rest)) = indexes.split_first_mut() else {
        return;
    };
    first.settle();
    settle_all(rest);
}

/// Gives the moves up that the indexes hold.
pub(crate) fn undo_all(indexes: &mut [Index])
    ensures { AllZip IsUndone indexes.old indexes.new }
{
    let Some((first, rest)) = indexes.split_first_mut() else {
        return;
    };
    first.undo();
    undo_all(rest);
}

/// Makes a change of an item that has a slot.
fn make(slots: &mut Slots, change: RowChange)
    requires { has_slot slots.old change.key ≡ true }
    ensures rows { rows_of slots.new ≡ with_item (rows_of slots.old) change.key change.new }
    ensures slot { has_slot slots.new change.key ≡ is_some change.new }
    ensures others { KeepsOtherSlots change.key slots.old slots.new }
{
    let RowChange { key, new } = change;
    match new {
        Some(item) => slots.write(key, item),
        None => {
            slots.clear(&key);
            drop(key);
        }
    }
}

/// Makes what is prepared.
pub(crate) fn make_all(slots: &mut Slots, pending: &mut Seq<RowChange>)
    requires ordered { IsStrictlySortedBy row_order (keys_of (rows_of slots.old)) }
    requires distinct { AreDistinct pending.old }
    requires slots { AreInStep slots.old pending.old }
    ensures rows { rows_of slots.new ≡ committed (rows_of slots.old) pending.old }
    ensures slots { AreInStep slots.new [] }
    ensures pending { pending.new ≡ [] }
{
    while let Some(change) = pending.pop() {
        make(slots, change);
    }
}

/// Drops what is prepared, with the slots that have no item.
pub(crate) fn release_all(slots: &mut Slots, pending: &mut Seq<RowChange>)
    requires distinct { AreDistinct pending.old }
    requires slots { AreInStep slots.old pending.old }
    ensures rows { rows_of slots.new ≡ rows_of slots.old }
    ensures slots { AreInStep slots.new [] }
    ensures pending { pending.new ≡ [] }
{
    while let Some(change) = pending.pop() {
        slots.release(&change.key);
        drop(change);
    }
}
