//! Rows with their indexes.

ghost use Rattle.std.specs.Prelude.{◌≡◌, [], ◌∷◌, ◌++◌, map, slice_get, false, None, IfNone, IfSome, IfOk, OnOk, OnErr, IsTrue};
ghost use Rattle.std.specs.Option.{option_copied};
ghost use Rattle.std.specs.BTreeMap.Range.{entries_between};
ghost use Rattle.std.specs.List.Sorted.{IsStrictlySortedBy};
ghost use Rattle.std.specs.Map.{keys_of};
ghost use Rattle.std.specs.Range.Bound.{bound_map};
ghost use Rattle.row_keys.specs.Keys.{row_order};
ghost use Rattle.row_keys.specs.Rows.{item_at, index_keys};
ghost use Rattle.table_rows.specs.Slots.{rows_of};
ghost use Rattle.table_rows.specs.View.{is_pending, committed, index_between};
ghost use Rattle.table_rows.specs.Places.{index_over};
ghost use Rattle.table_rows.specs.Quiet.{expired_rows, is_expired_slot, AreQuiet};

use crate::change::{RowChange, is_pending};
use crate::index::Index;
use crate::index_range::IndexRange;
use crate::prepare::{make_all, prepare_in, release_all, settle_all, undo_all};
use crate::quiet::Quiet;
use crate::row_range::RowRange;
use crate::slots::Slots;
use attr_value::SharedItem;
use base_types::Seq;
use row_keys::{Expiry, Position, RowKey, expiry_of};
use std::alloc::{AllocError as NoMemory, Global};
use std::marker::Model;
use std::mem::replace;
use std::ops::Bound;
use table_schema::{GlobalIndex, LocalIndex, Schema};

/// Adds the index of the rows for each local index.
fn add_locals(
    alloc: Global,
    indexes: &mut Seq<Index>,
    locals: &[LocalIndex],
    schema: &Schema,
    slots: &Slots,
) -> Result<(), NoMemory>
    ensures { OnOk result (indexes.new ≡ indexes.old ++ map (λ index. index_over schema.now (rows_of slots.now) index.keys) locals.now) }
{
    for index in locals {
        indexes.push(Index::over(alloc, schema, index.keys.try_clone()?, slots)?)?;
    }
    Ok(())
}

/// Adds the index of the rows for each global index.
fn add_globals(
    alloc: Global,
    indexes: &mut Seq<Index>,
    globals: &[GlobalIndex],
    schema: &Schema,
    slots: &Slots,
) -> Result<(), NoMemory>
    ensures { OnOk result (indexes.new ≡ indexes.old ++ map (λ index. index_over schema.now (rows_of slots.now) index.keys) globals.now) }
{
    for index in globals {
        indexes.push(Index::over(alloc, schema, index.keys.try_clone()?, slots)?)?;
    }
    Ok(())
}

/// The indexes of a table with these rows, those that are local first.
fn indexes_of(alloc: Global, schema: &Schema, slots: &Slots) -> Result<Seq<Index>, NoMemory>
    ensures { IfOk result (λ indexes. indexes ≡ map (index_over schema.now (rows_of slots.now)) (index_keys schema.now)) }
{
    let mut indexes = Seq::new(alloc);
    add_locals(alloc, &mut indexes, schema.locals.as_slice(), schema, slots)?;
    add_globals(
        alloc,
        &mut indexes,
        schema.globals.as_slice(),
        schema,
        slots,
    )?;
    Ok(indexes)
}

/// Whether the slot has an item that is expired at a second.
fn is_expired(schema: &Schema, slot: &Option<SharedItem>, second: u64) -> bool
    ensures { result ≡ is_expired_slot schema.now second slot.now }
{
    match slot {
        Some(item) => matches!(expiry_of(schema, item.item(), second), Expiry::Expired),
        None => false,
    }
}

/// Whether each row stands at the same place in the same indexes by both schemas.
fn have_same_indexes(old: &Schema, new: &Schema) -> bool
    ensures definitions { IsTrue result → old.now.definitions ≡ new.now.definitions }
    ensures keys { IsTrue result → index_keys old.now ≡ index_keys new.now }
{
    if old.definitions != new.definitions {
        return false;
    }
    old.locals == new.locals && old.globals == new.globals
}

/// A table's schema, its rows in the order of a Scan, and the changes that are prepared.
///
/// Contracts see these alone: the places of the indexes follow from them.
pub(crate) struct IndexedRows {
    schema: Schema,
    slots: Slots,
    pending: Seq<RowChange>,
    /// Those that are local first, each in the order of the schema.
    indexes: Seq<Index>,
}

// By hand, so that no crate above proves it again.
impl Drop for IndexedRows {
    fn drop(self) {
        let IndexedRows {
            schema: _,
            slots: _,
            pending: _,
            indexes: _,
        } = self;
    }
}

impl Model for IndexedRows {
    ghost use Rattle.table_rows.specs.View.{TableView};
    ghost use Rattle.table_rows.specs.Slots.{rows_of};
    ghost use Rattle.table_rows.specs.State.{IsKept};
    ghost use Rattle.table_rows.specs.Codes.{table_code};

    ghost Value = { TableView };

    ghost coded = { table_code };

    ghost view = { λ t. record { schema = t.schema; rows = rows_of t.slots; pending = t.pending } };

    ghost invariant = { λ t. IsKept t.schema t.slots t.pending t.indexes };
}

impl IndexedRows {
    /// A table of this schema without rows. Memory is taken for the names of its indexes' keys.
    pub fn new(alloc: Global, schema: Schema) -> Result<IndexedRows, NoMemory>
        ensures { IfOk result (λ table. table ≡ record { schema = schema; rows = []; pending = [] }) }
    {
        let slots = Slots::new(alloc);
        let indexes = indexes_of(alloc, &schema, &slots)?;
        Ok(IndexedRows {
            schema,
            slots,
            pending: Seq::new(alloc),
            indexes,
        })
    }

    /// What the table was made with.
    pub fn schema(&self) -> &Schema
        ensures { result.now ≡ self.now.schema }
    {
        &self.schema
    }

    /// The item at a key, whatever is prepared. It costs the logarithm of the rows, and takes no memory.
    pub fn get(&self, key: &RowKey) -> Option<&SharedItem>
        ensures { option_copied result ≡ item_at self.now.rows key.now }
    {
        self.slots.get(key)
    }

    /// That the rows stand in the order of a Scan, each key once. The call does nothing: its clause is what it gives.
    pub fn are_in_order(&self)
        ensures { IsStrictlySortedBy row_order (keys_of self.now.rows) }
    {
        let _slots = &self.slots;
    }

    /// Whether nothing is prepared.
    pub fn is_idle(&self) -> bool
        ensures { IsTrue result → self.now.pending ≡ [] }
    {
        self.pending.is_empty()
    }

    /// The keys of the rows whose items are expired at a second, in the order of a Scan. It goes over all rows.
    pub fn expired_keys(&self, alloc: Global, second: u64) -> Result<Seq<RowKey>, NoMemory>
        ensures { IfOk result (λ keys. keys ≡ keys_of (expired_rows self.now.schema second self.now.rows)) }
    {
        let mut keys = Seq::new(alloc);
        for (key, slot) in self.slots.iter() {
            if is_expired(&self.schema, slot, second) {
                keys.push(key.try_clone()?)?;
            }
        }
        Ok(keys)
    }

    /// Seconds from one on at which no row is expired; `None` where one is at that second. It goes over all rows.
    pub fn quiet_from(&self, second: u64) -> Option<Quiet>
        ensures { IfSome result (λ quiet. AreQuiet quiet self.now.schema self.now.rows) }
    {
        let mut quiet = Quiet::start(second);
        for (_key, slot) in self.slots.iter() {
            quiet = quiet.with(&self.schema, slot.as_ref())?;
        }
        Some(quiet)
    }

    /// Whether a change of the item at a key is prepared. It goes over all that are.
    pub fn is_pending(&self, key: &RowKey) -> bool
        ensures { result ≡ is_pending self.now.pending key.now }
    {
        is_pending(self.pending.as_slice(), key)
    }

    /// The rows between two ends, in the order of a Scan, where nothing is prepared.
    pub fn rows<'a>(&'a self, low: Bound<&'a RowKey>, high: Bound<&'a RowKey>) -> RowRange<'a>
        requires { self.now.pending ≡ [] }
        ensures { result
            ≡ entries_between row_order (bound_map (λ end. end.now) low.entry) (bound_map (λ end. end.now) high.entry) self.now.rows }
    {
        RowRange::new(self.slots.between(low, high))
    }

    /// The rows of an index between two ends, in its order, where nothing is prepared. Indexes are numbered from 0: those
    /// that are local first, each in the order of the schema. There is `None` where there are not so many.
    pub fn index_rows<'a>(
        &'a self,
        index: usize,
        low: Bound<&'a Position>,
        high: Bound<&'a Position>,
    ) -> Option<IndexRange<'a>>
        requires { self.now.pending ≡ [] }
        ensures none { IfNone result (slice_get (index_keys self.now.schema) index ≡ None) }
        ensures rows { IfSome result (λ rows. IfSome (slice_get (index_keys self.now.schema) index) (λ keys.
            rows ≡ index_between self.now keys low.entry high.entry)) }
    {
        match self.indexes.get(index) {
            Some(index) => Some(IndexRange::new(index.between(low, high), &self.slots)),
            None => None,
        }
    }

    /// Gives the table another schema, where nothing is prepared: its items stay, and its indexes are those of the new
    /// schema. They are built again, each row in each index for the logarithm of the rows, if there are other indexes
    /// than before or other definitions. The key of the table is to stay (API Reference: UpdateTable).
    ///
    /// Where memory is refused nothing changes.
    pub fn change_schema(&mut self, alloc: Global, schema: Schema) -> Result<(), NoMemory>
        requires { self.old.pending ≡ [] }
        ensures ok { OnOk result (self.new ≡ record self.old { schema = schema }) }
        ensures err { OnErr result (self.new ≡ self.old) }
    {
        if have_same_indexes(&self.schema, &schema) {
            drop(replace(&mut self.schema, schema));
            return Ok(());
        }
        let indexes = indexes_of(alloc, &schema, &self.slots)?;
        drop(replace(&mut self.indexes, indexes));
        drop(replace(&mut self.schema, schema));
        Ok(())
    }

    /// Prepares that the item at a key is this one, or none: takes all memory that is needed. The rows stay as they are
    /// until [`IndexedRows::commit`]. No other change of the key is prepared.
    ///
    /// Where memory is refused nothing changes.
    pub fn prepare(
        &mut self,
        alloc: Global,
        key: RowKey,
        new: Option<SharedItem>,
    ) -> Result<(), NoMemory>
        requires { is_pending self.old.pending key ≡ false }
        ensures ok { OnOk result (self.new ≡ record self.old { pending = self.old.pending ++ record { key = key; new = new } ∷ [] }) }
        ensures err { OnErr result (self.new ≡ self.old) }
    {
        let change = RowChange { key, new };
        prepare_in(
            alloc,
            &self.schema,
            self.indexes.as_mut_slice(),
            &mut self.slots,
            &mut self.pending,
            change,
        )
    }

    /// Makes all changes that are prepared. It takes no memory.
    pub fn commit(&mut self)
        ensures { self.new ≡ record { schema = self.old.schema; rows = committed self.old.rows self.old.pending; pending = [] } }
    {
        settle_all(self.indexes.as_mut_slice());
        make_all(&mut self.slots, &mut self.pending);
    }

    /// Drops all changes that are prepared. It takes no memory.
    pub fn abort(&mut self)
        ensures { self.new ≡ record self.old { pending = [] } }
    {
        undo_all(self.indexes.as_mut_slice());
        release_all(&mut self.slots, &mut self.pending);
    }
}
