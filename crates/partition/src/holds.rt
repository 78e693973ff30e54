//! Changes of one item of a cell.

ghost use Rattle.std.specs.Prelude.{◌≡◌, ◌+◌, None, Some, [], IsTrue, false, IfOk, OnOk, OnErr};
ghost use Rattle.txn_core.specs.Answers.{is_holder};
ghost use Rattle.item_store.specs.Slots.{holder_of, pending_of, row_of};
ghost use Rattle.local_index.specs.Entries.{held_too, let_go, noted, settled};
ghost use Rattle.index_changes.specs.Prepared.{moves_in, moves_of, no_moves, prepared_in};

use crate::cell::Partition;
use crate::store::{commit_with, hold, hold_with};
use index_changes::{IndexChanges, queue_all};
use item_store::Pending;
use std::alloc::{AllocError as NoMemory, Global};
use txn_core::Stamp;

impl<K: Ord, V, C, N: Ord> Partition<K, V, C, N> {
    ghost use Rattle.item_store.specs.Changes.{slot_at};
    ghost use Rattle.partition.specs.Changes.{HoldsItem, IsUnprepared, ReleasesItem, SetsAside, SettlesItem, Unchanged, WritesItem, set_at};
    ghost use Rattle.partition.specs.Moves.{AreUnheld, HasNoMoves, KeepsItems, MovesEntries, SameEntries, moves_at};

    /// Puts an item that no transaction holds in its place, or takes it out, with these changes of indexes, and hands out the
    /// item that was there.
    pub(crate) fn put(
        &mut self,
        alloc: Global,
        table: u64,
        key: K,
        item: Option<V>,
        stamp: Stamp,
        changes: IndexChanges<K, V, N>,
    ) -> Result<Option<V>, NoMemory>
    where
        K: Drop,
        V: Drop,
        N: Clone + Drop,
        requires copies { (entry copy : N) → N.is_clone entry copy → copy ≡ entry }
        requires free { pending_of (slot_at self.old.items table key) ≡ None }
        ensures old { IfOk result (λ old. old ≡ row_of (slot_at self.old.items table key)) }
        ensures ok { OnOk result (WritesItem self.old self.new table key item stamp changes.rows.items) }
        ensures err { OnErr result (Unchanged self.old self.new) }
        ensures noted { OnOk result (AreUnheld N.cmp self.old.locals.tables table changes.new.items
            → MovesEntries self.old self.new table (noted N.cmp changes.old.items changes.new.items)
            (moves_in K.cmp self.old.prepared.lists)) }
        ensures refused { OnErr result (AreUnheld N.cmp self.old.locals.tables table changes.new.items
            → SameEntries self.old self.new) }
    {
        let count = changes.rows.len();
        self.outbox.set_aside(count)?;
        match commit_with(
            alloc,
            &mut self.items,
            &mut self.locals,
            table,
            key,
            item,
            stamp,
            &changes,
        ) {
            Ok(old) => {
                queue_all(&mut self.outbox, changes.rows);
                Ok(old)
            }
            Err(end) => {
                self.outbox.give_back(count);
                Err(end)
            }
        }
    }

    /// Holds an item that no transaction holds. What is prepared for it stays.
    pub(crate) fn hold(
        &mut self,
        alloc: Global,
        table: u64,
        key: K,
        pending: Pending<V>,
    ) -> Result<(), NoMemory>
    where
        K: Drop,
        V: Drop,
        requires free { pending_of (slot_at self.old.items table key) ≡ None }
        ensures ok { OnOk result (HoldsItem self.old self.new table key pending (prepared_in K.cmp self.old.prepared.lists)) }
        ensures err { OnErr result (Unchanged self.old self.new) }
        ensures entries { SameEntries self.old self.new }
    {
        hold(alloc, &mut self.items, table, key, pending)
    }

    /// Prepares what the end of a transaction that holds an item will make of indexes, in place of what was prepared for it, and
    /// sets aside the places that it will need.
    fn set_aside(&mut self, key: K, changes: IndexChanges<K, V, N>) -> Result<(), NoMemory>
    where
        K: Drop,
        V: Drop,
        N: Drop,
        ensures ok { OnOk result (SetsAside self.old self.new key changes.rows.items (moves_of (Some changes))) }
        ensures err { OnErr result (Unchanged self.old self.new) }
        ensures entries { OnErr result (SameEntries self.old self.new) }
    {
        let count = changes.rows.len();
        self.outbox.set_aside(count)?;
        match self.prepared.prepare(key, changes) {
            Ok(None) => Ok(()),
            Ok(Some(old)) => {
                self.outbox.give_back(old.rows.len());
                Ok(())
            }
            Err(end) => {
                self.outbox.give_back(count);
                Err(end)
            }
        }
    }

    /// Takes out what is prepared for an item, and gives its places back.
    fn take_back(&mut self, key: &K)
    where
        K: Drop,
        V: Drop,
        N: Drop,
        ensures { SetsAside self.old self.new key.now [] no_moves }
    {
        if let Some(changes) = self.prepared.take(key) {
            self.outbox.give_back(changes.rows.len());
        }
    }

    /// Holds an item that no transaction holds, and the local entries of its image as they are prepared. `held` is a copy of
    /// the key.
    fn hold_prepared(
        &mut self,
        alloc: Global,
        table: u64,
        key: &K,
        held: K,
        pending: Pending<V>,
    ) -> Result<(), NoMemory>
    where
        K: Drop,
        V: Drop,
        N: Clone + Drop,
        requires copies { (entry copy : N) → N.is_clone entry copy → copy ≡ entry }
        requires one { held ≡ key.now }
        requires free { pending_of (slot_at self.old.items table key.now) ≡ None }
        ensures ok { OnOk result (HoldsItem self.old self.new table key.now pending (prepared_in K.cmp self.old.prepared.lists)) }
        ensures err { OnErr result (Unchanged self.old self.new) }
        ensures held { OnOk result (MovesEntries self.old self.new table
            (held_too N.cmp (moves_in K.cmp self.old.prepared.lists key.now).new) (moves_in K.cmp self.old.prepared.lists)) }
        ensures refused { OnErr result (
            AreUnheld N.cmp self.old.locals.tables table (moves_in K.cmp self.old.prepared.lists key.now).new
            → SameEntries self.old self.new) }
    {
        let image = self.prepared.entries_after(key);
        hold_with(
            alloc,
            &mut self.items,
            &mut self.locals,
            table,
            held,
            pending,
            image,
        )
    }

    /// Holds an item that no transaction holds, with what its transaction's end will make of indexes. `held` and `kept` are
    /// copies of the key.
    pub(crate) fn hold_with(
        &mut self,
        alloc: Global,
        table: u64,
        key: &K,
        held: K,
        kept: K,
        pending: Pending<V>,
        changes: IndexChanges<K, V, N>,
    ) -> Result<(), NoMemory>
    where
        K: Drop,
        V: Drop,
        N: Clone + Drop,
        requires copies { (entry copy : N) → N.is_clone entry copy → copy ≡ entry }
        requires one { (held ≡ key.now) × (kept ≡ key.now) }
        requires free { pending_of (slot_at self.old.items table key.now) ≡ None }
        ensures ok { OnOk result (HoldsItem self.old self.new table key.now pending (set_at self.old key.now changes.rows.items)) }
        ensures err { OnErr result (IsUnprepared self.old key.now → Unchanged self.old self.new) }
        ensures held { OnOk result (MovesEntries self.old self.new table (held_too N.cmp changes.new.items)
            (moves_at self.old key.now (moves_of (Some changes)))) }
        ensures refused { OnErr result (HasNoMoves self.old key.now
            → AreUnheld N.cmp self.old.locals.tables table changes.new.items → SameEntries self.old self.new) }
        ensures kept { OnErr result (KeepsItems self.old self.new) }
    {
        self.set_aside(kept, changes)?;
        match self.hold_prepared(alloc, table, key, held, pending) {
            Ok(()) => Ok(()),
            Err(end) => {
                self.take_back(key);
                Err(end)
            }
        }
    }

    /// Makes an item that the transaction of this number holds what it is to be, with the changes of indexes that were prepared
    /// for it, and tells whether it holds it; else nothing changes. It takes no memory.
    pub(crate) fn settle(&mut self, table: u64, key: &K, number: u64) -> bool
    where
        K: Drop,
        V: Drop,
        N: Drop,
        ensures answer { result ≡ is_holder (holder_of (slot_at self.old.items table key.now)) number }
        ensures changed { IsTrue result → SettlesItem self.old self.new table key.now }
        ensures settled { IsTrue result → let m = moves_in K.cmp self.old.prepared.lists key.now in
            MovesEntries self.old self.new table (settled N.cmp m.old m.new) (moves_at self.old key.now no_moves) }
        ensures same { result ≡ false → Unchanged self.old self.new }
        ensures same_entries { result ≡ false → SameEntries self.old self.new }
    {
        if !self.items.settle(table, key, number) {
            return false;
        }
        if let Some(changes) = self.prepared.take(key) {
            self.locals
                .settle(table, changes.old.as_slice(), changes.new.as_slice());
            queue_all(&mut self.outbox, changes.rows);
        }
        true
    }

    /// Lets an item that the transaction of this number holds go as it is, with what was prepared for it, and tells whether it
    /// holds it; else nothing changes. It takes no memory.
    pub(crate) fn let_go(&mut self, table: u64, key: &K, number: u64) -> bool
    where
        K: Drop,
        V: Drop,
        N: Drop,
        ensures answer { result ≡ is_holder (holder_of (slot_at self.old.items table key.now)) number }
        ensures changed { IsTrue result → ReleasesItem self.old self.new table key.now }
        ensures released { IsTrue result → MovesEntries self.old self.new table
            (let_go N.cmp (moves_in K.cmp self.old.prepared.lists key.now).new) (moves_at self.old key.now no_moves) }
        ensures same { result ≡ false → Unchanged self.old self.new }
        ensures same_entries { result ≡ false → SameEntries self.old self.new }
    {
        if !self.items.let_go(table, key, number) {
            return false;
        }
        self.locals.let_go(table, self.prepared.entries_after(key));
        self.take_back(key);
        true
    }
}
