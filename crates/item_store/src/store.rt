//! The items of a cell.

ghost use Rattle.std.specs.Prelude.{◌≡◌, ◌+◌, ◌<◌, ◌^◌, None, Some, false, IsTrue, IfOk, OnOk, OnErr};
ghost use Rattle.std.specs.Option.{option_copied};
ghost use Rattle.txn_core.specs.Answers.{is_holder};
ghost use Rattle.item_store.specs.Slots.{committed_of, holder_of, last_of, pending_of, row_of, slot_of, version_of};
ghost use Rattle.std.specs.Ordering.{nat_cmp};
ghost use Rattle.std.specs.BTreeMap.{get};
ghost use Rattle.item_store.specs.Tables.{has_table, held_under};

use crate::counts::Counts;
use crate::slot::{Committed, End, Pending, Slot, item_in, last, version};
use crate::table::TableItems;
use crate::tables::{
    close_table, end_under, fill_table, hold_under, open_table, remove_under, slot_under,
    write_under,
};
use std::alloc::{AllocError as NoMemory, Global};
use std::collections::BTreeMap;
use txn_core::Stamp;

/// The items of a cell, of each of its tables, those that are there and those that transactions hold, in the order of
/// their keys; its floor; and the numbers of its changes.
///
/// An item that is there or held costs one place of an ordered map. Of the numbers one is set aside for each item that is
/// held. A call on an item wants its table there.
#[derive(Drop)]
pub struct ItemStore<K: Ord, V> {
    tables: BTreeMap<u64, TableItems<K, V>>,
    held: u64,
    counts: Counts,
    ghost counted: { held ≡ held_under tables },
    ghost room: { counts.count + held < 2 ^ 64 },
}

impl<K: Ord, V> ItemStore<K, V> {
    ghost use Rattle.item_store.specs.Counts.{fresh, tally};
    ghost use Rattle.item_store.specs.Changes.{Changes, Closes, Commits, CountsOne, Ends, Fills, Opens, Settles, Unchanged, slot_at};

    /// No table.
    pub fn new(alloc: Global) -> ItemStore<K, V>
        ensures tables { (table : _) → has_table result.tables table ≡ false }
        ensures counts { tally result.counts ≡ fresh }
        ensures held { result.held ≡ 0 }
    {
        ItemStore {
            tables: BTreeMap::new(alloc),
            held: 0,
            counts: Counts::new(),
        }
    }

    /// What is kept of an item: none, where it is neither there nor held.
    pub fn slot(&self, table: u64, key: &K) -> Option<&Slot<V>>
        ensures { option_copied result ≡ slot_at self.now table key.now }
    {
        slot_under(&self.tables, table, key)
    }

    /// The stamp at which the item of a slot was changed last, or where it is absent, the cell's floor.
    pub fn last_change(&self, slot: Option<&Slot<V>>) -> Stamp
        ensures { result ≡ last_of self.now.counts.floor (option_copied slot.entry) }
    {
        last(self.counts.floor, slot)
    }

    /// The version of the item of a slot, or where it is absent, that of its cell's last absence.
    pub fn version(&self, slot: Option<&Slot<V>>) -> u64
        ensures { result ≡ version_of self.now.counts.gone (option_copied slot.entry) }
    {
        version(self.counts.gone, slot)
    }

    /// Makes or replaces the committed item of a key that no transaction holds, at a stamp or at the item's later one, and
    /// hands out the item that was there. `NoMemory` also where no number is left for the change.
    pub fn put_row(
        &mut self,
        table: u64,
        key: K,
        item: V,
        stamp: Stamp,
    ) -> Result<Option<V>, NoMemory>
    where
        K: Drop,
        V: Drop,
        requires there { IsTrue (has_table self.old.tables table) }
        requires free { pending_of (slot_at self.old table key) ≡ None }
        ensures old { IfOk result (λ old. old ≡ row_of (slot_at self.old table key)) }
        ensures put { OnOk result (Commits self.old self.new table key (Some item) stamp) }
        ensures held { self.new.held ≡ self.old.held }
        ensures err { OnErr result (Unchanged self.old self.new) }
    {
        let version = self.next_number()?;
        let committed = Committed {
            item,
            stamp,
            version,
        };
        let old = write_under(&mut self.tables, table, key, self.counts.floor, committed)?;
        self.counts.count = version;
        Ok(old)
    }

    /// Removes the committed item of a key that no transaction holds, where it is there, at a stamp, and hands it out. It
    /// takes no memory. `NoMemory` where no number is left for the change.
    pub fn drop_row(&mut self, table: u64, key: &K, stamp: Stamp) -> Result<Option<V>, NoMemory>
    where
        K: Drop,
        V: Drop,
        requires there { IsTrue (has_table self.old.tables table) }
        requires free { pending_of (slot_at self.old table key.now) ≡ None }
        ensures old { IfOk result (λ old. old ≡ row_of (slot_at self.old table key.now)) }
        ensures dropped { OnOk result (Commits self.old self.new table key.now None stamp) }
        ensures held { self.new.held ≡ self.old.held }
        ensures left { OnErr result (self.old.counts.count + self.old.held + 1 ≡ 2 ^ 64) }
        ensures err { OnErr result (Unchanged self.old self.new) }
    {
        self.next_number()?;
        let old = remove_under(&mut self.tables, table, key);
        let last = last(self.counts.floor, old.as_ref());
        self.counts = self.counts.left_absent(last, stamp);
        Ok(item_in(old))
    }

    /// Holds an item that no transaction holds, and takes all that the end of that one needs: memory, and a number for its
    /// change.
    pub fn hold(&mut self, table: u64, key: K, pending: Pending<V>) -> Result<(), NoMemory>
    where
        K: Drop,
        V: Drop,
        requires there { IsTrue (has_table self.old.tables table) }
        requires free { pending_of (slot_at self.old table key) ≡ None }
        ensures ok { OnOk result (Changes self.old self.new table key
            (slot_of (committed_of (slot_at self.old table key)) (Some pending)) (tally self.old.counts)) }
        ensures held { OnOk result (self.new.held ≡ self.old.held + 1) }
        ensures err { OnErr result (Unchanged self.old self.new) }
    {
        self.next_number()?;
        hold_under(&mut self.tables, table, key, pending)?;
        self.held += 1;
        Ok(())
    }

    /// Ends the transaction on an item, if it is the one of this number that holds it, and tells whether it is.
    fn end(&mut self, table: u64, key: &K, number: u64, end: End) -> bool
    where
        K: Drop,
        V: Drop,
        ensures answer { result ≡ is_holder (holder_of (slot_at self.old table key.now)) number }
        ensures ended { IsTrue result → Ends end self.old self.new table key.now }
        ensures held { IsTrue result → self.new.held + 1 ≡ self.old.held }
        ensures same { result ≡ false → Unchanged self.old self.new }
    {
        let ended = end_under(&mut self.tables, table, key, number, end, &mut self.counts);
        if ended {
            self.held -= 1;
        }
        ended
    }

    /// Puts the image of an item that the transaction of this number holds in place, at that one's stamp, and tells whether it
    /// holds it; else nothing changes. It takes no memory.
    pub fn settle(&mut self, table: u64, key: &K, number: u64) -> bool
    where
        K: Drop,
        V: Drop,
        ensures answer { result ≡ is_holder (holder_of (slot_at self.old table key.now)) number }
        ensures settled { IsTrue result → Settles self.old self.new table key.now }
        ensures held { IsTrue result → self.new.held + 1 ≡ self.old.held }
        ensures same { result ≡ false → Unchanged self.old self.new }
    {
        self.end(table, key, number, End::Settle)
    }

    /// Lets an item that the transaction of this number holds go as it is, and tells whether it holds it; else nothing changes.
    /// It takes no memory.
    pub fn let_go(&mut self, table: u64, key: &K, number: u64) -> bool
    where
        K: Drop,
        V: Drop,
        ensures answer { result ≡ is_holder (holder_of (slot_at self.old table key.now)) number }
        ensures gone { IsTrue result → Changes self.old self.new table key.now
            (slot_of (committed_of (slot_at self.old table key.now)) None) (tally self.old.counts) }
        ensures held { IsTrue result → self.new.held + 1 ≡ self.old.held }
        ensures same { result ≡ false → Unchanged self.old self.new }
    {
        self.end(table, key, number, End::LetGo)
    }

    /// Adds a table without items, which is not there yet.
    pub fn open_table(&mut self, alloc: Global, table: u64) -> Result<(), NoMemory>
    where
        K: Drop,
        V: Drop,
        requires new { has_table self.old.tables table ≡ false }
        ensures opened { OnOk result (Opens self.old self.new table) }
        ensures err { OnErr result (Unchanged self.old self.new) }
    {
        open_table(alloc, &mut self.tables, table)
    }

    /// Drops a table with its items, also those that are held. It costs no walk over other tables, and takes no memory.
    pub fn close_table(&mut self, table: u64)
    where
        K: Drop,
        V: Drop,
        ensures closed { Closes self.old self.new table }
    {
        self.held -= close_table(&mut self.tables, table);
    }

    /// Puts items of which none is held in place of those of a table that is there. It takes no memory.
    pub fn fill_table(&mut self, table: u64, items: TableItems<K, V>)
    where
        K: Drop,
        V: Drop,
        requires there { IsTrue (has_table self.old.tables table) }
        requires none { items.held ≡ 0 }
        ensures filled { Fills self.old self.new table items.slots }
    {
        self.held -= fill_table(&mut self.tables, table, items);
    }

    /// Counts a change of the catalog, which is one in each cell. `NoMemory` where no number is left for it.
    pub fn count_change(&mut self) -> Result<(), NoMemory>
        ensures counted { OnOk result (CountsOne self.old self.new) }
        ensures left { OnErr result (self.old.counts.count + self.old.held + 1 ≡ 2 ^ 64) }
        ensures err { OnErr result (Unchanged self.old self.new) }
    {
        self.counts.count = self.next_number()?;
        Ok(())
    }

    /// The latest stamp at which an item of the cell became absent.
    pub fn floor(&self) -> Stamp
        ensures { result ≡ self.now.counts.floor }
    {
        self.counts.floor
    }

    /// The tables under their numbers.
    pub fn tables(&self) -> &BTreeMap<u64, TableItems<K, V>>
        ensures { result.now ≡ self.now.tables }
    {
        &self.tables
    }

    /// The items of a table.
    pub fn table(&self, table: u64) -> Option<&TableItems<K, V>>
        ensures { option_copied result ≡ get nat_cmp self.now.tables table }
    {
        self.tables.get(&table)
    }

    /// The number of the next change, where one is left beside those that are set aside.
    pub fn next_number(&self) -> Result<u64, NoMemory>
        ensures next { IfOk result (λ number. number ≡ self.now.counts.count + 1) }
        ensures left { OnOk result (self.now.counts.count + self.now.held + 1 < 2 ^ 64) }
        ensures none { OnErr result (self.now.counts.count + self.now.held + 1 ≡ 2 ^ 64) }
    {
        let Some(taken) = self.counts.count.checked_add(self.held) else {
            unreachable!()
        };
        if taken == u64::MAX {
            return Err(NoMemory);
        }
        Ok(self.counts.count + 1)
    }
}
