//! The local entries of a cell.

ghost use Rattle.std.specs.Prelude.{◌≡◌, ℕ, IsTrue, IfSome, OnOk, OnErr, false};
ghost use Rattle.std.specs.Option.{option_copied, option_map};
ghost use Rattle.std.specs.Ordering.{nat_cmp};
ghost use Rattle.std.specs.Map.{lookup};
ghost use Rattle.std.specs.BTreeMap.{get, is_at};
ghost use Rattle.paging.specs.MapRange.{rows_between};
ghost use Rattle.local_index.specs.Entries.{claim_between, end_of, held_too, let_go, settled};
ghost use Rattle.local_index.specs.Tables.{claim_under, has_table, Closes, Fills, GivesUnder, Opens, Same};

use crate::claim::Claim;
use crate::lists::{hold_in, let_go_in, settle_in};
use paging::MapRange;
use std::alloc::{AllocError as NoMemory, Global};
use std::collections::BTreeMap;
use std::ops::Bound;

/// The local entries of a cell, of each of its tables in their order: those of committed items, and those of the images that
/// transactions hold.
///
/// An entry costs one place of an ordered map, and one copy of it, which is made where it was not there before. A call on
/// entries costs up to two look-ups for each that comes or goes, and comparisons of each old one with each new one: an item
/// has at most one entry a local index, and a table at most five of these. A call that lets entries come wants the table there.
#[derive(Drop)]
pub struct LocalIndexes<E: Ord> {
    tables: BTreeMap<u64, BTreeMap<E, Claim>>,
}

impl<E: Ord> LocalIndexes<E> {
    /// No table.
    pub fn new(alloc: Global) -> LocalIndexes<E>
        ensures { (table : ℕ) → has_table result.tables table ≡ false }
    {
        LocalIndexes {
            tables: BTreeMap::new(alloc),
        }
    }

    /// Adds a table without entries, which is not there yet.
    pub fn open_table(&mut self, alloc: Global, table: u64) -> Result<(), NoMemory>
    where
        E: Drop,
        requires new { has_table self.old.tables table ≡ false }
        ensures opened { OnOk result (Opens E.cmp self.old.tables self.new.tables table) }
        ensures err { OnErr result (Same E.cmp self.old.tables self.new.tables) }
    {
        match self.tables.insert(table, BTreeMap::new(alloc)) {
            Ok(_) => Ok(()),
            Err(refused) => {
                drop(refused);
                Err(NoMemory)
            }
        }
    }

    /// Drops a table with its entries. It costs no walk over other tables, and takes no memory.
    pub fn close_table(&mut self, table: u64)
    where
        E: Drop,
        ensures { Closes E.cmp self.old.tables self.new.tables table }
    {
        drop(self.tables.remove(&table));
    }

    /// Puts these entries in place of those of a table, where it is there. It takes no memory.
    pub fn fill_table(&mut self, table: u64, entries: BTreeMap<E, Claim>)
    where
        E: Drop,
        ensures { Fills E.cmp self.old.tables self.new.tables table entries }
    {
        if let Some(place) = self.tables.get_mut(&table) {
            *place = entries;
        }
    }

    /// Whether the table is there.
    pub fn has_table(&self, table: u64) -> bool
        ensures { result ≡ has_table self.now.tables table }
    {
        self.tables.contains_key(&table)
    }

    /// The entries of a table, each with what it stands for: `None` where the table is not there.
    pub fn table(&self, table: u64) -> Option<&BTreeMap<E, Claim>>
        ensures { option_copied result ≡ get nat_cmp self.now.tables table }
    {
        self.tables.get(&table)
    }

    /// What an entry of a table stands for: none where it is not there.
    pub fn claim(&self, table: u64, entry: &E) -> Option<Claim>
        ensures { result ≡ claim_under E.cmp self.now.tables table entry.now }
    {
        match self.tables.get(&table) {
            None => None,
            Some(entries) => entries.get(entry).copied(),
        }
    }

    /// The entries of a table between two ends, in their order, each with what it stands for: `None` where the table is not
    /// there. A step of a walk over them costs one look-up and takes no memory.
    pub fn between<'a>(
        &'a self,
        table: u64,
        low: Bound<&'a E>,
        high: Bound<&'a E>,
    ) -> Option<MapRange<'a, E, Claim>>
        ensures rows { result ≡ option_map (λ entries. rows_between E.cmp entries low.entry high.entry) (get nat_cmp self.now.tables table) }
        ensures claims { IfSome result (λ rows. (q : E) → lookup (is_at (E.cmp q)) rows
            ≡ claim_between E.cmp (end_of low.entry) (end_of high.entry) q (claim_under E.cmp self.now.tables table q)) }
    {
        match self.tables.get(&table) {
            None => None,
            Some(entries) => Some(MapRange::new(entries, low, high)),
        }
    }

    /// Holds the entries of an image, and takes all memory that the end of its transaction needs.
    pub fn hold(&mut self, table: u64, image: &[E]) -> Result<(), NoMemory>
    where
        E: Clone,
        requires copies { (entry copy : E) → E.is_clone entry copy → copy ≡ entry }
        requires there { IsTrue (has_table self.old.tables table) }
        ensures held { OnOk result (GivesUnder E.cmp (held_too E.cmp image.now) self.old.tables self.new.tables table) }
        ensures err { OnErr result (Same E.cmp self.old.tables self.new.tables) }
    {
        match self.tables.get_mut(&table) {
            Some(entries) => hold_in(entries, image),
            None => unreachable!(),
        }
    }

    /// Commits the entries of an image, which are held, in place of the item's old ones, and holds them no longer. One that is
    /// not there stays absent. It takes no memory.
    pub fn settle(&mut self, table: u64, old: &[E], image: &[E])
    where
        E: Drop,
        ensures { GivesUnder E.cmp (settled E.cmp old.now image.now) self.old.tables self.new.tables table }
    {
        if let Some(entries) = self.tables.get_mut(&table) {
            settle_in(entries, old, image);
        }
    }

    /// Holds the entries of an image no longer. Those for which nothing is committed go. It takes no memory.
    pub fn let_go(&mut self, table: u64, image: &[E])
    where
        E: Drop,
        ensures { GivesUnder E.cmp (let_go E.cmp image.now) self.old.tables self.new.tables table }
    {
        if let Some(entries) = self.tables.get_mut(&table) {
            let_go_in(entries, image);
        }
    }
}
