//! What a plan changes in a cell. None of it takes memory.

ghost use Rattle.std.specs.Prelude.{◌≡◌, ℕ, None, Some, OnOk, if◌then◌else◌};
ghost use Rattle.global_index.specs.Rows.{row_under};
ghost use Rattle.item_store.specs.Counts.{tally};
ghost use Rattle.item_store.specs.Changes.{slot_at};
ghost use Rattle.local_index.specs.Tables.{claim_under};
ghost use Rattle.index_changes.specs.Commands.{is_in, is_number};
ghost use Rattle.partition.specs.Plans.{HasPlace, entered, filled, HasRoom, LeftByPlan, SameButPlan};

use crate::cell::Partition;
use global_index::IndexRows;
use index_changes::{CatalogPlan, MadeTable, queue_all};
use item_store::ItemStore;
use local_index::LocalIndexes;
use std::alloc::AllocError as NoMemory;

/// Drops indexes with their rows.
fn close_all<K: Ord + Drop, V: Drop>(rows: &mut IndexRows<K, V>, closed: &[u64])
    ensures { (g : ℕ) (q : K) → row_under K.cmp rows.new.indexes g q
        ≡ (if is_in closed.now g then None else row_under K.cmp rows.old.indexes g q) }
{
    for index in closed {
        rows.close(*index);
    }
}

/// Drops a table with its items, where one is to go.
fn drop_table<K: Ord + Drop, V: Drop>(items: &mut ItemStore<K, V>, dropped: Option<u64>)
    ensures slots { (u : ℕ) (q : K) → slot_at items.new u q ≡ (if is_number dropped u then None else slot_at items.old u q) }
    ensures counts { tally items.new.counts ≡ tally items.old.counts }
{
    if let Some(table) = dropped {
        items.close_table(table);
    }
}

/// Drops the local entries of a table, where one is to go.
fn drop_entries<N: Ord + Drop>(locals: &mut LocalIndexes<N>, dropped: Option<u64>)
    ensures { (u : ℕ) (q : N) → claim_under N.cmp locals.new.tables u q
        ≡ (if is_number dropped u then None else claim_under N.cmp locals.old.tables u q) }
{
    if let Some(table) = dropped {
        locals.close_table(table);
    }
}

/// Puts the items of a table that comes in its place, and their local entries in theirs, which were made before.
fn fill_table<K: Ord + Drop, V: Drop, N: Ord + Drop>(
    items: &mut ItemStore<K, V>,
    locals: &mut LocalIndexes<N>,
    made: Option<MadeTable<K, V, N>>,
)
    ensures slots { HasPlace items.old.tables made → (u : ℕ) (q : K) → slot_at items.new u q ≡ filled made u q (slot_at items.old u q) }
    ensures counts { tally items.new.counts ≡ tally items.old.counts }
    ensures entries { HasPlace locals.old.tables made → (u : ℕ) (q : N) → claim_under N.cmp locals.new.tables u q
        ≡ entered made u q (claim_under N.cmp locals.old.tables u q) }
{
    let Some(table) = made else {
        return;
    };
    let MadeTable {
        number,
        items: new,
        entries,
    } = table;
    locals.fill_table(number, entries);
    if items.table(number).is_none() {
        return;
    }
    items.fill_table(number, new);
}

impl<K: Ord, V, C, N: Ord> Partition<K, V, C, N> {
    /// Carries out what is planned, if anything is.
    pub(crate) fn carry_out_plan(&mut self)
    where
        K: Drop,
        V: Drop,
        C: Drop,
        N: Drop,
        ensures { (p : _) → self.old.planned ≡ Some p → HasRoom self.old p → LeftByPlan self.old self.new p }
    {
        let Some(plan) = self.planned.take() else {
            return;
        };
        let CatalogPlan {
            catalog,
            dropped,
            closed,
            made,
            changes,
        } = plan;
        // The plan saw that a number is left.
        let _ = self.items.count_change();
        fill_table(&mut self.items, &mut self.locals, made);
        drop_table(&mut self.items, dropped);
        drop_entries(&mut self.locals, dropped);
        close_all(&mut self.rows, closed.as_slice());
        self.catalog = catalog;
        queue_all(&mut self.outbox, changes);
    }

    /// Gives up what is planned, if anything is, and gives the places back that it had set aside.
    pub(crate) fn give_up_plan(&mut self)
    where
        K: Drop,
        V: Drop,
        C: Drop,
        N: Drop,
        ensures gone { self.new.planned ≡ None }
        ensures kept { SameButPlan self.old self.new }
    {
        if let Some(plan) = self.planned.take() {
            self.outbox.give_back(plan.changes.len());
        }
    }

    /// Keeps a plan, in place of one before, and sets its places aside.
    pub(crate) fn put_plan(&mut self, plan: CatalogPlan<K, V, C, N>) -> Result<(), NoMemory>
    where
        K: Drop,
        V: Drop,
        C: Drop,
        N: Drop,
        ensures put { OnOk result (self.new.planned ≡ Some plan) }
        ensures kept { SameButPlan self.old self.new }
    {
        self.give_up_plan();
        self.outbox.set_aside(plan.changes.len())?;
        self.planned = Some(plan);
        Ok(())
    }
}
