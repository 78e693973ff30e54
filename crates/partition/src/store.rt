//! Items and their local entries, in tables that have a place or get one.

ghost use Rattle.std.specs.Prelude.{◌≡◌, None, IsTrue, IfOk, OnOk, OnErr};
ghost use Rattle.item_store.specs.Slots.{pending_of, row_of};
ghost use Rattle.item_store.specs.Tables.{has_table};
ghost use Rattle.item_store.specs.Changes.{slot_at};
ghost use Rattle.local_index.specs.Entries.{held_too, noted};
ghost use Rattle.local_index.specs.Tables.{ClaimsUnder, has_table as has_entries};
ghost use Rattle.partition.specs.Moves.{AreUnheld, SameClaims};
ghost use Rattle.partition.specs.Stores.{HoldsIn, SameItems, WritesIn};

use index_changes::IndexChanges;
use item_store::{ItemStore, Pending};
use local_index::LocalIndexes;
use std::alloc::{AllocError as NoMemory, Global};
use txn_core::Stamp;

/// Adds a table, where it has no place yet.
pub(crate) fn open_table<K: Ord + Drop, V: Drop>(
    alloc: Global,
    items: &mut ItemStore<K, V>,
    table: u64,
) -> Result<(), NoMemory>
    ensures there { OnOk result (IsTrue (has_table items.new.tables table)) }
    ensures same { SameItems items.old items.new }
{
    if items.table(table).is_some() {
        return Ok(());
    }
    items.open_table(alloc, table)
}

/// Puts an item that no transaction holds in its place, or takes it out, and hands out the item that was there.
pub(crate) fn commit<K: Ord + Drop, V: Drop>(
    alloc: Global,
    items: &mut ItemStore<K, V>,
    table: u64,
    key: K,
    item: Option<V>,
    stamp: Stamp,
) -> Result<Option<V>, NoMemory>
    requires free { pending_of (slot_at items.old table key) ≡ None }
    ensures old { IfOk result (λ old. old ≡ row_of (slot_at items.old table key)) }
    ensures ok { OnOk result (WritesIn items.old items.new table key item stamp) }
    ensures err { OnErr result (SameItems items.old items.new) }
{
    open_table(alloc, items, table)?;
    match item {
        Some(item) => items.put_row(table, key, item, stamp),
        None => items.drop_row(table, &key, stamp),
    }
}

/// Holds an item that no transaction holds.
pub(crate) fn hold<K: Ord + Drop, V: Drop>(
    alloc: Global,
    items: &mut ItemStore<K, V>,
    table: u64,
    key: K,
    pending: Pending<V>,
) -> Result<(), NoMemory>
    requires free { pending_of (slot_at items.old table key) ≡ None }
    ensures ok { OnOk result (HoldsIn items.old items.new table key pending) }
    ensures err { OnErr result (SameItems items.old items.new) }
{
    open_table(alloc, items, table)?;
    items.hold(table, key, pending)
}

/// Adds a table without local entries, where it is not there yet.
pub(crate) fn open_entries<N: Ord + Drop>(
    alloc: Global,
    locals: &mut LocalIndexes<N>,
    table: u64,
) -> Result<(), NoMemory>
    ensures there { OnOk result (IsTrue (has_entries locals.new.tables table)) }
    ensures same { SameClaims N.cmp locals.old.tables locals.new.tables }
{
    if locals.has_table(table) {
        return Ok(());
    }
    locals.open_table(alloc, table)
}

/// Holds the local entries of an image, and takes all memory that the end of its transaction needs.
fn hold_entries<N: Ord + Clone + Drop>(
    alloc: Global,
    locals: &mut LocalIndexes<N>,
    table: u64,
    image: &[N],
) -> Result<(), NoMemory>
    requires { (entry copy : N) → N.is_clone entry copy → copy ≡ entry }
    ensures ok { OnOk result (ClaimsUnder N.cmp (held_too N.cmp image.now) locals.old.tables locals.new.tables table) }
    ensures err { OnErr result (SameClaims N.cmp locals.old.tables locals.new.tables) }
{
    open_entries(alloc, locals, table)?;
    locals.hold(table, image)
}

/// Puts an item that no transaction holds in its place, or takes it out, and its new local entries in place of the old ones, and
/// hands out the item that was there.
pub(crate) fn commit_with<K: Ord + Drop, V: Drop, N: Ord + Clone + Drop>(
    alloc: Global,
    items: &mut ItemStore<K, V>,
    locals: &mut LocalIndexes<N>,
    table: u64,
    key: K,
    item: Option<V>,
    stamp: Stamp,
    changes: &IndexChanges<K, V, N>,
) -> Result<Option<V>, NoMemory>
    requires copies { (entry copy : N) → N.is_clone entry copy → copy ≡ entry }
    requires free { pending_of (slot_at items.old table key) ≡ None }
    ensures old { IfOk result (λ old. old ≡ row_of (slot_at items.old table key)) }
    ensures ok { OnOk result (WritesIn items.old items.new table key item stamp) }
    ensures err { OnErr result (SameItems items.old items.new) }
    ensures noted { OnOk result (AreUnheld N.cmp locals.old.tables table changes.now.new.items
        → ClaimsUnder N.cmp (noted N.cmp changes.now.old.items changes.now.new.items) locals.old.tables locals.new.tables table) }
    ensures refused { OnErr result (AreUnheld N.cmp locals.old.tables table changes.now.new.items
        → SameClaims N.cmp locals.old.tables locals.new.tables) }
{
    hold_entries(alloc, locals, table, changes.new.as_slice())?;
    match commit(alloc, items, table, key, item, stamp) {
        Ok(row) => {
            locals.settle(table, changes.old.as_slice(), changes.new.as_slice());
            Ok(row)
        }
        Err(end) => {
            locals.let_go(table, changes.new.as_slice());
            Err(end)
        }
    }
}

/// Holds an item that no transaction holds, and the local entries of its image.
pub(crate) fn hold_with<K: Ord + Drop, V: Drop, N: Ord + Clone + Drop>(
    alloc: Global,
    items: &mut ItemStore<K, V>,
    locals: &mut LocalIndexes<N>,
    table: u64,
    key: K,
    pending: Pending<V>,
    image: &[N],
) -> Result<(), NoMemory>
    requires copies { (entry copy : N) → N.is_clone entry copy → copy ≡ entry }
    requires free { pending_of (slot_at items.old table key) ≡ None }
    ensures ok { OnOk result (HoldsIn items.old items.new table key pending) }
    ensures err { OnErr result (SameItems items.old items.new) }
    ensures held { OnOk result (ClaimsUnder N.cmp (held_too N.cmp image.now) locals.old.tables locals.new.tables table) }
    ensures refused { OnErr result (AreUnheld N.cmp locals.old.tables table image.now
        → SameClaims N.cmp locals.old.tables locals.new.tables) }
{
    hold_entries(alloc, locals, table, image)?;
    match hold(alloc, items, table, key, pending) {
        Ok(()) => Ok(()),
        Err(end) => {
            locals.let_go(table, image);
            Err(end)
        }
    }
}
