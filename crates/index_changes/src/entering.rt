//! The local entries of the items that come with a table.

ghost use Rattle.std.specs.Prelude.{◌≡◌, Some, IfOk, OnOk, if◌then◌else◌};
ghost use Rattle.std.specs.BTreeMap.{get, is_at};
ghost use Rattle.local_index.specs.declared.claim.Claim.TheVariants.{Committed};
ghost use Rattle.local_index.specs.Entries.{is_among};
ghost use Rattle.index_changes.specs.Entering.{AreCommittedOf};

use crate::rules::CellRules;
use item_store::TableItems;
use local_index::Claim;
use std::alloc::{AllocError as NoMemory, Global};
use std::collections::BTreeMap;

/// Commits an entry.
fn commit<E: Ord + Drop>(entries: &mut BTreeMap<E, Claim>, entry: E) -> Result<(), NoMemory>
    ensures { OnOk result ((q : E) → get E.cmp entries.new q
        ≡ (if is_at (E.cmp entry) q then Some Committed else get E.cmp entries.old q)) }
{
    match entries.insert(entry, Claim::Committed) {
        Ok(_) => Ok(()),
        Err(refused) => {
            drop(refused);
            Err(NoMemory)
        }
    }
}

/// Commits these entries.
fn commit_all<E: Ord + Drop>(
    entries: &mut BTreeMap<E, Claim>,
    mut come: Vec<E>,
) -> Result<(), NoMemory>
    ensures { OnOk result ((q : E) → get E.cmp entries.new q
        ≡ (if is_among E.cmp come.items q then Some Committed else get E.cmp entries.old q)) }
{
    while let Some(entry) = come.pop() {
        commit(entries, entry)?;
    }
    Ok(())
}

/// Commits the local entries of an item.
fn enter<R: CellRules>(
    alloc: Global,
    catalog: &R::Catalog,
    key: &R::Key,
    item: &R::Value,
    entries: &mut BTreeMap<R::LocalEntry, Claim>,
) -> Result<(), NoMemory>
    ensures { OnOk result ((q : R.LocalEntry) → get R.LocalEntry.cmp entries.new q
        ≡ (if is_among R.LocalEntry.cmp (R.locals.entries catalog.now key.now item.now) q then Some Committed
        else get R.LocalEntry.cmp entries.old q)) }
{
    let come = R::entries_of(alloc, catalog, key, item)?;
    commit_all(entries, come)
}

/// The local entries of a table's committed items, all committed.
pub(crate) fn entries_of_items<R: CellRules>(
    alloc: Global,
    catalog: &R::Catalog,
    items: &TableItems<R::Key, R::Value>,
) -> Result<BTreeMap<R::LocalEntry, Claim>, NoMemory>
    ensures { IfOk result (λ entries. AreCommittedOf R.locals R.Key.cmp R.LocalEntry.cmp catalog.now items.now.slots entries) }
{
    items.are_in_order();
    let mut entries = BTreeMap::new(alloc);
    for (key, slot) in items.slots().iter() {
        if let Some(committed) = &slot.committed {
            enter::<R>(alloc, catalog, key, &committed.item, &mut entries)?;
        }
    }
    Ok(entries)
}
