//! The entries of items in the local indexes of their tables.

ghost use Rattle.std.specs.Prelude.{◌≡◌, ◌++◌, ℕ, IfOk};
ghost use Rattle.cell_entries.specs.LocalEntries.{entries_from, entries_of, entry_at};
ghost use Rattle.row_keys.specs.Rows.{position_in};

use crate::entry::LocalEntry;
use attr_value::SharedItem;
use cell_catalog::table_numbered;
use cell_model::{Catalog, CellKey, ItemKey};
use row_keys::position_of;
use std::alloc::{AllocError as NoMemory, Global};
use table_schema::{LocalIndex, Schema};

/// Adds an item's entry in a local index, the one at this place among its table's, where the item has the index's key.
fn add_entry(
    alloc: Global,
    schema: &Schema,
    place: u64,
    index: &LocalIndex,
    key: &ItemKey,
    item: &SharedItem,
    entries: &mut Vec<LocalEntry>,
) -> Result<(), NoMemory>
    ensures { IfOk result (λ _. entries.new.items
        ≡ entries.old.items ++ entry_at key.now place (position_in schema.now index.now.keys key.now.key item.now)) }
{
    let Some(at) = position_of(alloc, schema, &index.keys, &key.key, item.item())? else {
        return Ok(());
    };
    entries.push(LocalEntry {
        table: key.table,
        index: place,
        at,
    })?;
    Ok(())
}

/// An item's entries in the local indexes of a table with this schema, in the order of the indexes.
fn entries_under(
    alloc: Global,
    schema: &Schema,
    key: &ItemKey,
    item: &SharedItem,
) -> Result<Vec<LocalEntry>, NoMemory>
    ensures { IfOk result (λ entries. entries.items ≡ entries_from schema.now schema.now.locals 0 key.now item.now) }
{
    let mut entries = Vec::new(alloc);
    for (place, index) in schema.locals.as_slice().iter().enumerate() {
        add_entry(alloc, schema, place as u64, index, key, item, &mut entries)?;
    }
    Ok(entries)
}

/// An item's entries in the local indexes of its table, where that is there. A row of an index has none.
pub fn entries_of(
    alloc: Global,
    catalog: &Catalog,
    key: &CellKey,
    item: &SharedItem,
) -> Result<Vec<LocalEntry>, NoMemory>
    ensures { IfOk result (λ entries. entries.items ≡ entries_of catalog.now key.now item.now) }
{
    let CellKey::Item(key) = key else {
        return Ok(Vec::new(alloc));
    };
    match table_numbered(catalog, key.table) {
        Some(table) => entries_under(alloc, &table.schema, key, item),
        None => Ok(Vec::new(alloc)),
    }
}
