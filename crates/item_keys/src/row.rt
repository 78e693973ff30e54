//! Rows of global indexes.

ghost use Rattle.std.specs.Prelude.{◌≡◌, IfOk};
ghost use Rattle.item_keys.specs.Row.{is_included, is_kept, only, projected};

use crate::part::KeyParts;
use attr_value::Item;
use base_types::Text;
use std::alloc::{AllocError as NoMemory, Global};
use table_schema::{GlobalIndex, Projection, Schema};

/// The row that an item has in a global index of the schema's table, or nothing where the item does not have the index's
/// key: where an attribute of it is absent, of a wrong type, empty or too long.
///
/// A row has the attributes of the table's key and of the index's, and those that the index's projection names, or all
/// (API Reference: Projection).
pub fn project(
    alloc: Global,
    schema: &Schema,
    index: &GlobalIndex,
    item: &Item,
) -> Result<Option<Item>, NoMemory>
    ensures { IfOk result (λ row. row ≡ projected schema.now index.now item.now) }
{
    match KeyParts::of(schema, &index.keys, item) {
        Ok(_) => Ok(Some(kept_attributes(alloc, schema, index, item)?)),
        Err(_) => Ok(None),
    }
}

/// The attributes of an item that a row keeps.
fn kept_attributes(
    alloc: Global,
    schema: &Schema,
    index: &GlobalIndex,
    item: &Item,
) -> Result<Item, NoMemory>
    ensures { IfOk result (λ row. row ≡ only (is_kept schema.now index.now) item.now) }
{
    let mut row = Item::new(alloc);
    for (name, value) in item.iter() {
        if is_kept(schema, index, name) {
            row.put(name.try_clone()?, value.try_clone()?)?;
        }
    }
    Ok(row)
}

/// Whether a row keeps the attribute of this name.
#[tactic(auto, unfolding(crate::specs::Row::is_kept))]
fn is_kept(schema: &Schema, index: &GlobalIndex, name: &Text) -> bool
    ensures { result ≡ is_kept schema.now index.now name.now }
{
    schema.keys.names(name) || index.keys.names(name) || is_included(&index.projection, name)
}

/// Whether the projection keeps the attribute of this name beside those of the keys.
fn is_included(projection: &Projection, name: &Text) -> bool
    ensures { result ≡ is_included projection.now name.now }
{
    match projection {
        Projection::KeysOnly => false,
        Projection::Include(names) => names.as_slice().contains(name),
        Projection::All => true,
    }
}
