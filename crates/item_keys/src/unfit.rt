//! Items that an index refuses.

ghost use Rattle.std.specs.Prelude.{◌≡◌};
ghost use Rattle.item_keys.specs.ItemKey.{part_in};
ghost use Rattle.item_keys.specs.Unfit.{is_bad, is_unfit};

use crate::fault::KeyFault;
use crate::part::{MAX_PARTITION, MAX_SORT, part};
use attr_value::Item;
use base_types::Text;
use table_schema::{KeyNames, Schema};

/// Whether the item has an attribute of this key that can't be a part of it: of another type, empty or too long. An item
/// may lack such an attribute; it has no row in the index then (Developer Guide: Global secondary indexes).
pub fn is_unfit(schema: &Schema, keys: &KeyNames, item: &Item) -> bool
    ensures { result ≡ is_unfit schema.now keys.now item.now }
{
    if is_bad(schema, MAX_PARTITION, &keys.partition, item) {
        return true;
    }
    match &keys.sort {
        Some(name) => is_bad(schema, MAX_SORT, name, item),
        None => false,
    }
}

/// Whether the attribute of this name is there and can't be a part of at most `limit` bytes.
fn is_bad(schema: &Schema, limit: usize, name: &Text, item: &Item) -> bool
    ensures { result ≡ is_bad (part_in schema.now limit name.now item.now) }
{
    match part(schema, limit, name, item) {
        Ok(_) | Err(KeyFault::Missing) => false,
        Err(_) => true,
    }
}
