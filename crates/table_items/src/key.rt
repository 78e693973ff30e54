//! Keys of rows, as requests state them.

ghost use Rattle.std.specs.Prelude.{◌≡◌, IfOk};
ghost use Rattle.item_keys.specs.ItemKey.{key_in, key_alone};
ghost use Rattle.table_items.specs.Outcomes.{row_key_if};

use attr_value::Item;
use item_keys::{KeyEnd, KeyFault, key_of, key_only};
use row_keys::RowKey;
use std::alloc::{AllocError as NoMemory, Global};
use table_schema::Schema;

/// The key of the row that an item of the table has, or the first fault of its key: Missing, WrongType, Empty or TooLong.
pub fn key_of_item(
    alloc: Global,
    schema: &Schema,
    item: &Item,
) -> Result<Result<RowKey, KeyFault>, NoMemory>
    ensures { IfOk result (λ key. key ≡ row_key_if (key_in schema.now schema.now.keys item.now)) }
{
    match key_of(alloc, schema, &schema.keys, item) {
        Ok(key) => Ok(Ok(RowKey::from(key.placed(alloc)?))),
        Err(KeyEnd::Fault(fault)) => Ok(Err(fault)),
        Err(KeyEnd::NoMemory) => Err(NoMemory),
    }
}

/// The key of the row that these attributes are the key of, or their first fault: one of those of [`key_of_item`], and
/// then Extra, where there is an attribute beside those of the key (API Reference: GetItem, Key).
pub fn key_of_key(
    alloc: Global,
    schema: &Schema,
    key: &Item,
) -> Result<Result<RowKey, KeyFault>, NoMemory>
    ensures { IfOk result (λ row. row ≡ row_key_if (key_alone schema.now schema.now.keys key.now)) }
{
    match key_only(alloc, schema, &schema.keys, key) {
        Ok(key) => Ok(Ok(RowKey::from(key.placed(alloc)?))),
        Err(KeyEnd::Fault(fault)) => Ok(Err(fault)),
        Err(KeyEnd::NoMemory) => Err(NoMemory),
    }
}
