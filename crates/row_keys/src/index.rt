//! Items in the indexes of their table.

ghost use Rattle.std.specs.Prelude.{◌≡◌, IfOk, map};
ghost use Rattle.std.specs.List.{list_any};
ghost use Rattle.item_keys.specs.Unfit.{is_unfit};
ghost use Rattle.row_keys.specs.Rows.{position_in, is_refused};

use crate::position::Position;
use crate::row_key::RowKey;
use attr_value::Item;
use item_keys::{KeyEnd, is_unfit, key_of};
use std::alloc::{AllocError as NoMemory, Global};
use table_schema::{GlobalIndex, KeyNames, LocalIndex, Schema};

/// Where the item of this key stands in the index whose key has these names: nowhere, where it does not have that key.
pub fn position_of(
    alloc: Global,
    schema: &Schema,
    keys: &KeyNames,
    key: &RowKey,
    item: &Item,
) -> Result<Option<Position>, NoMemory>
    ensures { IfOk result (λ position. position ≡ position_in schema.now keys.now key.now item.now) }
{
    match key_of(alloc, schema, keys, item) {
        Ok(read) => {
            let read = RowKey::from(read.placed(alloc)?);
            let item = key.try_clone()?;
            Ok(Some(Position { read, item }))
        }
        Err(KeyEnd::Fault(_)) => Ok(None),
        Err(KeyEnd::NoMemory) => Err(NoMemory),
    }
}

/// Whether an index of the table refuses the item: where it has an attribute of the index's key that can't be a part of
/// it (Developer Guide: Global secondary indexes). It takes no memory.
pub fn is_refused(schema: &Schema, item: &Item) -> bool
    ensures { result ≡ is_refused schema.now item.now }
{
    is_refused_by_locals(schema, schema.locals.as_slice(), item)
        || is_refused_by_globals(schema, schema.globals.as_slice(), item)
}

/// Whether one of these local indexes refuses the item.
fn is_refused_by_locals(schema: &Schema, indexes: &[LocalIndex], item: &Item) -> bool
    ensures { result ≡ list_any (λ keys. is_unfit schema.now keys item.now) (map (λ index. index.keys) indexes.now) }
{
    for index in indexes {
        if is_unfit(schema, &index.keys, item) {
            return true;
        }
    }
    false
}

/// Whether one of these global indexes refuses the item.
fn is_refused_by_globals(schema: &Schema, indexes: &[GlobalIndex], item: &Item) -> bool
    ensures { result ≡ list_any (λ keys. is_unfit schema.now keys item.now) (map (λ index. index.keys) indexes.now) }
{
    for index in indexes {
        if is_unfit(schema, &index.keys, item) {
            return true;
        }
    }
    false
}
