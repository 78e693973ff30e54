//! The key of an item, and the key that an item is.

ghost use Rattle.std.specs.Prelude.{◌≡◌, IfOk, IfErr, Ok, Err};
ghost use Rattle.item_keys.specs.ItemKey.{key_in, has_only, key_alone, IfFault};

use crate::fault::{KeyEnd, KeyFault};
use crate::key::Key;
use crate::part::KeyParts;
use attr_value::Item;
use std::alloc::Global;
use table_schema::{KeyNames, Schema};

/// The key that an item has under these names, which are those of the schema's table or of one of its indexes.
///
/// The first fault is told, of the partition key before the sort key: Missing, WrongType, Empty or TooLong. An attribute
/// that the schema does not define has no right type.
pub fn key_of(alloc: Global, schema: &Schema, keys: &KeyNames, item: &Item) -> Result<Key, KeyEnd>
    ensures ok { IfOk result (λ key. key_in schema.now keys.now item.now ≡ Ok key) }
    ensures err { IfErr result (λ end. IfFault end (λ fault. key_in schema.now keys.now item.now ≡ Err fault)) }
{
    Ok(KeyParts::of(schema, keys, item)?.copied(alloc)?)
}

/// The key that an item is, all of whose attributes are those of the key (API Reference: GetItem, Key).
///
/// The first fault is told: one of those of [`key_of`], and then Extra, where there is another attribute.
pub fn key_only(alloc: Global, schema: &Schema, keys: &KeyNames, item: &Item) -> Result<Key, KeyEnd>
    ensures ok { IfOk result (λ key. key_alone schema.now keys.now item.now ≡ Ok key) }
    ensures err { IfErr result (λ end. IfFault end (λ fault. key_alone schema.now keys.now item.now ≡ Err fault)) }
{
    let parts = KeyParts::of(schema, keys, item)?;
    if !has_only(keys, item) {
        return Err(KeyEnd::Fault(KeyFault::Extra));
    }
    Ok(parts.copied(alloc)?)
}

/// Whether all attributes are of the key.
fn has_only(keys: &KeyNames, item: &Item) -> bool
    ensures { result ≡ has_only keys.now item.now }
{
    for (name, _) in item.iter() {
        if !keys.names(name) {
            return false;
        }
    }
    true
}
