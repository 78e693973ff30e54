//! The parts of an item's key, lent by the item.

ghost use Rattle.std.specs.Prelude.{◌≡◌, IfOk, IfErr, OnOk, Ok, Err};
ghost use Rattle.item_keys.specs.declared.value.KeyValue.{KeyValue};
ghost use Rattle.attr_value.specs.View.{tree_of};
ghost use Rattle.item_keys.specs.ItemKey.{within, typed, part_in, key_in, IfFault};
ghost use Rattle.item_keys.specs.Part.{lent_value, lent_key};

use crate::fault::{KeyEnd, KeyFault};
use crate::key::Key;
use crate::value::KeyValue;
use attr_value::{Item, Value};
use base_types::{Bytes, Text};
use number38::Number;
use std::alloc::{AllocError as NoMemory, Global};
use table_schema::{KeyKind, KeyNames, Schema};

/// The most bytes of a partition key's value (Developer Guide: Quotas, Partition key length).
pub const MAX_PARTITION: usize = 2048;

/// The most bytes of a sort key's value (Developer Guide: Quotas, Sort key length).
pub const MAX_SORT: usize = 1024;

/// A key value, lent.
#[derive(Clone, Copy)]
pub enum KeyPart<'a> {
    S(&'a Text),
    N(&'a Number),
    B(&'a Bytes),
}

impl KeyPart<'_> {
    /// A key value of its own.
    fn copied(&self, alloc: Global) -> Result<KeyValue, NoMemory>
        ensures { IfOk result (λ value. value ≡ lent_value self.now) }
    {
        match self {
            KeyPart::S(text) => Ok(KeyValue::S(Text::copied(alloc, text.as_str())?)),
            KeyPart::N(number) => Ok(KeyValue::N(**number)),
            KeyPart::B(bytes) => Ok(KeyValue::B(Bytes::copied(alloc, bytes.as_slice())?)),
        }
    }
}

/// The key of an item, lent.
#[derive(Clone, Copy)]
pub struct KeyParts<'a> {
    pub partition: KeyPart<'a>,
    pub sort: Option<KeyPart<'a>>,
}

impl<'a> KeyParts<'a> {
    /// The key that an item has under these names, or its first fault. A number is never empty or too long: its text has
    /// fewer than 200 bytes.
    #[tactic(auto, unfolding(crate::specs::ItemKey::key_in))]
    pub fn of(schema: &Schema, keys: &KeyNames, item: &'a Item) -> Result<KeyParts<'a>, KeyFault>
        ensures ok { IfOk result (λ parts. key_in schema.now keys.now item.now ≡ Ok (lent_key parts)) }
        ensures err { IfErr result (λ fault. key_in schema.now keys.now item.now ≡ Err fault) }
    {
        let partition = part(schema, MAX_PARTITION, &keys.partition, item)?;
        match &keys.sort {
            Some(name) => {
                let sort = Some(part(schema, MAX_SORT, name, item)?);
                Ok(KeyParts { partition, sort })
            }
            None => {
                let sort = None;
                Ok(KeyParts { partition, sort })
            }
        }
    }

    /// A key of its own.
    pub fn copied(&self, alloc: Global) -> Result<Key, NoMemory>
        ensures { IfOk result (λ key. key ≡ lent_key self.now) }
    {
        let partition = self.partition.copied(alloc)?;
        let sort = match &self.sort {
            Some(part) => Some(part.copied(alloc)?),
            None => None,
        };
        Ok(Key { partition, sort })
    }
}

/// The part of a key that the item has in the attribute of this name, of at most `limit` bytes.
pub fn part<'a>(
    schema: &Schema,
    limit: usize,
    name: &Text,
    item: &'a Item,
) -> Result<KeyPart<'a>, KeyFault>
    ensures ok { IfOk result (λ part. part_in schema.now limit name.now item.now ≡ Ok (lent_value part)) }
    ensures err { IfErr result (λ fault. part_in schema.now limit name.now item.now ≡ Err fault) }
{
    let Some(value) = item.attribute(name) else {
        return Err(KeyFault::Missing);
    };
    typed(limit, schema.kind_of(name), value)
}

/// An attribute's value as a key value of the type that is defined, of at most `limit` bytes.
fn typed<'a>(limit: usize, kind: Option<KeyKind>, value: &'a Value) -> Result<KeyPart<'a>, KeyFault>
    ensures ok { IfOk result (λ part. typed limit kind (tree_of value.now) ≡ Ok (lent_value part)) }
    ensures err { IfErr result (λ fault. typed limit kind (tree_of value.now) ≡ Err fault) }
{
    match (kind, value) {
        (Some(KeyKind::S), Value::S(text)) => {
            check_size(limit, text.len())?;
            Ok(KeyPart::S(text))
        }
        (Some(KeyKind::N), Value::N(number)) => Ok(KeyPart::N(number)),
        (Some(KeyKind::B), Value::B(bytes)) => {
            check_size(limit, bytes.len())?;
            Ok(KeyPart::B(bytes))
        }
        _ => Err(KeyFault::WrongType),
    }
}

/// An attribute's value as a key value of its own, where it is of the type that is defined and, a string or a binary,
/// has from 1 to `limit` bytes: [`MAX_PARTITION`] or [`MAX_SORT`].
///
/// The fault is WrongType, also where no type is defined, Empty or TooLong.
pub fn key_value(
    alloc: Global,
    limit: usize,
    kind: Option<KeyKind>,
    value: &Value,
) -> Result<KeyValue, KeyEnd>
    ensures ok { IfOk result (λ key. typed limit kind (tree_of value.now) ≡ Ok key) }
    ensures err { IfErr result (λ end. IfFault end (λ fault. typed limit kind (tree_of value.now) ≡ Err fault)) }
{
    Ok(typed(limit, kind, value)?.copied(alloc)?)
}

/// `Ok` for a number of bytes from 1 to `limit`.
fn check_size(limit: usize, bytes: usize) -> Result<(), KeyFault>
    ensures ok { OnOk result ((value : KeyValue) → within limit bytes value ≡ Ok value) }
    ensures err { IfErr result (λ fault. (value : KeyValue) → within limit bytes value ≡ Err fault) }
{
    if bytes == 0 {
        return Err(KeyFault::Empty);
    }
    if bytes > limit {
        return Err(KeyFault::TooLong);
    }
    Ok(())
}
