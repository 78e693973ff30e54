//! The range of a key condition.

ghost use Rattle.std.specs.Prelude.{◌≡◌, IfOk, IfErr, Ok, Err};
ghost use Rattle.expr_words.specs.Trees.{tree};
ghost use Rattle.table_schema.specs.Kind.{kind_of};
ghost use Rattle.condition_eval.specs.Truth.{given};
ghost use Rattle.key_condition.specs.Faults.{IfFault};
ghost use Rattle.key_condition.specs.Asked.{asked, has_equality};
ghost use Rattle.key_condition.specs.Range.{key_value_of, front_kind, bound_of, bounds_of, sort_kind, range_asked, range_of, no_key};
ghost use Rattle.key_condition.specs.Law.{HasKeysWhereTrue};

use crate::asked::{Asked, End, Ends, asked_of, has_equality};
use crate::fault::{RangeEnd, RangeFault, first_told, without_key};
use crate::key_range::{Bound, KeyRange};
use attr_value::Value;
use base_types::Seq;
use expr_words::Condition;
use item_keys::{KeyValue, MAX_PARTITION, MAX_SORT, key_value};
use std::alloc::Global;
use table_schema::{KeyKind, KeyNames, Schema};

/// The range of the keys that a key condition asks for, of a table or an index with these names, whose schema defines
/// their types. `values` are the expression's values, by the places that the condition names them by.
///
/// A key condition is an equality of the partition key with a value, alone or joined by AND with one test of the sort
/// key: `=`, `<`, `<=`, `>`, `>=`, BETWEEN or `begins_with`. The attribute stands on the left and values on the right.
///
/// The faults come in the order of [`RangeFault`]; of two BadKeyValue the first in the text is told.
pub fn range(
    alloc: Global,
    condition: &Condition,
    values: &Seq<Value>,
    schema: &Schema,
    keys: &KeyNames,
) -> Result<KeyRange, RangeEnd>
    ensures ok { IfOk result (λ range. range_of schema.now keys.now values.now (tree condition.now) ≡ Ok range) }
    ensures err { IfErr result (λ end.
        IfFault end (λ fault. range_of schema.now keys.now values.now (tree condition.now) ≡ Err fault)) }
    ensures truth { IfOk result (HasKeysWhereTrue schema.now keys.now values.now (tree condition.now)) }
{
    let Some(asked) = asked_of(keys, condition) else {
        return Err(RangeEnd::Fault(no_key(keys, condition)));
    };
    range_asked(alloc, asked, values, schema, keys)
}

/// The fault of what is no key condition.
fn no_key(keys: &KeyNames, condition: &Condition) -> RangeFault
    ensures { result ≡ no_key keys.now (tree condition.now) }
{
    if has_equality(&keys.partition, condition) {
        RangeFault::NotKey
    } else {
        RangeFault::NoPartitionKey
    }
}

/// The range of what is asked.
#[tactic(auto, unfolding(crate::specs::Range::range_asked))]
fn range_asked(
    alloc: Global,
    asked: Asked,
    values: &Seq<Value>,
    schema: &Schema,
    keys: &KeyNames,
) -> Result<KeyRange, RangeEnd>
    ensures ok { IfOk result (λ range. range_asked schema.now keys.now values.now asked ≡ Ok range) }
    ensures err { IfErr result (λ end.
        IfFault end (λ fault. range_asked schema.now keys.now values.now asked ≡ Err fault)) }
{
    let kind = schema.kind_of(&keys.partition);
    let partition = key_value_of(alloc, MAX_PARTITION, kind, values, asked.partition);
    let bounds = bounds_of(alloc, sort_kind(schema, keys), values, asked.sort);
    match (partition, bounds) {
        (Ok(partition), Ok(bounds)) => {
            Ok(KeyRange {
                partition,
                low: bounds.low,
                high: bounds.high,
            })
        }
        (Ok(_), Err(end)) => Err(end),
        (Err(end), Ok(_)) => Err(end),
        (Err(first), Err(second)) => {
            if asked.sort_first {
                Err(first_told(second, first))
            } else {
                Err(first_told(first, second))
            }
        }
    }
}

/// The type of the sort key, where there is one and it is defined.
fn sort_kind(schema: &Schema, keys: &KeyNames) -> Option<KeyKind>
    ensures { result ≡ sort_kind schema.now keys.now }
{
    match &keys.sort {
        Some(name) => schema.kind_of(name),
        None => None,
    }
}

/// The ends of a range.
#[derive(Drop)]
struct Bounds {
    low: Bound,
    high: Bound,
}

/// Both ends, for a sort key of this type.
fn bounds_of(
    alloc: Global,
    kind: Option<KeyKind>,
    values: &Seq<Value>,
    ends: Ends,
) -> Result<Bounds, RangeEnd>
    ensures ok { IfOk result (λ bounds. bounds_of kind values.now ends ≡ Ok bounds) }
    ensures err { IfErr result (λ end. IfFault end (λ fault. bounds_of kind values.now ends ≡ Err fault)) }
{
    let low = bound_of(alloc, kind, values, ends.low);
    let high = bound_of(alloc, kind, values, ends.high);
    match (low, high) {
        (Ok(low), Ok(high)) => Ok(Bounds { low, high }),
        (Ok(_), Err(end)) => Err(end),
        (Err(end), Ok(_)) => Err(end),
        (Err(first), Err(second)) => Err(first_told(first, second)),
    }
}

/// An end with its value.
fn bound_of(
    alloc: Global,
    kind: Option<KeyKind>,
    values: &Seq<Value>,
    end: End,
) -> Result<Bound, RangeEnd>
    ensures ok { IfOk result (λ bound. bound_of kind values.now end ≡ Ok bound) }
    ensures err { IfErr result (λ fault_end. IfFault fault_end (λ fault. bound_of kind values.now end ≡ Err fault)) }
{
    match end {
        End::Open => Ok(Bound::Open),
        End::At(place) => Ok(Bound::At(key_value_of(alloc, MAX_SORT, kind, values, place)?)),
        End::Past(place) => Ok(Bound::Past(key_value_of(alloc, MAX_SORT, kind, values, place)?)),
        End::BeforePrefixEnd(place) => {
            let front = key_value_of(alloc, MAX_SORT, front_kind(kind), values, place)?;
            Ok(Bound::BeforePrefixEnd(front))
        }
    }
}

/// The type that the front of a key of this type has: none of a number.
fn front_kind(kind: Option<KeyKind>) -> Option<KeyKind>
    ensures { result ≡ front_kind kind }
{
    match kind {
        Some(KeyKind::N) => None,
        kind => kind,
    }
}

/// The value at a place, as a key value of this type and of at most `limit` bytes.
fn key_value_of(
    alloc: Global,
    limit: usize,
    kind: Option<KeyKind>,
    values: &Seq<Value>,
    place: u32,
) -> Result<KeyValue, RangeEnd>
    ensures ok { IfOk result (λ key. key_value_of limit kind (given values.now place) ≡ Ok key) }
    ensures err { IfErr result (λ end. IfFault end (λ fault. key_value_of limit kind (given values.now place) ≡ Err fault)) }
{
    let Some(value) = values.get(place as usize) else {
        return Err(RangeEnd::Fault(RangeFault::NotKey));
    };
    match key_value(alloc, limit, kind, value) {
        Ok(key) => Ok(key),
        Err(end) => Err(without_key(end)),
    }
}
