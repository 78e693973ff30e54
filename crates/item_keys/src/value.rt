//! The values that a part of a key may have.

ghost use Rattle.std.specs.Prelude.{◌≡◌, IfOk, OnErr};

use base_types::{Bytes, Text};
use number38::Number;
use std::alloc::AllocError as NoMemory;
use std::cmp::Ordering;

/// A value of a key attribute: a string, a number or bytes (API Reference: AttributeDefinition). Strings are ordered by
/// their UTF-8 bytes, numbers by value, binaries by their unsigned bytes.
#[derive(Debug)]
pub enum KeyValue {
    S(Text),
    N(Number),
    B(Bytes),
}

// By hand, so that no crate above proves it again.
impl Drop for KeyValue {
    fn drop(self) {
        match self {
            KeyValue::S(_) | KeyValue::N(_) | KeyValue::B(_) => {}
        }
    }
}

impl KeyValue {
    /// An equal value.
    pub fn try_clone(&self) -> Result<KeyValue, NoMemory>
        ensures { IfOk result (λ copy. copy ≡ self.now) }
    {
        match self {
            KeyValue::S(text) => Ok(KeyValue::S(text.try_clone()?)),
            KeyValue::N(number) => Ok(KeyValue::N(*number)),
            KeyValue::B(bytes) => Ok(KeyValue::B(bytes.try_clone()?)),
        }
    }
}

impl Clone for KeyValue {
    ghost is_clone = { λ value copy. copy ≡ value };

    fn clone(&self) -> Result<KeyValue, NoMemory> {
        self.try_clone()
    }
}

impl PartialEq for KeyValue {
    ghost use Rattle.std.specs.Cmp.{partial_equiv_from_equiv, eq_by_cmp_equiv};
    ghost use Rattle.std.specs.Ordering.{eq_by_cmp};
    ghost use Rattle.item_keys.specs.Order.{value_order};
    ghost use Rattle.item_keys.specs.OrderLaws.{value_total};

    ghost eq = { eq_by_cmp value_order };

    ghost laws = { partial_equiv_from_equiv (eq_by_cmp_equiv value_total) };

    #[tactic(auto, unfolding(crate::specs::Order::value_order))]
    fn eq(&self, other: &KeyValue) -> bool {
        match (self, other) {
            (KeyValue::S(a), KeyValue::S(b)) => a == b,
            (KeyValue::N(a), KeyValue::N(b)) => a == b,
            (KeyValue::B(a), KeyValue::B(b)) => a == b,
            _ => false,
        }
    }
}

impl Eq for KeyValue {
    ghost use Rattle.std.specs.Cmp.{eq_by_cmp_equiv};
    ghost use Rattle.item_keys.specs.OrderLaws.{value_total};

    ghost laws = { eq_by_cmp_equiv value_total };
}

impl PartialOrd for KeyValue {
    ghost use Rattle.std.specs.Cmp.{partial_order_from_total};
    ghost use Rattle.std.specs.Ordering.{as_partial_cmp};
    ghost use Rattle.item_keys.specs.Order.{value_order};
    ghost use Rattle.item_keys.specs.OrderLaws.{value_total};

    ghost partial_cmp = { as_partial_cmp value_order };

    ghost laws = { partial_order_from_total value_total };

    fn partial_cmp(&self, other: &KeyValue) -> Option<Ordering> {
        Some(self.cmp(other))
    }
}

impl Ord for KeyValue {
    ghost use Rattle.std.specs.Prelude.{refl};
    ghost use Rattle.item_keys.specs.Order.{value_order};
    ghost use Rattle.item_keys.specs.OrderLaws.{value_total};

    ghost cmp = { value_order };

    ghost total = { value_total };

    ghost matches_partial_cmp = { λ x y. refl };

    ghost matches_eq = { λ x y. refl };

    #[tactic(auto, unfolding(crate::specs::Order::value_order))]
    fn cmp(&self, other: &KeyValue) -> Ordering {
        match (self, other) {
            (KeyValue::S(a), KeyValue::S(b)) => a.cmp(b),
            (KeyValue::N(a), KeyValue::N(b)) => a.cmp(b),
            (KeyValue::B(a), KeyValue::B(b)) => a.cmp(b),
            (KeyValue::S(_), _) | (KeyValue::N(_), KeyValue::B(_)) => Ordering::Less,
            (KeyValue::B(_), _) | (KeyValue::N(_), KeyValue::S(_)) => Ordering::Greater,
        }
    }
}
