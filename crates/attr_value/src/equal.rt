//! Equality, and the order of texts, numbers and binaries. Neither takes memory.

ghost use Rattle.std.specs.Prelude.{◌≡◌};
ghost use Rattle.attr_value.specs.Equality.{same, same_elements, same_attributes, order};
ghost use Rattle.attr_value.specs.View.{tree_of};

use crate::value::{Elements, Item, Value};
use std::cmp::Ordering;

impl Value {
    /// The order of two texts or two binaries by their unsigned bytes, a proper front first, and of
    /// two numbers by value. No other two values have an order.
    pub fn compare(&self, other: &Value) -> Option<Ordering>
        ensures { result ≡ order (tree_of self.now) (tree_of other.now) }
    {
        match (self, other) {
            (Value::S(text), Value::S(other)) => Some(text.cmp(other)),
            (Value::N(number), Value::N(other)) => Some(number.cmp(other)),
            (Value::B(bytes), Value::B(other)) => Some(bytes.cmp(other)),
            _ => None,
        }
    }
}

/// Values are equal where they are of one type with the same content: sets as sets, maps as maps,
/// numbers by value.
impl PartialEq for Value {
    ghost use Rattle.std.specs.Cmp.{partial_equiv_from_equiv};
    ghost use Rattle.attr_value.specs.Equality.{same};
    ghost use Rattle.attr_value.specs.EqualityLaws.{values_laws};
    ghost use Rattle.attr_value.specs.View.{tree_of};

    ghost eq = { λ v w. same (tree_of v) (tree_of w) };

    ghost laws = { partial_equiv_from_equiv values_laws };

    fn eq(&self, other: &Value) -> bool {
        are_equal(self, other)
    }
}

impl Eq for Value {
    ghost use Rattle.attr_value.specs.EqualityLaws.{values_laws};

    ghost laws = { values_laws };
}

/// Lists are equal where they have equal values in the same order.
impl PartialEq for Elements {
    ghost use Rattle.std.specs.Cmp.{partial_equiv_from_equiv};
    ghost use Rattle.attr_value.specs.Equality.{same_elements};
    ghost use Rattle.attr_value.specs.EqualityLaws.{elements_laws};

    ghost eq = { same_elements };

    ghost laws = { partial_equiv_from_equiv elements_laws };

    fn eq(&self, other: &Elements) -> bool {
        are_equal_lists(self, other)
    }
}

impl Eq for Elements {
    ghost use Rattle.attr_value.specs.EqualityLaws.{elements_laws};

    ghost laws = { elements_laws };
}

/// Items are equal where they have the same names with equal values.
impl PartialEq for Item {
    ghost use Rattle.std.specs.Cmp.{partial_equiv_from_equiv};
    ghost use Rattle.attr_value.specs.Equality.{same_attributes};
    ghost use Rattle.attr_value.specs.EqualityLaws.{items_laws};

    ghost eq = { same_attributes };

    ghost laws = { partial_equiv_from_equiv items_laws };

    fn eq(&self, other: &Item) -> bool {
        are_equal_items(self, other)
    }
}

impl Eq for Item {
    ghost use Rattle.attr_value.specs.EqualityLaws.{items_laws};

    ghost laws = { items_laws };
}

#[cycle(equal)]
fn are_equal(value: &Value, other: &Value) -> bool
    ensures { result ≡ same (tree_of value.now) (tree_of other.now) }
{
    match (value, other) {
        (Value::S(text), Value::S(other)) => text == other,
        (Value::N(number), Value::N(other)) => number == other,
        (Value::B(bytes), Value::B(other)) => bytes == other,
        (Value::Bool(flag), Value::Bool(other)) => flag == other,
        (Value::Null, Value::Null) => true,
        (Value::L(list), Value::L(other)) => are_equal_lists(list, other),
        (Value::M(item), Value::M(other)) => are_equal_items(item, other),
        (Value::Ss(texts), Value::Ss(other)) => texts == other,
        (Value::Ns(numbers), Value::Ns(other)) => numbers == other,
        (Value::Bs(binaries), Value::Bs(other)) => binaries == other,
        _ => false,
    }
}

#[cycle(equal)]
fn are_equal_lists(list: &Elements, other: &Elements) -> bool
    ensures { result ≡ same_elements list.now other.now }
{
    let values = list.values.as_slice();
    let others = other.values.as_slice();
    if values.len() != others.len() {
        return false;
    }
    for place in 0..values.len() {
        if !are_equal(&values[place], &others[place]) {
            return false;
        }
    }
    true
}

#[cycle(equal)]
fn are_equal_items(item: &Item, other: &Item) -> bool
    ensures { result ≡ same_attributes item.now other.now }
{
    let mut others = other.attributes.iter();
    for (name, value) in item.attributes.iter() {
        let Some((other_name, other_value)) = others.next() else {
            return false;
        };
        if name != other_name || !are_equal(value, other_value) {
            return false;
        }
    }
    others.next().is_none()
}
