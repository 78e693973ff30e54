//! The ten kinds of values, lists of them, and items.

use base_types::{Bytes, Seq, Text};
use number38::Number;
use ordered_set::OrderedSet;
use std::collections::btree_map::BTreeMap;
use std::marker::Model;

/// An attribute value (DynamoDB API Reference: AttributeValue).
#[cycle(value)]
#[derive(Debug)]
pub enum Value {
    /// A text of UTF-8.
    S(Text),
    /// A number.
    N(Number),
    /// Bytes.
    B(Bytes),
    /// True or false.
    Bool(bool),
    /// The null value.
    Null,
    /// A list of values of any kinds.
    L(Elements),
    /// A map from names to values of any kinds.
    M(Item),
    /// A set of texts, in order of their bytes.
    Ss(OrderedSet<Text>),
    /// A set of numbers, in order of their values.
    Ns(OrderedSet<Number>),
    /// A set of binaries, in order of their unsigned bytes.
    Bs(OrderedSet<Bytes>),
}

// By hand, so that no crate above proves it again.
impl Drop for Value {
    #[cycle(drop)]
    fn drop(self) {
        match self {
            Value::S(_)
            | Value::N(_)
            | Value::B(_)
            | Value::Bool(_)
            | Value::Null
            | Value::L(_)
            | Value::M(_)
            | Value::Ss(_)
            | Value::Ns(_)
            | Value::Bs(_) => {}
        }
    }
}

/// An item, or the inside of a map: attributes with a name and a value each, in order of the names' bytes.
#[cycle(value)]
#[derive(Debug)]
pub struct Item {
    pub(crate) attributes: BTreeMap<Text, Value>,
}

// By hand, so that no crate above proves it again.
impl Drop for Item {
    #[cycle(drop)]
    fn drop(self) {
        let Item { attributes: _ } = self;
    }
}

impl Item {
    ghost use Rattle.std.specs.Prelude.{◌≡◌};
    ghost use Rattle.attr_value.specs.View.{attributes_of};

    /// What the item keeps its attributes in.
    pub(crate) fn into_attributes(self) -> BTreeMap<Text, Value>
        ensures { attributes_of result.entries ≡ self }
    {
        let Item { attributes } = self;
        attributes
    }
}

impl Model for Item {
    ghost use Rattle.attr_value.specs.Tree.{Attributes};
    ghost use Rattle.attr_value.specs.Codes.{attributes_code};

    ghost Value = { Attributes };

    ghost coded = { attributes_code };

    ghost use Rattle.attr_value.specs.View.{attributes_of};

    ghost view = { λ i. attributes_of i.attributes.entries };

    ghost use Rattle.attr_value.specs.Tree.{weight};

    ghost size = { weight };

    ghost use Rattle.attr_value.specs.Falls.{item_falls};

    ghost size_decreases = { λ i h. item_falls i.attributes.entries };
}

/// The values of a list, in their order.
#[cycle(value)]
#[derive(Debug)]
pub struct Elements {
    pub(crate) values: Seq<Value>,
}

// By hand, so that no crate above proves it again.
impl Drop for Elements {
    #[cycle(drop)]
    fn drop(self) {
        let Elements { values: _ } = self;
    }
}

impl Elements {
    ghost use Rattle.std.specs.Prelude.{◌≡◌};
    ghost use Rattle.attr_value.specs.View.{trees_of};

    /// What the list keeps its values in.
    pub(crate) fn into_values(self) -> Seq<Value>
        ensures { trees_of result ≡ self }
    {
        let Elements { values } = self;
        values
    }
}

impl Model for Elements {
    ghost use Rattle.attr_value.specs.Tree.{Trees};
    ghost use Rattle.attr_value.specs.Codes.{trees_code};

    ghost Value = { Trees };

    ghost coded = { trees_code };

    ghost use Rattle.attr_value.specs.View.{trees_of};

    ghost view = { λ i. trees_of i.values };

    ghost use Rattle.attr_value.specs.Tree.{trees_weight};

    ghost size = { trees_weight };

    ghost use Rattle.attr_value.specs.Falls.{list_falls};

    ghost size_decreases = { λ i h. list_falls i.values };
}
