//! Lists of values: made, asked, grown, and given up.

ghost use Rattle.std.specs.Prelude.{◌≡◌, ◌↔◌, IsTrue, OnOk, OnErr, [], ◌∷◌, ◌++◌};
ghost use Rattle.std.specs.Slice.Iter.{iter_rest};
ghost use Rattle.attr_value.specs.Paths.{element_at, appended};
ghost use Rattle.attr_value.specs.Sizes.{count};
ghost use Rattle.attr_value.specs.Tree.{no_trees};
ghost use Rattle.attr_value.specs.View.{tree_of, trees_of, lent_tree};

use crate::value::{Elements, Value};
use base_types::Seq;
use std::alloc::{AllocError as NoMemory, Global};
use std::slice;

impl Elements {
    /// The empty list, which takes no memory until it grows.
    pub fn new(alloc: Global) -> Elements
        ensures { result ≡ no_trees }
    {
        Elements {
            values: Seq::new(alloc),
        }
    }

    /// How many values there are.
    pub fn len(&self) -> usize
        ensures { result ≡ count self.now }
    {
        self.values.len()
    }

    /// Whether there is no value.
    pub fn is_empty(&self) -> bool
        ensures { IsTrue result ↔ (self.now ≡ no_trees) }
    {
        self.values.is_empty()
    }

    /// The value at this place, from 0, lent.
    pub fn get(&self, place: usize) -> Option<&Value>
        ensures { lent_tree result ≡ element_at place self.now }
    {
        self.values.get(place)
    }

    /// The values, lent.
    pub fn as_slice(&self) -> &[Value]
        ensures { trees_of result.now ≡ self.now }
    {
        self.values.as_slice()
    }

    /// Goes over the values in order.
    pub fn iter(&self) -> slice::Iter<'_, Value>
        ensures { trees_of (iter_rest result) ≡ self.now }
    {
        self.values.iter()
    }

    /// Adds the value at the end. Where memory is refused the list stays as it was, and the value is dropped.
    pub fn push(&mut self, value: Value) -> Result<(), NoMemory>
        ensures ok { OnOk result (self.new ≡ appended self.old (tree_of value)) }
        ensures unchanged { OnErr result (self.new ≡ self.old) }
    {
        self.values.push(value)?;
        Ok(())
    }
}

impl From<Seq<Value>> for Elements {
    ghost from_gives = { λ values list. list ≡ trees_of values };

    fn from(values: Seq<Value>) -> Elements {
        Elements { values }
    }
}

impl From<Elements> for Seq<Value> {
    ghost from_gives = { λ list values. trees_of values ≡ list };

    fn from(list: Elements) -> Seq<Value> {
        list.into_values()
    }
}
