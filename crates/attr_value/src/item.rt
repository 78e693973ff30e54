//! Items as maps from names to values: made, asked, changed by name, and given up.

ghost use Rattle.std.specs.Prelude.{◌≡◌, ◌↔◌, IsTrue, OnOk, OnErr, [], option_map};
ghost use Rattle.attr_value.specs.Paths.{put, value_at, without_in, change};
ghost use Rattle.attr_value.specs.Sizes.{attribute_count};
ghost use Rattle.attr_value.specs.Tree.{no_attributes, AreInOrder};
ghost use Rattle.attr_value.specs.View.{tree_of, lent_tree, attributes_of};

use crate::value::{Item, Value};
use base_types::Text;
use std::alloc::{AllocError as NoMemory, Global};
use std::collections::btree_map::{self, BTreeMap};

impl Item {
    /// The item with no attribute, which takes no memory until it grows.
    pub fn new(alloc: Global) -> Item
        ensures { result ≡ no_attributes }
    {
        Item {
            attributes: BTreeMap::new(alloc),
        }
    }

    /// How many attributes there are.
    pub fn len(&self) -> usize
        ensures { result ≡ attribute_count self.now }
    {
        self.attributes.len()
    }

    /// Whether there is no attribute.
    pub fn is_empty(&self) -> bool
        ensures { IsTrue result ↔ (self.now ≡ no_attributes) }
    {
        self.attributes.is_empty()
    }

    /// Goes over the attributes, each a name and its value, in order of the names' bytes.
    pub fn iter(&self) -> btree_map::Iter<'_, Text, Value>
        ensures shows { attributes_of result ≡ self.now }
        ensures in_order { AreInOrder self.now }
    {
        self.attributes.iter()
    }

    /// The value of the attribute of this name, lent. It costs the logarithm of the attributes.
    pub fn attribute(&self, name: &Text) -> Option<&Value>
        ensures { lent_tree result ≡ value_at name.now self.now }
    {
        self.attributes.get(name)
    }

    /// Gives the attribute of this name the value, in place of what it had. Where memory is refused the item stays as
    /// it was.
    ///
    /// It does not measure how deep the value nests: who makes an item from outside does so before.
    pub fn put(&mut self, name: Text, value: Value) -> Result<(), NoMemory>
        ensures ok { OnOk result (self.new ≡ put name (tree_of value) self.old) }
        ensures unchanged { OnErr result (self.new ≡ self.old) }
    {
        self.attributes.insert(name, value)?;
        Ok(())
    }

    /// Takes the attribute of this name out, and gives its value. It takes no memory.
    pub fn take(&mut self, name: &Text) -> Option<Value>
        ensures taken { option_map tree_of result ≡ value_at name.now self.old }
        ensures rest { self.new ≡ change name.now (without_in []) self.old }
    {
        self.attributes.remove(name)
    }
}

/// Gives the names and values up, in order of the names' bytes.
impl IntoIterator for Item {
    type Item = (Text, Value);

    type IntoIter = btree_map::IntoIter<Text, Value, Global>;

    ghost use Rattle.attr_value.specs.Tree.{AreInOrder};
    ghost use Rattle.attr_value.specs.View.{attributes_of};

    ghost into_iter_gives = { λ item entries. (attributes_of entries ≡ item) × AreInOrder item };

    fn into_iter(self) -> btree_map::IntoIter<Text, Value, Global> {
        self.into_attributes().into_iter()
    }
}
