//! What document paths find.

ghost use Rattle.std.specs.Prelude.{◌≡◌};
ghost use Rattle.attr_value.specs.Paths.{found, found_in, child};
ghost use Rattle.attr_value.specs.View.{tree_of, lent_tree};

use crate::value::{Item, Value};
use base_types::{DocPath, Step};

impl Item {
    /// What the path finds, lent: a path begins with a name, and each step of it leads to an
    /// attribute of a map or to a place of a list, from 0. A path with no step finds nothing.
    ///
    /// It costs the logarithm of the attributes for each name, and no memory.
    pub fn get(&self, path: &DocPath) -> Option<&Value>
        ensures { lent_tree result ≡ found path.now.steps self.now }
    {
        let (first, rest) = path.steps.as_slice().split_first()?;
        match first {
            Step::Name(name) => below(self.attribute(name)?, rest),
            Step::Index(_) => None,
        }
    }
}

/// What the steps find from a value on.
fn below<'v>(value: &'v Value, steps: &[Step]) -> Option<&'v Value>
    ensures { lent_tree result ≡ found_in steps.now (tree_of value.now) }
{
    let mut reached = value;
    for step in steps {
        reached = reached.child(step)?;
    }
    Some(reached)
}

impl Value {
    /// The value one step below: an attribute of a map, or an element of a list.
    pub fn child(&self, step: &Step) -> Option<&Value>
        ensures { lent_tree result ≡ child step.now (tree_of self.now) }
    {
        match step {
            Step::Name(name) => match self {
                Value::M(item) => item.attribute(name),
                _ => None,
            },
            Step::Index(place) => match self {
                Value::L(list) => list.get(*place as usize),
                _ => None,
            },
        }
    }
}
