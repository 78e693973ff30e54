//! Sets of names, lent, which find a name in few steps.

ghost use Rattle.std.specs.Prelude.{◌≡◌, ℕ, List, [], ◌||◌, ◌↔◌, not, map, IfOk, OnOk, IsTrue};
ghost use Rattle.table_schema.specs.NameSet.{is_same, has, are_new, IsWithin};

use base_types::Text;
use std::alloc::{AllocError as NoMemory, Global};
use std::collections::BTreeSet;
use std::marker::Model;

/// What has a name.
pub trait Named {
    ghost name_of: { Self → List ℕ };

    fn name(&self) -> &Text
        ensures { result.now ≡ name_of self.now };
}

/// Names, each once.
pub struct NameSet<'a> {
    names: BTreeSet<&'a str>,
}

// By hand, so that no crate above proves it again.
impl Drop for NameSet<'_> {
    fn drop(self) {
        let NameSet { names: _ } = self;
    }
}

impl<'a> Model for NameSet<'a> {
    ghost use Rattle.std.specs.Prelude.{List, ℕ};
    ghost use Rattle.table_schema.specs.NameSet.{names_in};

    ghost Value = { List (List ℕ) };

    ghost view = { λ s. names_in s.names };
}

impl<'a> NameSet<'a> {
    /// No name.
    pub fn new(alloc: Global) -> NameSet<'a>
        ensures { result ≡ [] }
    {
        NameSet {
            names: BTreeSet::new(alloc),
        }
    }

    /// Puts a name in, and answers whether it was not there.
    pub fn insert(&mut self, name: &'a str) -> Result<bool, NoMemory>
        ensures new { IfOk result (λ new. new ≡ not (has self.old name.now)) }
        ensures names { OnOk result ((n : List ℕ) → has self.new n ≡ (is_same n name.now || has self.old n)) }
    {
        let new = self.names.insert(name)?;
        Ok(new)
    }

    /// Puts in the names of all items, and answers whether each was new: neither there before nor twice among them.
    pub fn insert_all<T: Named>(&mut self, items: &'a [T]) -> Result<bool, NoMemory>
        ensures new { IfOk result (λ new. new ≡ are_new T.name_of self.old items.now) }
        ensures names { OnOk result ((n : List ℕ) → has self.new n ≡ (has (map T.name_of items.now) n || has self.old n)) }
    {
        let mut all_new = true;
        let mut rest = items;
        while let Some((first, others)) = rest.split_first() {
            let new = self.insert(first.name().as_str())?;
            all_new &= new;
            rest = others;
        }
        Ok(all_new)
    }

    /// Whether each name is in the other set too.
    pub fn is_subset(&self, other: &NameSet<'a>) -> bool
        ensures { IsTrue result ↔ IsWithin self.now other.now }
    {
        self.names.is_subset(&other.names)
    }
}
