ghost use Rattle.std.specs.Prelude.{◌≡◌, IfOk, IsTrue, ◌↔◌};
ghost use Rattle.table_schema.specs.Key.{Names, IsKeySchema, IsLocalTo, elements_of};
ghost use Rattle.table_schema.specs.KeyName.{is_key_name};

use base_types::Text;
use std::alloc::AllocError as NoMemory;

/// The names of the attributes that are the key of a table or of an index: the partition key (HASH) and,
/// where there is one, the sort key (RANGE) (API Reference: KeySchemaElement).
#[derive(Debug, PartialEq, Eq)]
pub struct KeyNames {
    pub partition: Text,
    pub sort: Option<Text>,
}

// By hand, so that no crate above proves it again.
impl Drop for KeyNames {
    fn drop(self) {
        let KeyNames {
            partition: _,
            sort: _,
        } = self;
    }
}

impl KeyNames {
    /// Equal names.
    pub fn try_clone(&self) -> Result<KeyNames, NoMemory>
        ensures { IfOk result (λ copy. copy ≡ self.now) }
    {
        let partition = self.partition.try_clone()?;
        let sort = match &self.sort {
            Some(name) => Some(name.try_clone()?),
            None => None,
        };
        Ok(KeyNames { partition, sort })
    }

    /// Whether the attribute is a part of the key.
    pub fn names(&self, name: &Text) -> bool
        ensures value { result ≡ is_key_name self.now name.now }
        ensures names { IsTrue result ↔ Names (elements_of self.now) name.now }
    {
        if self.partition == *name {
            return true;
        }
        match &self.sort {
            Some(sort) => *sort == *name,
            None => false,
        }
    }

    /// Whether the sort key, if there is one, is another attribute than the partition key.
    pub(crate) fn are_apart(&self) -> bool
        ensures { IsTrue result ↔ IsKeySchema (elements_of self.now) }
    {
        match &self.sort {
            Some(sort) => self.partition != *sort,
            None => true,
        }
    }

    /// Whether these may be the keys of a local index of a table with the keys `table`.
    pub(crate) fn are_local_to(&self, table: &KeyNames) -> bool
        ensures { IsTrue result ↔ IsLocalTo (elements_of table.now) (elements_of self.now) }
    {
        self.partition == table.partition && self.sort.is_some() && table.sort.is_some()
    }
}

impl Clone for KeyNames {
    ghost is_clone = { λ names copy. copy ≡ names };

    fn clone(&self) -> Result<KeyNames, NoMemory> {
        self.try_clone()
    }
}
