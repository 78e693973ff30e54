ghost use Rattle.std.specs.Prelude.{◌≡◌, ◌≢◌, IsTrue, ◌↔◌, All, Any, AllPairs};
ghost use Rattle.std.specs.Iterator.{YieldsFirstBy, item_count};
ghost use Rattle.table_schema.specs.Name.{IsTableName};
ghost use Rattle.table_schema.specs.Key.{IsKeySchema};
ghost use Rattle.table_schema.specs.Index.{indexes_of, stated_of, IsProjection};
ghost use Rattle.table_schema.specs.Indexes.{shown, rest_of};

use crate::index::{GlobalIndex, LocalIndex, Projection};
use crate::keys::KeyNames;
use crate::name::is_table_name;
use crate::schema::Schema;
use base_types::Text;

/// An index of either kind, lent.
#[derive(Clone, Copy)]
pub struct IndexView<'a> {
    pub name: &'a Text,
    pub keys: &'a KeyNames,
    pub projection: &'a Projection,
}

/// Goes over the local indexes of a table and then over the global ones.
#[derive(Clone, Copy)]
pub struct Indexes<'a> {
    locals: &'a [LocalIndex],
    globals: &'a [GlobalIndex],
}

impl<'a> Indexes<'a> {
    /// All indexes of the table.
    pub fn of(schema: &'a Schema) -> Indexes<'a>
        ensures { rest_of result ≡ indexes_of (stated_of schema.now) }
    {
        Indexes {
            locals: schema.locals.as_slice(),
            globals: schema.globals.as_slice(),
        }
    }

    /// Whether one of the indexes has the name.
    pub fn contain_name(mut self, name: &Text) -> bool
        ensures { IsTrue result ↔ Any (λ i. i.name ≡ name.now) (rest_of self.entry) }
    {
        self.any(|index| *index.name == *name)
    }

    /// Whether every index has a name that it may have.
    pub fn have_valid_names(mut self) -> bool
        ensures { IsTrue result ↔ All (λ i. IsTableName i.name) (rest_of self.entry) }
    {
        self.all(|index| is_table_name(index.name))
    }

    /// Whether no two indexes have one name.
    pub fn have_distinct_names(mut self) -> bool
        ensures { IsTrue result ↔ AllPairs (λ i j. i.name ≢ j.name) (rest_of self.entry) }
    {
        while let Some(index) = self.next() {
            if self.contain_name(index.name) {
                return false;
            }
        }
        true
    }

    /// Whether every index has a key of distinct parts.
    pub fn have_keys_apart(mut self) -> bool
        ensures { IsTrue result ↔ All (λ i. IsKeySchema i.keys) (rest_of self.entry) }
    {
        self.all(|index| index.keys.are_apart())
    }

    /// Whether every index keeps a number of named attributes that it may keep.
    pub fn have_valid_projections(mut self) -> bool
        ensures { IsTrue result ↔ All (λ i. IsProjection i.projection) (rest_of self.entry) }
    {
        self.all(|index| index.projection.is_valid())
    }
}

impl<'a> Iterator for Indexes<'a> {
    type Item = IndexView<'a>;

    ghost next_gives = { YieldsFirstBy shown rest_of };

    ghost remaining = { item_count rest_of };

    fn next(&mut self) -> Option<IndexView<'a>> {
        if let Some((first, others)) = self.locals.split_first() {
            self.locals = others;
            return Some(IndexView {
                name: &first.name,
                keys: &first.keys,
                projection: &first.projection,
            });
        }
        let (first, others) = self.globals.split_first()?;
        self.globals = others;
        Some(IndexView {
            name: &first.name,
            keys: &first.keys,
            projection: &first.projection,
        })
    }
}
