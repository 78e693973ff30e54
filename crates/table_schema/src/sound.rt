//! The rules of schemas, asked of a schema as it is stated. Names are looked for in sets, so the time grows little more
//! than the number of names.

ghost use Rattle.std.specs.Prelude.{◌≡◌, ◌≢◌, ◌||◌, ℕ, List, IsTrue, ◌↔◌, IfOk, IfErr, OnOk, All, AllPairs};
ghost use Rattle.table_schema.specs.Key.{IsKeySchema, IsLocalTo};
ghost use Rattle.table_schema.specs.Name.{IsTableName};
ghost use Rattle.table_schema.specs.NameSet.{has};
ghost use Rattle.table_schema.specs.Index.{indexes_of, IsProjection};
ghost use Rattle.table_schema.specs.Rule.{HasValidDefinitions, IsKeyAttribute, DefinesItsKeys, HasValidIndexNames, HasValidIndexKeys, HasFewIndexes, IsSound};
ghost use Rattle.table_schema.specs.Fault.{IsFirstFault, IfFault};
ghost use Rattle.table_schema.specs.Stated.{in_keys};

use crate::check::{MAX_GLOBALS, MAX_LOCALS};
use crate::definition::have_valid_names;
use crate::fault::{SchemaEnd, SchemaFault};
use crate::name::is_table_name;
use crate::name_set::NameSet;
use crate::stated::{KeyElement, KeyRole, StatedIndex, StatedSchema};
use std::alloc::{AllocError as NoMemory, Global};

impl StatedSchema {
    /// `Ok` where the schema keeps every rule, else the fault of the least number.
    pub(crate) fn check(&self, alloc: Global) -> Result<(), SchemaEnd>
        ensures sound { OnOk result (IsSound self.now) }
        ensures first { IfErr result (λ end. IfFault end (IsFirstFault self.now)) }
    {
        if !is_table_name(&self.name) {
            return Err(SchemaEnd::Fault(SchemaFault::BadName));
        }
        if !is_key_schema(self.keys.as_slice()) {
            return Err(SchemaEnd::Fault(SchemaFault::BadKeySchema));
        }
        if !self.has_valid_definitions(alloc)? {
            return Err(SchemaEnd::Fault(SchemaFault::BadDefinition));
        }
        if !self.defines_its_keys(alloc)? {
            return Err(SchemaEnd::Fault(SchemaFault::DefinitionMismatch));
        }
        if !self.has_valid_index_names(alloc)? {
            return Err(SchemaEnd::Fault(SchemaFault::BadIndexName));
        }
        if !self.has_valid_index_keys() {
            return Err(SchemaEnd::Fault(SchemaFault::BadIndexKey));
        }
        if !self.has_valid_projections() {
            return Err(SchemaEnd::Fault(SchemaFault::BadProjection));
        }
        if !self.has_few_indexes() {
            return Err(SchemaEnd::Fault(SchemaFault::TooManyIndexes));
        }
        Ok(())
    }

    /// Whether the definitions have names that they may have, each once.
    fn has_valid_definitions(&self, alloc: Global) -> Result<bool, NoMemory>
        ensures { IfOk result (λ valid. IsTrue valid ↔ HasValidDefinitions self.now) }
    {
        let definitions = self.definitions.as_slice();
        if !have_valid_names(definitions) {
            return Ok(false);
        }
        Ok(NameSet::new(alloc).insert_all(definitions)?)
    }

    /// Whether exactly the attributes of the keys are defined.
    fn defines_its_keys(&self, alloc: Global) -> Result<bool, NoMemory>
        ensures { IfOk result (λ defines. IsTrue defines ↔ DefinesItsKeys self.now) }
    {
        let mut defined = NameSet::new(alloc);
        defined.insert_all(self.definitions.as_slice())?;
        let used = self.key_attributes(alloc)?;
        if !defined.is_subset(&used) {
            return Ok(false);
        }
        Ok(used.is_subset(&defined))
    }

    /// The names that are in the key of the table or of an index.
    fn key_attributes(&self, alloc: Global) -> Result<NameSet<'_>, NoMemory>
        ensures { IfOk result (λ names. (n : List ℕ) → IsTrue (has names n) ↔ IsKeyAttribute self.now n) }
    {
        let mut names = NameSet::new(alloc);
        names.insert_all(self.keys.as_slice())?;
        insert_keys(&mut names, self.locals.as_slice())?;
        insert_keys(&mut names, self.globals.as_slice())?;
        Ok(names)
    }

    /// Whether the indexes have names that they may have, each once.
    fn has_valid_index_names(&self, alloc: Global) -> Result<bool, NoMemory>
        ensures { IfOk result (λ valid. IsTrue valid ↔ HasValidIndexNames self.now) }
    {
        Ok(self.has_table_names() && self.has_distinct_index_names(alloc)?)
    }

    /// Whether the indexes have names like those of tables.
    fn has_table_names(&self) -> bool
        ensures { IsTrue result ↔ All (λ i. IsTableName i.name) (indexes_of self.now) }
    {
        self.locals
            .iter()
            .chain(self.globals.iter())
            .all(|index| is_table_name(&index.name))
    }

    /// Whether no two indexes have one name.
    fn has_distinct_index_names(&self, alloc: Global) -> Result<bool, NoMemory>
        ensures { IfOk result (λ distinct. IsTrue distinct ↔ AllPairs (λ i j. i.name ≢ j.name) (indexes_of self.now)) }
    {
        let mut names = NameSet::new(alloc);
        let mut distinct = names.insert_all(self.locals.as_slice())?;
        distinct &= names.insert_all(self.globals.as_slice())?;
        Ok(distinct)
    }

    /// Whether the indexes have keys that they may have on this table.
    fn has_valid_index_keys(&self) -> bool
        ensures { IsTrue result ↔ HasValidIndexKeys self.now }
    {
        self.has_key_schemas() && self.has_local_keys()
    }

    /// Whether the lists of the indexes state keys.
    fn has_key_schemas(&self) -> bool
        ensures { IsTrue result ↔ All (λ i. IsKeySchema i.keys) (indexes_of self.now) }
    {
        self.locals
            .iter()
            .chain(self.globals.iter())
            .all(|index| is_key_schema(index.keys.as_slice()))
    }

    /// Whether the key of every local index goes with that of the table.
    fn has_local_keys(&self) -> bool
        ensures { IsTrue result ↔ All (λ i. IsLocalTo self.now.keys i.keys) self.now.locals }
    {
        let keys = self.keys.as_slice();
        self.locals
            .iter()
            .all(|index| is_local_to(keys, index.keys.as_slice()))
    }

    /// Whether every index keeps a number of named attributes that it may keep.
    fn has_valid_projections(&self) -> bool
        ensures { IsTrue result ↔ All (λ i. IsProjection i.projection) (indexes_of self.now) }
    {
        self.locals
            .iter()
            .chain(self.globals.iter())
            .all(|index| index.projection.is_valid())
    }

    /// Whether there are no more indexes of each kind than a table may have.
    fn has_few_indexes(&self) -> bool
        ensures { IsTrue result ↔ HasFewIndexes self.now }
    {
        self.locals.len() <= MAX_LOCALS && self.globals.len() <= MAX_GLOBALS
    }
}

/// Puts the names in the keys of the indexes into a set.
fn insert_keys<'a>(names: &mut NameSet<'a>, indexes: &'a [StatedIndex]) -> Result<(), NoMemory>
    ensures { OnOk result ((n : List ℕ) → has names.new n ≡ (in_keys n indexes.now || has names.old n)) }
{
    let mut rest = indexes;
    while let Some((first, others)) = rest.split_first() {
        names.insert_all(first.keys.as_slice())?;
        rest = others;
    }
    Ok(())
}

/// Whether the elements are one HASH and at most one RANGE behind it, of another attribute.
pub(crate) fn is_key_schema(elements: &[KeyElement]) -> bool
    ensures { IsTrue result ↔ IsKeySchema elements.now }
{
    match elements {
        [hash] => hash.role == KeyRole::Hash,
        [hash, range] => {
            hash.role == KeyRole::Hash && range.role == KeyRole::Range && hash.name != range.name
        }
        _ => false,
    }
}

/// Whether a local index may have these key elements, on a table with the key elements `table`.
fn is_local_to(table: &[KeyElement], index: &[KeyElement]) -> bool
    ensures { IsTrue result ↔ IsLocalTo table.now index.now }
{
    match (table, index) {
        ([hash, _, ..], [index_hash, _, ..]) => index_hash.name == hash.name,
        _ => false,
    }
}
