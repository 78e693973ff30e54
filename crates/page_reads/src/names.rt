//! Attributes of an item, chosen by their names.

ghost use Rattle.std.specs.Prelude.{◌≡◌, IfOk, bytes_eq};
ghost use Rattle.std.specs.List.{list_any};
ghost use Rattle.table_schema.specs.KeyName.{is_key_name};
ghost use Rattle.item_keys.specs.Row.{only, is_included};
ghost use Rattle.table_model.specs.Pages.{all_names};
ghost use Rattle.page_reads.specs.Names.{is_named};

use attr_value::Item;
use base_types::Text;
use std::alloc::{AllocError as NoMemory, Global};
use table_schema::{KeyNames, Projection};

/// Which attributes of an item are kept.
#[derive(Clone, Copy)]
pub(crate) enum Names<'a> {
    /// Those of a row of an index: of the table's key, of the index's, and those that its projection keeps beside them.
    Row(&'a KeyNames, &'a KeyNames, &'a Projection),
    /// Those of the key of what is read, and of the table's.
    Start(&'a KeyNames, &'a KeyNames),
}

impl Names<'_> {
    /// Whether the attribute of this name is kept.
    pub(crate) fn has(&self, name: &str) -> bool
        ensures { result ≡ is_named self.now name.now }
    {
        match self {
            Names::Row(table, read, projection) => {
                is_key_name(table, name) || is_key_name(read, name) || is_included(projection, name)
            }
            Names::Start(read, table) => is_key_name(read, name) || is_key_name(table, name),
        }
    }

    /// The attributes of the item that are kept, copied.
    pub(crate) fn only(&self, alloc: Global, item: &Item) -> Result<Item, NoMemory>
        ensures { IfOk result (λ kept. kept ≡ only (is_named self.now) item.now) }
    {
        let mut kept = Item::new(alloc);
        for (name, value) in item.iter() {
            if self.has(name.as_str()) {
                kept.put(name.try_clone()?, value.try_clone()?)?;
            }
        }
        Ok(kept)
    }

    /// Whether all attributes of the item are kept.
    pub(crate) fn have_all(&self, item: &Item) -> bool
        ensures { result ≡ all_names (is_named self.now) item.now }
    {
        for (name, _) in item.iter() {
            if !self.has(name.as_str()) {
                return false;
            }
        }
        true
    }
}

/// Whether the attribute is a part of the key.
fn is_key_name(keys: &KeyNames, name: &str) -> bool
    ensures { result ≡ is_key_name keys.now name.now }
{
    if keys.partition.as_str() == name {
        return true;
    }
    match &keys.sort {
        Some(sort) => sort.as_str() == name,
        None => false,
    }
}

/// Whether a projection keeps the attribute beside those of the keys.
fn is_included(projection: &Projection, name: &str) -> bool
    ensures { result ≡ is_included projection.now name.now }
{
    match projection {
        Projection::KeysOnly => false,
        Projection::Include(names) => is_listed(names.as_slice(), name),
        Projection::All => true,
    }
}

/// Whether the name is one of these.
fn is_listed(names: &[Text], name: &str) -> bool
    ensures { result ≡ list_any (λ listed. bytes_eq listed name.now) names.now }
{
    for listed in names {
        if listed.as_str() == name {
            return true;
        }
    }
    false
}
