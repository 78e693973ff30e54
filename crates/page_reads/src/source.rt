//! What a request reads.

ghost use Rattle.std.specs.Prelude.{◌≡◌, IfSome, slice_get, Some};
ghost use Rattle.std.specs.Option.{option_map};
ghost use Rattle.table_model.specs.Pages.{local_named, global_named, source_of, source_keys, is_global};
ghost use Rattle.page_reads.specs.Sources.{source_in, HasNumber, HasPlace};

use base_types::Text;
use table_schema::{GlobalIndex, KeyNames, LocalIndex, Schema};

/// A table, or one of its indexes with its number: those that are local first, each in the order of the schema.
#[derive(Clone, Copy)]
pub enum Source<'a> {
    Table,
    Local(usize, &'a LocalIndex),
    Global(usize, &'a GlobalIndex),
}

impl<'a> Source<'a> {
    /// The names of the key of what is read.
    pub fn keys(self, schema: &'a Schema) -> &'a KeyNames
        ensures { result.now ≡ source_keys schema.now (source_in self.entry) }
    {
        match self {
            Source::Table => &schema.keys,
            Source::Local(_, index) => &index.keys,
            Source::Global(_, index) => &index.keys,
        }
    }
}

/// The index of this name, where the table has one.
pub fn index_named<'a>(schema: &'a Schema, name: &Text) -> Option<Source<'a>>
    ensures source { option_map source_in result ≡ source_of schema.now (Some name.now) }
    ensures number { IfSome result (HasNumber schema.now) }
    ensures place { IfSome result (HasPlace schema.now) }
{
    if let Some((number, index)) = local_named(schema.locals.as_slice(), name) {
        return Some(Source::Local(number, index));
    }
    match global_named(schema.globals.as_slice(), name) {
        Some((number, index)) => Some(Source::Global(schema.locals.len() + number, index)),
        None => None,
    }
}

/// The index of this name with its number among these.
fn local_named<'a>(indexes: &'a [LocalIndex], name: &Text) -> Option<(usize, &'a LocalIndex)>
    ensures named { option_map (λ found. found.1.now) result ≡ local_named name.now indexes.now }
    ensures number { IfSome result (λ found. slice_get indexes.now found.0 ≡ Some found.1.now) }
{
    for (number, index) in indexes.iter().enumerate() {
        if index.name == *name {
            return Some((number, index));
        }
    }
    None
}

/// The index of this name with its number among these.
fn global_named<'a>(indexes: &'a [GlobalIndex], name: &Text) -> Option<(usize, &'a GlobalIndex)>
    ensures named { option_map (λ found. found.1.now) result ≡ global_named name.now indexes.now }
    ensures number { IfSome result (λ found. slice_get indexes.now found.0 ≡ Some found.1.now) }
{
    for (number, index) in indexes.iter().enumerate() {
        if index.name == *name {
            return Some((number, index));
        }
    }
    None
}
