//! The types of attributes by name, lent, which find a type in few steps.

ghost use Rattle.std.specs.Prelude.{◌≡◌, ℕ, List, [], IfOk, OnOk};
ghost use Rattle.table_schema.specs.Kind.{kind_of};
ghost use Rattle.std.specs.List.{list_any};
ghost use Rattle.table_model.specs.Catalog.{added_if, contradicts, has_bad_definition, has_bad_name, has_contradiction};

use std::alloc::{AllocError as NoMemory, Global};
use std::collections::BTreeMap;
use std::marker::Model;
use table_schema::{Definition, KeyKind};

/// The types of names, each name with the first that it was given.
#[derive(Drop)]
struct Kinds<'a> {
    kinds: BTreeMap<&'a str, KeyKind>,
}

impl<'a> Model for Kinds<'a> {
    ghost use Rattle.std.specs.Prelude.{List};
    ghost use Rattle.table_schema.specs.declared.definition.Definition.{Definition};
    ghost use Rattle.schema_update.specs.Types.{definitions_in};

    ghost Value = { List Definition };

    ghost view = { λ k. definitions_in k.kinds.entries };
}

impl<'a> Kinds<'a> {
    /// No name.
    fn new(alloc: Global) -> Kinds<'a>
        ensures { result ≡ [] }
    {
        Kinds {
            kinds: BTreeMap::new(alloc),
        }
    }

    /// Adds a definition where its name is new, and answers whether its name has another type.
    fn add(&mut self, definition: &'a Definition) -> Result<bool, NoMemory>
        ensures contradicts { IfOk result (λ other. other ≡ contradicts (kind_of definition.now.name self.old) definition.now.kind) }
        ensures kinds { OnOk result ((n : List ℕ) →
            kind_of n self.new ≡ kind_of n (added_if (kind_of definition.now.name self.old) definition.now self.old)) }
    {
        let name = definition.name.as_str();
        match self.kinds.get(name) {
            Some(known) => Ok(*known != definition.kind),
            None => {
                self.kinds.insert(name, definition.kind)?;
                Ok(false)
            }
        }
    }
}

/// The types that some definitions give, the first where they give a name two.
fn kinds_of<'a>(alloc: Global, definitions: &'a [Definition]) -> Result<Kinds<'a>, NoMemory>
    ensures { IfOk result (λ kinds. (n : List ℕ) → kind_of n kinds ≡ kind_of n definitions.now) }
{
    let mut kinds = Kinds::new(alloc);
    for definition in definitions {
        kinds.add(definition)?;
    }
    Ok(kinds)
}

/// Whether the name of some definition does not have 1 to 255 bytes, or some definition gives another type to a name that has
/// one, among the known ones or among those before it.
pub(crate) fn has_bad_definition(
    alloc: Global,
    known: &[Definition],
    added: &[Definition],
) -> Result<bool, NoMemory>
    ensures { IfOk result (λ bad. bad ≡ has_bad_definition known.now added.now) }
{
    if has_bad_name(added) {
        return Ok(true);
    }
    is_contradicted(alloc, known, added)
}

/// Whether the name of some definition does not have 1 to 255 bytes.
fn has_bad_name(definitions: &[Definition]) -> bool
    ensures { result ≡ list_any has_bad_name definitions.now }
{
    definitions.iter().any(|definition| definition.name.len() < 1 || 255 < definition.name.len())
}

/// Whether some definition gives another type to a name that has one, among the known ones or among those before it.
fn is_contradicted(
    alloc: Global,
    known: &[Definition],
    added: &[Definition],
) -> Result<bool, NoMemory>
    ensures { IfOk result (λ contradicted. contradicted ≡ has_contradiction known.now added.now) }
{
    let mut kinds = kinds_of(alloc, known)?;
    for definition in added {
        if kinds.add(definition)? {
            return Ok(true);
        }
    }
    Ok(false)
}
