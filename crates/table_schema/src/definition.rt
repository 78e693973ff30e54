ghost use Rattle.std.specs.Prelude.{◌≡◌, ◌≢◌, IfOk, IsTrue, ◌↔◌, All, Any, AllPairs};
ghost use Rattle.table_schema.specs.Name.{IsAttributeName};

use crate::name::is_attribute_name;
use crate::name_set::Named;
use base_types::Text;
use std::alloc::AllocError as NoMemory;

/// The type of a key attribute: a string, a number or bytes.
#[derive(Clone, Copy, Debug, PartialEq, Eq)]
pub enum KeyKind {
    S,
    N,
    B,
}

/// The name and the type of an attribute that serves in a key (API Reference: AttributeDefinition).
#[derive(Debug, PartialEq, Eq)]
pub struct Definition {
    pub name: Text,
    pub kind: KeyKind,
}

// By hand, so that no crate above proves it again.
impl Drop for Definition {
    fn drop(self) {
        let Definition { name: _, kind: _ } = self;
    }
}

impl Definition {
    /// An equal definition.
    pub fn try_clone(&self) -> Result<Definition, NoMemory>
        ensures { IfOk result (λ copy. copy ≡ self.now) }
    {
        Ok(Definition {
            name: self.name.try_clone()?,
            kind: self.kind,
        })
    }
}

impl Named for Definition {
    ghost name_of = { λ definition. definition.name };

    fn name(&self) -> &Text {
        &self.name
    }
}

impl Clone for Definition {
    ghost is_clone = { λ definition copy. copy ≡ definition };

    fn clone(&self) -> Result<Definition, NoMemory> {
        self.try_clone()
    }
}

/// Whether one of the definitions has the name.
pub fn contain_name(definitions: &[Definition], name: &Text) -> bool
    ensures { IsTrue result ↔ Any (λ d. d.name ≡ name.now) definitions.now }
{
    definitions
        .iter()
        .any(|definition| definition.name == *name)
}

/// Whether every definition has a name that it may have.
pub fn have_valid_names(definitions: &[Definition]) -> bool
    ensures { IsTrue result ↔ All (λ d. IsAttributeName d.name) definitions.now }
{
    definitions
        .iter()
        .all(|definition| is_attribute_name(&definition.name))
}

/// Whether no two definitions have one name.
pub fn have_distinct_names(definitions: &[Definition]) -> bool
    ensures { IsTrue result ↔ AllPairs (λ d e. d.name ≢ e.name) definitions.now }
{
    let mut rest = definitions;
    while let Some((first, others)) = rest.split_first() {
        if contain_name(others, &first.name) {
            return false;
        }
        rest = others;
    }
    true
}
