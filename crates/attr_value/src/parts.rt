//! Items and lists made part by part, of what stays of others.

ghost use Rattle.std.specs.Prelude.{◌≡◌, OnOk, option_map};
ghost use Rattle.attr_value.specs.Parts.{onto, put_some};
ghost use Rattle.attr_value.specs.Paths.{kept_element};
ghost use Rattle.attr_value.specs.Tree.{Trees};
ghost use Rattle.attr_value.specs.View.{tree_of, trees_of};

use crate::value::{Item, Value};
use base_types::{Seq, Text};
use std::alloc::AllocError as NoMemory;

impl Item {
    /// Gives the attribute of this name the value, where there is one.
    pub fn put_some(&mut self, name: &Text, value: Option<Value>) -> Result<(), NoMemory>
        ensures { OnOk result (self.new ≡ put_some name.now (option_map tree_of value) self.old) }
    {
        let Some(value) = value else {
            return Ok(());
        };
        self.put(name.try_clone()?, value)
    }
}

/// Appends the value to a list in the making, where there is one.
#[tactic(auto, using(crate::proofs::PartLaws::onto_push))]
pub fn push_some(list: &mut Seq<Value>, value: Option<Value>) -> Result<(), NoMemory>
    ensures { OnOk result ((rest : Trees) → onto (trees_of list.new) rest
        ≡ onto (trees_of list.old) (kept_element (option_map tree_of value) rest)) }
{
    let Some(value) = value else {
        return Ok(()); // nothing stays of the element
    };
    list.push(value)?;
    Ok(())
}
