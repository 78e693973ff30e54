//! What is written at a path: nothing of it is copied before the new item is made.

ghost use Rattle.std.specs.Prelude.{◌≡◌, IfOk, OnOk, min};
ghost use Rattle.attr_value.specs.Parts.{onto};
ghost use Rattle.attr_value.specs.Sizes.{depth, size};
ghost use Rattle.attr_value.specs.Tree.{Trees};
ghost use Rattle.attr_value.specs.View.{tree_of, trees_of};
ghost use Rattle.item_writes.specs.Joined.{joined};
ghost use Rattle.item_writes.specs.NewTree.{new_tree};

use crate::extent::Extent;
use crate::lent::{LentLists, LentValue};
use crate::union::both_bytes;
use attr_value::{Elements, Value};
use base_types::{Bytes, Seq, Text};
use number38::Number;
use ordered_set::OrderedSet;
use std::alloc::{AllocError as NoMemory, Global};

/// What will stand at a path.
#[derive(Drop)]
pub enum NewValue<'v> {
    /// A value of the old item, or one that came with the update.
    Lent(LentValue<'v>),
    /// A value that was computed.
    Made(Value),
    /// The elements of these lists, one list behind the other.
    Joined(LentLists<'v>),
    /// The texts of both sets.
    Texts(&'v OrderedSet<Text>, &'v OrderedSet<Text>),
    /// The numbers of both sets.
    Numbers(&'v OrderedSet<Number>, &'v OrderedSet<Number>),
    /// The binaries of both sets.
    Binaries(&'v OrderedSet<Bytes>, &'v OrderedSet<Bytes>),
}

impl NewValue<'_> {
    /// A value of its own.
    pub(crate) fn build(&self, alloc: Global) -> Result<Value, NoMemory>
        ensures { IfOk result (λ value. tree_of value ≡ new_tree self.now) }
    {
        match self {
            NewValue::Lent(lent) => lent.value.try_clone(),
            NewValue::Made(value) => value.try_clone(),
            NewValue::Joined(lent) => Ok(Value::L(joined(alloc, lent.lists.as_slice())?)),
            NewValue::Texts(set, more) => {
                Ok(Value::Ss(set.try_clone()?.union(more.try_clone()?)?))
            }
            NewValue::Numbers(set, more) => {
                Ok(Value::Ns(set.try_clone()?.union(more.try_clone()?)?))
            }
            NewValue::Binaries(set, more) => {
                Ok(Value::Bs(set.try_clone()?.union(more.try_clone()?)?))
            }
        }
    }

    /// The extent of the value, which is not made for it.
    pub(crate) fn extent(&self, limit: u64) -> Extent
        ensures bytes { result.bytes ≡ min (size (new_tree self.now)) limit }
        ensures levels { result.levels ≡ min (depth (new_tree self.now)) u32.MAX }
    {
        match self {
            NewValue::Lent(lent) => lent.extent(limit),
            NewValue::Made(value) => Extent::of(value, limit),
            NewValue::Joined(lent) => lent.extent(limit),
            NewValue::Texts(set, more) => Extent::flat(both_bytes(set, more, limit)),
            NewValue::Numbers(set, more) => Extent::flat(both_bytes(set, more, limit)),
            NewValue::Binaries(set, more) => Extent::flat(both_bytes(set, more, limit)),
        }
    }
}

/// One list of the elements of all.
fn joined(alloc: Global, lists: &[&Elements]) -> Result<Elements, NoMemory>
    ensures { IfOk result (λ list. list ≡ joined lists.now) }
{
    let mut all = Seq::new(alloc);
    for list in lists {
        push_copies(list, &mut all)?;
    }
    Ok(Elements::from(all))
}

/// Adds copies of the elements.
fn push_copies(list: &Elements, all: &mut Seq<Value>) -> Result<(), NoMemory>
    ensures { OnOk result ((rest : Trees) → onto (trees_of all.new) rest
        ≡ onto (trees_of all.old) (onto list.now rest)) }
{
    for value in list.as_slice() {
        all.push(value.try_clone()?)?;
    }
    Ok(())
}
