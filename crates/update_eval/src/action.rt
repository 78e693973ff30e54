//! What each action writes: a path, with what will stand there or with nothing.

ghost use Rattle.std.specs.Prelude.{◌≡◌, ◌∷◌, [], option_map, Ok};
ghost use Rattle.expr_words.specs.Trees.{set_tree};
ghost use Rattle.attr_value.specs.View.{tree_of};
ghost use Rattle.item_writes.specs.NewTree.{new_tree};
ghost use Rattle.update_eval.specs.Answers.{Gives};
ghost use Rattle.update_eval.specs.Actions.{add_writes, delete_writes, placed_at, remove_writes, set_writes};
ghost use Rattle.update_eval.specs.Views.{one_seen, seen_write};

use crate::fault::{EvalEnd, EvalFault};
use crate::path::has_place;
use crate::set::{add_of, less_of};
use crate::sources::Sources;
use crate::sum::sum_of;
use attr_value::{Item, Value};
use base_types::{DocPath, Seq, Step};
use expr_words::{PathValue, SetTo};
use item_writes::NewValue;
use std::alloc::Global;

/// Steps that lead to a place, with its new value, or with none where what is there goes.
#[derive(Drop)]
pub(crate) struct Write<'u> {
    pub(crate) steps: &'u [Step],
    pub(crate) value: Option<NewValue<'u>>,
}

/// What SET writes. The value is computed before the path is asked.
pub(crate) fn set_write<'u>(
    alloc: Global,
    set: &'u SetTo,
    sources: &Sources<'u>,
) -> Result<Write<'u>, EvalEnd>
    ensures { Gives (λ write. seen_write write ∷ []) (set_writes sources.now.values.now sources.now.old.now (set_tree set.now)) result }
{
    placed_at(&set.path, sources.old, sum_of(alloc, &set.sum, sources)?)
}

/// A write there, where the path has a place for it.
fn placed_at<'u>(path: &'u DocPath, old: &Item, value: NewValue<'u>) -> Result<Write<'u>, EvalEnd>
    ensures { Gives (λ write. seen_write write ∷ []) (placed_at path.now.steps old.now (new_tree value.entry)) result }
{
    if !has_place(path, old) {
        return Err(EvalEnd::Fault(EvalFault::BadPath));
    }
    Ok(Write {
        steps: path.steps.as_slice(),
        value: Some(value),
    })
}

/// What REMOVE writes: nothing where the path finds nothing.
pub(crate) fn remove_write<'u>(path: &'u DocPath, old: &Item) -> Option<Write<'u>>
    ensures { remove_writes old.now path.now ≡ Ok (one_seen result) }
{
    if old.get(path).is_none() {
        return None;
    }
    Some(Write {
        steps: path.steps.as_slice(),
        value: None,
    })
}

/// What ADD writes. Types are asked before the path.
pub(crate) fn add_write<'u>(
    add: &'u PathValue,
    values: &'u Seq<Value>,
    old: &'u Item,
) -> Result<Write<'u>, EvalEnd>
    ensures { Gives (λ write. seen_write write ∷ []) (add_writes values.now old.now add.now) result }
{
    let Some(value) = values.get(add.value as usize) else {
        return Err(EvalEnd::Fault(EvalFault::MissingOperand));
    };
    placed_at(&add.path, old, add_of(old.get(&add.path), value)?)
}

/// What DELETE writes: nothing where the path finds nothing.
pub(crate) fn delete_write<'u>(
    delete: &'u PathValue,
    values: &'u Seq<Value>,
    old: &'u Item,
) -> Result<Option<Write<'u>>, EvalEnd>
    ensures { Gives one_seen (delete_writes values.now old.now delete.now) result }
{
    let Some(found) = old.get(&delete.path) else {
        return Ok(None);
    };
    let Some(value) = values.get(delete.value as usize) else {
        return Err(EvalEnd::Fault(EvalFault::MissingOperand));
    };
    Ok(Some(Write {
        steps: delete.path.steps.as_slice(),
        value: made(less_of(found, value)?),
    }))
}

fn made<'u>(value: Option<Value>) -> Option<NewValue<'u>>
    ensures { option_map new_tree result ≡ option_map tree_of value }
{
    match value {
        Some(value) => Some(NewValue::Made(value)),
        None => None,
    }
}
