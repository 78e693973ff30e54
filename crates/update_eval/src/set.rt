//! What ADD and DELETE make of what a path finds.

ghost use Rattle.std.specs.Prelude.{◌≡◌, option_map};
ghost use Rattle.attr_value.specs.View.{lent_tree, tree_of};
ghost use Rattle.item_writes.specs.NewTree.{new_tree};
ghost use Rattle.update_eval.specs.Answers.{Gives, Answers};
ghost use Rattle.update_eval.specs.Changes.{add_of, first_added, less_of, lessened, more_of, some_set};
ghost use Rattle.attr_value.specs.Tree.{number_set};
ghost use Rattle.std.specs.Ordering.{int_cmp};

use crate::fault::{EvalEnd, EvalFault};
use crate::sum::number_of;
use attr_value::Value;
use item_writes::{LentValue, NewValue};
use number38::Number;
use ordered_set::OrderedSet;

/// What ADD puts where this is found, or nothing.
pub(crate) fn add_of<'v>(
    found: Option<&'v Value>,
    value: &'v Value,
) -> Result<NewValue<'v>, EvalFault>
    ensures { Answers new_tree (add_of (lent_tree found.entry) (tree_of value.now)) result }
{
    match found {
        None => first_added(value),
        Some(old) => more_of(old, value),
    }
}

/// What ADD puts where nothing is: a number or a set.
fn first_added<'v>(value: &'v Value) -> Result<NewValue<'v>, EvalFault>
    ensures { Answers new_tree (first_added (tree_of value.now)) result }
{
    match value {
        Value::N(_) | Value::Ss(_) | Value::Ns(_) | Value::Bs(_) => Ok(NewValue::Lent(
            LentValue::new(value),
        )),
        _ => Err(EvalFault::OperandType),
    }
}

/// What ADD puts where this is: a sum, or the elements of both sets.
fn more_of<'v>(old: &'v Value, value: &'v Value) -> Result<NewValue<'v>, EvalFault>
    ensures { Answers new_tree (more_of (tree_of old.now) (tree_of value.now)) result }
{
    match (old, value) {
        (Value::N(old), Value::N(more)) => number_of(old.add(more)),
        (Value::Ss(old), Value::Ss(more)) => Ok(NewValue::Texts(old, more)),
        (Value::Ns(old), Value::Ns(more)) => Ok(NewValue::Numbers(old, more)),
        (Value::Bs(old), Value::Bs(more)) => Ok(NewValue::Binaries(old, more)),
        _ => Err(EvalFault::OperandType),
    }
}

/// What DELETE leaves of what is found: nothing where no element stays.
pub(crate) fn less_of(old: &Value, value: &Value) -> Result<Option<Value>, EvalEnd>
    ensures { Gives (option_map tree_of) (less_of (tree_of old.now) (tree_of value.now)) result }
{
    match (old, value) {
        (Value::Ss(old), Value::Ss(gone)) => Ok(old.try_clone()?.difference(gone).map(Value::Ss)),
        (Value::Ns(old), Value::Ns(gone)) => Ok(numbers_left(old.try_clone()?, gone)),
        (Value::Bs(old), Value::Bs(gone)) => Ok(old.try_clone()?.difference(gone).map(Value::Bs)),
        _ => Err(EvalEnd::Fault(EvalFault::OperandType)),
    }
}

/// The numbers that are not in the other set, if there are any.
fn numbers_left(old: OrderedSet<Number>, gone: &OrderedSet<Number>) -> Option<Value>
    ensures { option_map tree_of result ≡ some_set number_set (lessened int_cmp old gone.now) }
{
    match old.difference(gone) {
        Some(left) => Some(Value::Ns(left)),
        None => None,
    }
}
