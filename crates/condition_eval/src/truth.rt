//! The truth of a condition.

ghost use Rattle.std.specs.Prelude.{◌≡◌};
ghost use Rattle.std.specs.List.{list_any};
ghost use Rattle.attr_value.specs.View.{lent_tree};
ghost use Rattle.attr_value.specs.Paths.{found};
ghost use Rattle.expr_words.specs.Trees.{tree};
ghost use Rattle.condition_eval.specs.Truth.{true_of, seen, is_equal, is_between, is_of_kind, begins};
ghost use Rattle.condition_eval.specs.Truth.{contains, is_among};
ghost use Rattle.condition_eval.specs.Seen.{seen_tree};

use crate::compare::{are_equal, begins_with, compares, contains, is_between, is_of_kind};
use crate::seen::see;
use attr_value::{Item, Value};
use base_types::Seq;
use expr_words::{Condition, Operand};

/// Whether the condition is true of the item: an absent item is the empty one. A value that the
/// condition names and that is not there is absent.
pub fn holds(condition: &Condition, values: &Seq<Value>, item: &Item) -> bool
    ensures { result ≡ true_of values.now item.now (tree condition.now) }
{
    match condition {
        Condition::Or(left, right) => holds(left, values, item) || holds(right, values, item),
        Condition::And(left, right) => holds(left, values, item) && holds(right, values, item),
        Condition::Not(inner) => !holds(inner, values, item),
        Condition::Compare { op, left, right } => {
            let left = see(left, values, item);
            let right = see(right, values, item);
            compares(*op, left.value(), right.value())
        }
        Condition::Between { operand, low, high } => {
            let operand = see(operand, values, item);
            let low = see(low, values, item);
            let high = see(high, values, item);
            is_between(operand.value(), low.value(), high.value())
        }
        Condition::Among { operand, choices } => is_among(
            operand,
            choices.as_slice(),
            values,
            item,
        ),
        Condition::Exists(path) => item.get(path).is_some(),
        Condition::Absent(path) => item.get(path).is_none(),
        Condition::OfKind { path, value } => {
            is_of_kind(item.get(path), values.get(*value as usize))
        }
        Condition::Begins(operand, front) => {
            let operand = see(operand, values, item);
            let front = see(front, values, item);
            begins_with(operand.value(), front.value())
        }
        Condition::Contains(operand, part) => {
            let operand = see(operand, values, item);
            let part = see(part, values, item);
            contains(operand.value(), part.value())
        }
    }
}

/// Whether the operand equals one of the choices.
fn is_among(operand: &Operand, choices: &[Operand], values: &Seq<Value>, item: &Item) -> bool
    ensures { result ≡ is_among (seen values.now item.now) operand.now choices.now }
{
    let operand = see(operand, values, item);
    is_one_of(operand.value(), choices, values, item)
}

/// Whether a value that may be absent equals one of the choices.
fn is_one_of(value: Option<&Value>, choices: &[Operand], values: &Seq<Value>, item: &Item) -> bool
    ensures { result ≡ list_any (λ choice. is_equal (lent_tree value.entry) (seen values.now item.now choice)) choices.now }
{
    for choice in choices {
        if is_equal_to(value, choice, values, item) {
            return true;
        }
    }
    false
}

/// Whether a value that may be absent equals the operand.
fn is_equal_to(value: Option<&Value>, operand: &Operand, values: &Seq<Value>, item: &Item) -> bool
    ensures { result ≡ is_equal (lent_tree value.entry) (seen values.now item.now operand.now) }
{
    let operand = see(operand, values, item);
    are_equal(value, operand.value())
}
