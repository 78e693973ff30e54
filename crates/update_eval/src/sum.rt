//! What SET gives a path: a term, or a sum of two.

ghost use Rattle.std.specs.Prelude.{◌≡◌};
ghost use Rattle.expr_words.specs.Trees.{sum_tree};
ghost use Rattle.item_writes.specs.NewTree.{new_tree};
ghost use Rattle.update_eval.specs.Answers.{Gives, Answers};
ghost use Rattle.update_eval.specs.Sums.{added, number_in, number_of, sum_of, taken};
ghost use Rattle.update_eval.specs.Views.{term_value};

use crate::fault::{EvalEnd, EvalFault};
use crate::sources::Sources;
use crate::term::{TermValue, term_of};
use attr_value::Value;
use expr_words::Sum;
use item_writes::NewValue;
use number38::{Number, NumberFault};
use std::alloc::Global;

/// What the sum is, of these values and the old item. Both terms are found before their types are asked.
pub(crate) fn sum_of<'v>(
    alloc: Global,
    sum: &Sum,
    sources: &Sources<'v>,
) -> Result<NewValue<'v>, EvalEnd>
    ensures { Gives new_tree (sum_of sources.now.values.now sources.now.old.now (sum_tree sum.now)) result }
{
    match sum {
        Sum::One(term) => Ok(NewValue::from(term_of(alloc, term, sources)?)),
        Sum::Plus(left, right) => {
            let left = term_of(alloc, left, sources)?;
            let right = term_of(alloc, right, sources)?;
            Ok(added(&left, &right)?)
        }
        Sum::Minus(left, right) => {
            let left = term_of(alloc, left, sources)?;
            let right = term_of(alloc, right, sources)?;
            Ok(taken(&left, &right)?)
        }
    }
}

/// The sum of two numbers.
fn added<'v>(left: &TermValue<'_>, right: &TermValue<'_>) -> Result<NewValue<'v>, EvalFault>
    ensures { Answers new_tree (added (term_value left.now) (term_value right.now)) result }
{
    let left = number_in(left)?;
    let right = number_in(right)?;
    number_of(left.add(&right))
}

/// The first number less the second.
fn taken<'v>(left: &TermValue<'_>, right: &TermValue<'_>) -> Result<NewValue<'v>, EvalFault>
    ensures { Answers new_tree (taken (term_value left.now) (term_value right.now)) result }
{
    let left = number_in(left)?;
    let right = number_in(right)?;
    number_of(left.sub(&right))
}

/// The number that the value is.
fn number_in(value: &TermValue<'_>) -> Result<Number, EvalFault>
    ensures { result ≡ number_in (term_value value.now) }
{
    match value {
        TermValue::Lent(lent) => match lent.value {
            Value::N(number) => Ok(*number),
            _ => Err(EvalFault::OperandType),
        },
        TermValue::Joined(_) => Err(EvalFault::OperandType),
    }
}

/// The number, if there is one.
pub(crate) fn number_of<'v>(answer: Result<Number, NumberFault>) -> Result<NewValue<'v>, EvalFault>
    ensures { Answers new_tree (number_of answer) result }
{
    match answer {
        Ok(number) => Ok(NewValue::Made(Value::N(number))),
        Err(fault) => Err(EvalFault::Number(fault)),
    }
}
