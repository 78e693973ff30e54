//! What one test asks, as a part of a condition.

ghost use Rattle.std.specs.Prelude.{◌≡◌, ◌+◌, ◌++◌, ◌<◌, ◌^◌, length, map, IfOk, OnOk};
ghost use Rattle.std.specs.List.{range_with_len};
ghost use Rattle.std.specs.Option.{option_to_list};
ghost use Rattle.expr_words.specs.Trees.{tree, PartTest, Range};
ghost use Rattle.expr_words.specs.declared.tree.Operand.TheVariants as operand;
ghost use Rattle.legacy_params.specs.Tests.{values_of};
ghost use Rattle.legacy_params.specs.Trees.{path_to, asked_of, part_of};

use crate::operator::Operator;
use crate::part::LegacyTest;
use attr_value::Value;
use base_types::{DocPath, Seq, Step, Text};
use expr_words::{Comparison, Condition, Operand};
use std::alloc::{AllocError as NoMemory, Global};

/// The path of an attribute.
pub(crate) fn path_to(alloc: Global, name: Text) -> Result<DocPath, NoMemory>
    ensures { IfOk result (λ path. path ≡ path_to name) }
{
    let mut steps = Seq::with_capacity(alloc, 1)?;
    steps.push(Step::Name(name))?;
    Ok(DocPath { steps })
}

/// The place of the next value. NoMemory where no place names it.
pub(crate) fn next_place(values: &Seq<Value>) -> Result<u32, NoMemory>
    ensures { IfOk result (λ place. place ≡ length values.now) }
{
    let place = values.len();
    if place > 0xffff_ffff {
        return Err(NoMemory);
    }
    Ok(place as u32)
}

/// What a test asks of its attribute. Its values are moved behind the others.
pub(crate) fn part(
    alloc: Global,
    test: LegacyTest,
    values: &mut Seq<Value>,
) -> Result<Condition, NoMemory>
    ensures part { IfOk result (λ part. tree part ≡ part_of (length values.old) test) }
    ensures values { OnOk result (values.new ≡ values.old ++ values_of test) }
{
    let operator = test.asked();
    let (name, value, listed) = test.into_parts();
    let first = next_place(values)?;
    push_value(value, values)?;
    push_values(listed, values)?;
    let end = next_place(values)?;
    let path = path_to(alloc, name)?;
    asked_of(alloc, operator, path, first, end - first)
}

/// Puts a value, if there is one, behind the others.
pub(crate) fn push_value(value: Option<Value>, values: &mut Seq<Value>) -> Result<(), NoMemory>
    ensures { OnOk result (values.new ≡ values.old ++ option_to_list value) }
{
    if let Some(value) = value {
        values.push(value)?;
    }
    Ok(())
}

/// Puts values behind the others.
fn push_values(listed: Seq<Value>, values: &mut Seq<Value>) -> Result<(), NoMemory>
    ensures { OnOk result (values.new ≡ values.old ++ listed) }
{
    for value in Vec::from(listed) {
        values.push(value)?;
    }
    Ok(())
}

/// What an operator asks of what stands at a path, with so many values from a place on.
fn asked_of(
    alloc: Global,
    operator: Operator,
    path: DocPath,
    first: u32,
    count: u32,
) -> Result<Condition, NoMemory>
    requires { first + count < 2 ^ 32 }
    ensures { IfOk result (λ part. tree part ≡ asked_of operator path first count) }
{
    match operator {
        Operator::Compare(op) => Ok(Condition::Compare {
            op,
            left: Operand::Path(path),
            right: Operand::Value(first),
        }),
        Operator::Exists => Ok(Condition::Exists(path)),
        Operator::Absent => Ok(Condition::Absent(path)),
        Operator::Contains => Ok(contains(path, first)),
        Operator::NotContains => Ok(Condition::Not(Box::new(alloc, contains(path, first))?)),
        Operator::BeginsWith => Ok(Condition::Begins(Operand::Path(path), Operand::Value(first))),
        Operator::Among => Ok(Condition::Among {
            operand: Operand::Path(path),
            choices: choices(alloc, first, count)?,
        }),
        Operator::Between => between(path, first),
    }
}

fn contains(path: DocPath, place: u32) -> Condition
    ensures { tree result ≡ PartTest (operand.Path path) (operand.Value place) }
{
    Condition::Contains(Operand::Path(path), Operand::Value(place))
}

fn between(path: DocPath, low: u32) -> Result<Condition, NoMemory>
    ensures { IfOk result (λ part. tree part ≡ Range (operand.Path path) (operand.Value low) (operand.Value (low + 1))) }
{
    let Some(high) = low.checked_add(1) else {
        return Err(NoMemory);
    };
    Ok(Condition::Between {
        operand: Operand::Path(path),
        low: Operand::Value(low),
        high: Operand::Value(high),
    })
}

/// So many values from a place on.
fn choices(alloc: Global, first: u32, count: u32) -> Result<Seq<Operand>, NoMemory>
    requires { first + count < 2 ^ 32 }
    ensures { IfOk result (λ choices. choices ≡ map (λ place. operand.Value place) (range_with_len first count)) }
{
    let mut choices = Seq::new(alloc);
    for place in first..first + count {
        choices.push(Operand::Value(place))?;
    }
    Ok(choices)
}
