//! What a condition mentions, in the order of its text.
#![tactic(auto, using(crate::proofs::Mentions::mention_steps))]

ghost use Rattle.std.specs.Prelude.{◌≡◌, ◌++◌, ◌∷◌, [], IfOk, OnOk};
ghost use Rattle.std.specs.List.{flat_map};
ghost use Rattle.expr_words.specs.Trees.{tree};
ghost use Rattle.expr_words.specs.Mentions.{mentions, in_operand, mentioned, of_code, AtPath, AtKind};

use crate::tree::{Condition, Operand};
use base_types::DocPath;
use std::alloc::{AllocError as NoMemory, Global};

/// A path or a value that a condition mentions.
#[derive(Debug, Clone, Copy)]
pub enum Mention<'c> {
    /// A path: by itself, in `size`, or of a function that asks what stands there.
    Path(&'c DocPath),
    /// A value, by its place among the value names.
    Value(u32),
    /// The value that names a type for `attribute_type`, by its place.
    Kind(u32),
}

impl Condition {
    /// The paths and values of the condition, in the order of its text.
    pub fn mentions(&self, alloc: Global) -> Result<Vec<Mention<'_>>, NoMemory>
        ensures { IfOk result (λ found. mentioned found.items ≡ mentions (tree self.now)) }
    {
        let mut found = Vec::new(alloc);
        add_condition(self, &mut found)?;
        Ok(found)
    }
}

/// Adds one.
fn add<'c>(mention: Mention<'c>, found: &mut Vec<Mention<'c>>) -> Result<(), NoMemory>
    ensures { OnOk result
        (mentioned found.new.items ≡ mentioned found.old.items ++ of_code mention.entry ∷ []) }
{
    found.push(mention)?;
    Ok(())
}

/// Adds what an operand mentions.
fn add_operand<'c>(operand: &'c Operand, found: &mut Vec<Mention<'c>>) -> Result<(), NoMemory>
    ensures { OnOk result
        (mentioned found.new.items ≡ mentioned found.old.items ++ in_operand operand.now) }
{
    match operand {
        Operand::Path(path) => add(Mention::Path(path), found),
        Operand::Value(place) => add(Mention::Value(*place), found),
        Operand::Size(path) => add(Mention::Path(path), found),
    }
}

/// Adds what two operands mention.
fn add_two<'c>(
    one: &'c Operand,
    other: &'c Operand,
    found: &mut Vec<Mention<'c>>,
) -> Result<(), NoMemory>
    ensures { OnOk result (mentioned found.new.items
        ≡ mentioned found.old.items ++ (in_operand one.now ++ in_operand other.now)) }
{
    add_operand(one, found)?;
    add_operand(other, found)
}

/// Adds what an operand and others mention.
fn add_list<'c>(
    first: &'c Operand,
    others: &'c [Operand],
    found: &mut Vec<Mention<'c>>,
) -> Result<(), NoMemory>
    ensures { OnOk result (mentioned found.new.items
        ≡ mentioned found.old.items ++ (in_operand first.now ++ flat_map in_operand others.now)) }
{
    add_operand(first, found)?;
    add_all(others, found)
}

/// Adds what operands mention.
fn add_all<'c>(operands: &'c [Operand], found: &mut Vec<Mention<'c>>) -> Result<(), NoMemory>
    ensures { OnOk result (mentioned found.new.items
        ≡ mentioned found.old.items ++ flat_map in_operand operands.now) }
{
    for operand in operands {
        add_operand(operand, found)?;
    }
    Ok(())
}

/// Adds what a range mentions.
fn add_range<'c>(
    operand: &'c Operand,
    low: &'c Operand,
    high: &'c Operand,
    found: &mut Vec<Mention<'c>>,
) -> Result<(), NoMemory>
    ensures { OnOk result (mentioned found.new.items ≡ mentioned found.old.items
        ++ (in_operand operand.now ++ (in_operand low.now ++ in_operand high.now))) }
{
    add_operand(operand, found)?;
    add_two(low, high, found)
}

/// Adds what an `attribute_type` mentions.
fn add_kind<'c>(path: &'c DocPath, value: u32, found: &mut Vec<Mention<'c>>) -> Result<(), NoMemory>
    ensures { OnOk result (mentioned found.new.items
        ≡ mentioned found.old.items ++ AtPath path.now ∷ AtKind value ∷ []) }
{
    add(Mention::Path(path), found)?;
    add(Mention::Kind(value), found)
}

/// Adds what a condition mentions.
fn add_condition<'c>(condition: &'c Condition, found: &mut Vec<Mention<'c>>) -> Result<(), NoMemory>
    ensures { OnOk result (mentioned found.new.items
        ≡ mentioned found.old.items ++ mentions (tree condition.now)) }
{
    match condition {
        Condition::Or(left, right) => {
            add_condition(left, found)?;
            add_condition(right, found)
        }
        Condition::And(left, right) => {
            add_condition(left, found)?;
            add_condition(right, found)
        }
        Condition::Not(inner) => add_condition(inner, found),
        Condition::Compare { left, right, .. } => add_two(left, right, found),
        Condition::Between { operand, low, high } => add_range(operand, low, high, found),
        Condition::Among { operand, choices } => add_list(operand, choices.as_slice(), found),
        Condition::Exists(path) => add(Mention::Path(path), found),
        Condition::Absent(path) => add(Mention::Path(path), found),
        Condition::OfKind { path, value } => add_kind(path, *value, found),
        Condition::Begins(operand, front) => add_two(operand, front, found),
        Condition::Contains(operand, part) => add_two(operand, part, found),
    }
}
