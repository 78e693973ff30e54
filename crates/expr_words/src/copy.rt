//! Copies of trees, which may want memory.

ghost use Rattle.std.specs.Prelude.{◌≡◌, IfOk};
ghost use Rattle.expr_words.specs.Trees.{tree, term_tree, sum_tree, set_tree};

use crate::tree::{Condition, Operand, PathValue, Paths, SetTo, Sum, Term};
use std::alloc::AllocError as NoMemory;

impl Operand {
    /// An equal operand.
    pub fn try_clone(&self) -> Result<Operand, NoMemory>
        ensures { IfOk result (λ copy. copy ≡ self.now) }
    {
        match self {
            Operand::Path(path) => Ok(Operand::Path(path.try_clone()?)),
            Operand::Value(place) => Ok(Operand::Value(*place)),
            Operand::Size(path) => Ok(Operand::Size(path.try_clone()?)),
        }
    }
}

impl Clone for Operand {
    ghost is_clone = { λ operand copy. copy ≡ operand };

    fn clone(&self) -> Result<Operand, NoMemory> {
        self.try_clone()
    }
}

impl Condition {
    /// An equal condition.
    #[cycle(copy)]
    pub fn try_clone(&self) -> Result<Condition, NoMemory>
        ensures { IfOk result (λ copy. tree copy ≡ tree self.now) }
    {
        match self {
            Condition::Or(left, right) => { Ok(Condition::Or(copied(left)?, copied(right)?)) }
            Condition::And(left, right) => { Ok(Condition::And(copied(left)?, copied(right)?)) }
            Condition::Not(inner) => Ok(Condition::Not(copied(inner)?)),
            Condition::Compare { op, left, right } => Ok(Condition::Compare {
                op: *op,
                left: left.try_clone()?,
                right: right.try_clone()?,
            }),
            Condition::Between { operand, low, high } => Ok(Condition::Between {
                operand: operand.try_clone()?,
                low: low.try_clone()?,
                high: high.try_clone()?,
            }),
            Condition::Among { operand, choices } => Ok(Condition::Among {
                operand: operand.try_clone()?,
                choices: choices.try_clone()?,
            }),
            Condition::Exists(path) => Ok(Condition::Exists(path.try_clone()?)),
            Condition::Absent(path) => Ok(Condition::Absent(path.try_clone()?)),
            Condition::OfKind { path, value } => Ok(Condition::OfKind {
                path: path.try_clone()?,
                value: *value,
            }),
            Condition::Begins(operand, front) => {
                Ok(Condition::Begins(operand.try_clone()?, front.try_clone()?))
            }
            Condition::Contains(operand, part) => {
                Ok(Condition::Contains(operand.try_clone()?, part.try_clone()?))
            }
        }
    }
}

/// A copy in a place of its own.
#[cycle(copy)]
fn copied(condition: &Box<Condition>) -> Result<Box<Condition>, NoMemory>
    ensures { IfOk result (λ copy. tree copy.value ≡ tree condition.now.value) }
{
    let alloc = *Box::allocator(condition);
    Ok(Box::new(alloc, condition.as_ref().try_clone()?)?)
}

impl Term {
    /// An equal term.
    #[cycle(copy_term)]
    pub fn try_clone(&self) -> Result<Term, NoMemory>
        ensures { IfOk result (λ copy. term_tree copy ≡ term_tree self.now) }
    {
        match self {
            Term::Path(path) => Ok(Term::Path(path.try_clone()?)),
            Term::Value(place) => Ok(Term::Value(*place)),
            Term::IfNotExists(path, other) => {
                Ok(Term::IfNotExists(path.try_clone()?, copied_term(other)?))
            }
            Term::Append(front, back) => {
                Ok(Term::Append(copied_term(front)?, copied_term(back)?))
            }
        }
    }
}

/// A copy of a term in a place of its own.
#[cycle(copy_term)]
fn copied_term(term: &Box<Term>) -> Result<Box<Term>, NoMemory>
    ensures { IfOk result (λ copy. term_tree copy.value ≡ term_tree term.now.value) }
{
    let alloc = *Box::allocator(term);
    Ok(Box::new(alloc, term.as_ref().try_clone()?)?)
}

impl Sum {
    /// An equal sum.
    pub fn try_clone(&self) -> Result<Sum, NoMemory>
        ensures { IfOk result (λ copy. sum_tree copy ≡ sum_tree self.now) }
    {
        match self {
            Sum::One(term) => Ok(Sum::One(term.try_clone()?)),
            Sum::Plus(left, right) => Ok(Sum::Plus(left.try_clone()?, right.try_clone()?)),
            Sum::Minus(left, right) => Ok(Sum::Minus(left.try_clone()?, right.try_clone()?)),
        }
    }
}

impl SetTo {
    /// An equal assignment.
    pub fn try_clone(&self) -> Result<SetTo, NoMemory>
        ensures { IfOk result (λ copy. set_tree copy ≡ set_tree self.now) }
    {
        Ok(SetTo {
            path: self.path.try_clone()?,
            sum: self.sum.try_clone()?,
        })
    }
}

impl Clone for SetTo {
    ghost use Rattle.std.specs.Prelude.{◌≡◌};
    ghost use Rattle.expr_words.specs.Trees.{set_tree};

    ghost is_clone = { λ set copy. set_tree copy ≡ set_tree set };

    fn clone(&self) -> Result<SetTo, NoMemory> {
        self.try_clone()
    }
}

impl PathValue {
    /// An equal pair.
    pub fn try_clone(&self) -> Result<PathValue, NoMemory>
        ensures { IfOk result (λ copy. copy ≡ self.now) }
    {
        Ok(PathValue {
            path: self.path.try_clone()?,
            value: self.value,
        })
    }
}

impl Clone for PathValue {
    ghost is_clone = { λ pair copy. copy ≡ pair };

    fn clone(&self) -> Result<PathValue, NoMemory> {
        self.try_clone()
    }
}

impl Paths {
    /// Equal paths.
    pub fn try_clone(&self) -> Result<Paths, NoMemory>
        ensures { IfOk result (λ copy. copy ≡ self.now) }
    {
        Ok(Paths {
            paths: self.paths.try_clone()?,
        })
    }
}
