//! The trees that expressions stand for (DynamoDB Developer Guide, "Comparison operator and
//! function reference", "Projection expressions" and "Update expressions").

use base_types::{DocPath, Seq};

/// The sign between two operands: `=`, `<>`, `<`, `<=`, `>`, `>=`.
#[derive(Debug, Clone, Copy, PartialEq, Eq)]
pub enum Comparison {
    Equal,
    Unequal,
    Less,
    AtMost,
    More,
    AtLeast,
}

/// What a condition compares.
#[derive(Debug, PartialEq, Eq)]
pub enum Operand {
    /// What stands at a path of the item.
    Path(DocPath),
    /// A value, by its place among the value names that the parser was given, from 0.
    Value(u32),
    /// The size of what stands at a path.
    Size(DocPath),
}

// By hand, so that no crate above proves it again.
impl Drop for Operand {
    fn drop(self) {
        match self {
            Operand::Path(_) | Operand::Value(_) | Operand::Size(_) => {}
        }
    }
}

/// A condition on an item. Parentheses leave no trace: they only decide which tree it is.
#[derive(Debug)]
pub enum Condition {
    /// `left OR right`.
    Or(Box<Condition>, Box<Condition>),
    /// `left AND right`.
    And(Box<Condition>, Box<Condition>),
    /// `NOT condition`.
    Not(Box<Condition>),
    /// `left = right`, and the other comparisons.
    Compare {
        op: Comparison,
        left: Operand,
        right: Operand,
    },
    /// `operand BETWEEN low AND high`.
    Between {
        operand: Operand,
        low: Operand,
        high: Operand,
    },
    /// `operand IN (choice, choice)`, with 1 to 100 choices.
    Among {
        operand: Operand,
        choices: Seq<Operand>,
    },
    /// `attribute_exists (path)`.
    Exists(DocPath),
    /// `attribute_not_exists (path)`.
    Absent(DocPath),
    /// `attribute_type (path, :value)`, the value by its place.
    OfKind {
        path: DocPath,
        value: u32,
    },
    /// `begins_with (operand, front)`.
    Begins(Operand, Operand),
    /// `contains (operand, part)`.
    Contains(Operand, Operand),
}

// By hand, so that no crate above proves it again.
impl Drop for Condition {
    fn drop(self) {
        match self {
            Condition::Or(_, _)
            | Condition::And(_, _)
            | Condition::Not(_)
            | Condition::Compare {
                op: _,
                left: _,
                right: _,
            }
            | Condition::Between {
                operand: _,
                low: _,
                high: _,
            }
            | Condition::Among {
                operand: _,
                choices: _,
            }
            | Condition::Exists(_)
            | Condition::Absent(_)
            | Condition::OfKind { path: _, value: _ }
            | Condition::Begins(_, _)
            | Condition::Contains(_, _) => {}
        }
    }
}

/// The paths of a projection, in the order of the text.
#[derive(Debug, PartialEq, Eq)]
pub struct Paths {
    pub paths: Seq<DocPath>,
}

// By hand, so that no crate above proves it again.
impl Drop for Paths {
    fn drop(self) {
        let Paths { paths: _ } = self;
    }
}

/// A term of an update.
#[derive(Debug)]
pub enum Term {
    /// What stands at a path of the item.
    Path(DocPath),
    /// A value, by its place among the value names that the parser was given, from 0.
    Value(u32),
    /// `if_not_exists (path, term)`.
    IfNotExists(DocPath, Box<Term>),
    /// `list_append (front, back)`.
    Append(Box<Term>, Box<Term>),
}

// By hand, so that no crate above proves it again.
impl Drop for Term {
    fn drop(self) {
        match self {
            Term::Path(_) | Term::Value(_) | Term::IfNotExists(_, _) | Term::Append(_, _) => {}
        }
    }
}

/// What a path is set to.
#[derive(Debug, PartialEq, Eq)]
pub enum Sum {
    One(Term),
    /// `left + right`.
    Plus(Term, Term),
    /// `left - right`.
    Minus(Term, Term),
}

// By hand, so that no crate above proves it again.
impl Drop for Sum {
    fn drop(self) {
        match self {
            Sum::One(_) | Sum::Plus(_, _) | Sum::Minus(_, _) => {}
        }
    }
}

/// `path = sum`, of a SET.
#[derive(Debug, PartialEq, Eq)]
pub struct SetTo {
    pub path: DocPath,
    pub sum: Sum,
}

// By hand, so that no crate above proves it again.
impl Drop for SetTo {
    fn drop(self) {
        let SetTo { path: _, sum: _ } = self;
    }
}

/// `path :value`, of an ADD or a DELETE, the value by its place.
#[derive(Debug, PartialEq, Eq)]
pub struct PathValue {
    pub path: DocPath,
    pub value: u32,
}

// By hand, so that no crate above proves it again.
impl Drop for PathValue {
    fn drop(self) {
        let PathValue { path: _, value: _ } = self;
    }
}

/// A clause of an update, as it is written.
#[derive(Debug, Drop)]
pub enum Section {
    Set(Seq<SetTo>),
    Remove(Seq<DocPath>),
    Add(Seq<PathValue>),
    Delete(Seq<PathValue>),
}
