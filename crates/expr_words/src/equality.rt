//! Equality of trees, which takes no memory.

ghost use Rattle.std.specs.Prelude.{◌≡◌};
ghost use Rattle.std.specs.Cmp.Lexicographic.{pointwise};
ghost use Rattle.expr_words.specs.Trees.{tree, term_tree};
ghost use Rattle.expr_words.specs.Equality.{same_path, same_comparison, same_operand, same, same_term};

use crate::tree::{Comparison, Condition, Operand, Term};
use base_types::DocPath;

/// Conditions are equal where their trees are: parentheses leave no trace, and AND and OR count in their order.
impl PartialEq for Condition {
    ghost use Rattle.std.specs.Cmp.{partial_equiv_from_equiv};
    ghost use Rattle.expr_words.specs.Trees.{tree};
    ghost use Rattle.expr_words.specs.Equality.{same};
    ghost use Rattle.expr_words.specs.EqualityLaws.{condition_laws};

    ghost eq = { λ one other. same (tree one) (tree other) };

    ghost laws = { partial_equiv_from_equiv condition_laws };

    fn eq(&self, other: &Condition) -> bool {
        are_equal(self, other)
    }
}

impl Eq for Condition {
    ghost use Rattle.expr_words.specs.EqualityLaws.{condition_laws};

    ghost laws = { condition_laws };
}

/// Terms are equal where their trees are.
impl PartialEq for Term {
    ghost use Rattle.std.specs.Cmp.{partial_equiv_from_equiv};
    ghost use Rattle.expr_words.specs.Trees.{term_tree};
    ghost use Rattle.expr_words.specs.Equality.{same_term};
    ghost use Rattle.expr_words.specs.EqualityLaws.{term_laws};

    ghost eq = { λ one other. same_term (term_tree one) (term_tree other) };

    ghost laws = { partial_equiv_from_equiv term_laws };

    fn eq(&self, other: &Term) -> bool {
        are_equal_terms(self, other)
    }
}

impl Eq for Term {
    ghost use Rattle.expr_words.specs.EqualityLaws.{term_laws};

    ghost laws = { term_laws };
}

fn are_equal_paths(one: &DocPath, other: &DocPath) -> bool
    ensures { result ≡ same_path one.now other.now }
{
    one == other
}

fn are_equal_comparisons(one: Comparison, other: Comparison) -> bool
    ensures { result ≡ same_comparison one other }
{
    matches!(
        (one, other),
        (Comparison::Equal, Comparison::Equal)
            | (Comparison::Unequal, Comparison::Unequal)
            | (Comparison::Less, Comparison::Less)
            | (Comparison::AtMost, Comparison::AtMost)
            | (Comparison::More, Comparison::More)
            | (Comparison::AtLeast, Comparison::AtLeast)
    )
}

fn are_equal_operands(one: &Operand, other: &Operand) -> bool
    ensures { result ≡ same_operand one.now other.now }
{
    match (one, other) {
        (Operand::Path(path), Operand::Path(other)) => are_equal_paths(path, other),
        (Operand::Value(place), Operand::Value(other)) => place == other,
        (Operand::Size(path), Operand::Size(other)) => are_equal_paths(path, other),
        _ => false,
    }
}

fn are_equal_lists(some: &[Operand], others: &[Operand]) -> bool
    ensures { result ≡ pointwise same_operand some.now others.now }
{
    match (some, others) {
        ([], []) => true,
        ([one, some @ ..], [other, others @ ..]) => {
            are_equal_operands(one, other) && are_equal_lists(some, others)
        }
        _ => false,
    }
}

fn are_equal(one: &Condition, other: &Condition) -> bool
    ensures { result ≡ same (tree one.now) (tree other.now) }
{
    match (one, other) {
        (Condition::Or(a, b), Condition::Or(c, d)) => are_equal(a, c) && are_equal(b, d),
        (Condition::And(a, b), Condition::And(c, d)) => are_equal(a, c) && are_equal(b, d),
        (Condition::Not(inner), Condition::Not(other)) => are_equal(inner, other),
        (
            Condition::Compare { op, left, right },
            Condition::Compare {
                op: sign,
                left: a,
                right: b,
            },
        ) => {
            are_equal_comparisons(*op, *sign)
                && (are_equal_operands(left, a) && are_equal_operands(right, b))
        }
        (
            Condition::Between { operand, low, high },
            Condition::Between {
                operand: a,
                low: b,
                high: c,
            },
        ) => {
            are_equal_operands(operand, a)
                && (are_equal_operands(low, b) && are_equal_operands(high, c))
        }
        (
            Condition::Among { operand, choices },
            Condition::Among {
                operand: a,
                choices: others,
            },
        ) => {
            are_equal_operands(operand, a) && are_equal_lists(choices.as_slice(), others.as_slice())
        }
        (Condition::Exists(path), Condition::Exists(other)) => are_equal_paths(path, other),
        (Condition::Absent(path), Condition::Absent(other)) => are_equal_paths(path, other),
        (
            Condition::OfKind { path, value },
            Condition::OfKind {
                path: other,
                value: place,
            },
        ) => are_equal_paths(path, other) && value == place,
        (Condition::Begins(a, b), Condition::Begins(c, d)) => {
            are_equal_operands(a, c) && are_equal_operands(b, d)
        }
        (Condition::Contains(a, b), Condition::Contains(c, d)) => {
            are_equal_operands(a, c) && are_equal_operands(b, d)
        }
        _ => false,
    }
}

fn are_equal_terms(one: &Term, other: &Term) -> bool
    ensures { result ≡ same_term (term_tree one.now) (term_tree other.now) }
{
    match (one, other) {
        (Term::Path(path), Term::Path(other)) => are_equal_paths(path, other),
        (Term::Value(place), Term::Value(other)) => place == other,
        (Term::IfNotExists(path, term), Term::IfNotExists(other, another)) => {
            are_equal_paths(path, other) && are_equal_terms(term, another)
        }
        (Term::Append(a, b), Term::Append(c, d)) => {
            are_equal_terms(a, c) && are_equal_terms(b, d)
        }
        _ => false,
    }
}
