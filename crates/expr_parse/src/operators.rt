//! How many operators and functions an update has.

ghost use Rattle.std.specs.Prelude.{◌≡◌, ◌+◌, ◌<◌, ◌↔◌, IsTrue, MatchOption, map, sum_by};
ghost use Rattle.expr_words.specs.Trees.{term_tree, sum_tree, set_tree};
ghost use Rattle.expr_parse.specs.UpdateTree.{term_operators, sum_operators, set_operators, most_operators};

use expr_words::{SetTo, Sum, Term, fewer};

/// The most operators and functions of an update.
const MOST_OPERATORS: usize = 300;

/// How many operators are left behind those of a term; or there are not so many.
fn left_of_term(term: &Term, left: usize) -> Option<usize>
    ensures { MatchOption result (left < term_operators (term_tree term.now))
        (λ rest. rest + term_operators (term_tree term.now) ≡ left) }
{
    match term {
        Term::Path(_) | Term::Value(_) => Some(left),
        Term::IfNotExists(_, other) => left_of_term(other, fewer(left)?),
        Term::Append(front, back) => left_of_term(back, left_of_term(front, fewer(left)?)?),
    }
}

/// How many operators are left behind those of two terms; or there are not so many.
fn left_of_terms(one: &Term, other: &Term, left: usize) -> Option<usize>
    ensures { MatchOption result
        (left < term_operators (term_tree one.now) + term_operators (term_tree other.now))
        (λ rest. rest + (term_operators (term_tree one.now) + term_operators (term_tree other.now))
        ≡ left) }
{
    left_of_term(other, left_of_term(one, left)?)
}

/// How many operators are left behind those of a sum; or there are not so many.
fn left_of_sum(sum: &Sum, left: usize) -> Option<usize>
    ensures { MatchOption result (left < sum_operators (sum_tree sum.now))
        (λ rest. rest + sum_operators (sum_tree sum.now) ≡ left) }
{
    match sum {
        Sum::One(term) => left_of_term(term, left),
        Sum::Plus(one, other) => left_of_terms(one, other, fewer(left)?),
        Sum::Minus(one, other) => left_of_terms(one, other, fewer(left)?),
    }
}

/// Whether what paths are set to has more operators and functions than an update may have.
pub(crate) fn too_many_operators(sets: &[SetTo]) -> bool
    ensures { IsTrue result ↔ (most_operators < sum_by set_operators (map set_tree sets.now)) }
{
    let mut left = MOST_OPERATORS;
    for set in sets {
        match left_of_sum(&set.sum, left) {
            Some(rest) => left = rest,
            None => return true,
        }
    }
    false
}
