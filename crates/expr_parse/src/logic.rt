//! Conditions: parts joined by AND and OR, NOT and parentheses.
#![tactic(auto, using(expr_words::proofs::Steps::do_it))]

ghost use Rattle.std.specs.Prelude.{◌<◌, ◌∷◌, length, IfOk, []};
ghost use Rattle.expr_words.specs.Trees.{tree, Conjunction, Disjunction};
ghost use Rattle.expr_words.specs.Words.{meanings};
ghost use Rattle.expr_parse.specs.Openings.{IsOpening, IsLess};
ghost use Rattle.expr_words.specs.Parses.{Parses, whole};
ghost use Rattle.expr_lexer.specs.declared.token.TokenKind.TheVariants as sign;
ghost use Rattle.expr_words.specs.Machine.{Whole, ACondition, AConjunction, APart, ASign, Do, Joins, Negates};

use crate::boxes::boxed_pair;
use crate::predicate::flat;
use expr_lexer::TokenKind;
use expr_words::{Condition, Stop, Word, close_parenthesis, fewer, stuck};
use std::alloc::Global;

/// How a part of a condition begins.
#[derive(Clone, Copy)]
pub(crate) enum Opening<'t, 'a> {
    /// With NOT, before these words.
    Negation(&'t [Word<'a>]),
    /// With an opening parenthesis, before these words.
    Group(&'t [Word<'a>]),
    /// With neither.
    Flat,
}

/// How the part that begins here begins.
fn opening_of<'t, 'a>(words: &'t [Word<'a>]) -> Opening<'t, 'a>
    ensures begins { IsOpening (meanings words.now) result }
    ensures shorter { IsLess words.now result }
{
    match words {
        [Word::Sign(TokenKind::Not), rest @ ..] => Opening::Negation(rest),
        [Word::Sign(TokenKind::OpenParenthesis), rest @ ..] => Opening::Group(rest),
        _ => Opening::Flat,
    }
}

/// The part that NOT denies.
#[cycle(condition)]
fn negation<'t, 'a>(
    alloc: Global,
    words: &'t [Word<'a>],
    levels: usize,
) -> Result<(Condition, &'t [Word<'a>]), Stop>
    ensures goes { Parses whole (APart levels ∷ Do Negates ∷ []) [] words.now result }
    ensures shorter { IfOk result (λ x. length x.1.now < length words.now) }
{
    let (denied, rest) = part(alloc, words, levels)?;
    Ok((Condition::Not(Box::new(alloc, denied)?), rest))
}

/// The condition behind an opening parenthesis, as far as the closing one.
#[cycle(condition)]
fn group<'t, 'a>(
    alloc: Global,
    words: &'t [Word<'a>],
    levels: usize,
) -> Result<(Condition, &'t [Word<'a>]), Stop>
    ensures goes { Parses whole (ACondition levels ∷ ASign sign.CloseParenthesis ∷ []) [] words.now result }
    ensures shorter { IfOk result (λ x. length x.1.now < length words.now) }
{
    let (condition, rest) = disjunction(alloc, words, levels)?;
    let rest = close_parenthesis(rest)?;
    Ok((condition, rest))
}

/// A part of a condition between AND and OR. NOT and an opening parenthesis take a level.
#[cycle(condition)]
fn part<'t, 'a>(
    alloc: Global,
    words: &'t [Word<'a>],
    levels: usize,
) -> Result<(Condition, &'t [Word<'a>]), Stop>
    ensures goes { Parses whole (APart levels ∷ []) [] words.now result }
    ensures shorter { IfOk result (λ x. length x.1.now < length words.now) }
{
    match (opening_of(words), fewer(levels)) {
        (Opening::Flat, _) => flat(alloc, words, levels),
        (Opening::Negation(rest), Some(inner)) => negation(alloc, rest, inner),
        (Opening::Group(rest), Some(inner)) => group(alloc, rest, inner),
        _ => Err(stuck(words)),
    }
}

/// Joins the part behind AND.
#[cycle(condition)]
fn and_part<'t, 'a>(
    alloc: Global,
    left: Condition,
    words: &'t [Word<'a>],
    levels: usize,
) -> Result<(Condition, &'t [Word<'a>]), Stop>
    ensures goes { Parses whole (APart levels ∷ Do (Joins Conjunction) ∷ [])
        (Whole (tree left) ∷ []) words.now result }
    ensures shorter { IfOk result (λ x. length x.1.now < length words.now) }
{
    let (right, rest) = part(alloc, words, levels)?;
    let (left, right) = boxed_pair(alloc, left, right)?;
    Ok((Condition::And(left, right), rest))
}

/// Parts joined by AND, from the left.
#[cycle(condition)]
#[tactic(auto, using(expr_words::proofs::Steps::conjunction_starts))]
fn conjunction<'t, 'a>(
    alloc: Global,
    words: &'t [Word<'a>],
    levels: usize,
) -> Result<(Condition, &'t [Word<'a>]), Stop>
    ensures goes { Parses whole (AConjunction levels ∷ []) [] words.now result }
    ensures shorter { IfOk result (λ x. length x.1.now < length words.now) }
{
    let (first, after) = part(alloc, words, levels)?;
    let mut left = first;
    let mut rest = after;
    while let [Word::Sign(TokenKind::And), after @ ..] = rest {
        let (joined, after) = and_part(alloc, left, after, levels)?;
        left = joined;
        rest = after;
    }
    Ok((left, rest))
}

/// Joins the conjunction behind OR.
#[cycle(condition)]
fn or_part<'t, 'a>(
    alloc: Global,
    left: Condition,
    words: &'t [Word<'a>],
    levels: usize,
) -> Result<(Condition, &'t [Word<'a>]), Stop>
    ensures goes { Parses whole (AConjunction levels ∷ Do (Joins Disjunction) ∷ [])
        (Whole (tree left) ∷ []) words.now result }
    ensures shorter { IfOk result (λ x. length x.1.now < length words.now) }
{
    let (right, rest) = conjunction(alloc, words, levels)?;
    let (left, right) = boxed_pair(alloc, left, right)?;
    Ok((Condition::Or(left, right), rest))
}

/// Conjunctions joined by OR, from the left.
#[cycle(condition)]
#[tactic(auto, using(expr_words::proofs::Steps::condition_starts))]
pub(crate) fn disjunction<'t, 'a>(
    alloc: Global,
    words: &'t [Word<'a>],
    levels: usize,
) -> Result<(Condition, &'t [Word<'a>]), Stop>
    ensures goes { Parses whole (ACondition levels ∷ []) [] words.now result }
    ensures shorter { IfOk result (λ x. length x.1.now < length words.now) }
{
    let (first, after) = conjunction(alloc, words, levels)?;
    let mut left = first;
    let mut rest = after;
    while let [Word::Sign(TokenKind::Or), after @ ..] = rest {
        let (joined, after) = or_part(alloc, left, after, levels)?;
        left = joined;
        rest = after;
    }
    Ok((left, rest))
}
