//! The parts of a condition that hold no other: comparisons, ranges, choices and functions.
#![tactic(auto, using(expr_words::proofs::Steps::do_it))]

ghost use Rattle.std.specs.Prelude.{◌≡◌, ◌<◌, ◌∷◌, true, false, length, IfOk, IfSome, []};
ghost use Rattle.expr_words.specs.Trees.{Compared, Presence, Absence, FrontTest, PartTest};
ghost use Rattle.expr_words.specs.Words.{meanings};
ghost use Rattle.expr_words.specs.Fronts.{opens, calls, compares, is_deeper, IsComparing};
ghost use Rattle.expr_words.specs.Parses.{Parses, whole};
ghost use Rattle.expr_parse.specs.Arguments.{operands_then};
ghost use Rattle.expr_lexer.specs.declared.token.TokenKind.TheVariants as sign;
ghost use Rattle.expr_words.specs.Machine.{Goes, reads, Side, Place, APart, NamedPart, ARest, AnOperand, APath, AValue, ASign, Do, OfSides, OfPath, MakeRange, MakeSize, MakeKindTest};

use crate::argument::{first_path, path_argument};
use crate::choice::choice;
use crate::operand::{operand, plain_operand, size_of};
use expr_lexer::TokenKind;
use expr_words::{
    Comparison, Condition, Function, Operand, Stop, Word, and, called, close_parenthesis, comma,
    fewer, function_of, open_parenthesis, stuck, value,
};
use std::alloc::Global;

/// The comparison of an operand with the one that follows.
fn compared<'t, 'a>(
    alloc: Global,
    op: Comparison,
    left: Operand,
    words: &'t [Word<'a>],
    levels: usize,
) -> Result<(Condition, &'t [Word<'a>]), Stop>
    ensures goes { Parses whole (AnOperand levels ∷ Do (OfSides (Compared op)) ∷ [])
        (Side left ∷ []) words.now result }
    ensures shorter { IfOk result (λ x. length x.1.now < length words.now) }
{
    let (right, rest) = operand(alloc, words, levels)?;
    Ok((Condition::Compare { op, left, right }, rest))
}

/// The range behind BETWEEN, for its first operand.
fn range<'t, 'a>(
    alloc: Global,
    first: Operand,
    words: &'t [Word<'a>],
    levels: usize,
) -> Result<(Condition, &'t [Word<'a>]), Stop>
    ensures goes { Parses whole (AnOperand levels ∷ ASign sign.And ∷ AnOperand levels ∷ Do MakeRange ∷ [])
        (Side first ∷ []) words.now result }
    ensures shorter { IfOk result (λ x. length x.1.now < length words.now) }
{
    let (low, rest) = operand(alloc, words, levels)?;
    let rest = and(rest)?;
    let (high, rest) = operand(alloc, rest, levels)?;
    let range = Condition::Between {
        operand: first,
        low,
        high,
    };
    Ok((range, rest))
}

/// The comparison whose sign is first, and what is behind it.
fn comparison<'t, 'a>(words: &'t [Word<'a>]) -> Option<(Comparison, &'t [Word<'a>])>
    ensures sign { IsComparing (λ x. x.0) (λ x. meanings x.1.now) (meanings words.now) result }
    ensures shorter { IfSome result (λ x. length x.1.now < length words.now) }
{
    match words {
        [Word::Sign(TokenKind::Equal), rest @ ..] => Some((Comparison::Equal, rest)),
        [Word::Sign(TokenKind::Unequal), rest @ ..] => Some((Comparison::Unequal, rest)),
        [Word::Sign(TokenKind::Less), rest @ ..] => Some((Comparison::Less, rest)),
        [Word::Sign(TokenKind::AtMost), rest @ ..] => Some((Comparison::AtMost, rest)),
        [Word::Sign(TokenKind::More), rest @ ..] => Some((Comparison::More, rest)),
        [Word::Sign(TokenKind::AtLeast), rest @ ..] => Some((Comparison::AtLeast, rest)),
        _ => None,
    }
}

/// What is said of the first operand of a part, where it is not compared.
fn membership<'t, 'a>(
    alloc: Global,
    first: Operand,
    words: &'t [Word<'a>],
    levels: usize,
) -> Result<(Condition, &'t [Word<'a>]), Stop>
    requires { compares (meanings words.now) ≡ false }
    ensures goes { Parses whole (ARest levels ∷ []) (Side first ∷ []) words.now result }
    ensures shorter { IfOk result (λ x. length x.1.now < length words.now) }
{
    match words {
        [Word::Sign(TokenKind::Between), rest @ ..] => range(alloc, first, rest, levels),
        [Word::Sign(TokenKind::In), rest @ ..] => choice(alloc, first, rest, levels),
        _ => Err(stuck(words)),
    }
}

/// What is said of the first operand of a part.
pub(crate) fn predicate<'t, 'a>(
    alloc: Global,
    first: Operand,
    words: &'t [Word<'a>],
    levels: usize,
) -> Result<(Condition, &'t [Word<'a>]), Stop>
    ensures goes { Parses whole (ARest levels ∷ []) (Side first ∷ []) words.now result }
    ensures shorter { IfOk result (λ x. length x.1.now < length words.now) }
{
    match comparison(words) {
        Some((op, rest)) => compared(alloc, op, first, rest, levels),
        None => membership(alloc, first, words, levels),
    }
}

/// The argument of `attribute_exists`.
fn exists<'t, 'a>(alloc: Global, words: &'t [Word<'a>]) -> Result<(Condition, &'t [Word<'a>]), Stop>
    ensures goes { Parses whole (ASign sign.OpenParenthesis ∷ APath ∷ ASign sign.CloseParenthesis ∷ Do (OfPath Presence) ∷ [])
        [] words.now result }
    ensures shorter { IfOk result (λ x. length x.1.now < length words.now) }
{
    let (path, rest) = path_argument(alloc, words)?;
    Ok((Condition::Exists(path), rest))
}

/// The argument of `attribute_not_exists`.
fn absent<'t, 'a>(alloc: Global, words: &'t [Word<'a>]) -> Result<(Condition, &'t [Word<'a>]), Stop>
    ensures goes { Parses whole (ASign sign.OpenParenthesis ∷ APath ∷ ASign sign.CloseParenthesis ∷ Do (OfPath Absence) ∷ [])
        [] words.now result }
    ensures shorter { IfOk result (λ x. length x.1.now < length words.now) }
{
    let (path, rest) = path_argument(alloc, words)?;
    Ok((Condition::Absent(path), rest))
}

/// The arguments of `attribute_type`.
fn of_kind<'t, 'a>(
    alloc: Global,
    words: &'t [Word<'a>],
) -> Result<(Condition, &'t [Word<'a>]), Stop>
    ensures goes { Parses whole (ASign sign.OpenParenthesis ∷ APath ∷ ASign sign.Comma ∷ AValue ∷ ASign sign.CloseParenthesis ∷ Do MakeKindTest ∷ [])
        [] words.now result }
    ensures shorter { IfOk result (λ x. length x.1.now < length words.now) }
{
    let (path, rest) = first_path(alloc, words)?;
    let (value, rest) = value(rest)?;
    let rest = close_parenthesis(rest)?;
    Ok((Condition::OfKind { path, value }, rest))
}

/// Two operands in parentheses.
fn two_operands<'t, 'a>(
    alloc: Global,
    words: &'t [Word<'a>],
    levels: usize,
) -> Result<(Operand, Operand, &'t [Word<'a>]), Stop>
    ensures goes { Goes
        (λ os ks. reads (meanings words.now) (operands_then levels os) ks)
        (λ x ks. Side x.1 ∷ Side x.0 ∷ ks) (λ x. meanings x.2.now) result }
    ensures shorter { IfOk result (λ x. length x.2.now < length words.now) }
{
    let rest = open_parenthesis(words)?;
    let (first, rest) = operand(alloc, rest, levels)?;
    let rest = comma(rest)?;
    let (second, rest) = operand(alloc, rest, levels)?;
    let rest = close_parenthesis(rest)?;
    Ok((first, second, rest))
}

/// The arguments of `begins_with`.
fn begins<'t, 'a>(
    alloc: Global,
    words: &'t [Word<'a>],
    levels: usize,
) -> Result<(Condition, &'t [Word<'a>]), Stop>
    ensures goes { Parses whole (operands_then levels (Do (OfSides FrontTest) ∷ [])) [] words.now result }
    ensures shorter { IfOk result (λ x. length x.1.now < length words.now) }
{
    let (operand, front, rest) = two_operands(alloc, words, levels)?;
    Ok((Condition::Begins(operand, front), rest))
}

/// The arguments of `contains`.
fn contains<'t, 'a>(
    alloc: Global,
    words: &'t [Word<'a>],
    levels: usize,
) -> Result<(Condition, &'t [Word<'a>]), Stop>
    ensures goes { Parses whole (operands_then levels (Do (OfSides PartTest) ∷ [])) [] words.now result }
    ensures shorter { IfOk result (λ x. length x.1.now < length words.now) }
{
    let (operand, part, rest) = two_operands(alloc, words, levels)?;
    Ok((Condition::Contains(operand, part), rest))
}

/// The argument of `size`, and what is said of the size.
fn size_predicate<'t, 'a>(
    alloc: Global,
    words: &'t [Word<'a>],
    levels: usize,
) -> Result<(Condition, &'t [Word<'a>]), Stop>
    ensures goes { Parses whole (ASign sign.OpenParenthesis ∷ APath ∷ ASign sign.CloseParenthesis ∷ Do MakeSize ∷ ARest levels ∷ [])
        [] words.now result }
    ensures shorter { IfOk result (λ x. length x.1.now < length words.now) }
{
    let (size, rest) = size_of(alloc, words)?;
    predicate(alloc, size, rest, levels)
}

/// The part that begins with the function of this name. Its parenthesis, which takes a level, is
/// first.
#[tactic(auto, using(expr_words::proofs::Steps::known_calls))]
fn call<'t, 'a>(
    alloc: Global,
    name: &str,
    words: &'t [Word<'a>],
    levels: usize,
) -> Result<(Condition, &'t [Word<'a>]), Stop>
    requires { opens (meanings words.now) ≡ true }
    ensures goes { Parses whole (NamedPart levels name.now ∷ []) [] words.now result }
    ensures shorter { IfOk result (λ x. length x.1.now < length words.now) }
{
    match (function_of(name), fewer(levels)) {
        (Function::Size, Some(_)) => size_predicate(alloc, words, levels),
        (Function::Exists, Some(_)) => exists(alloc, words),
        (Function::NotExists, Some(_)) => absent(alloc, words),
        (Function::HasType, Some(_)) => of_kind(alloc, words),
        (Function::BeginsWith, Some(inner)) => begins(alloc, words, inner),
        (Function::Contains, Some(inner)) => contains(alloc, words, inner),
        _ => Err(stuck(words)),
    }
}

/// A value or a path, where no function is called, and what is said of it.
fn plain_predicate<'t, 'a>(
    alloc: Global,
    words: &'t [Word<'a>],
    levels: usize,
) -> Result<(Condition, &'t [Word<'a>]), Stop>
    requires { calls (meanings words.now) ≡ false }
    ensures goes { Parses whole (AnOperand 0 ∷ ARest levels ∷ []) [] words.now result }
    ensures shorter { IfOk result (λ x. length x.1.now < length words.now) }
{
    let (first, rest) = plain_operand(alloc, words)?;
    predicate(alloc, first, rest, levels)
}

/// A part that begins with no NOT and no parenthesis. Where it does, nothing is said of the answer.
pub(crate) fn flat<'t, 'a>(
    alloc: Global,
    words: &'t [Word<'a>],
    levels: usize,
) -> Result<(Condition, &'t [Word<'a>]), Stop>
    ensures goes { is_deeper (meanings words.now) ≡ false
        → Parses whole (APart levels ∷ []) [] words.now result }
    ensures shorter { IfOk result (λ x. length x.1.now < length words.now) }
{
    match called(words) {
        Some((name, rest)) => call(alloc, name, rest, levels),
        None => plain_predicate(alloc, words, levels),
    }
}
