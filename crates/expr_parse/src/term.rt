//! The terms and the sums of an update.
#![tactic(auto, using(expr_words::proofs::Steps::do_it))]

ghost use Rattle.std.specs.Prelude.{◌≡◌, ◌<◌, ◌≤◌, ◌∷◌, true, false, length, IfOk, []};
ghost use Rattle.expr_parse.specs.Arguments.{terms_then};
ghost use Rattle.expr_lexer.specs.declared.token.TokenKind.TheVariants as sign;
ghost use Rattle.expr_words.specs.Trees.{term_tree, Plus, Minus};
ghost use Rattle.expr_words.specs.Words.{meanings};
ghost use Rattle.expr_words.specs.Fronts.{opens, calls};
ghost use Rattle.expr_words.specs.Parses.{Parses, termed, summed};
ghost use Rattle.expr_words.specs.Machine.{Steps, Termed, APath, ATerm, NamedTerm, ASum, MoreSum, ASign, Do, MakeTerm, MakeOrElse, MakeAppended, OfTerms};

use crate::argument::first_path;
use crate::boxes::boxed_pair;
use base_types::DocPath;
use expr_lexer::TokenKind;
use expr_words::{
    Function, Stop, Sum, Term, Word, called, close_parenthesis, comma, document_path, fewer,
    function_of, held, open_parenthesis, stuck,
};
use std::alloc::Global;

/// What stands at a path.
fn path_term<'t, 'a>(alloc: Global, words: &'t [Word<'a>]) -> Result<(Term, &'t [Word<'a>]), Stop>
    ensures goes { Parses termed (APath ∷ Do MakeTerm ∷ []) [] words.now result }
    ensures shorter { IfOk result (λ x. length x.1.now < length words.now) }
{
    let (path, rest) = document_path(alloc, words)?;
    Ok((Term::Path(path), rest))
}

/// A value or a path, where no function is called.
fn plain_term<'t, 'a>(alloc: Global, words: &'t [Word<'a>]) -> Result<(Term, &'t [Word<'a>]), Stop>
    requires { calls (meanings words.now) ≡ false }
    ensures goes { Parses termed (ATerm 0 ∷ []) [] words.now result }
    ensures shorter { IfOk result (λ x. length x.1.now < length words.now) }
{
    match held(words) {
        Some((place, rest)) => Ok((Term::Value(place), rest)),
        None => path_term(alloc, words),
    }
}

/// The second argument of `if_not_exists`, behind the comma.
#[cycle(term)]
fn default_term<'t, 'a>(
    alloc: Global,
    path: DocPath,
    words: &'t [Word<'a>],
    levels: usize,
) -> Result<(Term, &'t [Word<'a>]), Stop>
    ensures goes { Parses termed
        (ATerm levels ∷ ASign sign.CloseParenthesis ∷ Do MakeOrElse ∷ [])
        (Steps path.steps ∷ []) words.now result }
    ensures shorter { IfOk result (λ x. length x.1.now < length words.now) }
{
    let (other, rest) = term(alloc, words, levels)?;
    let rest = close_parenthesis(rest)?;
    Ok((Term::IfNotExists(path, Box::new(alloc, other)?), rest))
}

/// The arguments of `if_not_exists`.
#[cycle(term)]
fn if_not_exists<'t, 'a>(
    alloc: Global,
    words: &'t [Word<'a>],
    levels: usize,
) -> Result<(Term, &'t [Word<'a>]), Stop>
    ensures goes { Parses termed
        (ASign sign.OpenParenthesis ∷ APath ∷ ASign sign.Comma ∷ ATerm levels
        ∷ ASign sign.CloseParenthesis ∷ Do MakeOrElse ∷ [])
        [] words.now result }
    ensures shorter { IfOk result (λ x. length x.1.now < length words.now) }
{
    let (path, rest) = first_path(alloc, words)?;
    default_term(alloc, path, rest, levels)
}

/// The second argument of `list_append`, behind the comma.
#[cycle(term)]
fn back_term<'t, 'a>(
    alloc: Global,
    front: Term,
    words: &'t [Word<'a>],
    levels: usize,
) -> Result<(Term, &'t [Word<'a>]), Stop>
    ensures goes { Parses termed
        (ATerm levels ∷ ASign sign.CloseParenthesis ∷ Do MakeAppended ∷ [])
        (Termed (term_tree front) ∷ []) words.now result }
    ensures shorter { IfOk result (λ x. length x.1.now < length words.now) }
{
    let (back, rest) = term(alloc, words, levels)?;
    let rest = close_parenthesis(rest)?;
    let (front, back) = boxed_pair(alloc, front, back)?;
    Ok((Term::Append(front, back), rest))
}

/// The first argument of `list_append`, and the comma behind it.
#[cycle(term)]
fn front_term<'t, 'a>(
    alloc: Global,
    words: &'t [Word<'a>],
    levels: usize,
) -> Result<(Term, &'t [Word<'a>]), Stop>
    ensures goes { Parses termed (ATerm levels ∷ ASign sign.Comma ∷ []) [] words.now result }
    ensures shorter { IfOk result (λ x. length x.1.now < length words.now) }
{
    let (front, rest) = term(alloc, words, levels)?;
    let rest = comma(rest)?;
    Ok((front, rest))
}

/// The arguments of `list_append`.
#[cycle(term)]
fn list_append<'t, 'a>(
    alloc: Global,
    words: &'t [Word<'a>],
    levels: usize,
) -> Result<(Term, &'t [Word<'a>]), Stop>
    ensures goes { Parses termed (terms_then levels (Do MakeAppended ∷ [])) [] words.now result }
    ensures shorter { IfOk result (λ x. length x.1.now < length words.now) }
{
    let rest = open_parenthesis(words)?;
    let (front, rest) = front_term(alloc, rest, levels)?;
    back_term(alloc, front, rest, levels)
}

/// What the function of this name gives, whose opening parenthesis is first. It takes a level.
#[cycle(term)]
#[tactic(auto, using(expr_words::proofs::Steps::known_term_calls))]
fn term_call<'t, 'a>(
    alloc: Global,
    name: &str,
    words: &'t [Word<'a>],
    levels: usize,
) -> Result<(Term, &'t [Word<'a>]), Stop>
    requires { opens (meanings words.now) ≡ true }
    ensures goes { Parses termed (NamedTerm levels name.now ∷ []) [] words.now result }
    ensures shorter { IfOk result (λ x. length x.1.now < length words.now) }
{
    match (function_of(name), fewer(levels)) {
        (Function::IfNotExists, Some(inner)) => if_not_exists(alloc, words, inner),
        (Function::ListAppend, Some(inner)) => list_append(alloc, words, inner),
        _ => Err(stuck(words)),
    }
}

/// A term, in which this many levels of parentheses may be opened.
#[cycle(term)]
fn term<'t, 'a>(
    alloc: Global,
    words: &'t [Word<'a>],
    levels: usize,
) -> Result<(Term, &'t [Word<'a>]), Stop>
    ensures goes { Parses termed (ATerm levels ∷ []) [] words.now result }
    ensures shorter { IfOk result (λ x. length x.1.now < length words.now) }
{
    match called(words) {
        Some((name, rest)) => term_call(alloc, name, rest, levels),
        None => plain_term(alloc, words),
    }
}

/// The term behind a plus.
fn plus<'t, 'a>(
    alloc: Global,
    left: Term,
    words: &'t [Word<'a>],
    levels: usize,
) -> Result<(Sum, &'t [Word<'a>]), Stop>
    ensures goes { Parses summed (ATerm levels ∷ Do (OfTerms Plus) ∷ [])
        (Termed (term_tree left) ∷ []) words.now result }
    ensures shorter { IfOk result (λ x. length x.1.now < length words.now) }
{
    let (right, rest) = term(alloc, words, levels)?;
    Ok((Sum::Plus(left, right), rest))
}

/// The term behind a minus.
fn minus<'t, 'a>(
    alloc: Global,
    left: Term,
    words: &'t [Word<'a>],
    levels: usize,
) -> Result<(Sum, &'t [Word<'a>]), Stop>
    ensures goes { Parses summed (ATerm levels ∷ Do (OfTerms Minus) ∷ [])
        (Termed (term_tree left) ∷ []) words.now result }
    ensures shorter { IfOk result (λ x. length x.1.now < length words.now) }
{
    let (right, rest) = term(alloc, words, levels)?;
    Ok((Sum::Minus(left, right), rest))
}

/// The sum that begins with this term.
fn sum_end<'t, 'a>(
    alloc: Global,
    first: Term,
    words: &'t [Word<'a>],
    levels: usize,
) -> Result<(Sum, &'t [Word<'a>]), Stop>
    ensures goes { Parses summed (MoreSum levels ∷ [])
        (Termed (term_tree first) ∷ []) words.now result }
    ensures no_longer { IfOk result (λ x. length x.1.now ≤ length words.now) }
{
    match words {
        [Word::Sign(TokenKind::Plus), rest @ ..] => plus(alloc, first, rest, levels),
        [Word::Sign(TokenKind::Minus), rest @ ..] => minus(alloc, first, rest, levels),
        _ => Ok((Sum::One(first), words)),
    }
}

/// A term, or two with a sign between them.
#[tactic(auto, using(expr_words::proofs::Steps::sum_starts))]
pub(crate) fn sum<'t, 'a>(
    alloc: Global,
    words: &'t [Word<'a>],
    levels: usize,
) -> Result<(Sum, &'t [Word<'a>]), Stop>
    ensures goes { Parses summed (ASum levels ∷ []) [] words.now result }
    ensures shorter { IfOk result (λ x. length x.1.now < length words.now) }
{
    let (first, rest) = term(alloc, words, levels)?;
    sum_end(alloc, first, rest, levels)
}
