//! Operands: paths, values and sizes.
#![tactic(auto)]

ghost use Rattle.std.specs.Prelude.{◌≡◌, ◌<◌, ◌∷◌, zero, suc, true, false, length, IfOk, IfSome, MatchOption, []};
ghost use Rattle.expr_words.specs.Words.{meanings};
ghost use Rattle.expr_words.specs.Fronts.{opens, calls, IsCall, IsValue};
ghost use Rattle.expr_words.specs.Parses.{Parses};
ghost use Rattle.expr_lexer.specs.declared.token.TokenKind.TheVariants as sign;
ghost use Rattle.expr_words.specs.Machine.{Side, APath, AnOperand, NamedOperand, ASign, Do, MakePath, MakeSize};

use crate::argument::path_argument;
use expr_lexer::TokenKind;
use expr_words::{
    Function, Operand, Stop, Word, called, document_path, fewer, function_of, held, stuck,
};
use std::alloc::Global;

/// The size of what stands at the path in parentheses.
#[tactic(auto, using(expr_words::proofs::Steps::do_it))]
pub(crate) fn size_of<'t, 'a>(
    alloc: Global,
    words: &'t [Word<'a>],
) -> Result<(Operand, &'t [Word<'a>]), Stop>
    ensures goes { Parses Side (ASign sign.OpenParenthesis ∷ APath ∷ ASign sign.CloseParenthesis ∷ Do MakeSize ∷ []) [] words.now result }
    ensures shorter { IfOk result (λ x. length x.1.now < length words.now) }
{
    let (path, rest) = path_argument(alloc, words)?;
    Ok((Operand::Size(path), rest))
}

/// A value or a path, where no function is called.
pub(crate) fn plain_operand<'t, 'a>(
    alloc: Global,
    words: &'t [Word<'a>],
) -> Result<(Operand, &'t [Word<'a>]), Stop>
    requires { calls (meanings words.now) ≡ false }
    ensures goes { Parses Side (AnOperand 0 ∷ []) [] words.now result }
    ensures shorter { IfOk result (λ x. length x.1.now < length words.now) }
{
    match held(words) {
        Some((place, rest)) => Ok((Operand::Value(place), rest)),
        None => path_operand(alloc, words),
    }
}

/// What stands at a path.
#[tactic(auto, using(expr_words::proofs::Steps::do_it))]
fn path_operand<'t, 'a>(
    alloc: Global,
    words: &'t [Word<'a>],
) -> Result<(Operand, &'t [Word<'a>]), Stop>
    ensures goes { Parses Side (APath ∷ Do MakePath ∷ []) [] words.now result }
    ensures shorter { IfOk result (λ x. length x.1.now < length words.now) }
{
    let (path, rest) = document_path(alloc, words)?;
    Ok((Operand::Path(path), rest))
}

/// What the function of this name, whose opening parenthesis is first, gives as an operand: size
/// alone does.
#[tactic(auto, using(expr_words::proofs::Steps::size_call))]
fn operand_call<'t, 'a>(
    alloc: Global,
    name: &str,
    words: &'t [Word<'a>],
    levels: usize,
) -> Result<(Operand, &'t [Word<'a>]), Stop>
    requires { opens (meanings words.now) ≡ true }
    ensures goes { Parses Side (NamedOperand levels name.now ∷ []) [] words.now result }
    ensures shorter { IfOk result (λ x. length x.1.now < length words.now) }
{
    match (function_of(name), fewer(levels)) {
        (Function::Size, Some(_)) => size_of(alloc, words),
        _ => Err(stuck(words)),
    }
}

/// An operand, in which this many levels of parentheses may be opened.
pub(crate) fn operand<'t, 'a>(
    alloc: Global,
    words: &'t [Word<'a>],
    levels: usize,
) -> Result<(Operand, &'t [Word<'a>]), Stop>
    ensures goes { Parses Side (AnOperand levels ∷ []) [] words.now result }
    ensures shorter { IfOk result (λ x. length x.1.now < length words.now) }
{
    match called(words) {
        Some((name, rest)) => operand_call(alloc, name, rest, levels),
        None => plain_operand(alloc, words),
    }
}
