//! The paths among the arguments of a function.
#![tactic(auto)]

ghost use Rattle.std.specs.Prelude.{◌<◌, ◌∷◌, length, IfOk, []};
ghost use Rattle.expr_lexer.specs.declared.token.TokenKind.TheVariants as sign;
ghost use Rattle.expr_words.specs.Parses.{Parses};
ghost use Rattle.expr_words.specs.Machine.{Steps, APath, ASign};

use base_types::DocPath;
use expr_words::{Stop, Word, close_parenthesis, comma, document_path, open_parenthesis};
use std::alloc::Global;

/// A path in parentheses.
pub(crate) fn path_argument<'t, 'a>(
    alloc: Global,
    words: &'t [Word<'a>],
) -> Result<(DocPath, &'t [Word<'a>]), Stop>
    ensures goes { Parses (λ path. Steps path.steps) (ASign sign.OpenParenthesis ∷ APath ∷ ASign sign.CloseParenthesis ∷ [])
        [] words.now result }
    ensures shorter { IfOk result (λ x. length x.1.now < length words.now) }
{
    let rest = open_parenthesis(words)?;
    let (path, rest) = document_path(alloc, rest)?;
    let rest = close_parenthesis(rest)?;
    Ok((path, rest))
}

/// The path behind an opening parenthesis, and the comma behind it.
pub(crate) fn first_path<'t, 'a>(
    alloc: Global,
    words: &'t [Word<'a>],
) -> Result<(DocPath, &'t [Word<'a>]), Stop>
    ensures goes { Parses (λ path. Steps path.steps) (ASign sign.OpenParenthesis ∷ APath ∷ ASign sign.Comma ∷ [])
        [] words.now result }
    ensures shorter { IfOk result (λ x. length x.1.now < length words.now) }
{
    let rest = open_parenthesis(words)?;
    let (path, rest) = document_path(alloc, rest)?;
    let rest = comma(rest)?;
    Ok((path, rest))
}
