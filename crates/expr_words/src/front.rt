//! What stands first, where that decides how the parser goes on.
#![tactic(auto)]

ghost use Rattle.std.specs.Prelude.{◌≡◌, ◌<◌, ◌∷◌, [], length, IfOk, IfSome, MatchOption, zero, suc};
ghost use Rattle.expr_words.specs.Words.{meanings};
ghost use Rattle.expr_words.specs.Parses.{Parses};
ghost use Rattle.expr_words.specs.Machine.{Place, AValue};
ghost use Rattle.expr_words.specs.Fronts.{opens, IsCall, IsValue, IsBehindComma};

use crate::sign::stuck;
use crate::stop::Stop;
use crate::word::Word;
use expr_lexer::TokenKind;

/// One less, unless there is none: of levels, when one more is opened, or of choices that may
/// follow.
pub fn fewer(count: usize) -> Option<usize>
    ensures { MatchOption result (count ≡ zero) (λ less. count ≡ suc less) }
{
    if count == 0 { None } else { Some(count - 1) }
}

/// A name before an opening parenthesis, and what is behind the name.
pub fn called<'t, 'a>(words: &'t [Word<'a>]) -> Option<(&'a str, &'t [Word<'a>])>
    ensures call { IsCall (λ x. x.0.now) (λ x. meanings x.1.now) (meanings words.now) result }
    ensures shorter { IfSome result (λ x. length x.1.now < length words.now) }
{
    match words {
        [Word::Bare(name), rest @ ..] if opens(rest) => Some((name, rest)),
        _ => None,
    }
}

/// Whether an opening parenthesis is first.
fn opens<'a>(words: &[Word<'a>]) -> bool
    ensures { result ≡ opens (meanings words.now) }
{
    matches!(words, [Word::Sign(TokenKind::OpenParenthesis), ..])
}

/// The value that is first, by its place, and what is behind it.
pub fn held<'t, 'a>(words: &'t [Word<'a>]) -> Option<(u32, &'t [Word<'a>])>
    ensures value { IsValue (λ x. x.0) (λ x. meanings x.1.now) (meanings words.now) result }
    ensures shorter { IfSome result (λ x. length x.1.now < length words.now) }
{
    match words {
        [Word::Held(place), rest @ ..] => Some((*place, rest)),
        _ => None,
    }
}

/// Behind the comma that is first.
pub fn behind_comma<'t, 'a>(words: &'t [Word<'a>]) -> Option<&'t [Word<'a>]>
    ensures comma { IsBehindComma (λ x. meanings x.now) (meanings words.now) result }
    ensures shorter { IfSome result (λ x. length x.now < length words.now) }
{
    match words {
        [Word::Sign(TokenKind::Comma), rest @ ..] => Some(rest),
        _ => None,
    }
}

/// A value, by its place.
pub fn value<'t, 'a>(words: &'t [Word<'a>]) -> Result<(u32, &'t [Word<'a>]), Stop>
    ensures goes { Parses Place (AValue ∷ []) [] words.now result }
    ensures shorter { IfOk result (λ x. length x.1.now < length words.now) }
{
    match words {
        [Word::Held(place), rest @ ..] => Ok((*place, rest)),
        _ => Err(stuck(words)),
    }
}
