//! Single signs, where nothing else may stand.

ghost use Rattle.std.specs.Prelude.{◌≡◌, ◌<◌, length, IfOk};
ghost use Rattle.expr_words.specs.Words.{meanings};
ghost use Rattle.expr_words.specs.Parses.{Skips};
ghost use Rattle.expr_lexer.specs.declared.token.TokenKind.TheVariants as sign;
ghost use Rattle.expr_words.specs.Machine.{ASign};

use crate::stop::Stop;
use crate::word::Word;
use expr_lexer::TokenKind;

/// What is answered where no sentence goes on with the first of these words.
#[tactic(auto, using(crate::proofs::Steps::length_meanings))]
pub fn stuck<'a>(words: &[Word<'a>]) -> Stop
    ensures { result ≡ Stop.Syntax (length (meanings words.now)) }
{
    Stop::Syntax(words.len())
}

/// Behind an opening parenthesis.
pub fn open_parenthesis<'t, 'a>(words: &'t [Word<'a>]) -> Result<&'t [Word<'a>], Stop>
    ensures goes { Skips (ASign sign.OpenParenthesis) words.now result }
    ensures shorter { IfOk result (λ x. length x.now < length words.now) }
{
    match words {
        [Word::Sign(TokenKind::OpenParenthesis), rest @ ..] => Ok(rest),
        _ => Err(stuck(words)),
    }
}

/// Behind a closing parenthesis.
pub fn close_parenthesis<'t, 'a>(words: &'t [Word<'a>]) -> Result<&'t [Word<'a>], Stop>
    ensures goes { Skips (ASign sign.CloseParenthesis) words.now result }
    ensures shorter { IfOk result (λ x. length x.now < length words.now) }
{
    match words {
        [Word::Sign(TokenKind::CloseParenthesis), rest @ ..] => Ok(rest),
        _ => Err(stuck(words)),
    }
}

/// Behind a closing bracket.
pub fn close_bracket<'t, 'a>(words: &'t [Word<'a>]) -> Result<&'t [Word<'a>], Stop>
    ensures goes { Skips (ASign sign.CloseBracket) words.now result }
    ensures shorter { IfOk result (λ x. length x.now < length words.now) }
{
    match words {
        [Word::Sign(TokenKind::CloseBracket), rest @ ..] => Ok(rest),
        _ => Err(stuck(words)),
    }
}

/// Behind a comma.
pub fn comma<'t, 'a>(words: &'t [Word<'a>]) -> Result<&'t [Word<'a>], Stop>
    ensures goes { Skips (ASign sign.Comma) words.now result }
    ensures shorter { IfOk result (λ x. length x.now < length words.now) }
{
    match words {
        [Word::Sign(TokenKind::Comma), rest @ ..] => Ok(rest),
        _ => Err(stuck(words)),
    }
}

/// Behind an AND.
pub fn and<'t, 'a>(words: &'t [Word<'a>]) -> Result<&'t [Word<'a>], Stop>
    ensures goes { Skips (ASign sign.And) words.now result }
    ensures shorter { IfOk result (λ x. length x.now < length words.now) }
{
    match words {
        [Word::Sign(TokenKind::And), rest @ ..] => Ok(rest),
        _ => Err(stuck(words)),
    }
}

/// Behind an equals sign.
pub fn equal<'t, 'a>(words: &'t [Word<'a>]) -> Result<&'t [Word<'a>], Stop>
    ensures goes { Skips (ASign sign.Equal) words.now result }
    ensures shorter { IfOk result (λ x. length x.now < length words.now) }
{
    match words {
        [Word::Sign(TokenKind::Equal), rest @ ..] => Ok(rest),
        _ => Err(stuck(words)),
    }
}
