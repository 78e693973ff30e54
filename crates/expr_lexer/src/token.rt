ghost use Rattle.std.specs.Prelude.{◌≡◌};
ghost use Rattle.expr_lexer.specs.declared.token.LexEnd.TheVariants.{NoMemory};
ghost use Rattle.expr_lexer.specs.Spans.{IsPart, word_of};

use std::alloc::AllocFailed;

/// What a token is. Keywords are told in upper, lower and mixed case.
/// Developer Guide: Reserved words, Expressions.
#[derive(Debug, Clone, Copy, PartialEq, Eq, Drop)]
pub enum TokenKind {
    /// A letter or `_`, then letters, digits and `_`, all ASCII: an attribute or a function.
    Name,
    /// `#` and at least one letter, digit or `_`.
    NamePlaceholder,
    /// `:` and at least one letter, digit or `_`.
    ValuePlaceholder,
    /// 1 to 9 digits.
    Index,
    And,
    Or,
    Not,
    Between,
    In,
    Set,
    Remove,
    Add,
    Delete,
    /// `=`
    Equal,
    /// `<>`
    Unequal,
    /// `<`
    Less,
    /// `<=`
    AtMost,
    /// `>`
    More,
    /// `>=`
    AtLeast,
    OpenParenthesis,
    CloseParenthesis,
    OpenBracket,
    CloseBracket,
    Comma,
    Dot,
    Plus,
    Minus,
}

/// A token of an expression: the bytes of the text from place `from` to before place `to`.
#[derive(Debug, Clone, Copy, PartialEq, Eq, Drop)]
pub struct Token {
    pub kind: TokenKind,
    pub from: u32,
    pub to: u32,
}

impl Token {
    /// The token's own text, of the text that it is a token of.
    pub fn word(self, text: &str) -> &str
        requires { IsPart text.now self }
        ensures { result.now ≡ word_of text.now self }
    {
        &text[self.from as usize..self.to as usize]
    }
}

/// Why a text was not answered as tokens.
#[derive(Debug, Clone, Copy, PartialEq, Eq, Drop)]
pub enum LexEnd {
    /// At this place of the text a byte begins no token, or is the tenth digit of a number.
    BadCharacter { place: u32 },
    /// Memory ran out.
    NoMemory,
}

impl From<AllocFailed<Token>> for LexEnd {
    ghost from_gives = { λ _ end. end ≡ NoMemory };

    fn from(_: AllocFailed<Token>) -> LexEnd {
        LexEnd::NoMemory
    }
}
