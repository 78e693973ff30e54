//! The words that the parsers read.

use expr_lexer::TokenKind;

/// A token with what its bytes mean.
#[derive(Debug, Clone, Copy)]
pub enum Word<'a> {
    /// A name as it is written.
    Bare(&'a str),
    /// A placeholder of a name: the name that it stands for.
    Placed(&'a str),
    /// A placeholder of a value: the value's place.
    Held(u32),
    /// The number of an index.
    Number(u32),
    /// A keyword or a sign.
    Sign(TokenKind),
}
