//! The tokens of an expression.
//!
//! [`tokens`] reads the text of an expression as its tokens, each with the place of its bytes, or tells the
//! first byte that can't be read. A text has one such reading (`specs/Lexes.antt`, [`one_reading`]). A token is the
//! longest that begins at its place (`specs/Longest.antt`).
//!
//! The types that parsers hand on, texts, lists and document paths, are those of `base_types`.
#![tactic(auto)]

mod lexer;
mod token;

pub use base_types::{Bytes, DocPath, Seq, Step, Text};
pub use lexer::{one_reading, tokens};
pub use token::{LexEnd, Token, TokenKind};
