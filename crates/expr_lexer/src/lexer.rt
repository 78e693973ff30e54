ghost use Rattle.std.specs.Prelude.{◌≡◌, ◌+◌, ◌^◌, ◌<◌, ◌≤◌, length, IfSome, IfOk, Some, All};
ghost use Rattle.std.specs.Char.{is_ascii_digit};
ghost use Rattle.std.specs.List.{prefix_len};
ghost use Rattle.std.specs.Str.{str_eq_ignore_ascii_case};
ghost use Rattle.expr_lexer.specs.Character.{is_blank, is_letter, is_word_byte};
ghost use Rattle.expr_lexer.specs.Lexeme.{word_kind, word_lexeme, placeholder, sign, front_lexeme, is_too_long};
ghost use Rattle.expr_lexer.specs.Lexes.{IsLexed, HasOneReading};
ghost use Rattle.expr_lexer.specs.Spans.{Follow, IsPart};
ghost use Rattle.expr_lexer.specs.Spelling.{IsSpelled};
ghost use Rattle.expr_lexer.specs.Longest.{IsLongest};
ghost use Rattle.expr_lexer.specs.Steps.{Steps, GoesOn, BeginsToken};

use crate::token::{LexEnd, Token, TokenKind};
use base_types::Seq;
use std::alloc::Global;

/// What stands at the front of some bytes.
#[derive(Clone, Copy, PartialEq, Eq, Drop)]
pub struct Lexeme {
    pub kind: TokenKind,
    /// In bytes.
    pub size: usize,
}

/// A step over the front of what is left, with what is left then.
#[derive(Drop)]
enum Front<'a> {
    End,
    Blank(&'a [u8]),
    Found(Token, &'a [u8]),
    Bad(u32),
}

/// The most digits of an index.
const MOST_DIGITS: usize = 9;

/// A space, a tab, a carriage return or a line feed.
fn blank(byte: u8) -> bool
    ensures { result ≡ is_blank byte }
{
    matches!(byte, b' ' | b'\t' | b'\r' | b'\n')
}

/// What begins a name.
fn begins_name(byte: u8) -> bool
    ensures { result ≡ is_letter byte }
{
    byte.is_ascii_alphabetic() || byte == b'_'
}

/// What goes on in a name.
fn goes_on(byte: u8) -> bool
    ensures { result ≡ is_word_byte byte }
{
    byte.is_ascii_alphanumeric() || byte == b'_'
}

/// How many bytes at the front may go on in a name.
fn word_size(bytes: &[u8]) -> usize
    ensures value { result ≡ prefix_len is_word_byte bytes.now }
    ensures within { result ≤ length bytes.now }
{
    bytes.iter().take_while(|byte| goes_on(**byte)).count()
}

/// How many digits stand at the front.
fn digits(bytes: &[u8]) -> usize
    ensures value { result ≡ prefix_len is_ascii_digit bytes.now }
    ensures within { result ≤ length bytes.now }
{
    bytes
        .iter()
        .take_while(|byte| byte.is_ascii_digit())
        .count()
}

/// Whether the word is the keyword, in any case.
fn is_keyword(word: &[u8], keyword: &[u8]) -> bool
    ensures { result ≡ str_eq_ignore_ascii_case word.now keyword.now }
{
    word.eq_ignore_ascii_case(keyword)
}

/// The keyword that a word is, or a name.
fn kind_of_word(word: &[u8]) -> TokenKind
    ensures { result ≡ word_kind word.now }
{
    if is_keyword(word, b"AND") {
        TokenKind::And
    } else if is_keyword(word, b"OR") {
        TokenKind::Or
    } else if is_keyword(word, b"NOT") {
        TokenKind::Not
    } else if is_keyword(word, b"BETWEEN") {
        TokenKind::Between
    } else if is_keyword(word, b"IN") {
        TokenKind::In
    } else if is_keyword(word, b"SET") {
        TokenKind::Set
    } else if is_keyword(word, b"REMOVE") {
        TokenKind::Remove
    } else if is_keyword(word, b"ADD") {
        TokenKind::Add
    } else if is_keyword(word, b"DELETE") {
        TokenKind::Delete
    } else {
        TokenKind::Name
    }
}

/// The name or the keyword of this size at the front.
fn word_at(bytes: &[u8], size: usize) -> Lexeme
    requires { size ≤ length bytes.now }
    ensures { result ≡ word_lexeme bytes.now size }
{
    Lexeme {
        kind: kind_of_word(&bytes[..size]),
        size,
    }
}

/// The placeholder of this kind whose word is at the front of what follows its sign.
fn placeholder_before(kind: TokenKind, rest: &[u8]) -> Option<Lexeme>
    requires { length rest.now < 2 ^ 63 }
    ensures value { result ≡ placeholder kind (prefix_len is_word_byte rest.now) }
    ensures within { IfSome result (λ found. (0 < found.size) × (found.size ≤ 1 + length rest.now)) }
{
    let size = word_size(rest);
    if size == 0 {
        return None;
    }
    Some(Lexeme {
        kind,
        size: 1 + size,
    })
}

/// The sign at the front.
#[tactic(auto, unfolding(crate::specs::Lexeme::sign))]
fn sign_at(bytes: &[u8]) -> Option<Lexeme>
    ensures value { result ≡ sign bytes.now }
    ensures within { IfSome result (λ found. (0 < found.size) × (found.size ≤ length bytes.now)) }
{
    let (kind, size) = match bytes {
        [b'<', b'>', ..] => (TokenKind::Unequal, 2),
        [b'<', b'=', ..] => (TokenKind::AtMost, 2),
        [b'>', b'=', ..] => (TokenKind::AtLeast, 2),
        [b'=', ..] => (TokenKind::Equal, 1),
        [b'<', ..] => (TokenKind::Less, 1),
        [b'>', ..] => (TokenKind::More, 1),
        [b'(', ..] => (TokenKind::OpenParenthesis, 1),
        [b')', ..] => (TokenKind::CloseParenthesis, 1),
        [b'[', ..] => (TokenKind::OpenBracket, 1),
        [b']', ..] => (TokenKind::CloseBracket, 1),
        [b',', ..] => (TokenKind::Comma, 1),
        [b'.', ..] => (TokenKind::Dot, 1),
        [b'+', ..] => (TokenKind::Plus, 1),
        [b'-', ..] => (TokenKind::Minus, 1),
        _ => return None,
    };
    Some(Lexeme { kind, size })
}

/// The token at the front, as long as may be.
fn lexeme_at(bytes: &[u8]) -> Option<Lexeme>
    requires { length bytes.now < 2 ^ 63 }
    ensures value { result ≡ front_lexeme bytes.now }
    ensures within { IfSome result (λ found. (0 < found.size) × (found.size ≤ length bytes.now)) }
{
    match bytes {
        [] => None,
        [b'#', rest @ ..] => placeholder_before(TokenKind::NamePlaceholder, rest),
        [b':', rest @ ..] => placeholder_before(TokenKind::ValuePlaceholder, rest),
        [byte, rest @ ..] if begins_name(*byte) => Some(word_at(bytes, 1 + word_size(rest))),
        [byte, rest @ ..] if byte.is_ascii_digit() => Some(Lexeme {
            kind: TokenKind::Index,
            size: 1 + digits(rest),
        }),
        _ => sign_at(bytes),
    }
}

/// Whether these are more digits than an index has.
fn too_long(found: Lexeme) -> bool
    ensures { result ≡ is_too_long found }
{
    matches!(found.kind, TokenKind::Index) && found.size > MOST_DIGITS
}

/// The step over what was found at the front.
fn step_over(bytes: &[u8], place: u32, found: Lexeme) -> Front<'_>
    requires fits { place + length bytes.now < 2 ^ 32 }
    requires begun { BeginsToken bytes.now }
    requires found { front_lexeme bytes.now ≡ Some found }
    requires within { (0 < found.size) × (found.size ≤ length bytes.now) }
    ensures steps { Steps place bytes.now result }
    ensures goes_on { GoesOn place bytes.now result }
{
    if too_long(found) {
        return Front::Bad(place + MOST_DIGITS as u32);
    }
    let token = Token {
        kind: found.kind,
        from: place,
        to: place + found.size as u32,
    };
    Front::Found(token, &bytes[found.size..])
}

/// The step over the front of bytes that stand at this place of the text.
fn step(bytes: &[u8], place: u32) -> Front<'_>
    requires { place + length bytes.now < 2 ^ 32 }
    ensures steps { Steps place bytes.now result }
    ensures goes_on { GoesOn place bytes.now result }
{
    match bytes {
        [] => Front::End,
        [byte, rest @ ..] if blank(*byte) => Front::Blank(rest),
        _ => match lexeme_at(bytes) {
            Some(found) => step_over(bytes, place, found),
            None => Front::Bad(place),
        },
    }
}

/// The tokens of `text` in order, each with the place of its bytes, and as long as may be where several
/// begin at one byte. Spaces, tabs, carriage returns and line feeds separate tokens.
///
/// Answers `BadCharacter` with the place of the first byte that begins no token, or of the tenth digit of a
/// number, and `NoMemory` where memory runs out. Developer Guide: Expressions.
pub fn tokens(alloc: Global, text: &str) -> Result<Seq<Token>, LexEnd>
    requires { length text.now < 2 ^ 32 }
    ensures lexed { IsLexed text.now result }
    ensures follow { IfOk result (Follow 0 text.now) }
    ensures parts { IfOk result (All (IsPart text.now)) }
    ensures spelled { IfOk result (All (IsSpelled text.now)) }
    ensures longest { IfOk result (All (IsLongest text.now)) }
{
    let mut found = Seq::new(alloc);
    let mut rest = text.as_bytes();
    let mut place = 0u32;
    loop {
        match step(rest, place) {
            Front::End => return Ok(found),
            Front::Blank(after) => {
                rest = after;
                place += 1;
            }
            Front::Found(token, after) => {
                found.push(token)?;
                rest = after;
                place = token.to;
            }
            Front::Bad(place) => return Err(LexEnd::BadCharacter { place }),
        }
    }
}

/// A text reads in one way only: as these tokens, or with its first fault at this place. The function does
/// nothing: its clause is the law.
pub fn one_reading()
    ensures { HasOneReading }
{}
