//! From the tokens of a text to its words.

ghost use Rattle.std.specs.Prelude.{◌≡◌, ◌<◌, ◌^◌, ◌∷◌, [], length, true, All, IfOk, OnOk, option_map, option_to_list};
ghost use Rattle.std.specs.Str.Parse.{digits_value};
ghost use Rattle.expr_lexer.specs.declared.token.TokenKind.TheVariants.{NamePlaceholder, ValuePlaceholder};
ghost use Rattle.expr_lexer.specs.Spans.{IsPart};
ghost use Rattle.expr_lexer.specs.Spelling.{IsIndex, Spells, IsSpelled};
ghost use Rattle.expr_words.specs.Given.{name_place, value_place};
ghost use Rattle.expr_words.specs.Ascending.{AreAscending};
ghost use Rattle.expr_words.specs.Words.{meant, meanings, meaning, missing, words, undefined, fault_of};
ghost use Rattle.expr_words.specs.Marks.{IsMadeFor, Marks, KeepsMarks, name_used, value_used, MarksAll};

use crate::given::{Ascending, Given, Used};
use crate::word::Word;
use expr_lexer::{Token, TokenKind};
use std::alloc::{AllocError as NoMemory, Global};

/// A placeholder that is not given.
#[derive(Debug, Clone, Copy)]
pub enum Missing<'a> {
    Name(&'a str),
    Value(&'a str),
}

/// The words of a text, as far as they are given.
pub struct Reading<'a> {
    pub words: Vec<Word<'a>>,
    /// The first placeholder that is not given.
    pub undefined: Option<Missing<'a>>,
}

// By hand, so that no crate above proves it again.
impl Drop for Reading<'_> {
    fn drop(self) {
        let Reading {
            words: _,
            undefined: _,
        } = self;
    }
}

/// The number of an index.
fn number(digits: &str) -> u32
    requires { IsIndex digits.now }
    ensures { result ≡ digits_value 10 digits.now }
{
    digits.parse::<u32>().unwrap_or(0)
}

/// Marks a place as used.
fn mark(marks: &mut Vec<bool>, place: usize)
    requires { place < length marks.old.items }
    ensures marks { Marks (place ∷ []) marks.old.items marks.new.items }
    ensures same_length { length marks.new.items ≡ length marks.old.items }
{
    marks[place] = true;
}

/// What a placeholder of a name means. Where it is given it counts as used.
fn name_meaning<'a>(
    bytes: &'a str,
    given: &'a Given,
    ascending: Ascending,
    used: &mut Used,
) -> (Word<'a>, Option<Missing<'a>>)
    requires made_for { IsMadeFor given.now used.old }
    requires ascending { AreAscending given.now ascending }
    ensures word { meant result.0 ≡ meaning given.now NamePlaceholder bytes.now }
    ensures missing { option_map fault_of result.1 ≡ missing given.now NamePlaceholder bytes.now }
    ensures names { Marks (option_to_list (name_place given.now bytes.now))
        used.old.names.items used.new.names.items }
    ensures values { used.new.values ≡ used.old.values }
    ensures made_for { IsMadeFor given.now used.new }
{
    match given.name_place(ascending, bytes) {
        Some(place) => {
            mark(&mut used.names, place);
            (Word::Placed(given.name_at(place)), None)
        }
        None => (Word::Placed(""), Some(Missing::Name(bytes))),
    }
}

/// What a placeholder of a value means. Where it is given it counts as used.
fn value_meaning<'a>(
    bytes: &'a str,
    given: &Given,
    ascending: Ascending,
    used: &mut Used,
) -> (Word<'a>, Option<Missing<'a>>)
    requires made_for { IsMadeFor given.now used.old }
    requires few_values { length given.now.value_names < 2 ^ 32 }
    requires ascending { AreAscending given.now ascending }
    ensures word { meant result.0 ≡ meaning given.now ValuePlaceholder bytes.now }
    ensures missing { option_map fault_of result.1 ≡ missing given.now ValuePlaceholder bytes.now }
    ensures names { used.new.names ≡ used.old.names }
    ensures values { Marks (option_to_list (value_place given.now bytes.now))
        used.old.values.items used.new.values.items }
    ensures made_for { IsMadeFor given.now used.new }
{
    match given.value_place(ascending, bytes) {
        Some(place) => {
            mark(&mut used.values, place);
            (Word::Held(place as u32), None)
        }
        None => (Word::Held(0), Some(Missing::Value(bytes))),
    }
}

/// What a token means.
fn meaning<'a>(
    kind: TokenKind,
    bytes: &'a str,
    given: &'a Given,
    ascending: Ascending,
    used: &mut Used,
) -> (Word<'a>, Option<Missing<'a>>)
    requires spelled { Spells kind bytes.now }
    requires made_for { IsMadeFor given.now used.old }
    requires few_values { length given.now.value_names < 2 ^ 32 }
    requires ascending { AreAscending given.now ascending }
    ensures word { meant result.0 ≡ meaning given.now kind bytes.now }
    ensures missing { option_map fault_of result.1 ≡ missing given.now kind bytes.now }
    ensures names { Marks (option_to_list (name_used given.now kind bytes.now))
        used.old.names.items used.new.names.items }
    ensures values { Marks (option_to_list (value_used given.now kind bytes.now))
        used.old.values.items used.new.values.items }
    ensures made_for { IsMadeFor given.now used.new }
{
    match kind {
        TokenKind::Name => (Word::Bare(bytes), None),
        TokenKind::NamePlaceholder => name_meaning(bytes, given, ascending, used),
        TokenKind::ValuePlaceholder => value_meaning(bytes, given, ascending, used),
        TokenKind::Index => (Word::Number(number(bytes)), None),
        sign => (Word::Sign(sign), None),
    }
}

/// The words of the tokens of a text. The placeholders that are given count as used.
#[tactic(auto, using(crate::proofs::Resolve::mark_laws))]
pub fn words<'a>(
    alloc: Global,
    text: &'a str,
    tokens: &[Token],
    given: &'a Given,
    used: &mut Used,
) -> Result<Reading<'a>, NoMemory>
    requires parts { All (IsPart text.now) tokens.now }
    requires spelled { All (IsSpelled text.now) tokens.now }
    requires made_for { IsMadeFor given.now used.old }
    requires few_values { length given.now.value_names < 2 ^ 32 }
    ensures words { IfOk result
        (λ r. meanings r.words.items ≡ words given.now text.now tokens.now) }
    ensures undefined { IfOk result
        (λ r. option_map fault_of r.undefined ≡ undefined given.now text.now tokens.now) }
    ensures marks { OnOk result (MarksAll given.now text.now tokens.now used.old used.new) }
    ensures keeps { KeepsMarks used.old used.new }
    ensures made_for { IsMadeFor given.now used.new }
{
    let ascending = given.ascending();
    let mut words = Vec::with_capacity(alloc, tokens.len())?;
    let mut undefined = None;
    for token in tokens {
        let (word, missing) = meaning(token.kind, token.word(text), given, ascending, used);
        words.push(word)?;
        undefined = undefined.or(missing);
    }
    Ok(Reading { words, undefined })
}
