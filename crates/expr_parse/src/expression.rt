//! The calls that read an expression.

ghost use Rattle.std.specs.Prelude.{◌≡◌, ◌↔◌, ◌<◌, ◌^◌, IsTrue, List, [], ◌∷◌, Ok, All, length, IfOk, IfErr, OnOk};
ghost use Rattle.base_types.specs.declared.path.DocPath.{DocPath};
ghost use Rattle.expr_lexer.specs.Spans.{IsPart};
ghost use Rattle.expr_lexer.specs.Spelling.{IsSpelled};
ghost use Rattle.expr_words.specs.Trees.{Tree, tree};
ghost use Rattle.expr_words.specs.Words.{meanings, fault_of};
ghost use Rattle.expr_words.specs.Grammar.{IsCondition, ArePaths, most_levels};
ghost use Rattle.expr_parse.specs.Reading.{ReadsTokens, ReadsCondition, ReadsPaths, NoFault, PathsFault, IsTold, IsTreeOr, place_of};
ghost use Rattle.expr_parse.specs.Overlaps.{HaveOverlap};
ghost use Rattle.expr_words.specs.Marks.{IsMadeFor, IsMarked, MarksAll, KeepsMarks};
ghost use Rattle.expr_parse.specs.Judged.{Ends, ReadsWhole, IsAnswer, IsFaultOr, IsGivenOr, AreFit, IsTokens, end_of};
ghost use Rattle.expr_words.specs.Parses.{whole};
ghost use Rattle.expr_words.specs.Machine.{Listed, ACondition, APath, MorePaths, Do, FirstPath};

use crate::laws::one_reading;
use crate::logic::disjunction;
use crate::overlap::{lend_paths, overlap};
use base_types::{DocPath, Seq, Text};
use expr_lexer::{LexEnd, Token, tokens};
use expr_words::{
    Condition, Given, Missing, ParseEnd, Paths, Stop, Used, Word, path_list, stuck, words,
};
use std::alloc::{AllocError as NoMemory, Global};

/// The most bytes of an expression.
const MOST_BYTES: usize = 4096;

/// The most levels of parentheses and NOT.
pub(crate) const MOST_LEVELS: usize = 128;

/// The tokens of a text that is not too long.
pub(crate) fn text_tokens(alloc: Global, text: &str) -> Result<Seq<Token>, ParseEnd>
    ensures { IsTokens text.now result }
{
    if text.len() > MOST_BYTES {
        return Err(ParseEnd::TooLong);
    }
    match tokens(alloc, text) {
        Ok(tokens) => Ok(tokens),
        Err(LexEnd::BadCharacter { place }) => Err(ParseEnd::Syntax { place }),
        Err(LexEnd::NoMemory) => Err(ParseEnd::NoMemory),
    }
}

/// What was parsed, if no word is left behind it.
#[tactic(auto, using(expr_words::proofs::Steps::none_owed))]
pub(crate) fn end<'a, T: Drop>(parsed: T, words: &[Word<'a>]) -> Result<T, Stop>
    ensures { Ends parsed (meanings words.now) result }
{
    match words {
        [] => Ok(parsed),
        _ => Err(stuck(words)),
    }
}

/// The condition that all of these words are.
fn whole_condition<'a>(alloc: Global, words: &[Word<'a>]) -> Result<Condition, Stop>
    ensures { ReadsWhole whole (ACondition most_levels ∷ []) (meanings words.now) result }
{
    let (condition, rest) = disjunction(alloc, words, MOST_LEVELS)?;
    end(condition, rest)
}

/// The paths that all of these words are.
fn whole_paths<'a>(alloc: Global, words: &[Word<'a>]) -> Result<Seq<DocPath>, Stop>
    ensures { ReadsWhole Listed (APath ∷ Do FirstPath ∷ MorePaths ∷ [])
        (meanings words.now) result }
{
    let (paths, rest) = path_list(alloc, words)?;
    end(paths, rest)
}

/// Where so many tokens of a text are left: the start of the first of them, or the text's length.
fn place(text: &str, tokens: &[Token], left: usize) -> u32
    requires { length text.now < 2 ^ 32 }
    ensures { result ≡ place_of text.now tokens.now left }
{
    match tokens.get(tokens.len().saturating_sub(left)) {
        Some(token) => token.from,
        None => text.len() as u32,
    }
}

/// What a stop of the parser means for the text.
pub(crate) fn told(stop: Stop, text: &str, tokens: &[Token]) -> ParseEnd
    requires { length text.now < 2 ^ 32 }
    ensures { result ≡ end_of text.now tokens.now stop }
{
    match stop {
        Stop::Syntax(left) => ParseEnd::Syntax {
            place: place(text, tokens, left),
        },
        Stop::NoMemory => ParseEnd::NoMemory,
    }
}

/// What a placeholder that is not given means for the text.
fn undefined<'a>(alloc: Global, missing: Missing<'a>) -> ParseEnd
    ensures { IsFaultOr (fault_of missing.entry) result }
{
    match missing {
        Missing::Name(name) => match Text::copied(alloc, name) {
            Ok(name) => ParseEnd::UndefinedName { name },
            Err(_) => ParseEnd::NoMemory,
        },
        Missing::Value(name) => match Text::copied(alloc, name) {
            Ok(name) => ParseEnd::UndefinedValue { name },
            Err(_) => ParseEnd::NoMemory,
        },
    }
}

/// What was parsed, if no placeholder is missing.
pub(crate) fn with_given<'a, T: Drop>(
    alloc: Global,
    parsed: T,
    first_missing: Option<Missing<'a>>,
) -> Result<T, ParseEnd>
    ensures { IsGivenOr parsed first_missing.entry result }
{
    match first_missing {
        Some(missing) => Err(undefined(alloc, missing)),
        None => Ok(parsed),
    }
}

/// Whether two of the paths overlap.
fn have_overlap(alloc: Global, paths: &[DocPath]) -> Result<bool, NoMemory>
    ensures { IfOk result (λ overlap. IsTrue overlap ↔ HaveOverlap paths.now) }
{
    let mut lent = Vec::with_capacity(alloc, paths.len())?;
    lend_paths(paths, &mut lent)?;
    Ok(overlap(lent.as_mut_slice()))
}

/// The paths, if no placeholder is missing and no two of them overlap.
fn fit<'a>(
    alloc: Global,
    parsed: Seq<DocPath>,
    first_missing: Option<Missing<'a>>,
) -> Result<Seq<DocPath>, ParseEnd>
    ensures { AreFit parsed first_missing.entry result }
{
    let paths = with_given(alloc, parsed, first_missing)?;
    match have_overlap(alloc, paths.as_slice()) {
        Ok(false) => Ok(paths),
        Ok(true) => Err(ParseEnd::Overlap),
        Err(_) => Err(ParseEnd::NoMemory),
    }
}

/// Reads a condition from a text's tokens.
fn condition_of(
    alloc: Global,
    text: &str,
    tokens: &[Token],
    given: &Given,
    used: &mut Used,
) -> Result<Condition, ParseEnd>
    requires short { length text.now < 2 ^ 32 }
    requires parts { All (IsPart text.now) tokens.now }
    requires spelled { All (IsSpelled text.now) tokens.now }
    requires made_for { IsMadeFor given.now used.old }
    requires few_values { length given.now.value_names < 2 ^ 32 }
    ensures answer { IsAnswer tree
        (ReadsTokens (IsCondition most_levels) NoFault NoFault given.now text.now tokens.now)
        result }
    ensures marks { OnOk result (MarksAll given.now text.now tokens.now used.old used.new) }
    ensures keeps { KeepsMarks used.old used.new }
    ensures made_for { IsMadeFor given.now used.new }
{
    let reading = match words(alloc, text, tokens, given, used) {
        Ok(reading) => reading,
        Err(_) => return Err(ParseEnd::NoMemory),
    };
    match whole_condition(alloc, reading.words.as_slice()) {
        Ok(condition) => with_given(alloc, condition, reading.undefined),
        Err(stop) => Err(told(stop, text, tokens)),
    }
}

/// Reads paths from a text's tokens.
fn paths_of(
    alloc: Global,
    text: &str,
    tokens: &[Token],
    given: &Given,
    used: &mut Used,
) -> Result<Seq<DocPath>, ParseEnd>
    requires short { length text.now < 2 ^ 32 }
    requires parts { All (IsPart text.now) tokens.now }
    requires spelled { All (IsSpelled text.now) tokens.now }
    requires made_for { IsMadeFor given.now used.old }
    requires few_values { length given.now.value_names < 2 ^ 32 }
    ensures answer { IsAnswer (λ paths. paths)
        (ReadsTokens ArePaths NoFault PathsFault given.now text.now tokens.now) result }
    ensures marks { OnOk result (MarksAll given.now text.now tokens.now used.old used.new) }
    ensures keeps { KeepsMarks used.old used.new }
    ensures made_for { IsMadeFor given.now used.new }
{
    let reading = match words(alloc, text, tokens, given, used) {
        Ok(reading) => reading,
        Err(_) => return Err(ParseEnd::NoMemory),
    };
    match whole_paths(alloc, reading.words.as_slice()) {
        Ok(paths) => fit(alloc, paths, reading.undefined),
        Err(stop) => Err(told(stop, text, tokens)),
    }
}

/// Reads a condition from a text.
#[tactic(auto, using(crate::proofs::Answering::condition_told, expr_words::proofs::Resolve::stays_same))]
fn read_condition(
    alloc: Global,
    text: &str,
    given: &Given,
    used: &mut Used,
) -> Result<Condition, ParseEnd>
    requires made_for { IsMadeFor given.now used.old }
    requires few_values { length given.now.value_names < 2 ^ 32 }
    ensures answer { IsAnswer tree (ReadsCondition given.now text.now) result }
    ensures marks { OnOk result (IsMarked given.now text.now used.old used.new) }
    ensures keeps { KeepsMarks used.old used.new }
    ensures made_for { IsMadeFor given.now used.new }
{
    let tokens = text_tokens(alloc, text)?;
    condition_of(alloc, text, tokens.as_slice(), given, used)
}

/// Reads paths from a text.
#[tactic(auto, using(crate::proofs::Answering::paths_told, expr_words::proofs::Resolve::stays_same))]
fn read_paths(
    alloc: Global,
    text: &str,
    given: &Given,
    used: &mut Used,
) -> Result<Seq<DocPath>, ParseEnd>
    requires made_for { IsMadeFor given.now used.old }
    requires few_values { length given.now.value_names < 2 ^ 32 }
    ensures answer { IsAnswer (λ paths. paths) (ReadsPaths given.now text.now) result }
    ensures marks { OnOk result (IsMarked given.now text.now used.old used.new) }
    ensures keeps { KeepsMarks used.old used.new }
    ensures made_for { IsMadeFor given.now used.new }
{
    let tokens = text_tokens(alloc, text)?;
    paths_of(alloc, text, tokens.as_slice(), given, used)
}

/// Reads a condition, as of ConditionExpression and FilterExpression (DynamoDB Developer Guide,
/// "Condition expressions"). An operand names a value by its place in `given.value_names`. The
/// placeholders of the text count as used; on a refusal some may. What was used stays so.
///
/// `used` has to be made for this `given`, which has fewer than 2^32 values. Answers, the first of
/// these: TooLong above 4,096 bytes; Syntax where a byte begins no token; Syntax at the first token
/// with which no condition goes on, which is also the parenthesis or NOT of a 129th level and the
/// 101st operand of an IN; UndefinedName and UndefinedValue for the first placeholder that is not
/// given. NoMemory where memory is refused.
pub fn condition(
    alloc: Global,
    text: &str,
    given: &Given,
    used: &mut Used,
) -> Result<Condition, ParseEnd>
    requires made_for { IsMadeFor given.now used.old }
    requires few_values { length given.now.value_names < 2 ^ 32 }
    ensures tree { IfOk result (λ c. ReadsCondition given.now text.now (Ok (tree c))) }
    ensures fault { IfErr result (λ e. IsTold (ReadsCondition given.now text.now) e) }
    ensures sentence { (t : Tree)
        → ReadsCondition given.now text.now (Ok t) → IsTreeOr tree t result }
    ensures marks { OnOk result (IsMarked given.now text.now used.old used.new) }
    ensures keeps { KeepsMarks used.old used.new }
    ensures made_for { IsMadeFor given.now used.new }
{
    // Its clause, that a text reads in one way, gives the clause `sentence`; it does nothing.
    one_reading();
    read_condition(alloc, text, given, used)
}

/// Reads the paths of a projection, as of ProjectionExpression (DynamoDB Developer Guide,
/// "Projection expressions"). The placeholders of the text count as used; on a refusal some may. What was used
/// stays so.
///
/// `used` has to be made for this `given`, which has fewer than 2^32 values. Answers, the first of
/// these: TooLong above 4,096 bytes; Syntax where a byte begins no token; Syntax at the first token
/// with which no list of paths goes on; UndefinedName for the first placeholder that is not given;
/// Overlap where the steps of one path begin another's. NoMemory where memory is refused.
pub fn paths(alloc: Global, text: &str, given: &Given, used: &mut Used) -> Result<Paths, ParseEnd>
    requires made_for { IsMadeFor given.now used.old }
    requires few_values { length given.now.value_names < 2 ^ 32 }
    ensures paths { IfOk result (λ p. ReadsPaths given.now text.now (Ok p.paths)) }
    ensures fault { IfErr result (λ e. IsTold (ReadsPaths given.now text.now) e) }
    ensures sentence { (ps : List DocPath)
        → ReadsPaths given.now text.now (Ok ps) → IsTreeOr (λ p. p.paths) ps result }
    ensures marks { OnOk result (IsMarked given.now text.now used.old used.new) }
    ensures keeps { KeepsMarks used.old used.new }
    ensures made_for { IsMadeFor given.now used.new }
{
    // Its clause, that a text reads in one way, gives the clause `sentence`; it does nothing.
    one_reading();
    let paths = read_paths(alloc, text, given, used)?;
    Ok(Paths { paths })
}
