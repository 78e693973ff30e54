//! The call that reads an update.

ghost use Rattle.std.specs.Prelude.{◌≡◌, ◌↔◌, ◌<◌, ◌^◌, ◌++◌, [], Ok, All, IsTrue, length, map, option_map, IfOk, IfErr, OnOk};
ghost use Rattle.expr_lexer.specs.Spans.{IsPart};
ghost use Rattle.expr_lexer.specs.Spelling.{IsSpelled};
ghost use Rattle.expr_words.specs.Trees.{section_tree};
ghost use Rattle.expr_words.specs.Words.{meanings, fault_of};
ghost use Rattle.expr_words.specs.Grammar.{IsUpdate, most_levels};
ghost use Rattle.expr_words.specs.Machine.{an_update};
ghost use Rattle.expr_words.specs.Marks.{IsMadeFor, IsMarked, MarksAll, KeepsMarks};
ghost use Rattle.expr_words.specs.Parses.{sectioned};
ghost use Rattle.expr_parse.specs.Overlaps.{HaveOverlap, pointees};
ghost use Rattle.expr_parse.specs.UpdateTree.{UpdateTree, written};
ghost use Rattle.expr_parse.specs.Draft.{draft_tree};
ghost use Rattle.expr_parse.specs.Update.{update_tree, IsBounded};
ghost use Rattle.expr_parse.specs.Reading.{ReadsTokens, ReadsUpdate, AsUpdate, IsVerdict, TwiceFault, ClausesFault, IsTold, IsTreeOr};
ghost use Rattle.expr_parse.specs.Judged.{ReadsWhole, IsAnswer};

use crate::expression::{MOST_LEVELS, end, text_tokens, told, with_given};
use crate::gather::{Draft, first_twice};
use crate::laws::one_reading;
use crate::operators::too_many_operators;
use crate::overlap::{lend_paths, overlap};
use crate::section::sections;
use crate::tree::Update;
use base_types::{DocPath, Seq};
use expr_lexer::Token;
use expr_words::{Given, Missing, ParseEnd, PathValue, Section, SetTo, Stop, Used, Word, words};
use std::alloc::{AllocError as NoMemory, Global};

/// The clauses that all of these words are.
fn whole_update<'a>(alloc: Global, words: &[Word<'a>]) -> Result<Seq<Section>, Stop>
    ensures { ReadsWhole sectioned (an_update most_levels) (meanings words.now) result }
{
    let (sections, rest) = sections(alloc, words, MOST_LEVELS)?;
    end(sections, rest)
}

/// Adds the paths that are set to those that are lent.
fn lend_set_paths<'p>(sets: &'p [SetTo], lent: &mut Vec<&'p DocPath>) -> Result<(), NoMemory>
    ensures { OnOk result
        (pointees lent.new.items ≡ pointees lent.old.items ++ map (λ set. set.path) sets.now) }
{
    for set in sets {
        lent.push(&set.path)?;
    }
    Ok(())
}

/// Adds the paths of pairs to those that are lent.
fn lend_pair_paths<'p>(pairs: &'p [PathValue], lent: &mut Vec<&'p DocPath>) -> Result<(), NoMemory>
    ensures { OnOk result
        (pointees lent.new.items ≡ pointees lent.old.items ++ map (λ pair. pair.path) pairs.now) }
{
    for pair in pairs {
        lent.push(&pair.path)?;
    }
    Ok(())
}

/// Whether two of the paths that are written overlap.
fn writes_overlap(alloc: Global, draft: &Draft) -> Result<bool, NoMemory>
    ensures { IfOk result
        (λ overlap. IsTrue overlap ↔ HaveOverlap (written (draft_tree draft.now))) }
{
    let mut lent = Vec::new(alloc);
    lend_set_paths(draft.sets.as_slice(), &mut lent)?;
    lend_paths(draft.removes.as_slice(), &mut lent)?;
    lend_pair_paths(draft.adds.as_slice(), &mut lent)?;
    lend_pair_paths(draft.deletes.as_slice(), &mut lent)?;
    Ok(overlap(lent.as_mut_slice()))
}

/// The update, if it has no more operators than it may have and none of its written paths overlap.
fn bounded(alloc: Global, draft: Draft) -> Result<Update, ParseEnd>
    ensures { IsBounded (draft_tree draft) result }
{
    if too_many_operators(draft.sets.as_slice()) {
        return Err(ParseEnd::TooManyOperators);
    }
    match writes_overlap(alloc, &draft) {
        Ok(false) => Ok(made(draft)),
        Ok(true) => Err(ParseEnd::Overlap),
        Err(_) => Err(ParseEnd::NoMemory),
    }
}

/// The update of a draft.
fn made(draft: Draft) -> Update
    requires { ¬ HaveOverlap (written (draft_tree draft)) }
    ensures { update_tree result ≡ draft_tree draft }
{
    let Draft {
        sets,
        removes,
        adds,
        deletes,
    } = draft;
    Update {
        sets,
        removes,
        adds,
        deletes,
    }
}

/// The update of these clauses, or its first fault.
fn judged<'a>(
    alloc: Global,
    sections: Seq<Section>,
    first_missing: Option<Missing<'a>>,
) -> Result<Update, ParseEnd>
    ensures { IsAnswer update_tree
        (AsUpdate (IsVerdict TwiceFault ClausesFault (option_map fault_of first_missing.entry)
        (map section_tree sections)))
        result }
{
    if let Some(clause) = first_twice(sections.as_slice()) {
        return Err(ParseEnd::ClauseTwice { clause });
    }
    let sections = with_given(alloc, sections, first_missing)?;
    bounded(alloc, Draft::of(alloc, sections))
}

/// Reads an update from a text's tokens.
fn update_of(
    alloc: Global,
    text: &str,
    tokens: &[Token],
    given: &Given,
    used: &mut Used,
) -> Result<Update, ParseEnd>
    requires short { length text.now < 2 ^ 32 }
    requires parts { All (IsPart text.now) tokens.now }
    requires spelled { All (IsSpelled text.now) tokens.now }
    requires made_for { IsMadeFor given.now used.old }
    requires few_values { length given.now.value_names < 2 ^ 32 }
    ensures answer { IsAnswer update_tree
        (AsUpdate (ReadsTokens (IsUpdate most_levels) TwiceFault ClausesFault
        given.now text.now tokens.now))
        result }
    ensures marks { OnOk result (MarksAll given.now text.now tokens.now used.old used.new) }
    ensures keeps { KeepsMarks used.old used.new }
    ensures made_for { IsMadeFor given.now used.new }
{
    let reading = match words(alloc, text, tokens, given, used) {
        Ok(reading) => reading,
        Err(_) => return Err(ParseEnd::NoMemory),
    };
    match whole_update(alloc, reading.words.as_slice()) {
        Ok(sections) => judged(alloc, sections, reading.undefined),
        Err(stop) => Err(told(stop, text, tokens)),
    }
}

/// Reads an update from a text.
#[tactic(auto, using(expr_words::proofs::Resolve::stays_same))]
fn read_update(
    alloc: Global,
    text: &str,
    given: &Given,
    used: &mut Used,
) -> Result<Update, ParseEnd>
    requires made_for { IsMadeFor given.now used.old }
    requires few_values { length given.now.value_names < 2 ^ 32 }
    ensures answer { IsAnswer update_tree (ReadsUpdate given.now text.now) result }
    ensures marks { OnOk result (IsMarked given.now text.now used.old used.new) }
    ensures keeps { KeepsMarks used.old used.new }
    ensures made_for { IsMadeFor given.now used.new }
{
    let tokens = text_tokens(alloc, text)?;
    update_of(alloc, text, tokens.as_slice(), given, used)
}

/// Reads an update, as of UpdateExpression (DynamoDB Developer Guide, "Update expressions"). A value is named by its
/// place in `given.value_names`. The placeholders of the text count as used; on a refusal some may. What was used stays
/// so.
///
/// `used` has to be made for this `given`, which has fewer than 2^32 values. Answers, the first of these: TooLong above
/// 4,096 bytes; Syntax where a byte begins no token; Syntax at the first token with which no update goes on, which is
/// also the parenthesis of a 129th level; ClauseTwice for the first clause that stands a second time; UndefinedName and
/// UndefinedValue for the first placeholder that is not given; TooManyOperators above 300 of `+`, `-`, `if_not_exists`
/// and `list_append` together; Overlap where the steps of one written path begin another's. NoMemory where memory is
/// refused.
pub fn update(alloc: Global, text: &str, given: &Given, used: &mut Used) -> Result<Update, ParseEnd>
    requires made_for { IsMadeFor given.now used.old }
    requires few_values { length given.now.value_names < 2 ^ 32 }
    ensures tree { IfOk result (λ u. ReadsUpdate given.now text.now (Ok (update_tree u))) }
    ensures fault { IfErr result (λ e. IsTold (ReadsUpdate given.now text.now) e) }
    ensures sentence { (u : UpdateTree)
        → ReadsUpdate given.now text.now (Ok u) → IsTreeOr update_tree u result }
    ensures marks { OnOk result (IsMarked given.now text.now used.old used.new) }
    ensures keeps { KeepsMarks used.old used.new }
    ensures made_for { IsMadeFor given.now used.new }
{
    // Its clause, that a text reads in one way, gives the clause `sentence`; it does nothing.
    one_reading();
    read_update(alloc, text, given, used)
}
