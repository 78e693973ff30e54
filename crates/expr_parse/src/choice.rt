//! The choices of an IN.
#![tactic(auto)]

ghost use Rattle.std.specs.Prelude.{◌<◌, ◌∷◌, length, IfOk, IfSome, []};
ghost use Rattle.expr_words.specs.Trees.{tree};
ghost use Rattle.expr_words.specs.Words.{meanings, Sign};
ghost use Rattle.expr_words.specs.Fronts.{IsBehindComma};
ghost use Rattle.expr_lexer.specs.declared.token.TokenKind.TheVariants as sign;
ghost use Rattle.expr_words.specs.Parses.{Extends};
ghost use Rattle.expr_parse.specs.Arguments.{choices_then, choices_end_then};
ghost use Rattle.expr_words.specs.Machine.{Goes, reads, choice, Whole, Side, Sides, ARest, AnOperand, MoreChoices, ASign, Do, FirstChoice, NextChoice, MakeChoice};

use crate::operand::operand;
use base_types::Seq;
use expr_lexer::TokenKind;
use expr_words::{
    Condition, Operand, Stop, Word, behind_comma, close_parenthesis, fewer, open_parenthesis, stuck,
};
use std::alloc::Global;

/// The most choices of an IN behind the first.
const MOST_FURTHER_CHOICES: usize = 99;

/// Adds the choice behind a comma.
#[tactic(auto, using(expr_words::proofs::Steps::do_it))]
fn further_choice<'t, 'a>(
    alloc: Global,
    choices: &mut Seq<Operand>,
    words: &'t [Word<'a>],
    levels: usize,
) -> Result<&'t [Word<'a>], Stop>
    ensures goes { Extends (AnOperand levels ∷ Do NextChoice ∷ [])
        (Sides choices.old) (Sides choices.new) words.now result }
    ensures shorter { IfOk result (λ x. length x.now < length words.now) }
{
    let (choice, rest) = operand(alloc, words, levels)?;
    choices.push(choice)?;
    Ok(rest)
}

/// The choices behind an opening parenthesis, as far as the closing one.
#[tactic(auto, using(expr_words::proofs::Steps::choice_steps))]
fn choices<'t, 'a>(
    alloc: Global,
    words: &'t [Word<'a>],
    levels: usize,
) -> Result<(Seq<Operand>, &'t [Word<'a>]), Stop>
    ensures goes { Goes
        (λ os ks. reads (meanings words.now) (choices_then levels os) ks)
        (λ x ks. choice (Sides x.0 ∷ ks)) (λ x. meanings x.1.now) result }
    ensures shorter { IfOk result (λ x. length x.1.now < length words.now) }
{
    let (choice, after) = operand(alloc, words, levels)?;
    let mut choices = Seq::new(alloc);
    choices.push(choice)?;
    let mut rest = after;
    let mut left = MOST_FURTHER_CHOICES;
    while let Some(after) = behind_comma(rest) {
        let Some(fewer_left) = fewer(left) else {
            return Err(stuck(after));
        };
        rest = further_choice(alloc, &mut choices, after, levels)?;
        left = fewer_left;
    }
    closed(choices, rest)
}

/// These choices, before the closing parenthesis.
#[tactic(auto, using(expr_words::proofs::Steps::do_it))]
fn closed<'t, 'a>(
    choices: Seq<Operand>,
    words: &'t [Word<'a>],
) -> Result<(Seq<Operand>, &'t [Word<'a>]), Stop>
    ensures goes { Goes
        (λ os ks. reads (meanings words.now) (choices_end_then os) (Sides choices ∷ ks))
        (λ x ks. choice (Sides x.0 ∷ ks)) (λ x. meanings x.1.now) result }
    ensures shorter { IfOk result (λ x. length x.1.now < length words.now) }
{
    let rest = close_parenthesis(words)?;
    Ok((choices, rest))
}

/// The choices of an IN, for its first operand. Their parenthesis takes a level.
#[tactic(auto, using(expr_words::proofs::Steps::barred))]
pub(crate) fn choice<'t, 'a>(
    alloc: Global,
    first: Operand,
    words: &'t [Word<'a>],
    levels: usize,
) -> Result<(Condition, &'t [Word<'a>]), Stop>
    ensures goes { Goes
        (λ os ks. reads (Sign sign.In ∷ meanings words.now) (ARest levels ∷ os) (Side first ∷ ks))
        (λ x ks. Whole (tree x.0) ∷ ks) (λ x. meanings x.1.now) result }
    ensures shorter { IfOk result (λ x. length x.1.now < length words.now) }
{
    let Some(inner) = fewer(levels) else {
        return Err(stuck(words));
    };
    let rest = open_parenthesis(words)?;
    let (choices, rest) = choices(alloc, rest, inner)?;
    let choice = Condition::Among {
        operand: first,
        choices,
    };
    Ok((choice, rest))
}
