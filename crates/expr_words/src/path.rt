//! Document paths, and lists of them.
#![tactic(auto, using(crate::proofs::Steps::do_it))]

ghost use Rattle.std.specs.Prelude.{◌≡◌, ◌<◌, ◌∷◌, [], ◌++◌, length, IfOk, IfSome, OnOk, IsOkUnless};
ghost use Rattle.base_types.specs.declared.path.Step.{Step};
ghost use Rattle.expr_words.specs.Words.{meanings};
ghost use Rattle.expr_words.specs.Fronts.{StepsOn};
ghost use Rattle.expr_words.specs.Parses.{Parses, Extends};
ghost use Rattle.expr_lexer.specs.declared.token.TokenKind.TheVariants as sign;
ghost use Rattle.expr_words.specs.Machine.{Steps, Listed, APath, AField, AnIndex, ASign, MorePaths, Do, FirstPath, NextPath};

use crate::sign::{close_bracket, stuck};
use crate::stop::Stop;
use crate::word::Word;
use base_types::{DocPath, Seq, Step, Text};
use expr_lexer::TokenKind;
use std::alloc::Global;

/// Adds a step by name.
fn push_name(alloc: Global, steps: &mut Seq<Step>, name: &str) -> Result<(), Stop>
    ensures ok { OnOk result (steps.new ≡ steps.old ++ Step.Name name.now ∷ []) }
    ensures only_memory { IsOkUnless result Stop.NoMemory }
{
    steps.push(Step::Name(Text::copied(alloc, name)?))?;
    Ok(())
}

/// Adds the step behind a dot.
fn field<'t, 'a>(
    alloc: Global,
    steps: &mut Seq<Step>,
    words: &'t [Word<'a>],
) -> Result<&'t [Word<'a>], Stop>
    ensures goes { Extends (AField ∷ []) (Steps steps.old) (Steps steps.new) words.now result }
    ensures shorter { IfOk result (λ x. length x.now < length words.now) }
{
    let (name, rest) = match words {
        [Word::Bare(name), rest @ ..] => (name, rest),
        [Word::Placed(name), rest @ ..] => (name, rest),
        _ => return Err(stuck(words)),
    };
    push_name(alloc, steps, name)?;
    Ok(rest)
}

/// Adds the step to a place of a list.
fn index<'t, 'a>(steps: &mut Seq<Step>, words: &'t [Word<'a>]) -> Result<&'t [Word<'a>], Stop>
    ensures goes { Extends (AnIndex ∷ []) (Steps steps.old) (Steps steps.new) words.now result }
    ensures shorter { IfOk result (λ x. length x.now < length words.now) }
{
    match words {
        [Word::Number(place), rest @ ..] => {
            steps.push(Step::Index(*place))?;
            Ok(rest)
        }
        _ => Err(stuck(words)),
    }
}

/// Adds the step behind an opening bracket.
fn element<'t, 'a>(steps: &mut Seq<Step>, words: &'t [Word<'a>]) -> Result<&'t [Word<'a>], Stop>
    ensures goes { Extends (AnIndex ∷ ASign sign.CloseBracket ∷ [])
        (Steps steps.old) (Steps steps.new) words.now result }
    ensures shorter { IfOk result (λ x. length x.now < length words.now) }
{
    let rest = index(steps, words)?;
    close_bracket(rest)
}

/// Adds the step that follows, if one does.
fn further_step<'t, 'a>(
    alloc: Global,
    steps: &mut Seq<Step>,
    words: &'t [Word<'a>],
) -> Result<Option<&'t [Word<'a>]>, Stop>
    ensures goes { StepsOn (λ x. meanings x.now) (meanings words.now) steps.old steps.new result }
    ensures shorter { IfOk result (λ o. IfSome o (λ x. length x.now < length words.now)) }
{
    match words {
        [Word::Sign(TokenKind::Dot), rest @ ..] => Ok(Some(field(alloc, steps, rest)?)),
        [Word::Sign(TokenKind::OpenBracket), rest @ ..] => Ok(Some(element(steps, rest)?)),
        _ => Ok(None),
    }
}

/// A path.
#[tactic(auto, using(crate::proofs::Steps::path_starts))]
pub fn document_path<'t, 'a>(
    alloc: Global,
    words: &'t [Word<'a>],
) -> Result<(DocPath, &'t [Word<'a>]), Stop>
    ensures goes { Parses (λ path. Steps path.steps) (APath ∷ []) [] words.now result }
    ensures shorter { IfOk result (λ x. length x.1.now < length words.now) }
{
    let mut steps = Seq::new(alloc);
    let mut rest = field(alloc, &mut steps, words)?;
    while let Some(after) = further_step(alloc, &mut steps, rest)? {
        rest = after;
    }
    Ok((DocPath { steps }, rest))
}

/// Adds the path behind a comma.
fn further_path<'t, 'a>(
    alloc: Global,
    paths: &mut Seq<DocPath>,
    words: &'t [Word<'a>],
) -> Result<&'t [Word<'a>], Stop>
    ensures goes { Extends (APath ∷ Do NextPath ∷ [])
        (Listed paths.old) (Listed paths.new) words.now result }
    ensures shorter { IfOk result (λ x. length x.now < length words.now) }
{
    let (path, rest) = document_path(alloc, words)?;
    paths.push(path)?;
    Ok(rest)
}

/// Paths with commas between them.
pub fn path_list<'t, 'a>(
    alloc: Global,
    words: &'t [Word<'a>],
) -> Result<(Seq<DocPath>, &'t [Word<'a>]), Stop>
    ensures goes { Parses Listed (APath ∷ Do FirstPath ∷ MorePaths ∷ []) [] words.now result }
    ensures shorter { IfOk result (λ x. length x.1.now < length words.now) }
{
    let (first, after) = document_path(alloc, words)?;
    let mut paths = Seq::new(alloc);
    paths.push(first)?;
    let mut rest = after;
    while let [Word::Sign(TokenKind::Comma), after @ ..] = rest {
        rest = further_path(alloc, &mut paths, after)?;
    }
    Ok((paths, rest))
}
