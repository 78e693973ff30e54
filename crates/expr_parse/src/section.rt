//! The clauses of an update.
#![tactic(auto, using(expr_words::proofs::Steps::do_it))]

ghost use Rattle.std.specs.Prelude.{◌≡◌, ◌<◌, ◌∷◌, ◌++◌, length, IfOk, []};
ghost use Rattle.expr_lexer.specs.declared.token.TokenKind.TheVariants as sign;
ghost use Rattle.expr_words.specs.Trees.{section_tree, Adds, Deletes};
ghost use Rattle.expr_words.specs.Words.{meanings};
ghost use Rattle.expr_words.specs.Fronts.{begins_section};
ghost use Rattle.expr_words.specs.Parses.{Parses, Extends, EndsSection, assigned, sectioned};
ghost use Rattle.expr_words.specs.Machine.{Paired, Assigned, APath, AValue, ASum, ASection, MorePaths, ASign, Do, FirstPath, NextSet, NextPair, EndSets, EndRemoves, EndPairs, a_set, a_pair, an_update};

use crate::term::sum;
use base_types::Seq;
use expr_lexer::TokenKind;
use expr_words::{
    PathValue, Section, SetTo, Stop, Word, document_path, equal, path_list, stuck, value,
};
use std::alloc::Global;

/// Adds a path and what it is set to.
#[tactic(auto, using(crate::proofs::Sections::set_steps))]
fn assignment<'t, 'a>(
    alloc: Global,
    sets: &mut Seq<SetTo>,
    words: &'t [Word<'a>],
    levels: usize,
) -> Result<&'t [Word<'a>], Stop>
    ensures goes { Extends (APath ∷ ASign sign.Equal ∷ ASum levels ∷ Do NextSet ∷ [])
        (assigned sets.old) (assigned sets.new) words.now result }
    ensures shorter { IfOk result (λ x. length x.now < length words.now) }
{
    let (path, rest) = document_path(alloc, words)?;
    let rest = equal(rest)?;
    let (sum, rest) = sum(alloc, rest, levels)?;
    sets.push(SetTo { path, sum })?;
    Ok(rest)
}

/// What a SET lists.
fn assignments<'t, 'a>(
    alloc: Global,
    words: &'t [Word<'a>],
    levels: usize,
) -> Result<(Seq<SetTo>, &'t [Word<'a>]), Stop>
    ensures goes { Parses assigned (a_set levels) (Assigned [] ∷ []) words.now result }
    ensures shorter { IfOk result (λ x. length x.1.now < length words.now) }
{
    let mut sets = Seq::new(alloc);
    let mut rest = assignment(alloc, &mut sets, words, levels)?;
    while let [Word::Sign(TokenKind::Comma), after @ ..] = rest {
        rest = assignment(alloc, &mut sets, after, levels)?;
    }
    Ok((sets, rest))
}

/// Adds a path and its value.
fn pair<'t, 'a>(
    alloc: Global,
    pairs: &mut Seq<PathValue>,
    words: &'t [Word<'a>],
) -> Result<&'t [Word<'a>], Stop>
    ensures goes { Extends (APath ∷ AValue ∷ Do NextPair ∷ [])
        (Paired pairs.old) (Paired pairs.new) words.now result }
    ensures shorter { IfOk result (λ x. length x.now < length words.now) }
{
    let (path, rest) = document_path(alloc, words)?;
    let (value, rest) = value(rest)?;
    pairs.push(PathValue { path, value })?;
    Ok(rest)
}

/// What an ADD or a DELETE lists.
fn pairs<'t, 'a>(
    alloc: Global,
    words: &'t [Word<'a>],
) -> Result<(Seq<PathValue>, &'t [Word<'a>]), Stop>
    ensures goes { Parses Paired a_pair (Paired [] ∷ []) words.now result }
    ensures shorter { IfOk result (λ x. length x.1.now < length words.now) }
{
    let mut pairs = Seq::new(alloc);
    let mut rest = pair(alloc, &mut pairs, words)?;
    while let [Word::Sign(TokenKind::Comma), after @ ..] = rest {
        rest = pair(alloc, &mut pairs, after)?;
    }
    Ok((pairs, rest))
}

/// The clause behind SET.
fn set_section<'t, 'a>(
    alloc: Global,
    words: &'t [Word<'a>],
    levels: usize,
) -> Result<(Section, &'t [Word<'a>]), Stop>
    ensures goes { EndsSection (a_set levels ++ Do EndSets ∷ []) (Assigned [] ∷ [])
        words.now result }
    ensures shorter { IfOk result (λ x. length x.1.now < length words.now) }
{
    let (sets, rest) = assignments(alloc, words, levels)?;
    Ok((Section::Set(sets), rest))
}

/// The clause behind REMOVE.
fn remove_section<'t, 'a>(
    alloc: Global,
    words: &'t [Word<'a>],
) -> Result<(Section, &'t [Word<'a>]), Stop>
    ensures goes { EndsSection (APath ∷ Do FirstPath ∷ MorePaths ∷ Do EndRemoves ∷ []) []
        words.now result }
    ensures shorter { IfOk result (λ x. length x.1.now < length words.now) }
{
    let (paths, rest) = path_list(alloc, words)?;
    Ok((Section::Remove(paths), rest))
}

/// The clause behind ADD.
fn add_section<'t, 'a>(
    alloc: Global,
    words: &'t [Word<'a>],
) -> Result<(Section, &'t [Word<'a>]), Stop>
    ensures goes { EndsSection (a_pair ++ Do (EndPairs Adds) ∷ []) (Paired [] ∷ [])
        words.now result }
    ensures shorter { IfOk result (λ x. length x.1.now < length words.now) }
{
    let (pairs, rest) = pairs(alloc, words)?;
    Ok((Section::Add(pairs), rest))
}

/// The clause behind DELETE.
fn delete_section<'t, 'a>(
    alloc: Global,
    words: &'t [Word<'a>],
) -> Result<(Section, &'t [Word<'a>]), Stop>
    ensures goes { EndsSection (a_pair ++ Do (EndPairs Deletes) ∷ []) (Paired [] ∷ [])
        words.now result }
    ensures shorter { IfOk result (λ x. length x.1.now < length words.now) }
{
    let (pairs, rest) = pairs(alloc, words)?;
    Ok((Section::Delete(pairs), rest))
}

/// A clause, by its keyword.
fn section<'t, 'a>(
    alloc: Global,
    words: &'t [Word<'a>],
    levels: usize,
) -> Result<(Section, &'t [Word<'a>]), Stop>
    ensures goes { EndsSection (ASection levels ∷ []) [] words.now result }
    ensures shorter { IfOk result (λ x. length x.1.now < length words.now) }
{
    match words {
        [Word::Sign(TokenKind::Set), rest @ ..] => set_section(alloc, rest, levels),
        [Word::Sign(TokenKind::Remove), rest @ ..] => remove_section(alloc, rest),
        [Word::Sign(TokenKind::Add), rest @ ..] => add_section(alloc, rest),
        [Word::Sign(TokenKind::Delete), rest @ ..] => delete_section(alloc, rest),
        _ => Err(stuck(words)),
    }
}

/// Adds a clause.
#[tactic(auto, using(crate::proofs::Sections::section_steps))]
fn further_section<'t, 'a>(
    alloc: Global,
    sections: &mut Seq<Section>,
    words: &'t [Word<'a>],
    levels: usize,
) -> Result<&'t [Word<'a>], Stop>
    ensures goes { Extends (ASection levels ∷ [])
        (sectioned sections.old) (sectioned sections.new) words.now result }
    ensures shorter { IfOk result (λ x. length x.now < length words.now) }
{
    let (section, rest) = section(alloc, words, levels)?;
    sections.push(section)?;
    Ok(rest)
}

/// Whether a clause's keyword is first.
fn begins_section<'a>(words: &[Word<'a>]) -> bool
    ensures { result ≡ begins_section (meanings words.now) }
{
    matches!(
        words,
        [
            Word::Sign(TokenKind::Set | TokenKind::Remove | TokenKind::Add | TokenKind::Delete),
            ..
        ]
    )
}

/// The clauses of an update.
#[tactic(auto, using(crate::proofs::Sections::section_steps))]
pub(crate) fn sections<'t, 'a>(
    alloc: Global,
    words: &'t [Word<'a>],
    levels: usize,
) -> Result<(Seq<Section>, &'t [Word<'a>]), Stop>
    ensures goes { Parses sectioned (an_update levels) [] words.now result }
{
    let (first, after) = section(alloc, words, levels)?;
    let mut sections = Seq::new(alloc);
    sections.push(first)?;
    let mut rest = after;
    'clauses: while begins_section(rest) {
        rest = further_section(alloc, &mut sections, rest, levels)?;
    }
    Ok((sections, rest))
}
