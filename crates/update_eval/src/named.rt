//! What right sides find in the old item by the paths that they name.

ghost use Rattle.std.specs.Prelude.{◌≡◌, IfOk, OnOk};
ghost use Rattle.expr_words.specs.Equality.{same_path};
ghost use Rattle.update_eval.specs.Views.{AreFound};

use attr_value::Item;
use base_types::{DocPath, Seq};
use expr_words::{SetTo, Sum, Term};
use item_writes::LentValue;
use std::alloc::{AllocError as NoMemory, Global};

/// A path, with what it finds.
#[derive(Clone, Copy)]
pub(crate) struct FoundValue<'v> {
    pub(crate) path: &'v DocPath,
    pub(crate) lent: LentValue<'v>,
}

impl FoundValue<'_> {
    /// Whether this is its path.
    pub(crate) fn is_at(&self, path: &DocPath) -> bool
        ensures { result ≡ same_path self.now.path.now path.now }
    {
        self.path == path
    }
}

/// What those paths find that the right sides name twice or more, in order of the paths, each once.
pub(crate) fn named_often<'v>(
    alloc: Global,
    sets: &'v [SetTo],
    old: &'v Item,
) -> Result<Seq<FoundValue<'v>>, NoMemory>
    ensures { IfOk result (λ named. AreFound old.now named) }
{
    let mut paths = Vec::new(alloc);
    for set in sets {
        push_paths_of(&set.sum, &mut paths)?;
    }
    paths.sort_unstable();
    found_often(alloc, paths.as_slice(), old)
}

/// What those of the paths find that stand behind an equal path.
fn found_often<'v>(
    alloc: Global,
    paths: &[&'v DocPath],
    old: &'v Item,
) -> Result<Seq<FoundValue<'v>>, NoMemory>
    ensures { IfOk result (λ named. AreFound old.now named) }
{
    let mut named = Seq::new(alloc);
    let mut before: Option<&DocPath> = None;
    for path in paths {
        if before.is_some_and(|before| before == *path) {
            push_found(&mut named, path, old)?;
        }
        before = Some(path);
    }
    Ok(named)
}

/// Adds what the path finds, where that was not added last.
#[tactic(auto, using(crate::proofs::Lent::one_more))]
fn push_found<'v>(
    named: &mut Seq<FoundValue<'v>>,
    path: &'v DocPath,
    old: &'v Item,
) -> Result<(), NoMemory>
    ensures { OnOk result (AreFound old.now named.old → AreFound old.now named.new) }
{
    if named.as_slice().last().is_some_and(|last| last.is_at(path)) {
        return Ok(());
    }
    let Some(value) = old.get(path) else {
        return Ok(());
    };
    let lent = LentValue::new(value);
    named.push(FoundValue { path, lent })?;
    Ok(())
}

/// Adds the paths that the sum names.
fn push_paths_of<'v>(sum: &'v Sum, paths: &mut Vec<&'v DocPath>) -> Result<(), NoMemory> {
    match sum {
        Sum::One(term) => push_paths(term, paths),
        Sum::Plus(left, right) | Sum::Minus(left, right) => {
            push_paths(left, paths)?;
            push_paths(right, paths)
        }
    }
}

/// Adds the paths that the term names.
fn push_paths<'v>(term: &'v Term, paths: &mut Vec<&'v DocPath>) -> Result<(), NoMemory> {
    match term {
        Term::Path(path) => Ok(paths.push(path)?),
        Term::Value(_) => Ok(()),
        Term::IfNotExists(path, other) => {
            paths.push(path)?;
            push_paths(other, paths)
        }
        Term::Append(front, back) => {
            push_paths(front, paths)?;
            push_paths(back, paths)
        }
    }
}
