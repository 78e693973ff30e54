//! Terms: values that are lent, or lists that are joined.

ghost use Rattle.std.specs.Prelude.{◌≡◌, IfOk, min};
ghost use Rattle.attr_value.specs.Sizes.{depth};
ghost use Rattle.expr_words.specs.Trees.{term_tree};
ghost use Rattle.item_writes.specs.Joined.{joined};
ghost use Rattle.item_writes.specs.NewTree.{new_tree};
ghost use Rattle.update_eval.specs.Answers.{Gives};
ghost use Rattle.update_eval.specs.Terms.{elements_in, lists_joined, term_of, there};
ghost use Rattle.update_eval.specs.Views.{lent_value, term_value};

use crate::fault::{EvalEnd, EvalFault};
use crate::sources::Sources;
use attr_value::{Elements, Value};
use base_types::Seq;
use expr_words::Term;
use item_writes::{LentLists, LentValue, NewValue};
use std::alloc::{AllocError as NoMemory, Global};

/// What a term is: nothing of it is copied.
#[derive(Drop)]
pub(crate) enum TermValue<'v> {
    /// A value of the old item, or one that came with the update.
    Lent(LentValue<'v>),
    /// The elements of these lists, one list behind the other.
    Joined(LentLists<'v>),
}

impl TermValue<'_> {
    /// How deep the value nests, up to `u32::MAX`.
    fn levels(&self) -> u32
        ensures { result ≡ min (depth (term_value self.now)) u32.MAX }
    {
        match self {
            TermValue::Lent(lent) => lent.levels,
            TermValue::Joined(lent) => lent.levels,
        }
    }
}

impl<'v> From<TermValue<'v>> for NewValue<'v> {
    ghost from_gives = { λ value new. new_tree new ≡ term_value value };

    fn from(value: TermValue<'v>) -> NewValue<'v> {
        match value {
            TermValue::Lent(lent) => NewValue::Lent(lent),
            TermValue::Joined(lent) => NewValue::Joined(lent),
        }
    }
}

/// What the term is, of these values and the old item.
pub(crate) fn term_of<'v>(
    alloc: Global,
    term: &Term,
    sources: &Sources<'v>,
) -> Result<TermValue<'v>, EvalEnd>
    ensures { Gives term_value (term_of sources.now.values.now sources.now.old.now (term_tree term.now)) result }
{
    match term {
        Term::Path(path) => lent(sources.found(path)),
        Term::Value(place) => lent(sources.given(*place)),
        Term::IfNotExists(path, other) => match sources.found(path) {
            Some(value) => Ok(TermValue::Lent(value)),
            None => term_of(alloc, other, sources),
        },
        Term::Append(front, back) => {
            let front = term_of(alloc, front, sources)?;
            let back = term_of(alloc, back, sources)?;
            lists_joined(alloc, front, back)
        }
    }
}

/// The value, which has to be there.
fn lent<'v>(value: Option<LentValue<'v>>) -> Result<TermValue<'v>, EvalEnd>
    ensures { Gives term_value (there (lent_value value.entry)) result }
{
    match value {
        Some(value) => Ok(TermValue::Lent(value)),
        None => Err(EvalEnd::Fault(EvalFault::MissingOperand)),
    }
}

/// The elements of two lists, one behind the other.
fn lists_joined<'v>(
    alloc: Global,
    front: TermValue<'v>,
    back: TermValue<'v>,
) -> Result<TermValue<'v>, EvalEnd>
    ensures { Gives term_value (lists_joined (term_value front.entry) (term_value back.entry)) result }
{
    let levels = front.levels().max(back.levels());
    let mut lists = Vec::from(lists_in(alloc, front)?);
    let mut more = Vec::from(lists_in(alloc, back)?);
    lists.append(&mut more)?;
    Ok(TermValue::Joined(LentLists {
        lists: Seq::from(lists),
        levels,
    }))
}

/// The lists of which the value is joined.
fn lists_in<'v>(alloc: Global, value: TermValue<'v>) -> Result<Seq<&'v Elements>, EvalEnd>
    ensures { Gives joined (elements_in (term_value value.entry)) result }
{
    match value {
        TermValue::Lent(lent) => match lent.value {
            Value::L(list) => Ok(one_list(alloc, list)?),
            _ => Err(EvalEnd::Fault(EvalFault::OperandType)),
        },
        TermValue::Joined(LentLists { lists, .. }) => Ok(lists),
    }
}

fn one_list<'v>(alloc: Global, list: &'v Elements) -> Result<Seq<&'v Elements>, NoMemory>
    ensures { IfOk result (λ lists. joined lists ≡ list.now) }
{
    let mut lists = Seq::new(alloc);
    lists.push(list)?;
    Ok(lists)
}
