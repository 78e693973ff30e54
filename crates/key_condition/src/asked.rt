//! What a key condition asks of the two parts of a key.

ghost use Rattle.std.specs.Prelude.{◌≡◌};
ghost use Rattle.expr_words.specs.Trees.{tree};
ghost use Rattle.key_condition.specs.Asked.{is_attribute, equality, compared_ends, ends_on, joined, asked, has_equality};

use base_types::{DocPath, Step, Text};
use expr_words::{Comparison, Condition, Operand};
use table_schema::KeyNames;

/// An end of a range of the sort key's values, its value by its place among those that are given.
#[derive(Clone, Copy)]
pub(crate) enum End {
    Open,
    At(u32),
    Past(u32),
    BeforePrefixEnd(u32),
}

/// The ends between which the sort key is to lie.
#[derive(Clone, Copy)]
pub(crate) struct Ends {
    pub low: End,
    pub high: End,
}

/// What a key condition asks.
#[derive(Clone, Copy)]
pub(crate) struct Asked {
    /// The place of the value that the partition key is to equal.
    pub partition: u32,
    pub sort: Ends,
    /// Whether the test of the sort key comes first in the text.
    pub sort_first: bool,
}

/// What the condition asks of a key with these names, where it is a key condition.
#[tactic(auto, unfolding(crate::specs::Asked::asked))]
pub(crate) fn asked_of(keys: &KeyNames, condition: &Condition) -> Option<Asked>
    ensures { result ≡ asked keys.now (tree condition.now) }
{
    if let Some(partition) = equality(&keys.partition, condition) {
        return Some(Asked {
            partition,
            sort: Ends {
                low: End::Open,
                high: End::Open,
            },
            sort_first: false,
        });
    }
    let Condition::And(left, right) = condition else {
        return None;
    };
    match joined(keys, left, right, false) {
        Some(asked) => Some(asked),
        None => joined(keys, right, left, true),
    }
}

/// Whether one of the conditions that AND joins is an equality of the attribute with a value.
pub(crate) fn has_equality(name: &Text, condition: &Condition) -> bool
    ensures { result ≡ has_equality name.now (tree condition.now) }
{
    match condition {
        Condition::And(left, right) => has_equality(name, left) || has_equality(name, right),
        _ => equality(name, condition).is_some(),
    }
}

/// An equality of the partition key and a test of the sort key.
fn joined(
    keys: &KeyNames,
    partition: &Condition,
    sort: &Condition,
    sort_first: bool,
) -> Option<Asked>
    ensures { result ≡ joined keys.now sort_first (tree partition.now) (tree sort.now) }
{
    let place = equality(&keys.partition, partition)?;
    let name = keys.sort.as_ref()?;
    let sort = ends_on(name, sort)?;
    Some(Asked {
        partition: place,
        sort,
        sort_first,
    })
}

/// The place of the value that the attribute is to equal, where the condition is such an equality.
fn equality(name: &Text, condition: &Condition) -> Option<u32>
    ensures { result ≡ equality name.now (tree condition.now) }
{
    match condition {
        Condition::Compare {
            op: Comparison::Equal,
            left: Operand::Path(path),
            right: Operand::Value(place),
        } => {
            if !is_attribute(name, path) {
                return None;
            }
            Some(*place)
        }
        _ => None,
    }
}

/// The ends between which the attribute is to lie, where the condition is one that a sort key may have.
fn ends_on(name: &Text, condition: &Condition) -> Option<Ends>
    ensures { result ≡ ends_on name.now (tree condition.now) }
{
    match condition {
        Condition::Compare {
            op,
            left: Operand::Path(path),
            right: Operand::Value(place),
        } => {
            if !is_attribute(name, path) {
                return None;
            }
            compared_ends(*op, *place)
        }
        Condition::Between {
            operand: Operand::Path(path),
            low: Operand::Value(low),
            high: Operand::Value(high),
        } => {
            if !is_attribute(name, path) {
                return None;
            }
            Some(Ends {
                low: End::At(*low),
                high: End::At(*high),
            })
        }
        Condition::Begins(Operand::Path(path), Operand::Value(front)) => {
            if !is_attribute(name, path) {
                return None;
            }
            Some(Ends {
                low: End::At(*front),
                high: End::BeforePrefixEnd(*front),
            })
        }
        _ => None,
    }
}

/// The ends between which values compare so to the one at a place. `<>` leaves no range.
fn compared_ends(op: Comparison, place: u32) -> Option<Ends>
    ensures { result ≡ compared_ends op place }
{
    let (low, high) = match op {
        Comparison::Equal => (End::At(place), End::At(place)),
        Comparison::Unequal => return None,
        Comparison::Less => (End::Open, End::Past(place)),
        Comparison::AtMost => (End::Open, End::At(place)),
        Comparison::More => (End::Past(place), End::Open),
        Comparison::AtLeast => (End::At(place), End::Open),
    };
    Some(Ends { low, high })
}

/// Whether the path leads to the attribute of this name, and no further.
fn is_attribute(name: &Text, path: &DocPath) -> bool
    ensures { result ≡ is_attribute name.now path.now.steps }
{
    match path.steps.as_slice() {
        [Step::Name(step)] => step == name,
        _ => false,
    }
}
