//! What an operand is of.

ghost use Rattle.std.specs.Prelude.{◌≡◌, Some, option_and_then};
ghost use Rattle.attr_value.specs.View.{lent_tree, tree_of};
ghost use Rattle.condition_eval.specs.Truth.{seen, measured};
ghost use Rattle.condition_eval.specs.Seen.{seen_tree};

use crate::measure::measure;
use attr_value::{Item, Value};
use base_types::Seq;
use expr_words::Operand;
use number38::Number;

/// What an operand is: nothing, a value that is lent, or a number that was counted.
#[derive(Drop)]
pub(crate) enum Seen<'v> {
    Nothing,
    Lent(&'v Value),
    Counted(Value),
}

impl<'v> Seen<'v> {
    /// The value, lent.
    pub(crate) fn value(&self) -> Option<&Value>
        ensures { lent_tree result ≡ seen_tree self.now }
    {
        match self {
            Seen::Nothing => None,
            Seen::Lent(value) => Some(*value),
            Seen::Counted(value) => Some(value),
        }
    }
}

/// What the operand is of this item, with these values.
pub(crate) fn see<'v>(operand: &Operand, values: &'v Seq<Value>, item: &'v Item) -> Seen<'v>
    ensures { seen_tree result ≡ seen values.now item.now operand.now }
{
    match operand {
        Operand::Path(path) => lent(item.get(path)),
        Operand::Value(place) => lent(values.get(*place as usize)),
        Operand::Size(path) => size_of(item.get(path)),
    }
}

fn lent<'v>(value: Option<&'v Value>) -> Seen<'v>
    ensures { seen_tree result ≡ lent_tree value.entry }
{
    match value {
        Some(value) => Seen::Lent(value),
        None => Seen::Nothing,
    }
}

fn size_of<'v>(value: Option<&Value>) -> Seen<'v>
    ensures { seen_tree result ≡ option_and_then measured (lent_tree value.entry) }
{
    let Some(value) = value else {
        return Seen::Nothing;
    };
    match measure(value) {
        Some(size) => Seen::Counted(Value::N(size)),
        None => Seen::Nothing,
    }
}
