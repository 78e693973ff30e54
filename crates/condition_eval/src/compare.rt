//! Comparisons of two values, each of which may be absent.

ghost use Rattle.std.specs.Prelude.{◌≡◌};
ghost use Rattle.attr_value.specs.View.{tree_of, lent_tree};
ghost use Rattle.condition_eval.specs.Truth.{is_equal, order_of, passes, compared, is_between};
ghost use Rattle.condition_eval.specs.Truth.{kind_of, is_of_kind, begins, contains, is_part, holds_part};

use attr_value::Value;
use expr_words::Comparison;
use memchr::memmem;
use std::cmp::Ordering;

pub(crate) fn are_equal(left: Option<&Value>, right: Option<&Value>) -> bool
    ensures { result ≡ is_equal (lent_tree left.entry) (lent_tree right.entry) }
{
    match (left, right) {
        (Some(left), Some(right)) => left == right,
        _ => false,
    }
}

fn order_of(left: Option<&Value>, right: Option<&Value>) -> Option<Ordering>
    ensures { result ≡ order_of (lent_tree left.entry) (lent_tree right.entry) }
{
    match (left, right) {
        (Some(left), Some(right)) => left.compare(right),
        _ => None,
    }
}

/// Whether the comparison is true of the two.
pub(crate) fn compares(op: Comparison, left: Option<&Value>, right: Option<&Value>) -> bool
    ensures { result ≡ compared op (lent_tree left.entry) (lent_tree right.entry) }
{
    match op {
        Comparison::Equal => are_equal(left, right),
        Comparison::Unequal => !are_equal(left, right),
        Comparison::Less => passes(op, order_of(left, right)),
        Comparison::AtMost => passes(op, order_of(left, right)),
        Comparison::More => passes(op, order_of(left, right)),
        Comparison::AtLeast => passes(op, order_of(left, right)),
    }
}

/// Whether an order passes the comparison; no order passes none.
fn passes(op: Comparison, order: Option<Ordering>) -> bool
    ensures { result ≡ passes op order }
{
    let Some(order) = order else {
        return false;
    };
    match op {
        Comparison::Equal => order.is_eq(),
        Comparison::Unequal => order.is_ne(),
        Comparison::Less => order.is_lt(),
        Comparison::AtMost => order.is_le(),
        Comparison::More => order.is_gt(),
        Comparison::AtLeast => order.is_ge(),
    }
}

pub(crate) fn is_between(operand: Option<&Value>, low: Option<&Value>, high: Option<&Value>) -> bool
    ensures { result
        ≡ is_between (lent_tree operand.entry) (lent_tree low.entry) (lent_tree high.entry) }
{
    compares(Comparison::AtLeast, operand, low) && compares(Comparison::AtMost, operand, high)
}

/// The name of a value's type.
fn kind_of(value: &Value) -> &'static str
    ensures { result.now ≡ kind_of (tree_of value.now) }
{
    match value {
        Value::S(_) => "S",
        Value::N(_) => "N",
        Value::B(_) => "B",
        Value::Bool(_) => "BOOL",
        Value::Null => "NULL",
        Value::L(_) => "L",
        Value::M(_) => "M",
        Value::Ss(_) => "SS",
        Value::Ns(_) => "NS",
        Value::Bs(_) => "BS",
    }
}

/// Whether the value is there and of the type that the name names.
pub(crate) fn is_of_kind(value: Option<&Value>, name: Option<&Value>) -> bool
    ensures { result ≡ is_of_kind (lent_tree value.entry) (lent_tree name.entry) }
{
    match (value, name) {
        (Some(value), Some(Value::S(name))) => kind_of(value) == name.as_str(),
        _ => false,
    }
}

/// Whether both are texts or both binaries, and the second begins the first.
pub(crate) fn begins_with(whole: Option<&Value>, front: Option<&Value>) -> bool
    ensures { result ≡ begins (lent_tree whole.entry) (lent_tree front.entry) }
{
    match (whole, front) {
        (Some(Value::S(whole)), Some(Value::S(front))) => {
            whole
                .as_str()
                .as_bytes()
                .starts_with(front.as_str().as_bytes())
        }
        (Some(Value::B(whole)), Some(Value::B(front))) => {
            whole.as_slice().starts_with(front.as_slice())
        }
        _ => false,
    }
}

/// Whether the bytes stand in the others.
fn is_part(part: &[u8], whole: &[u8]) -> bool
    ensures { result ≡ is_part part.now whole.now }
{
    memmem::find(whole, part).is_some()
}

/// Whether the second is a part of the first: a substring, or an element.
pub(crate) fn contains(whole: Option<&Value>, part: Option<&Value>) -> bool
    ensures { result ≡ contains (lent_tree whole.entry) (lent_tree part.entry) }
{
    match (whole, part) {
        (Some(whole), Some(part)) => holds_part(whole, part),
        _ => false,
    }
}

fn holds_part(whole: &Value, part: &Value) -> bool
    ensures { result ≡ holds_part (tree_of whole.now) (tree_of part.now) }
{
    match (whole, part) {
        (Value::S(whole), Value::S(part)) => {
            is_part(part.as_str().as_bytes(), whole.as_str().as_bytes())
        }
        (Value::B(whole), Value::B(part)) => is_part(part.as_slice(), whole.as_slice()),
        (Value::Ss(texts), Value::S(text)) => texts.contains(text),
        (Value::Ns(numbers), Value::N(number)) => numbers.contains(number),
        (Value::Bs(binaries), Value::B(bytes)) => binaries.contains(bytes),
        (Value::L(list), part) => list.as_slice().contains(part),
        _ => false,
    }
}
