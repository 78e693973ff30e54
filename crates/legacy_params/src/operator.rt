//! The words of tests and changes.

ghost use Rattle.std.specs.Prelude.{◌≡◌};
ghost use Rattle.legacy_params.specs.Operators.{operator_named, action_named, joins_by_or};
ghost use Rattle.legacy_params.specs.Tests.{takes, is_for_keys};

use expr_words::Comparison;

/// The most values of an IN.
const MOST_CHOICES: usize = 100;

/// What a test asks of an attribute.
#[derive(Clone, Copy)]
pub enum Operator {
    /// EQ, NE, LT, LE, GT, GE: how it compares with one value.
    Compare(Comparison),
    /// NOT_NULL: that it is there.
    Exists,
    /// NULL: that it is not.
    Absent,
    /// CONTAINS: that one value is a part of it.
    Contains,
    /// NOT_CONTAINS: that one value is not.
    NotContains,
    /// BEGINS_WITH: that it begins with one value.
    BeginsWith,
    /// IN: that it is one of 1 to 100 values.
    Among,
    /// BETWEEN: that it is at least the first of two values, and at most the second.
    Between,
}

impl Operator {
    /// The operator of a ComparisonOperator, which is written exactly so.
    pub(crate) fn named(word: &str) -> Option<Operator>
        ensures { result ≡ operator_named word.now }
    {
        match word {
            "EQ" => Some(Operator::Compare(Comparison::Equal)),
            "NE" => Some(Operator::Compare(Comparison::Unequal)),
            "LT" => Some(Operator::Compare(Comparison::Less)),
            "LE" => Some(Operator::Compare(Comparison::AtMost)),
            "GT" => Some(Operator::Compare(Comparison::More)),
            "GE" => Some(Operator::Compare(Comparison::AtLeast)),
            "NOT_NULL" => Some(Operator::Exists),
            "NULL" => Some(Operator::Absent),
            "CONTAINS" => Some(Operator::Contains),
            "NOT_CONTAINS" => Some(Operator::NotContains),
            "BEGINS_WITH" => Some(Operator::BeginsWith),
            "IN" => Some(Operator::Among),
            "BETWEEN" => Some(Operator::Between),
            _ => None,
        }
    }

    /// Whether it takes so many values.
    pub(crate) fn takes(self, count: usize) -> bool
        ensures { result ≡ takes self count }
    {
        match self {
            Operator::Exists | Operator::Absent => count == 0,
            Operator::Among => 1 <= count && count <= MOST_CHOICES,
            Operator::Between => count == 2,
            _ => count == 1,
        }
    }

    /// Whether a test of a key may have it: all of equality and order, BEGINS_WITH and BETWEEN.
    pub(crate) fn is_for_keys(self) -> bool
        ensures { result ≡ is_for_keys self }
    {
        match self {
            Operator::Compare(Comparison::Unequal) => false,
            Operator::Compare(_) | Operator::BeginsWith | Operator::Between => true,
            _ => false,
        }
    }
}

/// What a change does to an attribute.
#[derive(Clone, Copy)]
pub enum Action {
    /// PUT, the default: it becomes a value.
    Put,
    /// ADD: a value is added to it.
    Add,
    /// DELETE: it goes, or a value's elements do.
    Delete,
}

impl Action {
    /// The action of this word, which is written exactly so. The empty text is PUT.
    pub(crate) fn named(word: &str) -> Option<Action>
        ensures { result ≡ action_named word.now }
    {
        match word {
            "" | "PUT" => Some(Action::Put),
            "ADD" => Some(Action::Add),
            "DELETE" => Some(Action::Delete),
            _ => None,
        }
    }
}

/// Whether a ConditionalOperator joins tests by OR; None where its word is neither AND nor OR.
pub fn joins_by_or(word: &str) -> Option<bool>
    ensures { result ≡ joins_by_or word.now }
{
    match word {
        "AND" => Some(false),
        "OR" => Some(true),
        _ => None,
    }
}
