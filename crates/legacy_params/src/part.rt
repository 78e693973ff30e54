//! The parts of legacy parameters, and what they become.

ghost use Rattle.std.specs.Prelude.{◌≡◌, length};
ghost use Rattle.legacy_params.specs.Tests.{values_of, operator_of, asked, has_two_forms};
ghost use Rattle.legacy_params.specs.Faults.{fault_of, change_fault};
ghost use Rattle.legacy_params.specs.Changes.{done};

use crate::fault::LegacyFault;
use crate::operator::{Action, Operator};
use attr_value::Value;
use base_types::{Seq, Text};
use expr_words::Comparison;

/// A test of one attribute: an entry of Expected, QueryFilter, ScanFilter or KeyConditions (API Reference:
/// ExpectedAttributeValue, Condition).
pub struct LegacyTest {
    pub name: Text,
    /// ComparisonOperator; the empty text where none is given.
    pub operator: Text,
    /// Value.
    pub value: Option<Value>,
    /// AttributeValueList.
    pub values: Seq<Value>,
    /// Exists.
    pub exists: Option<bool>,
}

// By hand, so that no crate above proves it again.
impl Drop for LegacyTest {
    fn drop(self) {
        let LegacyTest {
            name: _,
            operator: _,
            value: _,
            values: _,
            exists: _,
        } = self;
    }
}

impl LegacyTest {
    /// What the test asks; None where its operator is unknown. With no operator it is equality, or absence where Exists
    /// is false.
    fn operator(&self) -> Option<Operator>
        ensures { result ≡ operator_of self.now }
    {
        if !self.operator.is_empty() {
            return Operator::named(self.operator.as_str());
        }
        match self.exists {
            Some(false) => Some(Operator::Absent),
            _ => Some(Operator::Compare(Comparison::Equal)),
        }
    }

    /// What the test asks. An operator that is unknown is a fault, whatever stands here in its place.
    pub(crate) fn asked(&self) -> Operator
        ensures { result ≡ asked self.now }
    {
        match self.operator() {
            Some(operator) => operator,
            None => Operator::Compare(Comparison::Equal),
        }
    }

    /// How many values there are: Value and those of AttributeValueList.
    fn count(&self) -> usize
        ensures { result ≡ length (values_of self.now) }
    {
        let listed = self.values.as_slice().len();
        match self.value {
            Some(_) => listed + 1,
            None => listed,
        }
    }

    /// Whether there is an operator, and Value or Exists too.
    fn has_two_forms(&self) -> bool
        ensures { result ≡ has_two_forms self.now }
    {
        !self.operator.is_empty() && (self.value.is_some() || self.exists.is_some())
    }

    /// The name, Value and AttributeValueList.
    pub(crate) fn into_parts(self) -> (Text, Option<Value>, Seq<Value>)
        ensures { result ≡ (self.name, self.value, self.values) }
    {
        let LegacyTest {
            name,
            operator: _,
            value,
            values,
            exists: _,
        } = self;
        (name, value, values)
    }

    /// The first fault: BadOperator, BadCount, TwoForms.
    pub(crate) fn fault(&self, for_keys: bool) -> Option<LegacyFault>
        ensures { result ≡ fault_of for_keys self.now }
    {
        let Some(operator) = self.operator() else {
            return Some(LegacyFault::BadOperator);
        };
        if for_keys && !operator.is_for_keys() {
            return Some(LegacyFault::BadOperator);
        }
        if !operator.takes(self.count()) {
            return Some(LegacyFault::BadCount);
        }
        if self.has_two_forms() {
            return Some(LegacyFault::TwoForms);
        }
        None
    }
}

/// A change of one attribute: an entry of AttributeUpdates (API Reference: AttributeValueUpdate).
pub struct LegacyChange {
    pub name: Text,
    /// Action; the empty text where none is given.
    pub action: Text,
    /// Value.
    pub value: Option<Value>,
}

// By hand, so that no crate above proves it again.
impl Drop for LegacyChange {
    fn drop(self) {
        let LegacyChange {
            name: _,
            action: _,
            value: _,
        } = self;
    }
}

impl LegacyChange {
    /// The first fault: BadOperator, BadCount.
    pub(crate) fn fault(&self) -> Option<LegacyFault>
        ensures { result ≡ change_fault self.now }
    {
        match Action::named(self.action.as_str()) {
            None => Some(LegacyFault::BadOperator),
            Some(Action::Delete) => None,
            Some(_) => match self.value {
                Some(_) => None,
                None => Some(LegacyFault::BadCount),
            },
        }
    }

    /// The name, and Value.
    pub(crate) fn into_parts(self) -> (Text, Option<Value>)
        ensures { result ≡ (self.name, self.value) }
    {
        let LegacyChange {
            name,
            action: _,
            value,
        } = self;
        (name, value)
    }

    /// What the change does. An action that is unknown is a fault, whatever stands here in its place.
    pub(crate) fn done(&self) -> Action
        ensures { result ≡ done self.now }
    {
        match Action::named(self.action.as_str()) {
            Some(action) => action,
            None => Action::Put,
        }
    }
}

/// A tree, and the values that it names by their places, from 0.
#[derive(Drop)]
pub struct Legacy<T> {
    pub tree: T,
    pub values: Seq<Value>,
}
