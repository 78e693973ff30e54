//! What is wrong with legacy parameters.

ghost use Rattle.std.specs.Prelude.{◌≡◌};
ghost use Rattle.legacy_params.specs.Faults.{least, number};

use base_types::End;

/// Why legacy parameters stand for no expression, in the order in which a request is told of it.
#[derive(Clone, Copy)]
pub enum LegacyFault {
    /// They stand beside an expression.
    Mixed,
    /// An operator, an action or a ConditionalOperator is unknown, or no operator for keys.
    BadOperator,
    /// There are more or fewer values than the operator or the action takes.
    BadCount,
    /// A test has a ComparisonOperator, and a Value or Exists too.
    TwoForms,
    /// AttributesToGet names no attribute.
    NoAttributes,
}

/// The one that is told first.
pub fn least(one: Option<LegacyFault>, other: Option<LegacyFault>) -> Option<LegacyFault>
    ensures { result ≡ least one other }
{
    match (one, other) {
        (None, other) => other,
        (one, None) => one,
        (Some(one), Some(other)) => {
            if number(one) <= number(other) {
                Some(one)
            } else {
                Some(other)
            }
        }
    }
}

fn number(fault: LegacyFault) -> u8
    ensures { result ≡ number fault }
{
    match fault {
        LegacyFault::Mixed => 1,
        LegacyFault::BadOperator => 2,
        LegacyFault::BadCount => 3,
        LegacyFault::TwoForms => 4,
        LegacyFault::NoAttributes => 5,
    }
}

/// Why there is no tree.
pub type LegacyEnd = End<LegacyFault>;
