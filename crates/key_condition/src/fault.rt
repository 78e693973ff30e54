//! Why a condition gives no range of keys.

ghost use Rattle.std.specs.Prelude.{◌≡◌, Some};
ghost use Rattle.key_condition.specs.FaultName.{shown};
ghost use Rattle.key_condition.specs.Faults.{told, end_told, as_range_end};

use base_types::End;
use item_keys::{KeyEnd, KeyFault};
use std::error::Error;
use std::fmt;

/// What is wrong with a key condition. It is shown as its name, the form in which error texts have it, a key value's
/// fault by its own name behind.
#[derive(Clone, Copy, Debug, PartialEq, Eq)]
pub enum RangeFault {
    /// None of the conditions that AND joins is an equality of the partition key with a value.
    NoPartitionKey,
    /// Beside such an equality there is more than one condition, or one that is no allowed test of the sort key with
    /// values. A value that is not given counts here too.
    NotKey,
    /// A value has another type than its key attribute, or `begins_with` is asked of a number.
    WrongType,
    /// A value can stand in no key: it is Empty or TooLong.
    BadKeyValue(KeyFault),
}

impl RangeFault {
    /// Of two faults the one that is told: NotKey before WrongType, and WrongType before BadKeyValue, wherever they
    /// stand; of two of one kind the first.
    fn or_before(self, other: RangeFault) -> RangeFault
        ensures { result ≡ told self other }
    {
        match (self, other) {
            (RangeFault::NotKey, _) | (_, RangeFault::NotKey) => RangeFault::NotKey,
            (RangeFault::WrongType, _) | (_, RangeFault::WrongType) => RangeFault::WrongType,
            _ => self,
        }
    }
}

impl fmt::Display for RangeFault {
    ghost output = { λ fault. Some (shown fault) };

    fn fmt<W: fmt::Write>(&self, f: &mut fmt::Formatter<W>) -> fmt::Result {
        match self {
            RangeFault::NoPartitionKey => f.write_str("NoPartitionKey"),
            RangeFault::NotKey => f.write_str("NotKey"),
            RangeFault::WrongType => f.write_str("WrongType"),
            RangeFault::BadKeyValue(fault) => write!(f, "BadKeyValue {fault}"),
        }
    }
}

impl Error for RangeFault {}

/// Why there is no range.
pub type RangeEnd = End<RangeFault>;

/// What is told where two values could not be had, the first one first in the text.
pub(crate) fn first_told(first: RangeEnd, second: RangeEnd) -> RangeEnd
    ensures { result ≡ end_told first second }
{
    match (first, second) {
        (RangeEnd::Fault(first), RangeEnd::Fault(second)) => {
            RangeEnd::Fault(first.or_before(second))
        }
        _ => RangeEnd::NoMemory,
    }
}

/// Why there is no range where a value stands in no key.
pub(crate) fn without_key(end: KeyEnd) -> RangeEnd
    ensures { result ≡ as_range_end end }
{
    match end {
        KeyEnd::Fault(KeyFault::WrongType) => RangeEnd::Fault(RangeFault::WrongType),
        KeyEnd::Fault(fault) => RangeEnd::Fault(RangeFault::BadKeyValue(fault)),
        KeyEnd::NoMemory => RangeEnd::NoMemory,
    }
}
