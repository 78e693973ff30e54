//! Why there is no value, or an item stays as it was.

use base_types::End;

/// What is wrong with a set or a path. Where several stand together, the first in this order is
/// answered.
#[derive(Clone, Copy, Debug, PartialEq, Eq)]
pub enum ValueFault {
    /// A set of no element.
    EmptySet = 1,
    /// An element that a set has twice.
    DuplicateInSet = 2,
    /// A value that would lie, or hold lists and maps, deeper than 32 levels.
    TooDeep = 3,
    /// A path whose parent is not there, or is not of the kind that its last step needs.
    BadPath = 4,
}

/// Why a call gave no value.
pub type ValueEnd = End<ValueFault>;
