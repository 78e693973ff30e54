//! What may be wrong with a body, and when it is looked for.

use crate::name::Name;
use attr_json::JsonFault;

/// What is looked for in one walk over a body. The stages come one after the other.
#[derive(Clone, Copy)]
pub enum Stage {
    /// A value of another JSON kind than stated.
    Kinds,
    /// A required member that is absent.
    Absent,
    /// All that is asked of a value beside its kind.
    Ranges,
    /// All of these at once: whether there is any fault.
    Any,
}

/// What is wrong with a body.
#[derive(Clone, Copy)]
pub enum Fault {
    /// A stated member, or a part of one, is of another JSON kind than stated.
    Kind,
    /// A required member is absent or null.
    Missing(Name),
    /// A length, a number, a word or a count is not among those that the member may have.
    OutOfRange(Name),
    /// An attribute value is of no form that it may have.
    BadValue(JsonFault),
    /// The attributes to select do not go with the index and the projection that are stated.
    Select,
}
