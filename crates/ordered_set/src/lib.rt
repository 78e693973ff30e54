//! Sets that are kept in order: at least one element, and each below the next.
//!
//! A contract sees an [`OrderedSet`] as the list of its elements. That they ascend and that there is one are facts of
//! the type, so whoever holds a set has them from [`OrderedSet::as_slice`]. Only copies and [`OrderedSet::union`] take
//! memory.
#![tactic(auto)]

mod set;

pub use set::{OrderedSet, SetFault};
