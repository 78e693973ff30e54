//! Key conditions: the range of keys that a Query asks for (API Reference: Query, KeyConditionExpression; Developer
//! Guide: Key condition expressions).
//!
//! [`range`] makes a [`KeyRange`] of a condition, and a key lies in it exactly where the condition is true of the items
//! that have the key. What is no key condition is refused by its first fault.
#![tactic(auto)]

mod asked;
mod condition;
mod fault;
mod key_range;

pub use condition::range;
pub use fault::{RangeEnd, RangeFault};
pub use key_range::{Bound, KeyRange};
