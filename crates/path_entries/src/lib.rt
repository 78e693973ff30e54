//! Document paths with something at their end, in order, and those of them that lead below a step.
//!
//! An update makes all its writes at once, and a projection picks all its paths at once. Both go down a value and ask at
//! each attribute and each place which of the paths lead on below it. Among paths in order these stand side by side, so
//! two searches by halves find them ([`range`]).
#![tactic(auto)]

mod group;
mod key;
mod order;
mod search;

pub use group::below;
pub use key::{Key, PathEntry};
pub use order::sorted;
pub use search::range;
