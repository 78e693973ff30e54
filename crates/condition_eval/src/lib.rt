//! Whether a condition is true of an item (DynamoDB Developer Guide, "Comparison operator and function reference").
//!
//! No condition is an error, whatever types its operands have: a comparison of what has no order is false. Nothing takes
//! memory, and a substring is searched for in one pass.
#![tactic(auto)]

mod compare;
mod measure;
mod seen;
mod truth;

pub use truth::holds;
