//! What an update makes of an item (DynamoDB Developer Guide, "Update expressions").
//!
//! [`apply`] computes every value on the old item, so that no action sees another, and answers the first fault in the
//! order SET, REMOVE, ADD, DELETE. Then all is written at once, and the new item is measured.
#![tactic(auto)]

mod action;
mod fault;
mod named;
mod path;
mod set;
mod sources;
mod sum;
mod term;
mod update;

pub use fault::{EvalEnd, EvalFault};
pub use path::touches;
pub use update::{MAX_SIZE, apply};
