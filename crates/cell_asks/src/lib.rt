//! What calls ask of the cells of real tables, one message each, and what they keep of what they were told.
//!
//! A call goes by [`Asks`]: no type of a cell or of the cluster is in scope above it. Each call is one straight try, whose
//! entries are few and stated ([`Tried`]); where a table was gone that it knew, the caller tries again, and looks.
#![tactic(auto)]

mod asks;
mod looks;
mod tried;

pub use asks::{Asks, Got, Ruled, Wrote};
pub use cluster::StepError;
pub use looks::Looks;
pub use tried::Tried;
