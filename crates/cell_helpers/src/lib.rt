//! The threads that help a service of tables in cells, beside those that serve its sessions.
//!
//! A [`Helper`] is the feeder, which brings indexes up to date, or the recovery worker, which ends transactions whose drivers gave up, and
//! removes items that are expired. Sessions tell them by [`Hints`] that there is something to do. What a helper adds to the one
//! history binds no request (`specs/Upkeep.antt`): it makes no write, begins no transaction and changes no catalog.
//!
//! No clause says that a hint is sent, comes or is followed. Both may cross threads by the lemmas of `proofs/Crossings.antt`.
#![tactic(auto)]

mod helper;
mod hints;
mod rounds;

pub use helper::{Helper, make_helpers};
pub use hints::Hints;
