//! Reads of several items at one point, beside transactions and writes.
//!
//! [`transact_get`] reads the items in two rounds. Where no transaction held any of them, and the versions of both rounds agree, the
//! first round's items are the tables at one point between the rounds. What the layer above can rely on:
//!
//! - The entries of a call are reads alone, one unit each, at most two for each item (`specs/Reads.antt`).
//! - Items that are answered are those of the tables of the one order, by the history up to a point between the rounds; and where
//!   none are, the reason of each item is told by its two reads.
#![tactic(auto)]

mod item_version;
mod read_end;
mod reading;
mod rounds;
mod ruling;

pub use item_version::ItemVersion;
pub use read_end::ReadEnd;
pub use reading::transact_get;
