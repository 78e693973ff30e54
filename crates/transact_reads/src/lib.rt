//! Reads of many items at one point, all or nothing (API Reference: TransactGetItems).
//!
//! [`transact_get`] answers what the sequential database answers: `specs/Reads.antt` says so of every database of these
//! tables. The refusals come in one order: a table that is not there, a key that is none of its table's, and then an item
//! that is read twice. Nothing is changed.
//!
//! [`checked`] tells by the tables' schemas alone whether a request is refused, and else where the item of each read is;
//! [`told_reads`] tells what items were found: so calls that keep no rows check requests, and reply to them, by the same.
//!
//! [`has_repeat`] tells whether some item is named twice, of anything that names items ([`Targeted`]): each is looked for
//! among those before it, for the logarithm of their number.
#![tactic(auto)]

mod check;
mod found;
mod read;
mod targets;
mod told;

pub use check::checked;
pub use found::ReadAt;
pub use read::transact_get;
pub use targets::{Targeted, has_repeat};
pub use told::told_reads;
