//! Calls on many items, over what cells are asked: BatchGetItem and BatchWriteItem.
//!
//! A call is one straight try. Its whole request is checked first, by the schemas of its tables: by what is kept of Looks, and
//! where that would refuse it, or does not have all the tables, by Looks of its own. A request is refused by these alone, as
//! every database refuses it that agrees with them. Then each key is read by a Get of its own, and each write made by a Write of
//! its own, in the order of the request: they are of several points (API Reference: BatchGetItem, BatchWriteItem).
//!
//! [`batch_get`] tells each item as readers are shown it at its own Get, and ends where the items have no more room. Where a
//! table is gone that was known, what is kept is let go, and the caller tries again.
//!
//! [`batch_write`] gives back the writes that were not made: of an item that a transaction holds, of a table that is gone, and of
//! an item that an index refuses which the Looks did not show. Where a table is gone or has such an index, what is kept is let
//! go, so that the next request looks. All other writes are made. Where it ends by an error, the first of its writes were sent.
//!
//! `specs/Batches.antt` and `specs/Writes.antt` say what a try comes to.
#![tactic(auto)]

mod actions;
mod find;
mod get;
mod tables;
mod told;
mod write;

pub use get::batch_get;
pub use write::batch_write;
