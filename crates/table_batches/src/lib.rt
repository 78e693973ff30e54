//! Requests on many items, over the tables as the plain program keeps them (API Reference: BatchGetItem, BatchWriteItem).
//!
//! - [`batch_get`] reads items up to 16,777,216 bytes together, and gives back the keys that it did not read.
//! - [`batch_write`] makes and drops items, all of them or none.
//!
//! A request is refused as a whole: first for a table that is not there, then for the form of a key, then for a key that
//! stands twice in a table, and then for an item that may not be written. Each key is computed once, and what a request
//! holds moves into the tables or the answer. Where it is asked what the writes use of the tables' capacity, their keys are
//! computed once more before they are made, to look at the items as they were.
//!
//! `specs/Answers.antt` says what a call does in the words of the sequential database.
#![tactic(auto)]

mod asked;
mod change;
mod check;
mod fit;
mod keys;
mod missing;
mod part;
mod read;
mod unread;
mod used;
mod write;

pub use part::{Checked, OnTable};
pub use read::{batch_get, told_batch};
pub use write::batch_write;
