//! What a single write or read does to one table, and what it answers (API Reference: PutItem, UpdateItem, DeleteItem,
//! GetItem), and what becomes of one item by a write.
//!
//! A call gets the table that its request names. What it does is what the sequential database does: the clauses say so of
//! every database that has the table under that name (`specs/Effects.antt`). What the layers above can rely on:
//!
//! - [`put_item`], [`update_item`] and [`delete_item`] make a write whole or not at all, and each refusal comes in the one
//!   order: the key's form, an update of a key attribute, the condition, the evaluation, the size, the keys of indexes.
//!   Where memory is refused the table is as it was.
//! - Where it is asked what a request uses of the table's capacity, its items are measured and that is told; else nothing is.
//!   [`bytes_of`], [`read_mode`] and [`halves_written`] are for those who read or write many items.
//! - [`Telling`], [`condition_failed`], [`put_fault`] and [`told_read`] make the replies, for those whose items are elsewhere.
//! - [`put_outcome`], [`update_outcome`] and [`delete_outcome`] tell what becomes of one item and change nothing, for
//!   those who make many changes together. [`touched_key`] is the key attribute that an update would write.
//!
//! A request's item and key move into the table. Of what is there an item is shared where the answer shows it whole; what
//! the answer picks of it is copied, and so is an item that an update without actions keeps.
#![tactic(auto)]

mod key;
mod outcome;
mod read;
mod returned;
mod telling;
mod touched;
mod used;
mod write;

pub use key::{key_of_item, key_of_key};
pub use outcome::{ItemOutcome, delete_outcome, is_met, is_too_large, put_outcome, update_outcome};
pub use read::{get_item, told_read, view};
pub use returned::{shown, shown_old, touched_key};
pub use telling::Telling;
pub use used::{bytes_of, halves_written, read_mode};
pub use write::{condition_failed, delete_item, put_fault, put_item, update_item};
