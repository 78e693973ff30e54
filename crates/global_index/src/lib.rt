//! What a cell keeps of global indexes: the changes that wait for other cells, those of other cells that it carried out, and
//! the rows that live in it.
//!
//! A change of an item queues changes of index rows in the [`Outbox`] of the item's cell. The cell of a row carries each out
//! in its [`IndexRows`], and keeps in [`Marks`], of each source, the number of the last one. What these are is said by
//! `index_feed`. The places of an outbox are set aside before they are needed, so that the end of a transaction takes no
//! memory.
#![tactic(auto)]

mod marks;
mod outbox;
mod rows;

pub use marks::Marks;
pub use outbox::Outbox;
pub use rows::IndexRows;
