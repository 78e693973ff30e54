//! The feed of indexes: how the rows of an index follow the items of a table.
//!
//! Each change of an item queues changes of index rows in the outbox of the item's cell. A feeder looks at the outbox's
//! first, carries it out at the cell of its row, and acknowledges it; each of these may come late, again, or not at all.
//! A target keeps, of each source, the last sequence that it carried out. The definitions stand in `specs/Feed.antt`: what
//! a change of an item and a new index queue, what the cells hold after a list of events, and which lists are legal.
//!
//! [`index_rows_project`], [`drained_is_projection`] and [`feeds_harmless`] say what holds after every legal list, over
//! any keys, values and catalogs; `specs/Laws.antt` has the laws under their names.
#![tactic(auto)]

mod change;
mod laws;

pub use change::{Change, Row};
pub use laws::{drained_is_projection, feeds_harmless, index_rows_project};
