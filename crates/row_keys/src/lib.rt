//! Keys of rows as ordered maps keep them: rows of a table by their place and key, rows of an index by the index's key
//! and then by the table's.
//!
//! A [`RowKey`] has the place of its partition key, which was computed once, and a [`SortPoint`] in place of a sort key:
//! the value's, or one between values. So each range that a Query asks for lies between two keys of the same type, in
//! both directions, and an ordered map finds its ends. A [`Position`] is where a row stands in what is read.
//!
//! `specs/Rows.antt` says which rows a table and its indexes have, and in which order; `specs/Expiry.antt` when an item is
//! expired.
#![tactic(auto)]

mod expiry;
mod index;
mod laws;
mod point;
mod position;
mod row_key;

pub use expiry::{Expiry, expiry_of, is_below};
pub use index::{is_refused, position_of};
pub use laws::{end_behind_fronts, end_behind_prefixes, end_behind_values, stand_as_values};
pub use point::SortPoint;
pub use position::Position;
pub use row_key::RowKey;
