//! What a page of rows reads and shows (API Reference: Query, Scan), wherever its rows come from.
//!
//! A request reads a table or one of its indexes ([`index_named`] finds that one). [`scan_start`] and [`query_start`] tell by the
//! schema alone where the page begins, or why the request is refused. Each refusal comes in the one order: a consistent read of
//! a global index, a choice of attributes that it does not keep; of a Query the key condition and a filter that names the key;
//! a projection of what is not kept; and a start key that is none.
//!
//! The page is filled row by row: by [`fill`] from a walk over rows in order, or by [`add_seen`] from rows that come as they are
//! seen. It is told by [`Filled::told`]. A row counts to the page whether it passes the filter or not. Whole items are shared as
//! they are shown, and what is picked of them is copied. A row of a global index that keeps some attributes alone is copied before it
//! is judged, since filter and size are of what the index keeps.
#![tactic(auto)]

mod names;
mod page;
mod queries;
mod refused;
mod root;
mod row;
mod scans;
mod source;
mod start;

pub use page::{Filled, add_seen, fill, nothing_filled};
pub use queries::{QueryStart, query_start};
pub use refused::invalid;
pub use row::{Seen, Sight};
pub use scans::{scan_span, scan_start};
pub use source::{Source, index_named};
