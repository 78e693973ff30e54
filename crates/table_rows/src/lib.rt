//! The store of one table: its rows, and the places of its indexes, kept in step.
//!
//! [`TableRows`] keeps the items in an ordered map in the order of a Scan, and for each index an ordered set of
//! [`Position`](row_keys::Position)s alone: a row of an index is looked up where it is shown. So a Get is a look-up, a
//! page a walk, and a write touches its own item and its places in the indexes.
//!
//! A change is made in two steps. [`TableRows::prepare`] takes all memory that it needs, and may be refused; the rows
//! stay as they are. [`TableRows::commit`] makes all changes that are prepared, and [`TableRows::abort`] drops them, both
//! without memory. A write of one item is one change, and a transaction prepares many and commits them together.
//!
//! Where nothing is prepared, [`TableRows::rows`] and [`TableRows::index_rows`] are walks over the rows between two ends, of
//! which `paging` fills a page, and [`TableRows::change_schema`] gives the table other indexes.
//!
//! A table whose items expire knows seconds at which none is expired ([`TableRows::is_quiet`]): so it is not gone through
//! at every message. `specs/Quiet.antt` says what is known.
//!
//! `specs/View.antt` says what a table shows.
#![tactic(auto)]

mod change;
mod index;
mod index_range;
mod indexed;
mod moves;
mod prepare;
mod quiet;
mod row_range;
mod slots;
mod table;

pub use change::RowChange;
pub use index_range::IndexRange;
pub use row_range::RowRange;
pub use table::TableRows;
