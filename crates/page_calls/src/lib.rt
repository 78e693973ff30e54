//! Calls for pages of rows, over what cells are asked: Query and Scan.
//!
//! A call is one straight try. It goes by what is kept of Looks, and where that does not have the table, or would refuse the
//! request, by a Look of its own, by which alone it is refused. Then it asks cells for their parts of the page: a Query the cell
//! of its partition key, a Scan one cell after another from that of its start key on, each with the room that the one before
//! left, up to the first with which the page has ended. The reply is the one page of all rows that were there for it in these
//! cells, each at its own entry (`specs/Pages.antt`). Where the table or the index is gone that was known, what is kept is let
//! go, and the caller tries again.
#![tactic(auto)]

mod asked;
mod begin;
mod calls;
mod gather;
mod place;
mod read;
mod told;

pub use calls::{query, scan};
