//! The cells of real tables: partitions and the control cell, behind what calls ask of them.
//!
//! [`TableCells`] is a cluster of the tables of `cell_rules`. A [`TableCaller`] is what a thread calls on it with, beside a pass of its own. It
//! meets [`Asks`](cell_asks::Asks), so that each message is one entry of the one history, and no call above knows of a cluster; and
//! [`Transacts`](transact_asks::Transacts), for transactions and reads at one point. The calls
//! of several messages, which the crates over `cluster` make for any rules, are handed on here, one name each, with what they promise.
//!
//! [`visit_all`] lends a caller to several threads, each of which has a pass of its own and does what a [`Visitor`] does. What cells hold may
//! cross threads by the lemmas of `proofs/Crossings.antt`, for who calls it.
#![tactic(auto)]

mod asked;
mod asks;
mod cells;
mod several;
mod transacts;
mod visits;

pub use cells::{TableCaller, TableCells, TablePass};
pub use several::{drain, expire, sweep, transact_get, transact_write};
pub use visits::{Seat, Visitor, visit_all};
