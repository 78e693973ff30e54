//! The sequential database: what every request does, and what it is answered.
//!
//! `specs/` is what a reader has to believe. A database is one map of tables, one map of tokens and the count of the
//! tables made; whole requests are applied to it one after the other. It has no prepares, timestamps, versions, ledger,
//! partitions or queues. The definitions stand in reading order: rows and indexes, a change of one item, the database,
//! and then each operation by its own file, which names its page of the API Reference.
//!
//! The types here are what requests are answered: a [`Reply`] an outcome, and a [`Refusal`] for each refusal that
//! depends on the tables. What is refused for the form of a request alone is refused before the database sees it.
#![tactic(auto)]

mod action;
mod laws;
mod refusal;
mod reply;

pub use action::NumberedAction;
pub use laws::worked;
pub use refusal::{Invalid, Reason, Refusal, TtlFault};
pub use reply::{FoundItems, Page, Reply, TableNames};
