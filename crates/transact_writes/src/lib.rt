//! Changes of many items at one point, all or nothing (API Reference: TransactWriteItems).
//!
//! [`transact_write`] answers what the sequential database answers. The refusals come in one order: a table that is not
//! there, a key that is none of its table's, an item that stands twice, an update of a key attribute, and then what the
//! token says, the conditions and the new items. Every action is judged on the tables as they are before the first change
//! is made, and the changes are made together.
//!
//! [`checked`] tells by the tables' schemas alone whether a request is refused before its actions are judged, and else where the
//! item of each is: so calls that keep no rows check requests by it too.
//!
//! A request's items move into the tables; where a token keeps the actions, the items are copied for the tables.
#![tactic(auto)]

mod aim;
mod aimed;
mod judge;
mod settle;
mod token;
mod verdicts;
mod write;

pub use aim::{checked, missing_table};
pub use aimed::Aimed;
pub use write::transact_write;
