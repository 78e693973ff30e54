//! Real tables meet what the protocol of transactions asks of tables.
//!
//! [`TableRules`] is the type: its keys are [`CellKey`](cell_model::CellKey)s, an item is shared, an action is one of a
//! TransactWriteItems with its key, and the catalog is that of `cell_model`. What each call answers is what the definitions
//! there say, for every number of partitions, so that a history of the cells can be replayed. A cell of `partition` can keep
//! them: keys are compared as the rules compare them.
//!
//! What a command makes, drops or alters, by number, keeps the laws of `partition` on commands over the catalogs that commands
//! make (`specs/TargetLaws.antt`): of such a catalog no index is of two tables.
#![tactic(auto)]

mod act;
mod answers;
mod cells;
mod copies;
mod equal;
mod expiry;
mod keys;
mod questions;
mod removal;
mod rows;
mod rules;
mod targets;
mod told;

pub use rules::TableRules;
