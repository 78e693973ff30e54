//! The parameters of DynamoDB's older interface, read as the expressions that took their place.
//!
//! A test of Expected, QueryFilter, ScanFilter or KeyConditions is a part of a condition, a change of AttributeUpdates a
//! part of an update, a name of AttributesToGet a path. The trees are those of [`expr_parse`]; values are named by their
//! places in one list, and names are whole attribute names, dots included. API Reference: Legacy conditional parameters.
#![tactic(auto)]

mod changes;
mod fault;
mod laws;
mod leaf;
mod operator;
mod part;
mod projection;
mod tests;

pub use changes::{changes_fault, update};
pub use fault::{LegacyEnd, LegacyFault, least};
pub use laws::{one_meaning, spelled_texts_read};
pub use operator::{Action, Operator, joins_by_or};
pub use part::{Legacy, LegacyChange, LegacyTest};
pub use projection::{any_twice, attributes, attributes_fault};
pub use tests::{condition, keys, keys_fault, tests_fault};
