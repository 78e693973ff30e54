//! Requests from the bodies of messages (DynamoDB API Reference: Actions).
//!
//! A body is first held against the form of its operation (`api_form`). Behind that check it is read part by part
//! (`request_parts`), without further questions. What is left to be refused is what only the parts together show: the
//! size of a transaction, expressions, a schema that breaks a rule.
#![tactic(auto)]

mod action;
mod batch;
mod catalog;
mod change;
mod item;
mod legacy;
mod message;
mod operation;
mod page;
mod part;
mod schema;
mod stated;
mod transaction;

pub use message::read;
pub use request_parts::{Refusal, RequestEnd};
