//! The status and the body of every reply (DynamoDB API Reference: each operation's response, Common errors).
//!
//! A body is compact JSON, the members of each object in the order of their names. It is written token by token, with no
//! tree: a page of a megabyte takes its text and no more. What the layer above can rely on:
//!
//! - [`body`] and [`status`] answer for every reply of the database, [`refusal_body`] for a message that is no request;
//!   the bytes are those of `body_of` and `edge_body` (`specs/Bodies.antt`), or memory was refused. What was consumed of the
//!   tables' capacity is one member more, where the reply has it.
//! - [`memory_error_body`] and [`budget_error_body`] are fixed texts, so that they can be told without memory.
//! - [`worked`]: the examples of `specs/Worked.antt` hold.
#![tactic(auto)]

mod batch;
mod consumed;
mod description;
mod edge;
mod error;
mod kind;
mod laws;
mod message;
mod reason;
mod reply;
mod time_to_live;
mod to_json;

pub use kind::ErrorKind;
pub use laws::worked;
pub use reply::{body, budget_error_body, memory_error_body, refusal_body, status};
