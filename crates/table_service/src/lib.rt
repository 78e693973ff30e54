//! What is told of messages, and the database of one session as a service.
//!
//! A message is read as a request, the request is applied, and its reply is told. [`PlainService`] keeps a database for each
//! session: its steps are those of the sequential database. How messages are read and replies told serves other services too.
//!
//! `specs/` has the definitions in reading order: what is told, and the plain service.
#![tactic(auto)]

mod plain;
mod telling;

pub use plain::PlainService;
pub use telling::{budget_error, memory_error, read, refuse, tell};
