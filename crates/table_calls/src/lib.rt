//! Requests on tables, each by one message to the cells: a command, or a question about the catalog.
//!
//! A request that changes the catalog is answered as the sequential database would be, on the tables before its own command; where
//! a transaction holds an item of the table, it is told so. One that asks is answered by its own Look, or by its own Names. All
//! that a reply to a command needs is made before the command is sent: once it stands, no memory is wanted.
#![tactic(auto)]

mod create;
mod delete;
mod describe;
mod expiry;
mod list;
mod refusal;
mod update;

pub use create::create_table;
pub use delete::delete_table;
pub use describe::describe_table;
pub use expiry::{describe_time_to_live, update_time_to_live};
pub use list::list_tables;
pub use update::update_table;
