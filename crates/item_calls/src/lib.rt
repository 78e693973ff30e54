//! Calls on one item: GetItem, PutItem, UpdateItem and DeleteItem, over what cells are asked.
//!
//! A call is one straight try. It goes by what is kept of Looks, and where that tells no place of the item it looks; then it
//! asks the item's cell, once. What it answers is what the sequential database answers that has the tables of that entry, or
//! what its own Look tells (`specs/Items.antt`). Where the table is gone that was known, what is kept is let go, and the
//! caller tries again.
#![tactic(auto)]

mod delete;
mod get;
mod place;
mod put;
mod update;
mod write;

pub use delete::delete_item;
pub use get::get_item;
pub use put::put_item;
pub use update::update_item;
