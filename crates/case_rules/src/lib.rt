//! The rules of a small shop, for tests: orders and payments, each with a customer and an amount.
//!
//! It keeps two tables, which are made and dropped, and which can have an index by customer. It is
//! as small as it can be and still have what the laws of `txn_core` speak of: numbers of tables and
//! indexes that never come again, items that come with their table, rows that live in other cells
//! than their items, conditions, and actions that can't be evaluated. Items of a known customer
//! stand in a local order of their table, by amount.
#![tactic(auto)]

mod action;
mod catalog;
mod cells;
mod entry;
mod equality;
mod item;
mod key;
mod key_order;
mod pages;
mod question;
mod rules;
mod targets;

pub use action::{Action, Condition, Deed, Fault};
pub use catalog::{Catalog, Command, Table};
pub use entry::ShopEntry;
pub use item::Item;
pub use key::{Key, Name};
pub use question::{Question, Told};
pub use rules::Shop;
