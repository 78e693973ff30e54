//! A cell of tables: what it keeps, what it answers to each message, and what it is after it.
//!
//! A [`Partition`] keeps the items that live in it, with their entries in the local indexes of their tables, the changes that
//! wait for other indexes, and the rows of these that live in it. There is one function a message, over any tables that meet
//! [`CellRules`], for pages [`PageRules`], and for commands of the catalog [`CommandRules`]. Each says, of every state and feed
//! of `txn_core` that the cell holds, that its answer is the one of the protocol, and that the cell holds the state and the feed
//! after it: `specs/Holds.antt` says when a cell holds a state, `specs/Says.antt` what is answered. So nothing is said here of
//! how a cell came to be as it is, but for [`page`]. It asks of the feed that it lists all that is there, which
//! `proofs/Listed.antt` has of the feed of any entries, and of the cell that its local entries are in step with its items
//! (`specs/InStep.antt`). Each message that changes a cell leaves them so, whatever it answers, and so does a command.
//!
//! A command of the catalog changes all cells or none, over any tables that meet [`CommandRules`]: [`first_holder`] tells which
//! transaction stands in its way, [`plan_catalog`] takes all that a cell needs for it and changes nothing, and when all cells
//! have planned it, [`commit_catalog`] carries it out in each, or [`abandon_catalog`] gives the plans up.
//!
//! Where memory is refused, or a number is not left, the cell is as it was. [`apply`], [`release`], [`acknowledge`] and
//! [`commit_catalog`] take no memory and have no error: [`prepare`] takes all that the end of its transaction needs.
#![tactic(auto)]

mod carrying;
mod cell;
mod commands;
mod ends;
mod evaluation;
mod expiry;
mod feeds;
mod held_items;
mod holds;
mod in_the_way;
mod page_rules;
mod pages;
mod prepares;
mod reads;
mod start;
mod steps;
mod store;
mod writes;

pub use cell::{Partition, PartitionOf};
pub use commands::{abandon_catalog, commit_catalog, plan_catalog};
pub use ends::{apply, release};
pub use expiry::{expire, expired_keys};
pub use feeds::{acknowledge, apply_index, peek_out};
pub use held_items::pendings;
pub use in_the_way::first_holder;
pub use index_changes::{CellRules, CommandRules, TableChange};
pub use page_rules::PageRules;
pub use pages::page;
pub use prepares::prepare;
pub use reads::{get, read_version};
pub use start::{new, under};
pub use steps::{is_served, step};
pub use writes::write;
