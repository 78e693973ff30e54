//! What is asked of the database: one struct an operation, with what its request states.
//!
//! A [`Request`] has passed the edge. Its expressions are trees, and name their values by places in one list; its words
//! are enums; a key is still the item that was sent, since which attributes a table's key has is known only where the
//! request is answered. Members that are read for their kind alone, as ReturnItemCollectionMetrics, are not kept.
//!
//! What a request used of the tables' capacity is [`Consumed`], one for each table, and [`Usage`] adds it up by their names.
//!
//! Contracts see a text as the list of its bytes, a list as the list of its items and an item as its attributes, so
//! requests are compared by what they hold. API Reference: Actions.
#![tactic(auto)]

mod batches;
mod consumed;
mod items;
mod pages;
mod request;
mod tables;
mod time_to_live;
mod transactions;

pub use batches::{BatchGet, BatchWrite, TableKeys, TableWrites, WriteRequest};
pub use consumed::{Consumed, Usage};
pub use items::{DeleteItem, GetItem, PutItem, ReturnValues, UpdateItem};
pub use pages::{PageRequest, Query, Scan, Segment, Select};
pub use request::Request;
pub use tables::{
    CreateTable, DeleteTable, DescribeTable, IndexChange, ListTables, TableUpdate, UpdateTable,
};
pub use time_to_live::{DescribeTimeToLive, UpdateTimeToLive};
pub use transactions::{ActionChange, TransactAction, TransactGet, TransactRead, TransactWrite};
