//! The plain program of the sequential database: one map of tables, one map of tokens, whole requests one after the
//! other.
//!
//! [`SlowDb`] is what `table_model` defines, computed over ordered maps, and [`effect_slow`] applies a request to it. It is
//! what the server is compared with, and is written to be used: a request on items costs the logarithm of what is kept.
//! Where memory is refused nothing is half done.
//!
//! A page of a Query walks the keys, and its definition asks the items: that both find the same rows rests on
//! [`rows_stay_at_their_keys`], by which every row stands at its item's key after every request.
#![tactic(auto)]

mod batch;
mod catalog;
mod database;
mod effect;
mod item;
mod laws;
mod page;
mod time_to_live;
mod transaction;
mod update_table;

pub use database::SlowDb;
pub use effect::effect_slow;
pub use laws::rows_stay_at_their_keys;
