//! The catalog of tables: its look-ups, what commands make of it, and what is told of it.
//!
//! Every call takes the catalog as it is and changes nothing: [`catalog_after`] answers the catalog after a command, which
//! [`refusal`] and [`ruling`] have let pass. A table is found by its name ([`told_named`]) or by its number
//! ([`table_numbered`]), and a global index by its number ([`index_numbered`]).
//!
//! What commands do is what CreateTable, DeleteTable, UpdateTable and UpdateTimeToLive do (API Reference), in the words of
//! `cell_model`.
#![tactic(auto)]

mod commands;
mod copies;
mod judgement;
mod tables;
mod told;

pub use commands::{catalog_after, number_named, refusal, subject, waits_for};
pub use judgement::ruling;
pub use tables::{
    has_table, index_numbered, index_numbers, last_drawn, numbers_at, table_numbered, table_of,
};
pub use told::{told_named, told_names};
