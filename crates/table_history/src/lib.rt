//! What is so of the tables of every legal history of the cells of real tables (`cell_model`).
//!
//! The catalog is kept at every point ([`catalogs_of_histories`]), and a number stands for one table as long as it is there
//! ([`same_table`]). Some sequential database has what the history makes of tables ([`tables_stand`]); commands and single
//! writes do to it what the requests do that state them ([`commands_are_effects`], [`writes_are_effects`]). An expiration takes
//! the row of its key out of it, and no other ([`expirations_remove_rows`]).
//!
//! The functions do nothing: their clauses are laws, over histories of entries that no program stores.
#![tactic(auto)]

mod laws;

pub use laws::{
    catalogs_of_histories, commands_are_effects, expirations_remove_rows, same_table, tables_stand,
    writes_are_effects,
};
