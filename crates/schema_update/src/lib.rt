//! What an UpdateTable and an UpdateTimeToLive make of a table's schema (API Reference: UpdateTable, UpdateTimeToLive).
//!
//! [`updated`] gets the schema that a table has and what an update states, and answers the schema that the table is to
//! have, or the refusal. `specs/Updated.antt` says which: first an index that goes and is not there, or comes and is; then
//! a definition whose name does not have 1 to 255 bytes, or that gives a name another type; then the first fault of the
//! schema that is stated. Nothing is changed here, so where memory is refused nothing is half done. [`stated_schema`] is the
//! schema that is stated, of an update that is judged already.
//!
//! An update may state many definitions. They are looked at once, each for the logarithm of their number, and those that
//! no key uses are left out before the rest are joined, so that the schema has no more than its keys have names.
//!
//! [`ttl_fault`] says why a table's time to live can't become what is stated, and [`expiring`] is the schema with it.
#![tactic(auto)]

mod definitions;
mod index;
mod kinds;
mod time_to_live;
mod update;

pub use time_to_live::{expiring, ttl_fault};
pub use update::{stated_schema, updated};
