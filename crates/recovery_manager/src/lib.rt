//! Recovery: transactions whose drivers left off are driven to their ends, and the items that they hold are let go. Items that are
//! expired are removed.
//!
//! [`sweep`] asks every cell once for what is not ended, and drives each transaction that is named there. To drive a transaction of
//! which only the number is known is [`drive`](coordinator::drive) itself. What the layer above can rely on:
//!
//! - The entries of a call are the lists that it asked for, and messages that drive the transactions that these name
//!   (`specs/Sweeps.antt`): it writes nothing, begins nothing and changes no catalog.
//! - After it each of these transactions is decided and its Done was sent, or its record was forgotten; then a Release of each item
//!   that it was listed with was sent.
//! - It ends before that only where the gate stopped it, no unit is left, or memory was refused. What was done stays done, and where
//!   memory was refused no transaction that it drove is left between its decision and its Done.
//!
//! [`expire`] asks one partition once for the keys of expired items, and removes each of them that is still there, expired and not held.
//! Its entries are that list and these removals alone (`specs/Expiries.antt`).
#![tactic(auto)]

mod driving;
mod expiring;
mod listing;
mod releasing;
mod sweep_end;
mod sweeping;

pub use expiring::{Expiry, expire};
pub use sweep_end::SweepEnd;
pub use sweeping::sweep;
