//! Capacity units: what a read or a write of so many bytes counts for, and how that is printed.
//!
//! A read counts a half unit for each 4,096 bytes that it begins, and a write a whole unit for each 1,024. Whoever wants a
//! read to be consistent, or takes part in a transaction, counts more: see [`Mode`]. Nothing counts for less than one piece,
//! so that an item that is not there is paid for too. As the least that is counted is half a unit, numbers are in halves.
//!
//! `specs/Units.antt` says how many halves and which text, and `specs/Worked.antt` has examples (Developer Guide: Capacity
//! unit consumption; API Reference: ConsumedCapacity).
#![tactic(auto)]

mod halves;
mod laws;
mod text;

pub use halves::{Mode, read_halves, write_halves};
pub use laws::worked;
pub use text::print;
