//! Transactions on a cluster: each step of a transaction's course, from its record to its end, and a whole one, from its Begin to its
//! Forget.
//!
//! A [`Driver`] keeps what it was told of one transaction, and takes the steps of the transaction's [`Course`](txn_core::Course)
//! on a cluster: [`recall`] begins with the record, and [`advance`] takes the step that comes next, which is [`prepare`], [`commit`],
//! [`cancel`], [`settle`] or [`finish`]. [`drive`] takes them all. What the layer above can rely on:
//!
//! - Each step is one that the protocol allows, whatever other drivers do, and after it the driver knows from the history that its
//!   pass has seen all that its course was told (`specs/Driving.antt`).
//! - Each step adds at most one own entry, a message on its transaction, and leaves the course fewer moves.
//! - A step is given up for want of a unit exactly where the pass has none left. From the decision on, its own message among them,
//!   no step takes memory.
//!
//! [`transact_write`] begins a transaction of its own and drives it so, or follows what its token stands for. Its own entries are Begins
//! with its token and its actions, of which one at most draws a number, messages that drive the number that a Begin named, and at last the
//! Forget of the number that it drew (`specs/Writes.antt`). That number is never found gone, whatever other drivers do. A number that is
//! followed, whether it was drawn, found running or found completed, was begun with the same parameters as the request has.
//!
//! A [`Gate`] is asked between two steps, and may leave the transaction there: tests of what is left in the middle stop it so.
#![tactic(auto)]

mod apart;
mod course;
mod decision;
mod drive_end;
mod driver;
mod ending;
mod gate;
mod parameters;
mod preparation;
mod reasons;
mod record;
mod run;
mod transact_end;
mod transaction;
mod verdict;

pub use course::advance;
pub use decision::{cancel, commit};
pub use drive_end::{DriveEnd, DriveEndOf};
pub use driver::{Driver, DriverOf};
pub use ending::{finish, settle};
pub use gate::{Gate, GoGate, Pace, Point, ScriptGate};
pub use preparation::prepare;
pub use record::recall;
pub use run::drive;
pub use transact_end::{TransactEnd, TransactEndOf};
pub use transaction::transact_write;
