//! A load: clients that move money between the accounts of a bank at once, until each transfer was made once.
//!
//! [`load_all`] makes the bank, lets the clients send their shares of the transfers at the same time, ends what was left in the middle,
//! sends all transfers again, and reads the bank in the end: so whoever sent what, and however they met, each transfer is made once. What is sent are the bodies of `load_gen`, and they are answered by the
//! calls that answer a session's.
//!
//! `specs/` has the definitions in reading order: what a session of a load sends, rounds of transfers, what is read of the bank, and what
//! a load that is done has done.
#![tactic(auto)]

mod asking;
mod client;
mod end;
mod figures;
mod gates;
mod load;
mod rounds;
mod session;
mod threads;

pub use client::Client;
pub use end::{LoadEnd, Summary};
pub use gates::PointGate;
pub use load::{load_all, make_clients};
pub use session::Session;
