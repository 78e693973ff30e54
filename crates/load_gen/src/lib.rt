//! The requests of a load, as bodies.
//!
//! A load begins with a bank of 64 accounts: [`setup`] gives the body that makes the table, and then one for each account.
//! Then money goes from account to account: [`transfer`] gives the bodies, each a transaction of two updates. Which accounts,
//! and how much, follows from a number that the load starts with and from the transfer's place alone. So whoever sends which
//! part of a load, it is the same requests.
//!
//! `specs/Accounts.antt` says who pays whom, `specs/Transfers.antt` what holds of all transfers ([`transfers_are_between_two`]),
//! and `specs/Bodies.antt` has the bodies, byte for byte. `specs/Worked.antt` has examples ([`worked`]). Nothing here says what
//! the requests do (API Reference: CreateTable, PutItem, TransactWriteItems).
#![tactic(auto)]

mod account;
mod bank;
mod laws;
mod transfers;

pub use bank::setup;
pub use laws::{transfers_are_between_two, worked};
pub use transfers::transfer;
