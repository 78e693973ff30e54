//! What calls ask of the cells of real tables that takes several messages: a transaction of writes, and reads at one point.
//!
//! [`Transacts`] stands beside [`Asks`](cell_asks::Asks), for the crates that speak of transactions alone. What a call adds to
//! the one history is one record each (`specs/Several.antt`), so that nothing above shows the protocol.
#![tactic(auto)]

mod transacts;

pub use coordinator::{Gate, GoGate, TransactEnd};
pub use transacts::{ItemsEnd, Transacts, WritesEnd};
pub use txn_reader::ReadEnd;
