//! The control cell of a server: the catalog, the transactions and the tokens, and what each message about them is answered.
//!
//! A [`ControlCell`] has a call for each message that goes to the control cell alone, and for its part in a command, which goes
//! to all cells. What a call answers and leaves is said in the words of `txn_core`: for every history whose entries left the
//! cell with what it holds, the answer is the one that the history asks for, and the cell then holds what the history leaves
//! with that entry. The definitions stand in `specs/`: `Keeping` says what the ledger keeps of transactions and tokens, and
//! `Holding` what the cell holds.
//!
//! A Begin forgets each token whose life is over at its moment, whatever it is answered. So the cell's tokens are at any time
//! exactly those of the history. The calls that decide, finish and forget a transaction and that tell its fate take no memory and
//! have no error. Where memory is refused the cell is as it was.
#![tactic(auto)]

mod asking;
mod beginning;
mod cell;
mod commands;
mod ending;
mod laws;
mod step;

pub use asking::copy_of_reasons;
pub use cell::ControlCell;
pub use commands::CatalogPlan;
pub use laws::{others_leave_it, own_entries_tell_it, unchanged_holds};
