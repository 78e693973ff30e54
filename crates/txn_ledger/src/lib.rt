//! Transactions and the tokens that stand for them, as the control cell keeps them.
//!
//! A [`TxnLedger`] draws the numbers of transactions, and keeps of each what it was begun with, what became of it, and whether
//! it is done, until it is forgotten; and of each client's token which transaction it stands for. What a call leaves is said
//! number by number and token by token in `specs/`, in the terms that `txn_core` has for the control cell. That both say the
//! same is left to the layer above, which also compares and copies actions.
//!
//! What decides, finishes and forgets a transaction takes no memory and has no error.
#![tactic(auto)]

mod ledger;
mod record;
mod records;
mod tokens;

pub use ledger::TxnLedger;
pub use record::Record;
pub use tokens::ClientToken;
