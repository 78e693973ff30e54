//! Calls of transactions: TransactWriteItems and TransactGetItems, over what cells are asked.
//!
//! A call is one straight try. It goes by what is kept of Looks, and looks for the tables that are not kept; what is kept refuses
//! nothing, so a request is refused by own Looks alone, as every database refuses it that agrees with what they told. Where a table is
//! gone that was known, and nothing was begun, what is kept is let go, and the caller tries again.
//!
//! - [`transact_write`] writes its actions as one transaction, of which one Begin at most draws a number, and the reply is told by the
//!   transaction's end (`specs/Transactions.antt`).
//! - [`transact_get`] reads its items in two rounds. The reply is that of the sequential database at a point between them, or tells why
//!   there may be none (`specs/Gets.antt`).
#![tactic(auto)]

mod ends;
mod gone;
mod items;
mod keyed;
mod looked;
mod parts;
mod read;
mod tables;
mod write;

pub use read::transact_get;
pub use write::{Transacted, transact_write};
