//! The items of one cell: committed rows, and what transactions hold.
//!
//! A [`ItemStore`] keeps for each item the committed row, with the stamp of its last change and its version, and the
//! transaction that holds it, with the row as it will be. Both lie in one slot of one ordered map, so that a transaction's
//! end takes no memory: [`ItemStore::hold`] takes all that [`ItemStore::settle`] and [`ItemStore::let_go`] need, a version
//! among it. What a change does to a cell's floor and to its numbers is in `specs/Slots.antt`, in the terms that `txn_core`
//! has for a cell; that both say the same is left to the layer above.
#![tactic(auto)]

mod counts;
mod slot;
mod slots;
mod store;
mod table;
mod tables;

// A contract can name a store only if the types of its fields are exported.
#[doc(hidden)]
pub use counts::Counts;
pub use slot::{Committed, Pending, Slot, holder_of, row_of};
pub use store::ItemStore;
pub use table::TableItems;
