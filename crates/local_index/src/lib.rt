//! The local entries of one cell: where the items of its tables stand in the local indexes of these.
//!
//! An entry names a local index of its table and an item, and stands where the item does in the order of that index. Entries
//! are made by the layer above, of an item at most one an index; here they are any ordered type. So that a Query of an index
//! walks one range, their order begins with the index.
//!
//! [`LocalIndexes`] keeps the entries of committed items, and beside them those of the images that transactions hold, so that
//! the end of a transaction takes no memory: [`LocalIndexes::hold`] takes all that [`LocalIndexes::settle`] and
//! [`LocalIndexes::let_go`] need. A [`Claim`] says for which of the two an entry stands; reads pass over what is not committed.
//! Which entries stand after a call, and for what, is said of every entry of every table (`specs/Entries.antt`).
#![tactic(auto)]

mod claim;
mod entries;
mod indexes;
mod laws;
mod lists;

pub use claim::Claim;
pub use indexes::LocalIndexes;
pub use laws::entries_keep_to_items;
