//! The entries of items in the local indexes of real tables, as a cell keeps them, and pages along them.
//!
//! [`entries_of`] answers an item's entries under a catalog, one for each local index of its table whose key the item has: where
//! the item stands there ([`LocalEntry`]). An entry names its item, and a command that does not drop the item's table leaves the
//! item's entries as they are ([`entries_are_lawful`]).
//!
//! For a page of such an index [`items_page`] walks its entries from where the page goes on, passes over those that only a
//! transaction's image has, and looks up the item that each of the others names. Where the committed entries are exactly those of
//! the items, these are the rows of the index, in its order. API Reference: Query, Scan.
#![tactic(auto)]

mod ends;
mod entries;
mod entry;
mod laws;
mod page;
mod row;

pub use entries::entries_of;
pub use entry::LocalEntry;
pub use laws::entries_are_lawful;
pub use page::items_page;
