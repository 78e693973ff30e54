//! Tables by name, as the plain program keeps them, and changes of many items of several of them made together: all, or none.
//!
//! A database keeps a map from names to [`NumberedTable`]s. `specs/Tables.antt` says which tables of the definitions they
//! are, and `proofs/Kept.antt` that a change of the map is that change of the database: what the layers above need to say
//! what a request does.
//!
//! [`change_all`] first prepares every change in its table, which takes all memory, and then makes what is prepared, which
//! takes none. So a transaction is whole or not there, and so are a batch and [`sweep`], which takes out what is expired.
//! `specs/Changes.antt` says what the changes make of a database.
#![tactic(auto)]

mod change;
mod expired;
mod made;
mod table;

pub use change::TableChange;
pub use expired::sweep;
pub use made::change_all;
pub use table::NumberedTable;
