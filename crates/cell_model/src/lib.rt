//! Tables as the cells of a server keep them: which item a key stands for, what an action does, what the catalog says, and
//! what a page of rows has.
//!
//! Every message to a cell is of these types. An item lives in the cell of its partition key's place, a row of a global
//! index in that of the index's key ([`CellKey`]). The catalog draws a number for each table and each global index, and no
//! number comes again, so that a late message to a table that is gone is told from one to a later table of its name.
//!
//! `specs/Service.antt` says what the protocol needs to know of them, in words that the sequential database is defined by.
#![tactic(auto)]

mod action;
mod answer;
mod catalog;
mod command;
mod key;
mod laws;
mod question;

pub use action::{KeyedAction, StatedChange, Statement};
pub use answer::{CatalogAnswer, NameList, PageRow, Part, TableLook};
pub use catalog::{Catalog, CatalogTable};
pub use command::CatalogCommand;
pub use key::{CellKey, IndexRowKey, ItemKey};
pub use laws::{
    actions_are_the_databases, catalogs_are_kept, index_rows_are_the_databases,
    pages_end_where_they_are_full, parts_are_one_page, tables_are_lawful,
};
pub use question::{CatalogQuestion, PageQuestion, PageRoom, PageSource};
