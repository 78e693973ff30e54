//! Pages of the rows of one cell, from a list of all that the cell keeps, or from an ordered map.
//!
//! A cell lists what it keeps in the order of keys: the items of all tables, or the rows of an index. [`page_part`] picks
//! the rows that a page is asked for, and takes them until the page is over. [`map_page`] answers the same from the map of a
//! table's items, or of an index's rows, and goes along it from where the page goes on. [`page_between`] is that walk along any
//! ordered map, whose entries stand for rows as an [`EntryRows`] says. [`next_page`] makes the question by which a page goes on in
//! the next cell. `specs/Pages.antt` and `specs/Parts.antt` of `cell_model` say what pages are.
//! API Reference: Query, Scan.
#![tactic(auto)]

mod ends;
mod local;
mod maps;
mod next;
mod part;
mod rows;
mod walk;

pub use ends::{Ends, ends_of};
pub use maps::{Keeps, map_page};
pub use next::next_page;
pub use part::{is_asked, no_row, page_part};
pub use walk::{EntryRows, page_between};
