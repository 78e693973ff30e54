//! Keys of items: their values, their places and their order.
//!
//! A [`Key`] is what tells an item from the others of its table: the value of the partition key and, where the table
//! has one, of the sort key. What the layer above can rely on:
//!
//! - [`place`] spreads items by their partition key over the numbers of 64 bits, and [`cell_of`] cuts these into cells.
//! - A [`PlacedKey`] carries the place of its key, which was computed once: it is compared by its fields, and its order
//!   is that of a Scan.
//!
//! Contracts see a text as the list of its bytes and a number as one whole number, as in the crates below.
#![tactic(auto)]

mod fault;
mod item_key;
mod key;
mod part;
mod places;
mod row;
mod unfit;
mod value;

pub use fault::{KeyEnd, KeyFault};
pub use item_key::{key_of, key_only};
pub use key::{Key, PlacedKey};
pub use part::{MAX_PARTITION, MAX_SORT, key_value};
pub use places::{cell_of, place};
pub use row::project;
pub use unfit::is_unfit;
pub use value::KeyValue;
