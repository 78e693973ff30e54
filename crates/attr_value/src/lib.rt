//! Attribute values and items: DynamoDB's AttributeValue (API Reference), of ten kinds, and maps
//! from names to them.
//!
//! A contract sees a [`Value`] as a tree (`tree_of`) and an [`Item`] as its attributes in order of
//! name (`attributes`), so neither how a map is kept nor the room of a list shows. What the layer
//! above can rely on:
//!
//! - [`Item::get`], [`Item::set`] and [`Item::remove`] are `found`, `with_value` and `without` of a
//!   document path: what stands at the path, and the item with and without it. A refused `set`
//!   leaves the item as it was.
//! - [`Item::set`] refuses exactly the values that would lie, or hold lists and maps, deeper than
//!   [`MAX_DEPTH`], and leaves an item that is within it within it.
//! - [`Item::iter`] goes over the attributes in order of name, and [`Item::put`] gives one a value.
//! - `size` and `depth` are those of the Developer Guide ("Item sizes and formats"), in one walk.
//! - `==` says whether two trees are equal, and [`Value::compare`] orders texts, numbers and
//!   binaries.
//! - Only copies, [`Item::set`], [`Item::put`] and what makes a collection take memory.
//!
//! Every recursion goes down a value by its levels, or a path by its steps. Who builds a list or a
//! map by hand, from bytes that come from outside, bounds its levels first.
#![tactic(auto)]

mod change;
mod copy;
mod elements;
mod equal;
mod fault;
mod item;
mod parts;
mod path;
mod shared_item;
mod size;
mod value;

pub use change::MAX_DEPTH;
pub use fault::{ValueEnd, ValueFault};
pub use parts::push_some;
pub use shared_item::{SharedItem, kept, lent};
pub use value::{Elements, Item, Value};
