//! Attribute values and items from JSON and into JSON: DynamoDB's AttributeValue (API Reference).
//!
//! An attribute value is an object with exactly one member, which has the name of its type: `S` a string, `N` a string
//! that denotes a number, `B` a string of base64, `BOOL` true or false, `NULL` true, `L` a list of values, `M` an object
//! of values, and `SS`, `NS` and `BS` lists of strings. What the layer above can rely on:
//!
//! - [`value_from`] and [`item_from`] answer exactly the value that the JSON states (`value_of`, `item_of`), or the first
//!   of its faults. [`value_fault`] answers the fault alone.
//! - Inside one value the order of the faults is: not one member; then an unknown type, or JSON of another kind than its
//!   type's; then more than 32 levels of lists and maps; then what lies inside, elements in the order of their list and
//!   attributes in the order of their names; then a set of none; then a repeat in a set.
//! - [`write_item`] writes the JSON of an item (`members_of`) as compact text among other tokens, and makes no tree: numbers
//!   as plain decimals, binaries in base64, sets in their order. It is read back as the same item.
#![tactic(auto)]

mod check;
mod fault;
mod plain;
mod read;
mod scalar;
mod set;
mod text;

pub use check::value_fault;
pub use fault::{JsonEnd, JsonFault};
pub use read::{item_from, value_from};
pub use text::write_item;
