//! An item with all writes of an update made at once (DynamoDB Developer Guide, "Update expressions").
//!
//! A write is a path with what will stand there, or with nothing where what is there goes. [`write_all`] goes over the old
//! item once and asks at each attribute and at each element which writes lead on below it: no write sees another, no
//! place of a list moves before all are made, and a list with many removals is one pass. What is written is lent until
//! then ([`NewValue`]): each value is copied once, into the new item.
//!
//! What all writes make of an item, at each name and at the end of each path, through lists too, is said by laws
//! ([`values_by_name`], [`written_values_stand`], [`other_paths_are_kept`]).
#![tactic(auto)]

mod edit;
mod extent;
mod laws;
mod lent;
mod new_value;
mod path_laws;
mod union;

pub use edit::write_all;
pub use extent::{Extent, extent_with_all};
pub use laws::values_by_name;
pub use lent::{LentLists, LentValue};
pub use new_value::NewValue;
pub use path_laws::{
    inner_writes_are_made, lists_by_place, other_paths_are_kept, worked, written_values_stand,
};
