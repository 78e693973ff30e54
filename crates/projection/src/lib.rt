//! What a projection picks of an item (DynamoDB Developer Guide, "Projection expressions").
//!
//! [`pick`] keeps the values that the paths find, each where it stands: maps with the picked names alone, lists with the
//! picked elements in order of their places. The definition asks at each attribute and at each element which paths lead
//! on below it (`specs/Picked.antt`); the code has the paths in order, where these stand side by side.
#![tactic(auto)]

mod picked;

pub use picked::pick;
