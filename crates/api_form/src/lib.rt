//! The forms of request bodies, as tables of members, and the first fault of a body against its form.
//!
//! A [`Form`] is a name for what a body, or a part of one, has to look like: its rule says of which JSON kind it is and
//! what is asked of it, and an object's members stand in a constant table, one row a member as the DynamoDB API Reference
//! lists them. [`check_body`] answers the first fault of a body in the one order in which faults are told: another JSON
//! kind anywhere, then an absent member anywhere, then in one walk all else. What is behind the check can be read without
//! further questions.
//!
//! Code and definition share the tables (`specs/Forms.antt` names them), so an operation costs its table and is proved
//! with all others.
#![tactic(auto)]

mod check;
mod count;
mod fault;
mod form;
mod name;
mod own;
mod spelling;
mod tables;
mod words;

pub use attr_json::JsonFault;
pub use check::check_body;
pub use fault::Fault;
pub use form::Form;
pub use name::Name;
