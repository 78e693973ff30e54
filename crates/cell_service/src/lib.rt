//! Tables in cells as a service of sessions, with the helpers that work beside them.
//!
//! A session has a pass and what it was told by Looks. A message is read as a request, which is tried by the call that is its;
//! where a table was gone that the session knew, or a transaction holds the item of a write, the message is looked at again.
//! `specs/Right.antt` says what a right reply is. Requests are read and replies are told outside of every turn.
#![tactic(auto)]

mod answering;
mod hinting;
mod meeting;
mod patience;
mod service;
mod serving;
mod session;

pub use service::CellService;
pub use session::Session;
