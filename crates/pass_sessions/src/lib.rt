//! Sessions over a pass: which entries of a history are a session's own, and how passes meet in the end.
//!
//! Whatever kind of entry is counted and whatever a right reply is (`specs/PassWays.antt`), the pass's own entries are those of
//! the session's messages, in their order (`specs/OwnEntries.antt`, [`session_law`]).
#![tactic(auto)]

mod session;

pub use session::{SessionKind, session_law};
