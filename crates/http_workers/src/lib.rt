//! Threads that serve the connections of a listener, over any service of sessions.
//!
//! What the layer above can rely on, where the listener tells its connections:
//!
//! - [`serve_share`] serves the connections of one share in one thread: the sessions of the first of them, one after the
//!   other, from one state on, and after [`ShareEnd::Done`] of all. What was written on each stands in the share, in order.
//! - [`serve_all`] gives a share of a listener to each of many workers, with a state of its own. After [`ServeEnd::Done`] each
//!   has served all connections of its part of the listener, and what was written stands in the listener, in order of worker.
//! - Beside the workers each helper of the service's [`Crew`] helps once, in a thread of its own; what became of it is told. A
//!   worker brings its state to rest when its share has ended.
//! - A fault is told only where the listener has counted one, and the end of all connections only where it told of it.
//!
//! Nothing is promised of waiting: whether a connection comes, and when, is the listener's affair.
#![tactic(auto)]

mod crew;
mod lending;
mod seat;
mod serve;
mod share;
mod stock;
mod worker;

pub use crew::Crew;
pub use serve::{ServeEnd, serve_all};
pub use share::{ShareEnd, serve_share};
