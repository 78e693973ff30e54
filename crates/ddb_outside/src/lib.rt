//! The outside: where bytes come from, where they go, and what time it is.
//!
//! Everything above reads a [`Source`], writes to a [`Sink`] and looks at a [`Clock`], and is proved for
//! each of them. A source tells which bytes are still to come and a sink which were written, where they
//! know; each counts its faults, so that no code above can claim a fault that did not happen.
//! `MemSource`, `MemSink`, `StepClock`, `ListClock` and `MemListener` are whole in memory, for tests.
//! `StdSource`, `StdSink` and `SystemClock` pass on to std: what the system does behind them is trusted.
#![tactic(auto)]

mod clock;
mod failed;
mod listener;
mod memory_listener;
mod sink;
mod source;

pub use clock::{Clock, ListClock, StepClock, SystemClock};
pub use failed::Failed;
pub use listener::{Joined, Listener};
pub use memory_listener::MemListener;
pub use sink::{MemSink, Sink, StdSink, write_all};
pub use source::{MemSource, Source, StdSource};
