//! A session: the messages of a connection, answered one after the other by a service.
//!
//! A [`Service`] says which steps it takes: a state, a message and a moment lead to a status, a body and the next state.
//! What the layer above can rely on, where the source tells its bytes:
//!
//! - [`serve_message`] takes one message, then looks at the clock once, then writes one reply. No byte of a next message
//!   is waited for before the reply is written.
//! - [`serve_session`] repeats it: the reply bytes are those of the messages in their order, each by one step of the
//!   service, from the state at the beginning on.
//! - Each end has its cause: the end of the input, a message that asked for it, what is no message, a fault of the source
//!   or the sink, want of memory, or as many messages as a session answers.
#![tactic(auto)]

mod answer;
mod end;
mod exchange;
mod service;
mod session;

pub use answer::{Answer, Body};
pub use end::SessionEnd;
pub use exchange::serve_message;
pub use service::Service;
pub use session::{MAX_MESSAGES, serve_session};
