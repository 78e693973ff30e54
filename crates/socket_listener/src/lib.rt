//! A listener over the system's TCP sockets, in which connections wait without a thread each.
//!
//! [`SocketListener`] is a `Listener` of `ddb_outside` whose shares accept from the same ports. Each share has a waiting room
//! of its own: its connections that have nothing to read are parked there, and `accept` gives the next one that has. Where a
//! connection rests between two messages and others wait, its source tells its end: the session is over, `hang_up` parks
//! the connection, and it is accepted again when more of it comes. So any number of connections may stay open, and busy ones
//! take turns. What a client can see of it is that a session, and what it counts, begins anew with each stretch.
//!
//! A connection gives way at rest alone, as the reader tells by `Source::at_rest`, so no byte of a message is lost. A real end
//! of the input, a fault, a last message and a refusal close it.
//!
//! No contract says what a socket gives or takes: the listener tells nothing of its connections. What is proved is that each
//! failure was counted, that no answer says that no connection will come any more, and what a connection does next by what
//! is known of it (`turn`). What the system does behind the calls is trusted.
#![tactic(auto)]

mod connection;
mod interfaces;
mod listener;
mod load;
mod patience;
mod places;
mod sink;
mod source;
mod turn;
mod waiting_room;

pub use interfaces::Interfaces;
pub use listener::SocketListener;
pub use sink::SocketSink;
pub use source::SocketSource;
