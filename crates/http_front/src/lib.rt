//! HTTP/1.1 at the edge (RFC 9112): the messages of a byte stream, and the bytes of replies.
//!
//! What the layer above can rely on:
//!
//! - The bytes of a connection are a list of messages and an ending: the end of the input, a cut, a
//!   refusal, or a message that asks for the connection's end. This is defined over the whole list of
//!   bytes (`specs/Messages.antt`, `specs/Streams.antt`), and there is one such reading
//!   ([`one_reading`]).
//! - [`Reader::next`] answers that reading step by step, in whatever pieces the bytes come, where the
//!   source tells its bytes.
//! - [`reply`] and [`refuse`] write exactly the bytes of `specs/Replies.antt`, and take no memory.
//!
//! The grammar of a head is that of `httparse`; status codes and reason phrases are those of `http`.
//! The checks of a head tell five faults apart, and come in one order.
#![tactic(auto)]

mod fault;
mod field;
mod head;
mod message;
mod reader;
mod stream;
mod writer;

pub use fault::{HttpFault, NextEnd};
pub use message::Message;
pub use reader::Reader;
pub use stream::one_reading;
pub use writer::{refuse, reply};
