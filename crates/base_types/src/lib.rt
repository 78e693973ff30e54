//! The small types that everything above is made of: text, bytes, lists and document paths.
//!
//! A contract sees a [`Text`] as the list of its UTF-8 bytes, a [`Bytes`] as the list of its bytes and a
//! [`Seq`] as the list of its items. So a type that holds one of them can be named in a definition as it
//! stands, where a `String` or a `Vec` would show its buffer. Going in and out takes no memory.
#![tactic(auto)]

mod binary;
mod end;
mod path;
mod seq;
mod text;

pub use binary::Bytes;
pub use end::End;
pub use path::{DocPath, Step};
pub use seq::Seq;
pub use text::Text;
