//! What a try of a request came to.

use table_model::Reply;

/// What one try of a request came to.
#[derive(Drop)]
pub enum Tried {
    Reply(Reply),
    /// A table was gone that was known. What is kept of Looks was let go, and another try looks first.
    Again,
}
