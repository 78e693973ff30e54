//! How a session ends.

use http_front::HttpFault;

/// How a session ended.
#[derive(Clone, Copy, Debug, PartialEq, Eq)]
pub enum SessionEnd {
    /// The input ended with no byte of a next message.
    Ended,
    /// A message asked for the end of the connection, and was answered.
    Asked,
    /// What came next was no message, and the refusal was written.
    Refused(HttpFault),
    /// The input ended inside a message, after `got` of its bytes.
    Cut { got: u64 },
    /// The source failed.
    ReadFault,
    /// The sink failed.
    WriteFault,
    /// The service gave no leave to take a message, or as many messages as a session may answer were answered.
    Spent,
    /// Memory was refused where a message could not be read.
    NoMemory,
}
