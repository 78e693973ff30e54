use base_types::Bytes;

/// A message of a connection (RFC 9112, section 2).
#[derive(Debug)]
pub struct Message {
    /// The value of the first `X-Amz-Target` field, without spaces and tabs round it.
    pub target: Option<Bytes>,
    /// The body: as many bytes as `Content-Length` says, or none; at most 16,777,216.
    pub body: Bytes,
    /// Whether the connection ends with this message: it is of HTTP/1.0, or a `Connection` field
    /// has the word `close`.
    pub last: bool,
}

// By hand, so that no crate above proves it again.
impl Drop for Message {
    fn drop(self) {
        let Message {
            target: _,
            body: _,
            last: _,
        } = self;
    }
}
