ghost use Rattle.std.specs.Prelude.{◌≡◌};
ghost use Rattle.http_front.specs.declared.fault.NextEnd.TheVariants.{NoMemory};

use std::alloc::AllocError;

/// Why bytes are no message, by the first check that fails. The status codes are those that answer it
/// (RFC 9110, section 15).
#[derive(Clone, Copy, Debug, PartialEq, Eq)]
pub enum HttpFault {
    /// 400: no request head, more than 64 fields, or a Content-Length that is none or stands twice.
    BadHead = 1,
    /// 413: a head above 16,384 bytes, or a body above 16,777,216 bytes.
    TooLarge = 2,
    /// 501: a Transfer-Encoding.
    Coding = 3,
    /// 405: a method other than POST.
    Method = 4,
    /// 404: a target other than `/`.
    Target = 5,
}

/// Why no next message was answered.
#[derive(Clone, Copy, Debug, PartialEq, Eq)]
pub enum NextEnd {
    /// What comes next is no message, by this fault.
    Refused(HttpFault),
    /// The input ended inside a message, after `got` of its bytes.
    Cut { got: u64 },
    /// The source failed.
    ReadFault,
    /// Memory ran out.
    NoMemory,
}

impl From<AllocError> for NextEnd {
    ghost from_gives = { λ _ end. end ≡ NoMemory };

    fn from(_: AllocError) -> NextEnd {
        NextEnd::NoMemory
    }
}
