//! The head at the front of the bytes (RFC 9112, section 2), found and judged by one parse.
ghost use Rattle.std.specs.Prelude.{◌≡◌, ◌⊎◌, ℕ, ◌+◌, ◌<◌, ◌≤◌, length, take, map, All, Ok, Some, IfOk, IfErr, IfSome, IfNone, option_map, codes};
ghost use Rattle.httparse.specs.Grammar.{HasNoRequest, NeverHasRequest, MayBecomeRequest};
ghost use Rattle.httparse.specs.Spans.{IsWithin, IsHeaderWithin, span_bytes};
ghost use Rattle.http_front.specs.Heads.{max_head, max_body, verdict_on, first_value, closes_on};
ghost use Rattle.http_front.specs.Messages.{HasFault, IsRefusedBy, IsShortHead};
ghost use Rattle.http_front.specs.Spans.{fields_at, HasHead, room, IsWholeLines, BreaksOff};

use crate::fault::HttpFault;
use crate::field::{first_value, says_close, stated_length};
use httparse::Status;
use httparse::spans::{HeaderSpan, RequestSpans, Span, parse_request};
use memchr::memrchr;

/// The most bytes of a head.
pub(crate) const MAX_HEAD: usize = 16_384;

/// The most fields of a head.
const MAX_FIELDS: usize = 64;

/// Room for every field that so many bytes can hold, since a field has three bytes at least. So the
/// parser never runs out of room, and the number of fields is judged on the whole head.
pub(crate) const ROOM: usize = 5_462;

/// What the head at the front says of its message.
#[derive(Clone, Copy, Debug)]
pub(crate) struct Head {
    /// How many bytes it has.
    pub len: usize,
    /// How many bytes the body has.
    pub size: usize,
    /// Where the value of the first X-Amz-Target is.
    pub target: Option<Span>,
    /// Whether the connection ends with this message.
    pub last: bool,
}

/// Where the last whole line ends that a head at the front may reach. A line that is still being
/// read is not looked at, since it may be dead already where the input may yet end inside it.
fn whole_lines(bytes: &[u8]) -> usize
    ensures { IsWholeLines bytes.now result }
{
    let front = &bytes[..bytes.len().min(MAX_HEAD)];
    match memrchr(b'\n', front) {
        Some(at) => at + 1,
        None => 0,
    }
}

/// The body's length, or the first fault of a whole head.
fn verdict(bytes: &[u8], request: &RequestSpans, headers: &[HeaderSpan]) -> Result<usize, HttpFault>
    requires method { IsWithin (length bytes.now) request.now.method }
    requires path { IsWithin (length bytes.now) request.now.path }
    requires headers { All (IsHeaderWithin (length bytes.now)) headers.now }
    ensures value { result ≡ verdict_on (span_bytes bytes.now request.now.method)
        (span_bytes bytes.now request.now.path) (fields_at bytes.now headers.now) }
    ensures bounded { IfOk result (λ size. size ≤ max_body) }
{
    if MAX_FIELDS < headers.len() {
        return Err(HttpFault::BadHead);
    }
    if first_value(bytes, headers, b"transfer-encoding").is_some() {
        return Err(HttpFault::Coding);
    }
    let size = stated_length(bytes, headers)?;
    if request.method.of(bytes) != b"POST".as_slice() {
        return Err(HttpFault::Method);
    }
    if request.path.of(bytes) != b"/".as_slice() {
        return Err(HttpFault::Target);
    }
    Ok(size)
}

/// The place of the operation's name.
fn operation(bytes: &[u8], headers: &[HeaderSpan]) -> Option<Span>
    requires { All (IsHeaderWithin (length bytes.now)) headers.now }
    ensures value { option_map (span_bytes bytes.now) result
        ≡ first_value (codes "x-amz-target") (fields_at bytes.now headers.now) }
    ensures within { IfSome result (IsWithin (length bytes.now)) }
{
    match first_value(bytes, headers, b"x-amz-target") {
        Some((_, value)) => Some(value),
        None => None,
    }
}

/// Whether the connection ends with the message (RFC 9112, sections 9.3 and 9.6).
fn asks_to_close(bytes: &[u8], version: u8, headers: &[HeaderSpan]) -> bool
    requires { All (IsHeaderWithin (length bytes.now)) headers.now }
    ensures { result ≡ closes_on version (fields_at bytes.now headers.now) }
{
    version == 0 || says_close(bytes, headers)
}

/// The head that whole lines begin with.
fn whole_head(lines: &[u8], spans: &mut [HeaderSpan]) -> Result<Option<Head>, HttpFault>
    requires room { length spans.old ≡ room }
    requires limit { length lines.now ≤ max_head }
    ensures head { IfOk result (λ o. IfSome o (HasHead lines.now)) }
    ensures none { IfOk result (λ o. IfNone o (HasNoRequest lines.now × MayBecomeRequest lines.now)) }
    ensures refused { IfErr result (λ fault. BreaksOff fault lines.now) }
{
    let request = match parse_request(lines, spans) {
        Ok(Status::Complete(request)) => request,
        Ok(Status::Partial) => return Ok(None),
        Err(_) => return Err(HttpFault::BadHead),
    };
    let headers = &spans[..request.headers];
    let size = verdict(lines, &request, headers)?;
    Ok(Some(Head {
        len: request.len,
        size,
        target: operation(lines, headers),
        last: asks_to_close(lines, request.version, headers),
    }))
}

/// The accepted head at the front, None where a head is still to be completed, or the fault.
pub(crate) fn find_head(bytes: &[u8], spans: &mut [HeaderSpan]) -> Result<Option<Head>, HttpFault>
    requires { length spans.old ≡ room }
    ensures head { IfOk result (λ o. IfSome o (HasHead bytes.now)) }
    ensures none { IfOk result (λ o. IfNone o (IsShortHead bytes.now)) }
    ensures refused { IfErr result (λ fault. IsRefusedBy fault bytes.now) }
{
    let end = whole_lines(bytes);
    if let Some(head) = whole_head(&bytes[..end], spans)? {
        return Ok(Some(head));
    }
    if bytes.len() < MAX_HEAD {
        Ok(None)
    } else {
        Err(HttpFault::TooLarge)
    }
}
