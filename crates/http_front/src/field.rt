//! The fields of a head, by the places that the parser found (RFC 9110, section 5).
ghost use Rattle.std.specs.Prelude.{◌≡◌, ◌<◌, ◌≤◌, [], length, All, MatchOption, IfOk, reverse, codes};
ghost use Rattle.std.specs.List.{list_any};
ghost use Rattle.std.specs.Str.{str_eq_ignore_ascii_case};
ghost use Rattle.httparse.specs.Grammar.{is_ows, skip_ows, trim_ows};
ghost use Rattle.httparse.specs.Spans.{IsHeaderWithin, span_bytes};
ghost use Rattle.http_front.specs.Heads.{max_body, values_of, length_in, stated_length, is_close, has_close};
ghost use Rattle.http_front.specs.Spans.{fields_at, IsFirstValue};

use crate::fault::HttpFault;
use httparse::spans::{HeaderSpan, Span};

/// The most bytes of a body.
const MAX_BODY: u64 = 16_777_216;

/// The most digits of a Content-Length.
const MAX_DIGITS: usize = 10;

/// Whether the header has this name, in whatever case.
fn is_named(bytes: &[u8], header: &HeaderSpan, name: &[u8]) -> bool
    requires { IsHeaderWithin (length bytes.now) header.now }
    ensures { result ≡ str_eq_ignore_ascii_case (span_bytes bytes.now header.now.name) name.now }
{
    header.name.of(bytes).eq_ignore_ascii_case(name)
}

/// The place of the first header of that name, and its value.
pub(crate) fn first_value(
    bytes: &[u8],
    headers: &[HeaderSpan],
    name: &[u8],
) -> Option<(usize, Span)>
    requires { All (IsHeaderWithin (length bytes.now)) headers.now }
    ensures { MatchOption result
        (values_of name.now (fields_at bytes.now headers.now) ≡ [])
        (IsFirstValue bytes.now headers.now name.now) }
{
    for (index, header) in headers.iter().enumerate() {
        if is_named(bytes, header, name) {
            return Some((index, header.value));
        }
    }
    None
}

/// The length that a Content-Length writes (RFC 9112, section 6.2), as far as it is accepted.
fn length_in(text: &[u8]) -> Result<usize, HttpFault>
    ensures value { result ≡ length_in text.now }
    ensures bounded { IfOk result (λ size. size ≤ max_body) }
{
    if text.is_empty() || MAX_DIGITS < text.len() {
        return Err(HttpFault::BadHead);
    }
    let mut size: u64 = 0;
    for byte in text {
        if !byte.is_ascii_digit() {
            return Err(HttpFault::BadHead);
        }
        size = size * 10 + u64::from(*byte - b'0');
    }
    if size <= MAX_BODY {
        Ok(size as usize)
    } else {
        Err(HttpFault::TooLarge)
    }
}

/// The body's length, by the one Content-Length field or by none.
pub(crate) fn stated_length(bytes: &[u8], headers: &[HeaderSpan]) -> Result<usize, HttpFault>
    requires { All (IsHeaderWithin (length bytes.now)) headers.now }
    ensures value { result
        ≡ stated_length (values_of (codes "content-length") (fields_at bytes.now headers.now)) }
    ensures bounded { IfOk result (λ size. size ≤ max_body) }
{
    match first_value(bytes, headers, b"content-length") {
        None => Ok(0),
        Some((index, value)) => match first_value(bytes, &headers[index + 1..], b"content-length") {
            None => length_in(value.of(bytes)),
            Some(_) => Err(HttpFault::BadHead),
        },
    }
}

/// Whether a byte is a space or a tab.
fn is_ows(byte: u8) -> bool
    ensures { result ≡ is_ows byte }
{
    byte == b' ' || byte == b'\t'
}

/// The text from its first byte that is no white space.
fn trim_start(text: &[u8]) -> &[u8]
    ensures { result.now ≡ skip_ows text.now }
{
    for (index, byte) in text.iter().enumerate() {
        if !is_ows(*byte) {
            return &text[index..];
        }
    }
    &[]
}

/// The text up to its last byte that is no white space.
fn trim_end(text: &[u8]) -> &[u8]
    ensures { result.now ≡ reverse (skip_ows (reverse text.now)) }
{
    let mut end = text.len();
    while 0 < end && is_ows(text[end - 1]) {
        end -= 1;
    }
    &text[..end]
}

/// Whether the word is `close`.
#[tactic(auto, unfolding(httparse::specs::Grammar::trim_ows))]
fn is_close(word: &[u8]) -> bool
    ensures { result ≡ is_close word.now }
{
    trim_end(trim_start(word)).eq_ignore_ascii_case(b"close")
}

/// Whether `close` is among the words of a Connection field (RFC 9112, section 9.6).
fn has_close(value: &[u8]) -> bool
    ensures { result ≡ has_close value.now }
{
    value.split(|byte| *byte == b',').any(is_close)
}

/// Whether some Connection field has the word `close`.
pub(crate) fn says_close(bytes: &[u8], headers: &[HeaderSpan]) -> bool
    requires { All (IsHeaderWithin (length bytes.now)) headers.now }
    ensures { result
        ≡ list_any has_close (values_of (codes "connection") (fields_at bytes.now headers.now)) }
{
    for header in headers {
        if is_named(bytes, header, b"connection") && has_close(header.value.of(bytes)) {
            return true;
        }
    }
    false
}
