//! Replies, as bytes to a sink.
ghost use Rattle.std.specs.Prelude.{◌≡◌, ℕ, List, ◌+◌, ◌++◌, ◌≤◌, length, take, replicate, ◌-◌, OnOk, OnErr, decimal};
ghost use Rattle.std.specs.Io.KnownBytes.{Appends};
ghost use Rattle.ddb_outside.specs.Causes.{HasCause};
ghost use Rattle.ddb_outside.specs.Writes.{AppendsFront};
ghost use Rattle.http_front.specs.Replies.{IsReplyStatus, IsAnswered, status_of, phrase_of, status_line, before_length, before_count, head_end, digits_32, reply_head, bytes_of, refusal_end, refusal};

use crate::fault::HttpFault;
use ddb_outside::{Failed, Sink, write_all};
use http::StatusCode;
use itoa::Buffer;

/// A head and a body that fit so many bytes leave in one write.
const ROOM: usize = 4_096;

/// As many zeros as a message's number has digits.
const ZEROS: &[u8; 32] = b"00000000000000000000000000000000";

/// Writes the reply to a message (RFC 9112, sections 4 and 6): its status, which is 200, 400 or 500,
/// its body, the number of the message on its connection, from 1, and whether the message asked for
/// the connection's end. It takes no memory. [`Failed`] comes where the sink failed, and then a front
/// of the reply was written.
///
/// Where head and body together fit 4,096 bytes they are handed to the sink in one call.
pub fn reply<K: Sink>(
    sink: &mut K,
    status: u16,
    body: &[u8],
    count: u64,
    last: bool,
) -> Result<(), Failed>
    requires { IsReplyStatus status }
    ensures ok { OnOk result
        (Appends (K.written sink.old) (K.written sink.new) (bytes_of status body.now count last)) }
    ensures failed { OnErr result
        (AppendsFront (K.written sink.old) (K.written sink.new) (bytes_of status body.now count last)) }
    ensures cause { HasCause (K.faults sink.old) (K.faults sink.new) result }
{
    let mut out = [0u8; ROOM];
    let end = put_head(&mut out, status, body.len(), count, last);
    if body.len() <= ROOM - end {
        let end = put(&mut out, end, body);
        write_all(sink, &out[..end])
    } else {
        write_both(sink, &out[..end], body)
    }
}

/// Writes the refusal of what is no message (RFC 9110, section 15), which ends the connection. It
/// takes no memory. [`Failed`] comes where the sink failed, and then a front of the refusal was
/// written.
pub fn refuse<K: Sink>(sink: &mut K, fault: HttpFault) -> Result<(), Failed>
    ensures ok { OnOk result (Appends (K.written sink.old) (K.written sink.new) (refusal fault)) }
    ensures failed { OnErr result
        (AppendsFront (K.written sink.old) (K.written sink.new) (refusal fault)) }
    ensures cause { HasCause (K.faults sink.old) (K.faults sink.new) result }
{
    let mut out = [0u8; ROOM];
    let at = put_status_line(&mut out, status_of(fault));
    let end = put(&mut out, at, refusal_end());
    write_all(sink, &out[..end])
}

/// The status that answers a fault.
fn status_of(fault: HttpFault) -> u16
    ensures value { result ≡ status_of fault }
    ensures answered { IsAnswered result }
{
    match fault {
        HttpFault::BadHead => 400,
        HttpFault::TooLarge => 413,
        HttpFault::Coding => 501,
        HttpFault::Method => 405,
        HttpFault::Target => 404,
    }
}

/// Puts the head of a reply to the front of `out`, and answers its length.
fn put_head(out: &mut [u8], status: u16, size: usize, count: u64, last: bool) -> usize
    requires status { IsReplyStatus status }
    requires room { 256 ≤ length out.old }
    ensures bound { result ≤ length out.old }
    ensures text { take result out.new ≡ reply_head status size count last }
{
    let mut numbers = Buffer::new();
    let mut at = put_status_line(out, status);
    at = put(out, at, before_length());
    at = put(out, at, numbers.format(size).as_bytes());
    at = put(out, at, before_count());
    at = put_digits(out, at, numbers.format(count).as_bytes());
    put(out, at, head_end(last))
}

/// Puts the status line of a status that is answered.
#[tactic(auto, unfolding(crate::specs::Replies::status_line))]
fn put_status_line(out: &mut [u8], status: u16) -> usize
    requires status { IsAnswered status }
    requires room { 64 ≤ length out.old }
    ensures short { result ≤ 36 }
    ensures text { take result out.new ≡ status_line status }
{
    let Ok(code) = StatusCode::from_u16(status) else {
        return 0;
    };
    let mut at = put(out, 0, b"HTTP/1.1 ");
    at = put(out, at, code.as_str().as_bytes());
    at = put(out, at, b" ");
    at = put(out, at, phrase(code));
    put(out, at, b"\r\n")
}

/// The reason phrase of a status that is answered.
fn phrase(code: StatusCode) -> &'static [u8]
    requires { IsAnswered code }
    ensures text { result.now ≡ phrase_of code }
    ensures short { length result.now ≤ 21 }
{
    match code.canonical_reason() {
        Some(phrase) => phrase.as_bytes(),
        None => b"",
    }
}

/// Puts digits behind as many zeros as make them 32.
fn put_digits(out: &mut [u8], at: usize, digits: &[u8]) -> usize
    requires digits { length digits.now ≤ 32 }
    requires room { at + 32 ≤ length out.old }
    ensures end { result ≡ at + 32 }
    ensures text { take result out.new
        ≡ take at out.old ++ (replicate (32 - length digits.now) 48 ++ digits.now) }
{
    let zeros: &'static [u8] = ZEROS;
    let middle = put(out, at, &zeros[..32 - digits.len()]);
    put(out, middle, digits)
}

/// Puts a piece into `out` at a place, and answers where it ends.
fn put(out: &mut [u8], at: usize, piece: &[u8]) -> usize
    requires { at + length piece.now ≤ length out.old }
    ensures end { result ≡ at + length piece.now }
    ensures text { take result out.new ≡ take at out.old ++ piece.now }
{
    let end = at + piece.len();
    out[at..end].copy_from_slice(piece);
    end
}

/// The line that says what the body is, and the name of the next.
#[tactic(auto, unfolding(crate::specs::Replies::before_length))]
fn before_length() -> &'static [u8]
    ensures text { result.now ≡ before_length }
    ensures short { length result.now ≤ 58 }
{
    b"Content-Type: application/x-amz-json-1.0\r\nContent-Length: "
}

/// A line's end, and the name of the next line.
#[tactic(auto, unfolding(crate::specs::Replies::before_count))]
fn before_count() -> &'static [u8]
    ensures text { result.now ≡ before_count }
    ensures short { length result.now ≤ 20 }
{
    b"\r\nx-amzn-RequestId: "
}

/// The end of a reply's head.
#[tactic(auto, unfolding(crate::specs::Replies::head_end))]
fn head_end(last: bool) -> &'static [u8]
    ensures text { result.now ≡ head_end last }
    ensures short { length result.now ≤ 23 }
{
    if last {
        b"\r\nConnection: close\r\n\r\n"
    } else {
        b"\r\n\r\n"
    }
}

/// What follows the status line of a refusal.
#[tactic(auto, unfolding(crate::specs::Replies::refusal_end))]
fn refusal_end() -> &'static [u8]
    ensures text { result.now ≡ refusal_end }
    ensures short { length result.now ≤ 40 }
{
    b"Content-Length: 0\r\nConnection: close\r\n\r\n"
}

/// Writes a head and then a body.
fn write_both<K: Sink>(sink: &mut K, head: &[u8], body: &[u8]) -> Result<(), Failed>
    ensures ok { OnOk result
        (Appends (K.written sink.old) (K.written sink.new) (head.now ++ body.now)) }
    ensures failed { OnErr result
        (AppendsFront (K.written sink.old) (K.written sink.new) (head.now ++ body.now)) }
    ensures cause { HasCause (K.faults sink.old) (K.faults sink.new) result }
{
    write_all(sink, head)?;
    write_all(sink, body)
}
