//! Replies of HTTP as they are written to a sink in memory.

ghost use Rattle.std.specs.Prelude.{◌≤◌};
ghost use Rattle.http_front.specs.Replies.{IsReplyStatus};

use base_types::Seq;
use ddb_outside::{Failed, MemSink};
use http_front::{HttpFault, refuse, reply};
use std::alloc::{AllocError as NoMemory, Global};
use std::test::Fail;

/// Whether a reply writes this to a sink that takes so many bytes at a time.
fn writes(
    alloc: Global,
    piece: usize,
    status: u16,
    body: &str,
    told: (u64, bool),
    text: &str,
) -> bool
    requires piece { 1 ≤ piece }
    requires status { IsReplyStatus status }
{
    let (count, last) = told;
    let mut sink = MemSink::make(alloc, piece, Seq::new(alloc));
    let end = reply(&mut sink, status, body.as_bytes(), count, last);
    end == Ok(()) && sink.into_parts().0.as_slice() == text.as_bytes()
}

#[test]
fn replies_written(rt: HostRuntime) {
    let first =
        "HTTP/1.1 200 OK\r\nContent-Type: application/x-amz-json-1.0\r\nContent-Length: 2\r\nx-amzn-RequestId: 00000000000000000000000000000001\r\n\r\n{}";
    assert!(rt; writes(rt.alloc(), 7, 200, "{}", (1, false), first));
    let last =
        "HTTP/1.1 400 Bad Request\r\nContent-Type: application/x-amz-json-1.0\r\nContent-Length: 0\r\nx-amzn-RequestId: 00000000000018446744073709551615\r\nConnection: close\r\n\r\n";
    assert!(rt; writes(rt.alloc(), 4_096, 400, "", (u64::MAX, true), last));
    let error =
        "HTTP/1.1 500 Internal Server Error\r\nContent-Type: application/x-amz-json-1.0\r\nContent-Length: 7\r\nx-amzn-RequestId: 00000000000000000000000000000020\r\n\r\n{\"a\":1}";
    assert!(rt; writes(rt.alloc(), 1, 500, "{\"a\":1}", (20, false), error));
}

/// How the reply with a body of so many bytes ends, where the sink's second write fails.
fn ends(alloc: Global, size: usize) -> Result<Result<(), Failed>, NoMemory> {
    let body = vec![in alloc; b'x'; size]?;
    let failing = Seq::from(Vec::from_slice(alloc, &[1])?);
    let mut sink = MemSink::make(alloc, 10_000, failing);
    Ok(reply(&mut sink, 200, &body, 1, false))
}

// What fits 4,096 bytes leaves in one write: 135 of head and the body.
#[test]
fn short_replies_at_once(rt: HostRuntime) -> Result<(), Fail> {
    assert!(rt; ends(rt.alloc(), 3_961)? == Ok(()));
    assert!(rt; ends(rt.alloc(), 3_962)? == Err(Failed));
    Ok(())
}

static REFUSALS: [(HttpFault, &str); 5] = [
    (
        HttpFault::BadHead,
        "HTTP/1.1 400 Bad Request\r\nContent-Length: 0\r\nConnection: close\r\n\r\n",
    ),
    (
        HttpFault::TooLarge,
        "HTTP/1.1 413 Payload Too Large\r\nContent-Length: 0\r\nConnection: close\r\n\r\n",
    ),
    (
        HttpFault::Coding,
        "HTTP/1.1 501 Not Implemented\r\nContent-Length: 0\r\nConnection: close\r\n\r\n",
    ),
    (
        HttpFault::Method,
        "HTTP/1.1 405 Method Not Allowed\r\nContent-Length: 0\r\nConnection: close\r\n\r\n",
    ),
    (
        HttpFault::Target,
        "HTTP/1.1 404 Not Found\r\nContent-Length: 0\r\nConnection: close\r\n\r\n",
    ),
];

fn refuses(alloc: Global, fault: HttpFault, text: &str) -> bool {
    let mut sink = MemSink::make(alloc, 4_096, Seq::new(alloc));
    refuse(&mut sink, fault) == Ok(()) && sink.into_parts().0.as_slice() == text.as_bytes()
}

#[test]
fn refusals_written(rt: HostRuntime) {
    for (fault, text) in REFUSALS {
        assert!(rt; refuses(rt.alloc(), fault, text));
    }
}
