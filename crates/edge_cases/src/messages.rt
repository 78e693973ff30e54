//! Messages of HTTP as a reader takes them from a source in memory.

ghost use Rattle.std.specs.Prelude.{◌≤◌};

use base_types::{Bytes, Seq};
use ddb_outside::MemSource;
use http_front::{NextEnd, Reader, one_reading};
use std::alloc::{AllocError as NoMemory, Global};
use std::test::Fail;

// Heads as boto3 1.43, the AWS command line 1.45 and curl 7.88 send them, their signatures made up.
const BOTO3: &str =
    "POST / HTTP/1.1\r\nHost: 127.0.0.1:8000\r\nAccept-Encoding: identity\r\nX-Amz-Target: DynamoDB_20120810.CreateTable\r\nContent-Type: application/x-amz-json-1.0\r\nUser-Agent: Boto3/1.43.11 md/Botocore#1.43.11 ua/2.1 os/linux md/arch#x86_64 lang/python#3.11.7 md/pyimpl#CPython m/Z,b,N,g,D,P cfg/retry-mode#legacy Botocore/1.43.11\r\nX-Amz-Date: 20250102T030405Z\r\nAuthorization: AWS4-HMAC-SHA256 Credential=dummy/20250102/us-east-1/dynamodb/aws4_request, SignedHeaders=content-type;host;x-amz-date;x-amz-target, Signature=0123456789abcdef0123456789abcdef0123456789abcdef0123456789abcdef\r\namz-sdk-invocation-id: 00000000-1111-2222-3333-444444444444\r\namz-sdk-request: attempt=1\r\nContent-Length: 21\r\n\r\n{\"TableName\":\"Music\"}";

const AWSCLI: &str =
    "POST / HTTP/1.1\r\nHost: 127.0.0.1:8000\r\nAccept-Encoding: identity\r\nX-Amz-Target: DynamoDB_20120810.ListTables\r\nContent-Type: application/x-amz-json-1.0\r\nUser-Agent: aws-cli/1.45.11 md/Botocore#1.43.11 ua/2.1 os/linux md/arch#x86_64 lang/python#3.11.7 md/pyimpl#CPython m/g,N,D,b,Z,C,P cfg/retry-mode#legacy botocore/1.43.11\r\nX-Amz-Date: 20250102T030405Z\r\nAuthorization: AWS4-HMAC-SHA256 Credential=dummy/20250102/us-east-1/dynamodb/aws4_request, SignedHeaders=content-type;host;x-amz-date;x-amz-target, Signature=fedcba9876543210fedcba9876543210fedcba9876543210fedcba9876543210\r\namz-sdk-invocation-id: 55555555-6666-7777-8888-999999999999\r\namz-sdk-request: attempt=1\r\nContent-Length: 2\r\n\r\n{}";

const CURL: &str =
    "POST / HTTP/1.1\r\nHost: 127.0.0.1:8000\r\nUser-Agent: curl/7.88.1\r\nAccept: */*\r\nX-Amz-Target: DynamoDB_20120810.ListTables\r\nContent-Type: application/x-amz-json-1.0\r\nContent-Length: 2\r\n\r\n{}";

const CURL_HTTP_1_0: &str =
    "POST / HTTP/1.0\r\nHost: 127.0.0.1:8000\r\nUser-Agent: curl/7.88.1\r\nAccept: */*\r\nX-Amz-Target: DynamoDB_20120810.ListTables\r\nConnection: close\r\nContent-Length: 11\r\nContent-Type: application/x-www-form-urlencoded\r\n\r\n{\"Limit\":1}";

fn source(
    alloc: Global,
    content: Bytes,
    piece: usize,
    failing: &[u64],
) -> Result<MemSource, NoMemory>
    requires { 1 ≤ piece }
{
    Ok(MemSource::make(content, piece, Seq::from(Vec::from_slice(alloc, failing)?)))
}

/// Target and body of a message, and whether it is the last one.
type Told = (&'static str, &'static str, bool);

/// What the messages of the four clients tell.
static OF_CLIENTS: [Told; 4] = [
    (
        "DynamoDB_20120810.CreateTable",
        "{\"TableName\":\"Music\"}",
        false,
    ),
    ("DynamoDB_20120810.ListTables", "{}", false),
    ("DynamoDB_20120810.ListTables", "{}", false),
    ("DynamoDB_20120810.ListTables", "{\"Limit\":1}", true),
];

/// Whether this message comes next.
fn is_next(reader: &mut Reader, source: &mut MemSource, told: Told) -> bool {
    let (target, body, last) = told;
    let Ok(Some(message)) = reader.next(source) else {
        return false;
    };
    let is_named = match &message.target {
        Some(named) => named.as_slice() == target.as_bytes(),
        None => false,
    };
    is_named && message.body.as_slice() == body.as_bytes() && message.last == last
}

/// Whether these messages come one after the other, and then the end.
fn are_all(reader: &mut Reader, source: &mut MemSource, messages: &[Told]) -> bool {
    for told in messages {
        if !is_next(reader, source, *told) {
            return false;
        }
    }
    matches!(reader.next(source), Ok(None))
}

/// Whether what the four clients send is read as it is, in pieces of this length.
fn are_read(alloc: Global, piece: usize) -> Result<bool, NoMemory>
    requires { 1 ≤ piece }
{
    let mut text = Vec::new(alloc);
    for message in [BOTO3, AWSCLI, CURL, CURL_HTTP_1_0] {
        text.extend_from_slice(message.as_bytes())?;
    }
    let mut source = source(alloc, Bytes::from(text), piece, &[])?;
    let mut reader = Reader::make(alloc)?;
    Ok(are_all(&mut reader, &mut source, &OF_CLIENTS))
}

// What real clients send, in pieces of any size.
#[test]
fn messages_in_pieces(rt: HostRuntime) -> Result<(), Fail> {
    for piece in [1, 2, 3, 7, 4_096] {
        assert!(rt; 1 <= piece);
        assert!(rt; are_read(rt.alloc(), piece)?);
    }
    Ok(())
}

/// Why there is no first message in this content, which comes in pieces of seven bytes, of which some can't be read.
fn ended(alloc: Global, content: &[u8], failing: &[u64]) -> Result<Option<NextEnd>, NoMemory> {
    let mut source = source(alloc, Bytes::copied(alloc, content)?, 7, failing)?;
    Ok(Reader::make(alloc)?.next(&mut source).err())
}

/// Whether a message that is cut anywhere is told by its bytes.
fn are_cuts_told(alloc: Global, message: &[u8]) -> Result<bool, NoMemory> {
    for got in 1..message.len() {
        if ended(alloc, &message[..got], &[])? != Some(NextEnd::Cut { got: got as u64 }) {
            return Ok(false);
        }
    }
    Ok(true)
}

#[test]
fn cuts_told(rt: HostRuntime) -> Result<(), Fail> {
    assert!(rt; are_cuts_told(rt.alloc(), CURL.as_bytes())?);
    Ok(())
}

#[test]
fn source_that_fails(rt: HostRuntime) -> Result<(), Fail> {
    assert!(rt; ended(rt.alloc(), CURL.as_bytes(), &[1])? == Some(NextEnd::ReadFault));
    one_reading();
    Ok(())
}

/// The largest body comes whole, and nothing of what follows it.
fn is_largest_read(alloc: Global) -> Result<bool, NoMemory> {
    let head = b"POST / HTTP/1.1\r\nContent-Length: 16777216\r\n\r\n";
    let mut text = Vec::from_slice(alloc, head)?;
    text.resize(head.len() + 16_777_216, b'x')?;
    text.extend_from_slice(CURL.as_bytes())?;
    let mut source = source(alloc, Bytes::from(text), 4_096, &[])?;
    let mut reader = Reader::make(alloc)?;
    let first = match reader.next(&mut source) {
        Ok(Some(message)) => message.body.len() == 16_777_216 && message.target.is_none(),
        _ => false,
    };
    Ok(first && is_next(&mut reader, &mut source, OF_CLIENTS[2]))
}

#[test]
fn largest_body(rt: HostRuntime) -> Result<(), Fail> {
    assert!(rt; is_largest_read(rt.alloc())?);
    Ok(())
}
