//! Answers byte for byte.
use crate::wrong::{Wrong, holds};
use http_front::{Answer, Incoming, NextRequest, next_request, write_answer, write_memory_answer};
use port_memory::fleet_ports::{Wrote, write_all};
use port_memory::json_tree::Bytes;
use port_memory::{MemorySink, Numbers};
use std::alloc::{AllocError, Global};
use test_support::Pieces;

/// The code, the count of records, the number of the last event, whether the connection closes, and the body of an answer, and the
/// bytes that are sent.
type Sent = (
    u16,
    Option<u64>,
    Option<u64>,
    bool,
    &'static [u8],
    &'static [u8],
);

const ANSWERS: &[Sent] = &[
    (
        200,
        None,
        None,
        false,
        b"[]",
        b"HTTP/1.1 200 OK\r\nContent-Type: application/json\r\nContent-Length: 2\r\n\r\n[]",
    ),
    (
        200,
        Some(18_446_744_073_709_551_615),
        None,
        true,
        b"",
        b"HTTP/1.1 200 OK\r\nContent-Type: application/json\r\nContent-Length: 0\r\n\
X-Records: 18446744073709551615\r\nConnection: close\r\n\r\n",
    ),
    (
        400,
        None,
        None,
        true,
        b"{\"error\":\"bad head\"}",
        b"HTTP/1.1 400 Bad Request\r\nContent-Type: application/json\r\nContent-Length: 20\r\n\
Connection: close\r\n\r\n{\"error\":\"bad head\"}",
    ),
    (
        431,
        None,
        None,
        true,
        b"",
        b"HTTP/1.1 431 Request Header Fields Too Large\r\nContent-Type: application/json\r\nContent-Length: 0\r\n\
Connection: close\r\n\r\n",
    ),
    (
        200,
        Some(7),
        Some(18_446_744_073_709_551_615),
        true,
        b"[]",
        b"HTTP/1.1 200 OK\r\nContent-Type: application/json\r\nContent-Length: 2\r\nX-Records: 7\r\n\
X-Fleet-Seen: 18446744073709551615\r\nConnection: close\r\n\r\n[]",
    ),
    (
        503,
        None,
        Some(0),
        false,
        b"{\"error\":\"not yet\"}",
        b"HTTP/1.1 503 Service Unavailable\r\nContent-Type: application/json\r\nContent-Length: 19\r\n\
X-Fleet-Seen: 0\r\n\r\n{\"error\":\"not yet\"}",
    ),
];

fn is_written_as(alloc: Global, answer: &Answer, text: &[u8]) -> Result<bool, AllocError> {
    Ok(write_answer(alloc, answer)?.as_slice() == text)
}

fn is_sent(alloc: Global, row: &Sent) -> Result<bool, AllocError> {
    let (code, records, seen, close, body, text) = row;
    let answer = Answer {
        code: *code,
        records: *records,
        seen: *seen,
        close: *close,
        body: Bytes::from_slice(alloc, body)?,
    };
    is_written_as(alloc, &answer, text)
}

fn are_sent(alloc: Global) -> Result<(), Wrong> {
    for (at, row) in ANSWERS.iter().enumerate() {
        holds(is_sent(alloc, row)?, at)?;
    }
    Ok(())
}

#[test]
fn answers_are_these_bytes(rt: HostRuntime) -> Result<(), Wrong> {
    are_sent(rt.alloc())
}

const TWO_REQUESTS: &[u8] = b"GET /pdb/query/v4/nodes HTTP/1.1\r\n\r\nBAD\r\n\r\n";

const TWO_ANSWERS: &[u8] =
    b"HTTP/1.1 200 OK\r\nContent-Type: application/json\r\nContent-Length: 2\r\n\r\n[]\
HTTP/1.1 400 Bad Request\r\nContent-Type: application/json\r\nContent-Length: 20\r\nConnection: close\r\n\r\n\
{\"error\":\"bad head\"}";

// The code of the answer to the next request and whether it closes the connection, or None once the connection is over.
fn next_code(incoming: &mut Incoming, link: &mut Pieces) -> Option<(u16, bool)> {
    match next_request(incoming, link) {
        NextRequest::Request(request) => Some((200, request.ends)),
        NextRequest::Bad(_) => Some((400, true)),
        _ => None,
    }
}

fn answer_of(alloc: Global, code: u16, close: bool) -> Result<Bytes, AllocError> {
    let body = if code == 200 {
        b"[]" as &[u8]
    } else {
        b"{\"error\":\"bad head\"}"
    };
    let answer = Answer {
        code,
        records: None,
        seen: None,
        close,
        body: Bytes::from_slice(alloc, body)?,
    };
    write_answer(alloc, &answer)
}

fn is_written(sink: &mut MemorySink, text: &Bytes) -> bool {
    write_all(sink, text.as_slice()) == Wrote::All
}

// Whether the requests, in pieces of so many bytes, are answered as wanted.
fn are_answered(alloc: Global, piece: usize) -> Result<bool, AllocError> {
    let mut link = Pieces::new(Vec::from_slice(alloc, TWO_REQUESTS)?, piece, 0);
    let mut sink = MemorySink::new(alloc, Numbers::new(alloc));
    let mut incoming = Incoming::new(alloc);
    for _ in 0..3 {
        match next_code(&mut incoming, &mut link) {
            None => break,
            Some((code, close)) => {
                if !is_written(&mut sink, &answer_of(alloc, code, close)?) {
                    return Ok(false);
                }
            }
        }
    }
    Ok(sink.held() == TWO_ANSWERS)
}

fn both_are_answered(alloc: Global) -> Result<(), Wrong> {
    holds(are_answered(alloc, 1)?, 0)?;
    holds(are_answered(alloc, 65_536)?, 1)
}

#[test]
fn two_requests_of_a_link_are_answered(rt: HostRuntime) -> Result<(), Wrong> {
    both_are_answered(rt.alloc())
}

const NO_MEMORY: &[u8] =
    b"HTTP/1.1 500 Internal Server Error\r\nContent-Type: application/json\r\nContent-Length: 25\r\n\
Connection: close\r\n\r\n{\"error\":\"out of memory\"}";

fn memory_is_wanted(alloc: Global) -> bool {
    let mut sink = MemorySink::new(alloc, Numbers::new(alloc));
    write_memory_answer(&mut sink) == Wrote::All && sink.held() == NO_MEMORY
}

#[test]
fn want_of_memory_is_told_without_memory(rt: HostRuntime) -> Result<(), Wrong> {
    holds(memory_is_wanted(rt.alloc()), 0)
}
