//! Requests and faults, from links that give one byte a call and more.
use crate::play::{PIECES, play};
use crate::wrong::{Wrong, holds};
use http_front::{Incoming, NextRequest, Request, next_request};
use std::alloc::Global;
use test_support::Pieces;

/// What comes in on a link, and what is read of it.
const REQUESTS: &str = r#"send GET /pdb/query/v4/nodes HTTP/1.1\r\n\r\nBAD\r\n\r\n
read GET /pdb/query/v4/nodes []/bad head/ended/

send
read ended/ended/ended/

send \r\n\n
read ended/ended/ended/

send GET / HTTP/1.1\r\nHost: a\r\n
read ended/ended/ended/

send \r\n\nGET /a HTTP/1.1\nHost:  b \r\nX:\n\nGET /c HTTP/1.0\r\n\r\n
read GET /a Host=b X= []/GET /c [] ends/ended/

send POST /a HTTP/1.1\r\ncontent-length: 3\r\n\r\nabcGET /b HTTP/1.1\r\nConnection: TE, Close\r\n\r\nGET
read POST /a content-length=3 [abc]/GET /b Connection=TE, Close [] ends/ended/

send GET /a HTTP/1.1\r\nContent-Length: 2\r\n\r\nabGET /b HTTP/1.1\r\n\r\n
read GET /a Content-Length=2 [ab]/GET /b []/ended/

send POST /a HTTP/1.1\r\nContent-Length: 4\r\n\r\nabc
read ended/ended/ended/

send POST /a HTTP/1.1\r\n\r\n
read length required/ended/ended/

send POST /a HTTP/1.1\r\nTransfer-Encoding: chunked\r\nContent-Length: x\r\n\r\n0\r\n\r\n
read length required/ended/ended/

send POST /a HTTP/1.1\r\nContent-Length: -1\r\n\r\n
read bad length/ended/ended/

send POST /a HTTP/1.1\r\nContent-Length: 1\r\nContent-Length: 2\r\n\r\n
read bad length/ended/ended/

send POST /a HTTP/1.1\r\nContent-Length: 1\r\nContent-Length: 1\r\n\r\nx
read POST /a Content-Length=1 Content-Length=1 [x]/ended/ended/

send POST /a HTTP/1.1\r\nContent-Length: 16777217\r\n\r\n
read body too large/ended/ended/

send POST /a HTTP/1.1\r\nContent-Length: 36893488147419103232\r\n\r\n
read body too large/ended/ended/

send GET /a HTTP/1.1\r\nX: a\r\n b\r\n\r\n
read bad head/ended/ended/

send GET /a HTTP/1.1\r\nX: \0\r\n\r\n
read bad head/ended/ended/

send GET /a HTTP/1.1\rX: a\r\n\r\n
read bad head/ended/ended/

send GET /a HTTP/2.0\r\n\r\n
read bad head/ended/ended/

send GET /\xff HTTP/1.1\r\n\r\n
read bad head/ended/ended/

send GET  /a HTTP/1.1\r\n\r\n
read bad head/ended/ended/"#;

#[test]
fn requests_and_faults_are_read(rt: HostRuntime) -> Result<(), Wrong> {
    play(rt.alloc(), PIECES, REQUESTS)
}

/// A request with a body, of which each read fails.
const FAULTS: &str =
    r#"for 1 2 3 4 5 6 7 8 9 10 11 12 13 14 15 16 17 18 19 20 21 22 23 24 25 26 27 28 29 30 31 32 33 34 35 36 37 38 39
with piece=1 fails=<it> most=2
send POST / HTTP/1.1\r\nContent-Length: 2\r\n\r\nabGET
read read fault/ended/"#;

#[test]
fn a_fault_of_the_link_is_told(rt: HostRuntime) -> Result<(), Wrong> {
    play(rt.alloc(), "", FAULTS)
}

const WITH_FIELDS: &[u8] =
    b"GET / HTTP/1.1\r\nX-Fleet: 6\r\nx-FLEET-seen:\t7 \r\nX-Fleet-Seen: 8\r\nX-Empty:\r\n\r\n";

/// The name of a field, and the value that is found.
const FIELDS: &[(&str, Option<&[u8]>)] = &[
    ("X-Fleet-Seen", Some(b"7")),
    ("x-fleet-seen", Some(b"7")),
    ("X-FLEET", Some(b"6")),
    ("X-Empty", Some(b"")),
    ("X-Fleet-Seen-By", None),
    ("X-Flee", None),
    ("", None),
];

fn has_fields(request: &Request) -> Result<(), Wrong> {
    for (at, (name, value)) in FIELDS.iter().enumerate() {
        holds(request.header(name) == *value, at)?;
    }
    Ok(())
}

fn fields_are_found(alloc: Global) -> Result<(), Wrong> {
    let mut link = Pieces::new(Vec::from_slice(alloc, WITH_FIELDS)?, 65_536, 0);
    let mut incoming = Incoming::new(alloc);
    match next_request(&mut incoming, &mut link) {
        NextRequest::Request(request) => has_fields(&request),
        _ => Err(Wrong::Row(FIELDS.len())),
    }
}

#[test]
fn fields_are_found_by_their_names(rt: HostRuntime) -> Result<(), Wrong> {
    fields_are_found(rt.alloc())
}
