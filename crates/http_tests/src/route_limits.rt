//! Heads at their limits, large bodies, and many requests on one link.
use crate::play::play;
use crate::wrong::Wrong;

/// Heads of one line, 64 and 65, and of 65,536 bytes and 65,537.
const HEADS: &str = r#"send GET / HTTP/1.1\r\nA:\x20
more 65513 b
send \r\n\r\n
answer 404 Not Found||{"error":"no such path"}

send GET / HTTP/1.1\r\nA:\x20
more 65514 b
send \r\n\r\n
answer 431 Request Header Fields Too Large|Connection: close|{"error":"head too large"}

send GET / HTTP/1.1\r\nA: b\r\nA: b\r\nA: b\r\nA: b\r\nA: b\r\nA: b\r\nA: b\r\nA: b\r\nA: b\r\nA: b\r\nA: b\r\nA: b\r\nA: b\r\nA: b\r\nA: b\r\nA: b\r\nA: \
b\r\nA: b\r\nA: b\r\nA: b\r\nA: b\r\nA: b\r\nA: b\r\nA: b\r\nA: b\r\nA: b\r\nA: b\r\nA: b\r\nA: b\r\nA: b\r\nA: b\r\nA: b\r\nA: b\r\nA: b\r\nA: b\r\nA: \
b\r\nA: b\r\nA: b\r\nA: b\r\nA: b\r\nA: b\r\nA: b\r\nA: b\r\nA: b\r\nA: b\r\nA: b\r\nA: b\r\nA: b\r\nA: b\r\nA: b\r\nA: b\r\nA: b\r\nA: b\r\nA: b\r\nA: \
b\r\nA: b\r\nA: b\r\nA: b\r\nA: b\r\nA: b\r\nA: b\r\nA: b\r\nA: b\r\nA:\x20
more 0 b
send \r\n\r\n
answer 404 Not Found||{"error":"no such path"}

send GET / HTTP/1.1\r\nA: b\r\nA: b\r\nA: b\r\nA: b\r\nA: b\r\nA: b\r\nA: b\r\nA: b\r\nA: b\r\nA: b\r\nA: b\r\nA: b\r\nA: b\r\nA: b\r\nA: b\r\nA: b\r\nA: \
b\r\nA: b\r\nA: b\r\nA: b\r\nA: b\r\nA: b\r\nA: b\r\nA: b\r\nA: b\r\nA: b\r\nA: b\r\nA: b\r\nA: b\r\nA: b\r\nA: b\r\nA: b\r\nA: b\r\nA: b\r\nA: b\r\nA: \
b\r\nA: b\r\nA: b\r\nA: b\r\nA: b\r\nA: b\r\nA: b\r\nA: b\r\nA: b\r\nA: b\r\nA: b\r\nA: b\r\nA: b\r\nA: b\r\nA: b\r\nA: b\r\nA: b\r\nA: b\r\nA: b\r\nA: \
b\r\nA: b\r\nA: b\r\nA: b\r\nA: b\r\nA: b\r\nA: b\r\nA: b\r\nA: b\r\nA: b\r\nA:\x20
more 0 b
send \r\n\r\n
answer 431 Request Header Fields Too Large|Connection: close|{"error":"head too large"}

send GET / HTTP/1.1\r\nA: b\r\nA: b\r\nA: b\r\nA: b\r\nA: b\r\nA: b\r\nA: b\r\nA: b\r\nA: b\r\nA: b\r\nA: b\r\nA: b\r\nA: b\r\nA: b\r\nA: b\r\nA: b\r\nA: \
b\r\nA: b\r\nA: b\r\nA: b\r\nA: b\r\nA: b\r\nA: b\r\nA: b\r\nA: b\r\nA: b\r\nA: b\r\nA: b\r\nA: b\r\nA: b\r\nA: b\r\nA: b\r\nA: b\r\nA: b\r\nA: b\r\nA: \
b\r\nA: b\r\nA: b\r\nA: b\r\nA: b\r\nA: b\r\nA: b\r\nA: b\r\nA: b\r\nA: b\r\nA: b\r\nA: b\r\nA: b\r\nA: b\r\nA: b\r\nA: b\r\nA: b\r\nA: b\r\nA: b\r\nA: \
b\r\nA: b\r\nA: b\r\nA: b\r\nA: b\r\nA: b\r\nA: b\r\nA: b\r\nA: b\r\nA:\x20
more 65135 b
send \r\n\r\n
answer 404 Not Found||{"error":"no such path"}

send GET / HTTP/1.1\r\nA: b\r\nA: b\r\nA: b\r\nA: b\r\nA: b\r\nA: b\r\nA: b\r\nA: b\r\nA: b\r\nA: b\r\nA: b\r\nA: b\r\nA: b\r\nA: b\r\nA: b\r\nA: b\r\nA: \
b\r\nA: b\r\nA: b\r\nA: b\r\nA: b\r\nA: b\r\nA: b\r\nA: b\r\nA: b\r\nA: b\r\nA: b\r\nA: b\r\nA: b\r\nA: b\r\nA: b\r\nA: b\r\nA: b\r\nA: b\r\nA: b\r\nA: \
b\r\nA: b\r\nA: b\r\nA: b\r\nA: b\r\nA: b\r\nA: b\r\nA: b\r\nA: b\r\nA: b\r\nA: b\r\nA: b\r\nA: b\r\nA: b\r\nA: b\r\nA: b\r\nA: b\r\nA: b\r\nA: b\r\nA: \
b\r\nA: b\r\nA: b\r\nA: b\r\nA: b\r\nA: b\r\nA: b\r\nA: b\r\nA: b\r\nA:\x20
more 65136 b
send \r\n\r\n
answer 431 Request Header Fields Too Large|Connection: close|{"error":"head too large"}"#;

#[test]
fn heads_have_at_most_65536_bytes_and_64_lines(rt: HostRuntime) -> Result<(), Wrong> {
    play(rt.alloc(), "", "", HEADS)
}

const BODIES: &str =
    r#"send POST /pdb/query/v4 HTTP/1.1\r\nContent-Length: 1048588\r\n\r\n{"query":"
more 1048576 \x20
send "}
bad {"error":"pql bad at 1048576"}

send POST /pdb/query/v4 HTTP/1.1\r\nContent-Length: 1048589\r\n\r\n{"query":"
more 1048577 \x20
send "}
bad {"error":"too long"}

with piece=100000
send POST /pdb/cmd/v1?command=store_report&version=8&certname=a HTTP/1.1\r\nContent-Length: 16777216\r\n\r\n
more 16777216 x
ok {"uuid":"00000000-0000-8000-8000-000000000001"}
takes report 8 16777216 xxxxxxxxxxxxxxxxxxxx"#;

#[test]
fn a_body_may_have_16_mib_and_a_query_1(rt: HostRuntime) -> Result<(), Wrong> {
    play(rt.alloc(), "", "", BODIES)
}

const MANY: &str = r#"send GET /pdb/query/v4/edges HTTP/1.1\r\nHost: a\r\n\r\n
ok []
often 10000"#;

#[test]
fn ten_thousand_requests_are_answered_on_one_link(rt: HostRuntime) -> Result<(), Wrong> {
    play(rt.alloc(), "", "", MANY)
}
