//! Heads at their limits, a body of 16 MiB, and many requests on one link.
use crate::play::play;
use crate::wrong::Wrong;

/// Heads of one line, 64 and 65, and of 65,536 bytes and 65,537.
const HEADS: &str = r#"with piece=1000 most=1
send GET / HTTP/1.1\r\nA:\x20
more 65513 b
send \r\n\r\n
read GET / A=
reads 65513 b
read \x20[]/

with piece=1000 most=1
send GET / HTTP/1.1\r\nA:\x20
more 65514 b
send \r\n\r\n
read head too large/

with piece=1000 most=1
send GET / HTTP/1.1\r\nA: b\r\nA: b\r\nA: b\r\nA: b\r\nA: b\r\nA: b\r\nA: b\r\nA: b\r\nA: b\r\nA: b\r\nA: b\r\nA: b\r\nA: b\r\nA: b\r\nA: b\r\nA: b\r\nA: \
b\r\nA: b\r\nA: b\r\nA: b\r\nA: b\r\nA: b\r\nA: b\r\nA: b\r\nA: b\r\nA: b\r\nA: b\r\nA: b\r\nA: b\r\nA: b\r\nA: b\r\nA: b\r\nA: b\r\nA: b\r\nA: b\r\nA: \
b\r\nA: b\r\nA: b\r\nA: b\r\nA: b\r\nA: b\r\nA: b\r\nA: b\r\nA: b\r\nA: b\r\nA: b\r\nA: b\r\nA: b\r\nA: b\r\nA: b\r\nA: b\r\nA: b\r\nA: b\r\nA: b\r\nA: \
b\r\nA: b\r\nA: b\r\nA: b\r\nA: b\r\nA: b\r\nA: b\r\nA: b\r\nA: b\r\nA:\x20
more 0 b
send \r\n\r\n
read GET / A=b A=b A=b A=b A=b A=b A=b A=b A=b A=b A=b A=b A=b A=b A=b A=b A=b A=b A=b A=b A=b A=b A=b A=b A=b A=b A=b A=b A=b A=b A=b A=b A=b A=b A=b A=b \
A=b A=b A=b A=b A=b A=b A=b A=b A=b A=b A=b A=b A=b A=b A=b A=b A=b A=b A=b A=b A=b A=b A=b A=b A=b A=b A=b A=
reads 0 b
read \x20[]/

with piece=1000 most=1
send GET / HTTP/1.1\r\nA: b\r\nA: b\r\nA: b\r\nA: b\r\nA: b\r\nA: b\r\nA: b\r\nA: b\r\nA: b\r\nA: b\r\nA: b\r\nA: b\r\nA: b\r\nA: b\r\nA: b\r\nA: b\r\nA: \
b\r\nA: b\r\nA: b\r\nA: b\r\nA: b\r\nA: b\r\nA: b\r\nA: b\r\nA: b\r\nA: b\r\nA: b\r\nA: b\r\nA: b\r\nA: b\r\nA: b\r\nA: b\r\nA: b\r\nA: b\r\nA: b\r\nA: \
b\r\nA: b\r\nA: b\r\nA: b\r\nA: b\r\nA: b\r\nA: b\r\nA: b\r\nA: b\r\nA: b\r\nA: b\r\nA: b\r\nA: b\r\nA: b\r\nA: b\r\nA: b\r\nA: b\r\nA: b\r\nA: b\r\nA: \
b\r\nA: b\r\nA: b\r\nA: b\r\nA: b\r\nA: b\r\nA: b\r\nA: b\r\nA: b\r\nA: b\r\nA:\x20
more 0 b
send \r\n\r\n
read head too large/

with piece=1000 most=1
send GET / HTTP/1.1\r\nA: b\r\nA: b\r\nA: b\r\nA: b\r\nA: b\r\nA: b\r\nA: b\r\nA: b\r\nA: b\r\nA: b\r\nA: b\r\nA: b\r\nA: b\r\nA: b\r\nA: b\r\nA: b\r\nA: \
b\r\nA: b\r\nA: b\r\nA: b\r\nA: b\r\nA: b\r\nA: b\r\nA: b\r\nA: b\r\nA: b\r\nA: b\r\nA: b\r\nA: b\r\nA: b\r\nA: b\r\nA: b\r\nA: b\r\nA: b\r\nA: b\r\nA: \
b\r\nA: b\r\nA: b\r\nA: b\r\nA: b\r\nA: b\r\nA: b\r\nA: b\r\nA: b\r\nA: b\r\nA: b\r\nA: b\r\nA: b\r\nA: b\r\nA: b\r\nA: b\r\nA: b\r\nA: b\r\nA: b\r\nA: \
b\r\nA: b\r\nA: b\r\nA: b\r\nA: b\r\nA: b\r\nA: b\r\nA: b\r\nA: b\r\nA:\x20
more 65135 b
send \r\n\r\n
read GET / A=b A=b A=b A=b A=b A=b A=b A=b A=b A=b A=b A=b A=b A=b A=b A=b A=b A=b A=b A=b A=b A=b A=b A=b A=b A=b A=b A=b A=b A=b A=b A=b A=b A=b A=b A=b \
A=b A=b A=b A=b A=b A=b A=b A=b A=b A=b A=b A=b A=b A=b A=b A=b A=b A=b A=b A=b A=b A=b A=b A=b A=b A=b A=b A=
reads 65135 b
read \x20[]/

with piece=1000 most=1
send GET / HTTP/1.1\r\nA: b\r\nA: b\r\nA: b\r\nA: b\r\nA: b\r\nA: b\r\nA: b\r\nA: b\r\nA: b\r\nA: b\r\nA: b\r\nA: b\r\nA: b\r\nA: b\r\nA: b\r\nA: b\r\nA: \
b\r\nA: b\r\nA: b\r\nA: b\r\nA: b\r\nA: b\r\nA: b\r\nA: b\r\nA: b\r\nA: b\r\nA: b\r\nA: b\r\nA: b\r\nA: b\r\nA: b\r\nA: b\r\nA: b\r\nA: b\r\nA: b\r\nA: \
b\r\nA: b\r\nA: b\r\nA: b\r\nA: b\r\nA: b\r\nA: b\r\nA: b\r\nA: b\r\nA: b\r\nA: b\r\nA: b\r\nA: b\r\nA: b\r\nA: b\r\nA: b\r\nA: b\r\nA: b\r\nA: b\r\nA: \
b\r\nA: b\r\nA: b\r\nA: b\r\nA: b\r\nA: b\r\nA: b\r\nA: b\r\nA: b\r\nA:\x20
more 65136 b
send \r\n\r\n
read head too large/"#;

#[test]
fn heads_have_at_most_65536_bytes_and_64_lines(rt: HostRuntime) -> Result<(), Wrong> {
    play(rt.alloc(), "", HEADS)
}

const BODY: &str = r#"with piece=100000 most=1
send POST / HTTP/1.1\r\nContent-Length: 16777216\r\n\r\n
more 16777216 x
read POST / Content-Length=16777216 [
reads 16777216 x
read ]/"#;

#[test]
fn a_body_may_have_16_mib(rt: HostRuntime) -> Result<(), Wrong> {
    play(rt.alloc(), "", BODY)
}

const MANY: &str = r#"with piece=100 most=10001
send POST / HTTP/1.1\r\nContent-Length: 2\r\n\r\nab
read POST / Content-Length=2 [ab]/
often 10000
read ended/"#;

#[test]
fn ten_thousand_requests_come_on_one_link(rt: HostRuntime) -> Result<(), Wrong> {
    play(rt.alloc(), "", MANY)
}
