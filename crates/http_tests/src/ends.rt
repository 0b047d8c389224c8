//! How links end: what is answered on each up to its end, and faults.
use crate::play::play;
use crate::wrong::Wrong;

/// How many bytes come at once.
const PIECES: &str = r#"with piece=1

with piece=7

with piece=65536"#;

/// What is answered on links, in whatever pieces their bytes come.
const LINKS: &str = r#"send GET /pdb/query/v4/nodes HTTP/1.1\r\n\r\nBAD\r\n\r\n
ok []
answer 400 Bad Request|Connection: close|{"error":"bad head"}

send

send \r\n\n

send GET / HTTP/1.1\r\nHost: a\r\n

send POST /pdb/cmd/v1?command=replace_facts&version=5&certname=a HTTP/1.1\r\nContent-Length: 4\r\n\r\nabc

send \r\n\nGET /a HTTP/1.1\nHost:  b \r\nX:\n\nGET /c HTTP/1.0\r\n\r\nGET /d HTTP/1.1\r\n\r\n
answer 404 Not Found||{"error":"no such path"}
answer 404 Not Found|Connection: close|{"error":"no such path"}

send GET /pdb/query/v4/edges HTTP/1.1\r\nContent-Length: 2\r\n\r\n[]GET /pdb/query/v4/facts HTTP/1.1\r\nConnection: close\r\nContent-Length: 2\r\n\r\nabGET
ok []
answer 200 OK|Connection: close|[]

send PUT /pdb/query/v4 HTTP/1.1\r\nConnection: TE, Close\r\n\r\nGET
answer 405 Method Not Allowed|Connection: close|{"error":"bad method"}

send POST /pdb/cmd/v1 HTTP/1.1\r\nContent-Length: 0\r\nConnection: close\r\n\r\n
answer 400 Bad Request|Connection: close|{"error":"missing command"}

send POST /pdb/query/v4/edges HTTP/1.1\r\nContent-Length: 2\r\nContent-Length: 2\r\n\r\n{}POST /a HTTP/1.1\r\nContent-Length: 1\r\nContent-Length: \
16777217\r\n\r\n
ok []
answer 400 Bad Request|Connection: close|{"error":"bad length"}

send GET / HTTP/1.1\r\nContent-Length: x\r\n\r\n
answer 400 Bad Request|Connection: close|{"error":"bad length"}

send GET / HTTP/1.1\r\nContent-Length: 16777217\r\n\r\n
answer 413 Content Too Large|Connection: close|{"error":"body too large"}

send POST /pdb/cmd/v1 HTTP/1.1\r\n\r\n
answer 411 Length Required|Connection: close|{"error":"length required"}

send GET / HTTP/1.1\r\nTransfer-Encoding: chunked\r\nContent-Length: x\r\n\r\n0\r\n\r\n
answer 411 Length Required|Connection: close|{"error":"length required"}

send GET /a HTTP/1.1\r\nX: a\r\n b\r\n\r\n
answer 400 Bad Request|Connection: close|{"error":"bad head"}

send GET /a HTTP/1.1\r\nX: \0\r\n\r\n
answer 400 Bad Request|Connection: close|{"error":"bad head"}

send GET /a HTTP/2.0\r\nTransfer-Encoding: chunked\r\n\r\n
answer 400 Bad Request|Connection: close|{"error":"bad head"}"#;

#[test]
fn links_are_answered_to_their_ends(rt: HostRuntime) -> Result<(), Wrong> {
    play(rt.alloc(), "", PIECES, LINKS)
}

/// Two requests of which a read fails, or the answers find no room.
const FAULTS: &str = r#"with piece=12 fails=1 end=1
send GET /pdb/query/v4/nodes HTTP/1.1\r\n\r\nBAD\r\n\r\n
ok []
answer 400 Bad Request|Connection: close|{"error":"bad head"}

with piece=12 fails=4 end=1
send GET /pdb/query/v4/nodes HTTP/1.1\r\n\r\nBAD\r\n\r\n
ok []
answer 400 Bad Request|Connection: close|{"error":"bad head"}

with piece=12 room=0 end=2
send GET /pdb/query/v4/nodes HTTP/1.1\r\n\r\nBAD\r\n\r\n
ok []
answer 400 Bad Request|Connection: close|{"error":"bad head"}

with piece=12 room=75 end=2
send GET /pdb/query/v4/nodes HTTP/1.1\r\n\r\nBAD\r\n\r\n
ok []
answer 400 Bad Request|Connection: close|{"error":"bad head"}

with piece=12 room=100 end=2
send GET /pdb/query/v4/nodes HTTP/1.1\r\n\r\nBAD\r\n\r\n
ok []
answer 400 Bad Request|Connection: close|{"error":"bad head"}

with piece=12 fails=9 room=100 end=2
send GET /pdb/query/v4/nodes HTTP/1.1\r\n\r\nBAD\r\n\r\n
ok []
answer 400 Bad Request|Connection: close|{"error":"bad head"}"#;

#[test]
fn faults_end_links(rt: HostRuntime) -> Result<(), Wrong> {
    play(rt.alloc(), "", "", FAULTS)
}
