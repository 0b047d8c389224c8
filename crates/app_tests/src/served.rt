//! Links that are served: what is answered on them, and what later commands print.
use crate::rounds::play;
use std::alloc::AllocError;

const SERVED: &str = r#"case a posted command is applied by the next run; the third link stays
do init
end 0
link GET /pdb/query/v4/nodes HTTP/1.1\r\n\r\nPOST /pdb/cmd/v1?command=replace_facts&version=5&certname=a HTTP/1.1\r\nContent-Length: 119\r\n\r\
\n{"certname":"a","environment":"production","values":{"k":1},"producer_timestamp":"2024-05-01T10:00:00Z","producer":"m"}
link GET /pdb/query/v4/facts HTTP/1.1\r\n\r\n
link GET /pdb/query/v4/nodes HTTP/1.1\r\n\r\n
do serve 8123 2024-05-02T00:00:00Z --links 2
port 8123
answer HTTP/1.1 200 OK\r\nContent-Type: application/json\r\nContent-Length: 2\r\n\r\n[]HTTP/1.1 200 OK\r\nContent-Type: application/json\r\
\nContent-Length: 47\r\n\r\n{"uuid":"00000000-0000-8000-8000-000000000001"}
answer HTTP/1.1 200 OK\r\nContent-Type: application/json\r\nContent-Length: 2\r\n\r\n[]
end 0
do run 1 2024-05-02T00:00:00Z
printed received 0
printed applied 1
printed superseded 0
printed discarded 0
end 0
ask facts[value]{}
told [{"value":1}]

case a posted body that is no JSON is queued by its checksum, refused by another, and discarded by the next run
do init
end 0
link POST /pdb/cmd/v1?command=replace_facts&version=5&certname=a&checksum=A9993E364706816ABA3E25717850C26C9CD0D89D HTTP/1.1\r\nContent-Length: 3\r\n\r\
\nabcPOST /pdb/cmd/v1?command=replace_facts&version=5&certname=a&checksum=A9993E364706816ABA3E25717850C26C9CD0D89e HTTP/1.1\r\nContent-Length: 3\r\n\r\nabc
do serve 8123 2024-05-02T00:00:00Z --links 1
port 8123
answer HTTP/1.1 200 OK\r\nContent-Type: application/json\r\nContent-Length: 47\r\n\r\n{"uuid":"00000000-0000-8000-8000-000000000001"}HTTP/1.1 400 Bad Request\
\r\nContent-Type: application/json\r\nContent-Length: 24\r\n\r\n{"error":"bad checksum"}
end 0
do run 1 2024-05-02T00:00:00Z
printed received 0
printed applied 0
printed superseded 0
printed discarded 1
end 0
do discards
printed 1 replace_facts 5 2024-05-02T00:00:00.000Z not json at 0
end 0

case links are served behind a run, until none comes
do init
end 0
facts a 2024-05-01T10:00:00Z {"k":1}
link GET /pdb/query/v4/facts HTTP/1.1\r\n\r\n
link GET /pdb/query/v4/facts HTTP/1.1\r\n\r\nBAD\r\n\r\n
do run 1 2024-05-02T00:00:00Z --serve 8123
printed received 1
printed applied 1
printed superseded 0
printed discarded 0
port 8123
answer HTTP/1.1 200 OK\r\nContent-Type: application/json\r\nContent-Length: 66\r\n\r\n[{"certname":"a","environment":"production","name":"k","value":1}]
answer HTTP/1.1 200 OK\r\nContent-Type: application/json\r\nContent-Length: 66\r\n\r\n[{"certname":"a","environment":"production","name":"k",\
"value":1}]HTTP/1.1 400 Bad Request\r\nContent-Type: application/json\r\nContent-Length: 20\r\nConnection: close\r\n\r\n{"error":"bad head"}
end 0

case a spool that is cut, and a front that does not listen, or fails at its first or its second link
do init
end 0
bytes replace_facts 5 119\n{
link GET /pdb/query/v4/facts HTTP/1.1\r\n\r\n
do run 1 2024-05-02T00:00:00Z --serve 8123
printed received 0
printed applied 0
printed superseded 0
printed discarded 0
end 3 spool bad at 0
facts a 2024-05-01T10:00:00Z {"k":1}
link GET /pdb/query/v4/facts HTTP/1.1\r\n\r\n
with front=1
do run 1 2024-05-02T00:00:00Z --serve=8123 --links 1
printed received 1
printed applied 1
printed superseded 0
printed discarded 0
end 9 listen fault
link GET /pdb/query/v4/facts HTTP/1.1\r\n\r\n
with front=2
do serve 8123 2024-05-02T00:00:00Z
port 8123
end 9 listen fault
link GET /pdb/query/v4/facts HTTP/1.1\r\n\r\n
link GET /pdb/query/v4/nodes HTTP/1.1\r\n\r\n
with front=3
do serve 8123 2024-05-02T00:00:00Z
port 8123
answer HTTP/1.1 200 OK\r\nContent-Type: application/json\r\nContent-Length: 66\r\n\r\n[{"certname":"a","environment":"production","name":"k","value":1}]
end 9 listen fault

case options stand anywhere
do init
end 0
facts a 2024-05-01T10:00:00Z {"k":1}
link GET /pdb/query/v4/facts HTTP/1.1\r\n\r\n
link GET /pdb/query/v4/facts HTTP/1.1\r\n\r\n
do run --links 1 8 2024-05-02T00:00:00Z --serve=8123
printed received 1
printed applied 1
printed superseded 0
printed discarded 0
port 8123
answer HTTP/1.1 200 OK\r\nContent-Type: application/json\r\nContent-Length: 66\r\n\r\n[{"certname":"a","environment":"production","name":"k","value":1}]
end 0

case words that serve nothing
facts a 2024-05-01T10:00:00Z {"k":1}
link GET /pdb/query/v4/nodes HTTP/1.1\r\n\r\n
usage run 1 2024-05-02T00:00:00Z --links 1
facts a 2024-05-01T10:00:00Z {"k":1}
link GET /pdb/query/v4/nodes HTTP/1.1\r\n\r\n
usage run 1 2024-05-02T00:00:00Z --serve 8123 --links 1 --links 1
facts a 2024-05-01T10:00:00Z {"k":1}
link GET /pdb/query/v4/nodes HTTP/1.1\r\n\r\n
usage run 1 2024-05-02T00:00:00Z --serve 0
facts a 2024-05-01T10:00:00Z {"k":1}
link GET /pdb/query/v4/nodes HTTP/1.1\r\n\r\n
usage serve 0 2024-05-02T00:00:00Z
facts a 2024-05-01T10:00:00Z {"k":1}
link GET /pdb/query/v4/nodes HTTP/1.1\r\n\r\n
usage serve 8123 2024-05-02T00:00:00Z --serve 8123
facts a 2024-05-01T10:00:00Z {"k":1}
link GET /pdb/query/v4/nodes HTTP/1.1\r\n\r\n
usage serve 8123
"#;

#[test]
fn links_are_served(rt: HostRuntime) -> Result<(), AllocError> {
    play(&rt, rt.alloc(), "", SERVED)
}
