//! What is posted to the command route.
use crate::play::play;
use crate::wrong::Wrong;

const POSTS: &str =
    r#"ask POST /pdb/cmd/v1?command=replace_facts&version=5&certname=a&checksum=A9993E364706816ABA3E25717850C26C9CD0D89D abc
ok {"uuid":"00000000-0000-8000-8000-000000000001"}
takes facts 5 3 abc

ask POST /pdb/cmd/v1?command=replace_facts&version=5&certname=a&checksum=a9993e364706816aba3e25717850c26c9cd0d89d abc
ok {"uuid":"00000000-0000-8000-8000-000000000001"}
takes facts 5 3 abc

ask POST /pdb/cmd/v1?command=store_report&version=4294967295&certname=a&other=x abc
ok {"uuid":"00000000-0000-8000-8000-000000000001"}
takes report 4294967295 3 abc

ask POST /pdb/cmd/v1?command=replace_facts&version=5&certname=a&checksum=A9993E364706816ABA3E25717850C26C9CD0D89E abc
bad {"error":"bad checksum"}

ask POST /pdb/cmd/v1?command=replace_facts&version=5&certname=a&checksum= abc
bad {"error":"bad checksum"}

ask POST /pdb/cmd/v1? abc
bad {"error":"missing command"}

ask POST /pdb/cmd/v1?version=x abc
bad {"error":"missing command"}

ask POST /pdb/cmd/v1?command=x abc
bad {"error":"missing version"}

ask POST /pdb/cmd/v1?command=x&version=x abc
bad {"error":"missing certname"}

ask POST /pdb/cmd/v1?command=x&version=x&certname= abc
bad {"error":"missing certname"}

ask POST /pdb/cmd/v1?command=x&version=x&certname=a&checksum=x abc
bad {"error":"bad version"}

ask POST /pdb/cmd/v1?command=x&version=05&certname=a abc
bad {"error":"bad version"}

ask POST /pdb/cmd/v1?command=x&version=%2B5&certname=a abc
bad {"error":"bad version"}

ask POST /pdb/cmd/v1?command=x&version=4294967296&certname=a abc
bad {"error":"bad version"}

ask POST /pdb/cmd/v1?command=replace+facts&version=5&certname=a&checksum=x abc
bad {"error":"bad command"}

ask POST /pdb/cmd/v1?command=replace_facts&version=5&certname=a&certname= abc
bad {"error":"missing certname"}

ask POST /pdb/cmd/v1?command=replace_facts&version=5&certname=a&checksum=a9993e364706816aba3e25717850c26c9cd0d89 abc
bad {"error":"bad checksum"}

ask POST /pdb/cmd/v1?command=replace_facts&version=5&certname=a&checksum=a9993e364706816aba3e25717850c26c9cd0d89d0 abc
bad {"error":"bad checksum"}

ask POST /pdb/cmd/v1?command=replace_facts&version=5&certname=a&checksum=x&checksum=a9993e364706816aba3e25717850c26c9cd0d89d abc
ok {"uuid":"00000000-0000-8000-8000-000000000001"}
takes facts 5 3 abc

ask POST /pdb/cmd/v1?command=replace_facts&version=5&certname=a&checksum=a9993e364706816aba3e25717850c26c9cd0d89d&checksum=x abc
bad {"error":"bad checksum"}

ask POST /pdb/cmd/v1?command=replace_facts&version=0&certname=a abc
ok {"uuid":"00000000-0000-8000-8000-000000000001"}
takes facts 0 3 abc

ask POST /pdb/cmd/v1?command=replace_facts&version=5+&certname=a abc
bad {"error":"bad version"}

ask POST /pdb/cmd/v1?command=replace_facts&version=&certname=a abc
bad {"error":"bad version"}

ask POST /pdb/cmd/v1?command=Replace_facts&version=5&certname=a abc
bad {"error":"bad command"}

ask POST /pdb/cmd/v1?command=&version=5&certname=a abc
bad {"error":"bad command"}

ask POST /pdb/cmd/v1?comm%61nd=replace%5Ffacts&version=%35&certname=%C3%A4 abc
ok {"uuid":"00000000-0000-8000-8000-000000000001"}
takes facts 5 3 abc

ask POST /pdb/cmd/v1?command=replace_catalog&version=1&certname=a abc
ok {"uuid":"00000000-0000-8000-8000-000000000001"}
takes catalog 1 3 abc

ask POST /pdb/cmd/v1?command=store_report&version=1&certname=a abc
ok {"uuid":"00000000-0000-8000-8000-000000000001"}
takes report 1 3 abc

ask POST /pdb/cmd/v1?command=deactivate_node&version=1&certname=a abc
ok {"uuid":"00000000-0000-8000-8000-000000000001"}
takes deactivate 1 3 abc

ask POST /pdb/cmd/v1?command=configure_expiration&version=1&certname=a abc
ok {"uuid":"00000000-0000-8000-8000-000000000001"}
takes expiration 1 3 abc"#;

#[test]
fn commands_are_checked(rt: HostRuntime) -> Result<(), Wrong> {
    play(rt.alloc(), "", "", POSTS)
}

/// What the inbox says, and what is answered to a command and a query on one link.
const REFUSED: &str = r#"says full
send POST /pdb/cmd/v1?command=replace_facts&version=5&certname=a HTTP/1.1\r\nContent-Length: 3\r\n\r\nabcGET /pdb/query/v4/edges HTTP/1.1\r\n\r\n
answer 503 Service Unavailable||{"error":"queue full"}
ok []

says fault
send POST /pdb/cmd/v1?command=replace_facts&version=5&certname=a HTTP/1.1\r\nContent-Length: 3\r\n\r\nabcGET /pdb/query/v4/edges HTTP/1.1\r\n\r\n
answer 503 Service Unavailable||{"error":"queue fault"}
ok []

says spent
send POST /pdb/cmd/v1?command=replace_facts&version=5&certname=a HTTP/1.1\r\nContent-Length: 3\r\n\r\nabcGET /pdb/query/v4/edges HTTP/1.1\r\n\r\n
answer 503 Service Unavailable||{"error":"queue spent"}
ok []

says down
send POST /pdb/cmd/v1?command=replace_facts&version=5&certname=a HTTP/1.1\r\nContent-Length: 3\r\n\r\nabcGET /pdb/query/v4/edges HTTP/1.1\r\n\r\n
answer 503 Service Unavailable||{"error":"queue down"}
ok []

says memory
send POST /pdb/cmd/v1?command=replace_facts&version=5&certname=a HTTP/1.1\r\nContent-Length: 3\r\n\r\nabcGET /pdb/query/v4/edges HTTP/1.1\r\n\r\n
answer 500 Internal Server Error|Connection: close|{"error":"out of memory"}"#;

#[test]
fn an_inbox_that_refuses_is_told(rt: HostRuntime) -> Result<(), Wrong> {
    play(rt.alloc(), "", "", REFUSED)
}

/// What is posted on one link: facts, a command without a version, and a deactivation.
const THREE: &str = r#"with piece=7
ask POST /pdb/cmd/v1?command=replace_facts&version=5&certname=a abc
ok {"uuid":"00000000-0000-8000-8000-000000000001"}
takes facts 5 3 abc
ask POST /pdb/cmd/v1?command=replace_facts&certname=a no
bad {"error":"missing version"}
ask POST /pdb/cmd/v1?certname=b&version=3&command=deactivate_node
ok {"uuid":"00000000-0000-8000-8000-000000000002"}
takes deactivate 3 0\x20"#;

#[test]
fn commands_come_in_as_they_were_posted(rt: HostRuntime) -> Result<(), Wrong> {
    play(rt.alloc(), "", "", THREE)
}
