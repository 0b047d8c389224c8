//! How commands end: which words are none, what is printed, faults of the streams, and runs that do not begin.
use crate::rounds::play;
use std::alloc::AllocError;

const ENDS: &str = r#"case the words of commands and others, over one fact and empty files
facts a 2024-05-01T10:00:00Z {"k":1}
do show
told [{"certname":"a","environment":"production","name":"k","value":1}]
facts a 2024-05-01T10:00:00Z {"k":1}
usage
facts a 2024-05-01T10:00:00Z {"k":1}
usage show x
facts a 2024-05-01T10:00:00Z {"k":1}
usage show facts
facts a 2024-05-01T10:00:00Z {"k":1}
usage --help
facts a 2024-05-01T10:00:00Z {"k":1}
do compact
end 8 damaged queue.a at 0
facts a 2024-05-01T10:00:00Z {"k":1}
do discards
end 8 damaged queue.a at 0
facts a 2024-05-01T10:00:00Z {"k":1}
do run 64 2024-05-02T00:00:00Z
end 8 damaged queue.a at 0
facts a 2024-05-01T10:00:00Z {"k":1}
usage init 7
facts a 2024-05-01T10:00:00Z {"k":1}
usage run 0 2024-05-02T00:00:00Z
facts a 2024-05-01T10:00:00Z {"k":1}
usage run 1
facts a 2024-05-01T10:00:00Z {"k":1}
usage run 65 2024-05-02T00:00:00Z
facts a 2024-05-01T10:00:00Z {"k":1}
usage serve 0 2024-05-02T00:00:00Z
facts a 2024-05-01T10:00:00Z {"k":1}
do init
end 0

case faults of the streams
facts a 2024-05-01T10:00:00Z {"k":1}
with spool=1
do show
end 4 read fault
facts a 2024-05-01T10:00:00Z {"k":1}
with spool=2
do show
end 4 read fault
facts a 2024-05-01T10:00:00Z {"k":1}
with out=1
do show
end 5 write fault
facts a 2024-05-01T10:00:00Z {"k":1}
with out=1 errors=1
do show
end 5
facts a 2024-05-01T10:00:00Z {"k":1}
with out=1 errors=2
do show
end 5 write fault ..
facts a 2024-05-01T10:00:00Z {"k":1}
with errors=1
do show
told [{"certname":"a","environment":"production","name":"k","value":1}]

case runs that do not begin
with start=1
do show
end 2 usage
with start=2
do show
end 11 out of memory
with start=3
do show
end 6 queue fault
with start=4
do show
end 14 store fault

case a seed is printed and no disk called
with disk=all stop=0
do make 1 1
bare replace_facts 5 124\n{"certname":"node24","environment":"production","values":{"k":0},"producer_timestamp":"2024-05-01T04:17:51Z","producer":"m"}\n
end 0
do make 1 0
end 0
with out=1
do make 1 0
end 0
with out=1
do make 1 1
end 5 write fault
untouched

case words that are no command call no disk
with disk=all stop=0
usage init 0 1 1
usage init 1 0 1
usage init 1 1 0
usage init 3651 1 1
usage init 1 3651 1
usage init 1 1 3651
usage init 1 1 1 0
usage init 1 1 1 1000001
usage init 1 1 1 1 1
usage init 1 1
usage init 1
usage init 01 1 1
usage init +1 1 1
usage init 1 -1 1
usage init 1 1 
usage init 1 1 1\x20
usage init 4294967297 1 1
usage Init
usage 7 14 14
usage show init
usage sweep purge,expire 2024-05-02T00:00:00Z
usage sweep  2024-05-02T00:00:00Z
usage sweep expire, 2024-05-02T00:00:00Z
usage sweep expire,expire 2024-05-02T00:00:00Z
usage sweep expire 2024-05-02
usage sweep expire
usage sweep 2024-05-02T00:00:00Z
usage sweep expire 2024-05-02T00:00:00Z x
usage compact 1
usage compact --links 1
usage discards 1
usage payload
usage payload 01
usage payload 1 1
usage make
usage make 1
usage make 1 1 1
usage make 01 1
usage make 1 01
usage make +1 1
usage make 1 -1
usage make 1 
usage make 18446744073709551616 1
usage make 1 1000001
untouched
"#;

#[test]
fn commands_end_with_their_code_and_line(rt: HostRuntime) -> Result<(), AllocError> {
    play(&rt, rt.alloc(), "", ENDS)
}
