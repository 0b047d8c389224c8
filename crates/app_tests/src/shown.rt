//! What `show` prints of spools, and of bytes that are none.
use crate::rounds::play;
use std::alloc::AllocError;

const SHOWN: &str = r#"case an empty spool
do show
told []

case one fact
facts a 2024-05-01T10:00:00Z {"k":1}
do show
told [{"certname":"a","environment":"production","name":"k","value":1}]

case an older one behind a newer one
facts a 2024-05-01T11:00:00Z {"k":2}
facts a 2024-05-01T10:00:00Z {"k":1}
do show
told [{"certname":"a","environment":"production","name":"k","value":2}]

case equal stamps go to the later receipt
facts a 2024-05-01T10:00:00Z {"k":1}
facts a 2024-05-01T10:00:00Z {"k":2}
do show
told [{"certname":"a","environment":"production","name":"k","value":2}]

case a nanosecond decides
facts a 2024-05-01T10:00:00.000000002Z {"k":1}
facts a 2024-05-01T12:00:00.000000001+02:00 {"k":2}
do show
told [{"certname":"a","environment":"production","name":"k","value":1}]

case a list of values is left out
facts a 2024-05-01T10:00:00Z {"k":1}
facts a 2024-05-01T11:00:00Z []
do show
told [{"certname":"a","environment":"production","name":"k","value":1}]

case version 4 is left out
older a 2024-05-01T10:00:00Z {"k":1}
do show
told []

case a payload that is no text is left out
facts a 2024-05-01T10:00:00Z {"k":1}
bytes replace_facts 5 1\n\xff\n
do show
told [{"certname":"a","environment":"production","name":"k","value":1}]

case no values clear a node
facts a 2024-05-01T10:00:00Z {"k":1}
facts a 2024-05-01T11:00:00Z {}
do show
told []

case a report is no facts
facts a 2024-05-01T10:00:00Z {"k":1}
short-report a 2024-05-01T11:00:00Z {}
do show
told [{"certname":"a","environment":"production","name":"k","value":1}]

case nodes stand by their bytes
facts a 2024-05-01T10:00:00Z {"k":1}
facts Z 2024-05-01T10:00:00Z {"k":1}
do show
told [{"certname":"Z","environment":"production","name":"k","value":1},{"certname":"a","environment":"production","name":"k","value":1}]

case facts stand by their names, as spelt
facts a 2024-05-01T10:00:00Z {"k":1}
facts a 2024-05-01T12:00:00Z {"n":[1.50,{"b":null}],"k":"\u0041"}
do show
told [{"certname":"a","environment":"production","name":"k","value":"A"},{"certname":"a","environment":"production","name":"n","value":[1.50,{"b":null}]}]

case deactivated at the moment of its facts
facts a 2024-05-01T10:00:00Z {"k":1}
deactivate a 2024-05-01T10:00:00Z
do show
told []

case deactivated before its facts
facts a 2024-05-01T10:00:00.000000002Z {"k":1}
deactivate a 2024-05-01T10:00:00Z
do show
told [{"certname":"a","environment":"production","name":"k","value":1}]

case deactivated before its report
facts a 2024-05-01T10:00:00Z {"k":1}
deactivate a 2024-05-01T10:00:00Z
short-report a 2024-05-01T11:00:00Z {}
do show
told [{"certname":"a","environment":"production","name":"k","value":1}]

case purged no earlier than its lifetime
facts a 2024-05-01T10:00:00Z {"k":1}
deactivate a 2024-05-01T10:00:00Z
bytes sweep purge 2024-05-15T10:00:00Z\n
facts a 2024-05-01T09:00:00Z {"k":2}
do show
told []

case a new life behind a purge
facts a 2024-05-01T10:00:00Z {"k":1}
deactivate a 2024-05-01T10:00:00Z
bytes sweep purge 2024-05-15T10:00:00.000000001Z\n
facts a 2024-05-01T09:00:00Z {"k":2}
do show
told [{"certname":"a","environment":"production","name":"k","value":2}]

case as old as its lifetime
facts a 2024-05-01T10:00:00Z {"k":1}
bytes sweep expire 2024-05-08T10:00:00Z\n
do show
told [{"certname":"a","environment":"production","name":"k","value":1}]

case a nanosecond older
facts a 2024-05-01T10:00:00Z {"k":1}
bytes sweep expire 2024-05-08T10:00:00.000000001Z\n
do show
told []

case a sweep in front
bytes sweep expire 2024-05-08T10:00:00.000000001Z\n
facts a 2024-05-01T10:00:00Z {"k":1}
do show
told []

case a node that may not expire
facts a 2024-05-01T10:00:00Z {"k":1}
expiration a 2024-05-01T10:00:00Z {"facts":false}
bytes sweep expire 2024-05-08T10:00:00.000000001Z\n
do show
told [{"certname":"a","environment":"production","name":"k","value":1}]

case a sweep of reports
facts a 2024-05-01T10:00:00Z {"k":1}
bytes sweep reports 2025-05-08T10:00:00Z\n
do show
told [{"certname":"a","environment":"production","name":"k","value":1}]

case a payload that is nested too deep is left out
facts a 2024-05-01T10:00:00Z {"k":1}
raw [[[[[[[[[[[[[[[[[[[[[[[[[[[[[[[[[[[[[[[[[[[[[[[[[[[[[[[[[[[[[[[[[[[[[[[[[[[[[[[[[[[[[[[[[[[[[[[[[[[[[[[[[[[[[[[[[[[[[[[[[[[[[[[[
do show
told [{"certname":"a","environment":"production","name":"k","value":1}]

case one byte
bytes x
do show
end 3 spool bad at 0

case a second item that is cut
facts a 2024-05-01T10:00:00Z {"k":1}
bytes replace_facts 5 119\n{"certname":"a",
do show
end 3 spool bad at 140

case a third item behind a sweep
facts a 2024-05-01T10:00:00Z {"k":1}
bytes sweep expire 2024-05-08T10:00:00Z\n
bytes \n
do show
end 3 spool bad at 174

case a leading zero in the length
bytes replace_facts 5 01\n0\n
do show
end 3 spool bad at 0

case a leading zero in the version
bytes replace_facts 05 1\n0\n
do show
end 3 spool bad at 0

case a length one off
bytes replace_facts 5 2\n0\n
do show
end 3 spool bad at 0

case a version of 2 to the 32
bytes replace_facts 4294967296 1\n0\n
do show
end 3 spool bad at 0

case a length above 16 MiB
bytes replace_facts 5 16777217\n0\n
do show
end 3 spool bad at 0

case a first line of 201 letters
bytes aaaaaaaaaaaaaaaaaaaaaaaaaaaaaaaaaaaaaaaaaaaaaaaaaaaaaaaaaaaaaaaaaaaaaaaaaaaaaaaaaaaaaaaaaaaaaaaaaaaaaaaaaaaaaaaaaaaaaaaaaaaaaaaaaaaaaaaaaaaaaaaaaaaaaaa\
aaaaaaaaaaaaaaaaaaaaaaaaaaaaaaaaaaaaaaaaaaaaaaaaaa\n
do show
end 3 spool bad at 0

case kinds of a sweep in another order
bytes sweep purge,expire 2024-05-08T10:00:00Z\n
do show
end 3 spool bad at 0

case a sweep without a moment
facts a 2024-05-01T10:00:00Z {"k":1}
facts a 2024-05-01T10:00:00Z {"k":1}
bytes sweep expire 2024-05-08\n
do show
end 3 spool bad at 280

each <call>=141..280
case a second item that is cut at each byte
facts a 2024-05-01T10:00:00Z {"k":1}
facts a 2024-05-01T11:00:00Z {"k":2}
keep <call>
do show
end 3 spool bad at 140

case a spool that comes a byte a call
facts a 2024-05-01T10:00:00Z {"k":1}
with piece=1
do show
told [{"certname":"a","environment":"production","name":"k","value":1}]

each <call>=1,11,61,140,141
case one of whose calls fails
facts a 2024-05-01T10:00:00Z {"k":1}
with piece=1 spool=<call>
do show
end 4 read fault
"#;

#[test]
fn the_newest_facts_of_each_active_node_are_printed(rt: HostRuntime) -> Result<(), AllocError> {
    play(&rt, rt.alloc(), "", SHOWN)
}
