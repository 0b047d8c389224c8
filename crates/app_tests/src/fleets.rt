//! Small fleets: what comes in over their files, how each command ends, and what the files answer then.
use crate::rounds::play;
use std::alloc::AllocError;

const FLEETS: &str = r#"files five facts of one node
facts a 2024-05-01T10:00:00Z {"k":0}
facts a 2024-05-01T11:00:00Z {"k":1}
facts a 2024-05-01T12:00:00Z {"k":2}
facts a 2024-05-01T13:00:00Z {"k":3}
facts a 2024-05-01T14:00:00Z {"k":4}
do run 1 2024-05-02T00:00:00Z
printed received 5
printed applied 1
printed superseded 4
printed discarded 0
end 0
ask ["from","facts",["extract",["value"]]]
told [{"value":4}]
do query ["from","facts"]
printed [{"certname":"a","environment":"production","name":"k","value":4}]
end 0
do compact
end 0
do query ["from","facts"]
printed [{"certname":"a","environment":"production","name":"k","value":4}]
end 0
facts a 2024-05-01T13:30:00Z {"k":5}
facts b 2024-05-01T10:00:00Z {"k":6}
do run 1 2024-05-02T00:00:00Z
printed received 2
printed applied 1
printed superseded 1
printed discarded 0
end 0
do compact
end 0
ask ["from","facts",["extract",["certname","value"]]]
told [{"certname":"a","value":4},{"certname":"b","value":6}]
facts a 2024-05-01T15:00:00Z {"k":7}
do run 1 2024-05-02T00:00:00Z
printed received 1
printed applied 1
printed superseded 0
printed discarded 0
end 0
do compact
end 0
ask ["from","facts",["extract",["certname","value"]]]
told [{"certname":"a","value":7},{"certname":"b","value":6}]

files values that are refused, and their line
facts a 2024-05-01T10:00:00Z {"k":1}
facts a 2024-05-01T11:00:00Z []
do run 1 2024-05-02T00:00:00Z
printed received 2
printed applied 1
printed superseded 0
printed discarded 1
end 0
do discards
printed 2 replace_facts 5 2024-05-02T00:00:00.000Z wrong values
end 0
do compact
end 0
do discards
printed 2 replace_facts 5 2024-05-02T00:00:00.000Z wrong values
end 0
ask facts[value]{}
told [{"value":1}]

files a version that is no more taken
older a 2024-05-01T10:00:00Z {"k":1}
do run 1 2024-05-02T00:00:00Z
printed received 1
printed applied 0
printed superseded 0
printed discarded 1
end 0
do discards
printed 1 replace_facts 4 2024-05-02T00:00:00.000Z bad version
end 0
ask ["from","facts"]
told []

files fifteen failures
with disk=2 first=4 count=15
facts a 2024-05-01T10:00:00Z {"k":1}
do run 1 2024-05-02T00:00:00Z
printed received 1
printed applied 1
printed superseded 0
printed discarded 0
end 0
do discards
end 0
ask ["from","facts",["extract",["value"]]]
told [{"value":1}]

files sixteen failures
with disk=2 first=4 count=16
facts a 2024-05-01T10:00:00Z {"k":1}
do run 1 2024-05-02T00:00:00Z
printed received 1
printed applied 0
printed superseded 0
printed discarded 1
end 0
do discards
printed 1 replace_facts 5 2024-05-02T00:00:00.000Z failures 16
end 0
do payload 1
bare {"certname":"a","environment":"production","values":{"k":1},"producer_timestamp":"2024-05-01T10:00:00Z","producer":"m"}
end 0
do payload 7
end 15 no such receipt 7
ask ["from","facts"]
told []

files the store is down, and comes back
with disk=2 first=6 count=2
facts a 2024-05-01T10:00:00Z {"k":1}
do run 1 2024-05-02T00:00:00Z
end 7 store down
do run 1 2024-05-02T00:00:00Z
printed received 0
printed applied 1
printed superseded 0
printed discarded 0
end 0
ask ["from","facts",["extract",["value"]]]
told [{"value":1}]

files a spool that is cut
facts a 2024-05-01T10:00:00Z {"k":1}
facts a 2024-05-01T11:00:00Z {"k":2}
keep 200
do run 1 2024-05-02T00:00:00Z
printed received 1
printed applied 1
printed superseded 0
printed discarded 0
end 3 spool bad at 140
ask ["from","facts",["extract",["value"]]]
told [{"value":1}]

files words that are no command
do run 0 2024-05-02T00:00:00Z
end 2 usage
do run 1
end 2 usage
do show x
end 2 usage

files that are laid
do init
end 13 already laid
do payload 7
end 15 no such receipt 7

case four empty files
do run 1 2024-05-02T00:00:00Z
end 8 damaged queue.a at 0

files a node that is deactivated, up to the moment of its purge and past it
facts a 2024-05-01T10:00:00Z {"k":1}
deactivate a 2024-05-01T10:00:00Z
do run 1 2024-05-02T00:00:00Z
printed received 2
printed applied 2
printed superseded 0
printed discarded 0
end 0
ask nodes[certname, deactivated]{node_state = "any"}
told [{"certname":"a","deactivated":"2024-05-01T10:00:00.000Z"}]
ask facts{}
told []
do sweep purge 2024-05-15T10:00:00Z
end 0
ask ["from","nodes",["extract",["certname"],["=","node_state","any"]]]
told [{"certname":"a"}]
do sweep purge 2024-05-15T10:00:00.000000001Z
end 0
ask ["from","nodes",["extract",["certname"],["=","node_state","any"]]]
told []
facts a 2024-04-01T00:00:00Z {"k":3}
do run 1 2024-05-16T00:00:00Z
printed received 1
printed applied 1
printed superseded 0
printed discarded 0
end 0
ask facts[value]{}
told [{"value":3}]

files a spool with sweeps does the same
facts a 2024-05-01T10:00:00Z {"k":1}
deactivate a 2024-05-01T10:00:00Z
bytes sweep purge 2024-05-15T10:00:00Z\n
facts b 2024-05-01T10:00:00Z {"k":2}
bytes sweep purge 2024-05-15T10:00:00.000000001Z\n
facts a 2024-04-01T00:00:00Z {"k":3}
do run 1 2024-05-16T00:00:00Z
printed received 4
printed applied 4
printed superseded 0
printed discarded 0
end 0
ask ["from","facts",["extract",["certname","value"]]]
told [{"certname":"a","value":3},{"certname":"b","value":2}]

files a deactivation is as late as the facts, and then a nanosecond earlier
facts a 2024-05-01T10:00:00Z {"k":1}
deactivate a 2024-05-01T10:00:00Z
facts a 2024-05-01T10:00:00.000000001Z {"k":1}
do run 1 2024-05-02T00:00:00Z
printed received 3
printed applied 2
printed superseded 1
printed discarded 0
end 0
ask nodes[certname, deactivated]{node_state = "any"}
told [{"certname":"a","deactivated":null}]

files numbers stay as they are spelt, and are compared by value
facts a 2024-05-01T10:00:00Z {"k":0.10}
facts b 2024-05-01T10:00:00Z {"k":1e-1}
facts c 2024-05-01T10:00:00Z {"k":1e400}
do run 1 2024-05-02T00:00:00Z
printed received 3
printed applied 3
printed superseded 0
printed discarded 0
end 0
ask facts[value]{}
told [{"value":0.10},{"value":1e-1},{"value":1e400}]
ask facts[certname]{value = 0.1}
told [{"certname":"a"},{"certname":"b"}]

files nodes by a resource, ordered and cut
catalog a 2024-05-01T10:00:00Z
catalog b 2024-05-01T10:00:00Z
catalog c 2024-05-01T10:00:00Z
do run 1 2024-05-02T00:00:00Z
printed received 3
printed applied 3
printed superseded 0
printed discarded 0
end 0
ask nodes[certname]{ resources { type = "Class" and title = "Ntp" } order by certname desc limit 1 offset 1 }
told [{"certname":"b"}]
ask nodes[certname]{certname in ["a","b"]}
told [{"certname":"a"},{"certname":"b"}]
ask ["from","nodes",["extract",["certname"],["subquery","resources",["and",["=","type","Class"],["=","title","Ntp"]]]],["order_by",[["certname","desc"]]],\
["limit",1],["offset",1]]
told [{"certname":"b"}]

files a node with two facts that match is there once, and a pattern is refused at its place
facts n 2024-05-01T10:00:00Z {"a":"web1","b":"web2"}
do run 1 2024-05-02T00:00:00Z
printed received 1
printed applied 1
printed superseded 0
printed discarded 0
end 0
ask ["from","nodes",["extract",["certname"],["in","certname",["extract","certname",["select_facts",["~","value","^web"]]]]]]
told [{"certname":"n"}]
do query ["from","nodes",["in","certname",["extract","certname",["select_facts",["~","value","("]]]]]
end 10 query refused: bad pattern 2.2.2.1.2
do query ["from","facts",["~","value","("]]
end 10 query refused: bad pattern 2.2

files a report is received at the moment of the run
report a 2024-05-01T10:00:00Z
do run 1 2024-05-02T00:00:00Z
printed received 1
printed applied 1
printed superseded 0
printed discarded 0
end 0
ask ["from","reports",["extract",["receive_time"]]]
told [{"receive_time":"2024-05-02T00:00:00.000Z"}]

case at most two reports are kept
do init 7 14 14 0
end 2 usage
do init 7 14 14 2
end 0
report a 2024-05-01T12:00:00Z
report a 2024-05-01T10:00:00Z
report a 2024-05-01T11:00:00Z
do run 1 2024-05-02T00:00:00Z
printed received 3
printed applied 3
printed superseded 0
printed discarded 0
end 0
ask ["from","reports",["extract",["producer_timestamp"]]]
told [{"producer_timestamp":"2024-05-01T11:00:00.000Z"},{"producer_timestamp":"2024-05-01T12:00:00.000Z"}]
do compact
end 0
ask ["from","reports",["extract",["producer_timestamp"]]]
told [{"producer_timestamp":"2024-05-01T11:00:00.000Z"},{"producer_timestamp":"2024-05-01T12:00:00.000Z"}]
report a 2024-05-01T11:30:00Z
do run 1 2024-05-02T00:00:00Z
printed received 1
printed applied 1
printed superseded 0
printed discarded 0
end 0
ask ["from","reports",["extract",["producer_timestamp"]]]
told [{"producer_timestamp":"2024-05-01T11:30:00.000Z"},{"producer_timestamp":"2024-05-01T12:00:00.000Z"}]

files payloads that are no JSON, or nested too deep
raw [[[[[[[[[[[[[[[[[[[[[[[[[[[[[[[[[[[[[[[[[[[[[[[[[[[[[[[[[[[[[[[[[[[[[[[[[[[[[[[[[[[[[[[[[[[[[[[[[[[[[[[[[[[[[[[[[[[[[[[[[[[[[[[[
raw x
do run 1 2024-05-02T00:00:00Z
printed received 2
printed applied 0
printed superseded 0
printed discarded 2
end 0
do discards
printed 1 replace_facts 5 2024-05-02T00:00:00.000Z too deep at 127
printed 2 replace_facts 5 2024-05-02T00:00:00.000Z not json at 0
end 0

files a sum at its limit, and above it
facts a 2024-05-01T10:00:00Z {"k":9999999999999999999}
facts b 2024-05-01T10:00:00Z {"k":9999999999999999999}
facts c 2024-05-01T10:00:00Z {"k":9999999999999999999}
facts d 2024-05-01T10:00:00Z {"k":9999999999999999999}
facts e 2024-05-01T10:00:00Z {"k":9999999999999999999}
facts f 2024-05-01T10:00:00Z {"k":9999999999999999999}
facts g 2024-05-01T10:00:00Z {"k":9999999999999999999}
facts h 2024-05-01T10:00:00Z {"k":9999999999999999999}
facts i 2024-05-01T10:00:00Z {"k":9999999999999999999}
facts j 2024-05-01T10:00:00Z {"k":9999999999999999999}
facts k 2024-05-01T10:00:00Z {"k":9999999999999999999}
facts l 2024-05-01T10:00:00Z {"k":9999999999999999999}
facts m 2024-05-01T10:00:00Z {"k":9999999999999999999}
facts n 2024-05-01T10:00:00Z {"k":9999999999999999999}
facts o 2024-05-01T10:00:00Z {"k":9999999999999999999}
facts p 2024-05-01T10:00:00Z {"k":9999999999999999999}
facts q 2024-05-01T10:00:00Z {"k":9999999999999999999}
do run 1 2024-05-02T00:00:00Z
printed received 17
printed applied 17
printed superseded 0
printed discarded 0
end 0
do query ["from","facts",["extract",[["function","sum","value"]]]]
printed [{"sum":169999999999999999983}]
end 0
facts z 2024-05-01T10:00:00Z {"k":9999999999999999999}
do run 1 2024-05-02T00:00:00Z
printed received 1
printed applied 1
printed superseded 0
printed discarded 0
end 0
do query ["from","facts",["extract",[["function","sum","value"]]]]
end 10 query refused: sum too large 2.1.0.2

files runs one behind the other
bytes replace_facts 5 1\n\xff\n
do run 1 2024-05-02T00:00:00Z
printed received 1
printed applied 0
printed superseded 0
printed discarded 1
end 0
do discards
printed 1 replace_facts 5 2024-05-02T00:00:00.000Z not json at 0
end 0
do run 1 2024-05-02T00:00:00Z
printed received 0
printed applied 0
printed superseded 0
printed discarded 0
end 0
facts a 2024-05-01T10:00:00Z {"k":1}
facts a 2024-05-01T11:00:00Z []
do run 1 2024-05-02T00:00:00Z
printed received 2
printed applied 1
printed superseded 0
printed discarded 1
end 0
facts a 2024-05-01T10:00:00Z {"k":0}
facts a 2024-05-01T11:00:00Z {"k":1}
facts a 2024-05-01T12:00:00Z {"k":2}
facts a 2024-05-01T13:00:00Z {"k":3}
facts a 2024-05-01T14:00:00Z {"k":4}
do run 1 2024-05-02T00:00:00Z
printed received 5
printed applied 1
printed superseded 4
printed discarded 0
end 0
facts a 2024-05-01T15:00:00Z {"k":7}
facts a 2024-05-01T16:00:00Z {"k":8}
keep 200
do run 1 2024-05-02T00:00:00Z
printed received 1
printed applied 1
printed superseded 0
printed discarded 0
end 3 spool bad at 140
bytes sweep expire,purge 2024-05-01T12:00:00Z\n
facts a 2024-05-01T10:00:00Z {"k":1}
do run 1 2024-05-02T00:00:00Z
printed received 1
printed applied 0
printed superseded 1
printed discarded 0
end 0
facts a 2024-05-01T10:00:00Z {"k":1}
with spool=2
do run 1 2024-05-02T00:00:00Z
end 4 read fault
with out=1
do run 1 2024-05-02T00:00:00Z
end 5 write fault
do run 1 2024-05-02T00:00:00Z
printed received 0
printed applied 0
printed superseded 0
printed discarded 0
end 0
facts a 2024-05-01T10:00:00Z {"k":1}
usage run 0 2024-05-02T00:00:00Z
facts a 2024-05-01T10:00:00Z {"k":1}
usage run 65 2024-05-02T00:00:00Z
facts a 2024-05-01T10:00:00Z {"k":1}
usage run 1
facts a 2024-05-01T10:00:00Z {"k":1}
usage
"#;

#[test]
fn small_fleets_are_run(rt: HostRuntime) -> Result<(), AllocError> {
    play(&rt, rt.alloc(), "", FLEETS)
}
