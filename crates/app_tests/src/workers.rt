//! Many workers: a fleet comes to the same by any number of them, and a run has as many as its words say.
use crate::queries::TWO_NODES;
use crate::rounds::play;
use std::alloc::AllocError;

/// What comes of it doesn't depend on which worker has which command. Of the commands of a node and kind that wait together, the last
/// by its stamp is applied, and then the others are superseded.
const FLEET: &str = r#"files five facts of one node
facts a 2024-05-01T10:00:00Z {"k":0}
facts a 2024-05-01T11:00:00Z {"k":1}
facts a 2024-05-01T12:00:00Z {"k":2}
facts a 2024-05-01T13:00:00Z {"k":3}
facts a 2024-05-01T14:00:00Z {"k":4}
do run <call> 2024-05-02T00:00:00Z
printed received 5
printed applied 1
printed superseded 4
printed discarded 0
end 0
ask facts[value]{}
told [{"value":4}]

files nodes with facts, catalogs and reports, of which some are refused
facts a 2024-05-01T10:00:00Z {"k":1}
facts b 2024-05-01T12:00:00Z {"k":2}
catalog a 2024-05-01T10:00:00Z
facts c 2024-05-01T10:00:00Z {"k":3}
report a 2024-05-01T10:00:00Z
facts a 2024-05-01T09:00:00Z {"k":4}
older d 2024-05-01T10:00:00Z {"k":5}
facts b 2024-05-01T11:00:00Z {"k":6}
facts c 2024-05-01T11:00:00Z []
deactivate c 2024-05-01T12:00:00Z
report a 2024-05-01T11:00:00Z
raw x
catalog b 2024-05-01T10:00:00Z
facts e 2024-05-01T10:00:00Z {"k":7}
do run <call> 2024-05-02T00:00:00Z
printed received 14
printed applied 9
printed superseded 2
printed discarded 3
end 0
do discards
printed 7 replace_facts 4 2024-05-02T00:00:00.000Z bad version
printed 9 replace_facts 5 2024-05-02T00:00:00.000Z wrong values
printed 12 replace_facts 5 2024-05-02T00:00:00.000Z not json at 0
end 0
ask facts[certname, value]{}
told [{"certname":"a","value":1},{"certname":"b","value":2},{"certname":"e","value":7}]
ask nodes[certname, deactivated]{node_state = "any" and certname = "c"}
told [{"certname":"c","deactivated":"2024-05-01T12:00:00.000Z"}]
ask reports[producer_timestamp]{}
told [{"producer_timestamp":"2024-05-01T10:00:00.000Z"},{"producer_timestamp":"2024-05-01T11:00:00.000Z"}]

files what waits is settled before a sweep
facts a 2024-05-01T10:00:00Z {"k":1}
facts b 2024-05-01T10:00:00Z {"k":2}
bytes sweep expire,purge 2024-05-08T10:00:00.000000001Z\n
facts c 2024-05-08T12:00:00Z {"k":3}
do run <call> 2024-05-09T00:00:00Z
printed received 3
printed applied 3
printed superseded 0
printed discarded 0
end 0
ask facts[certname, value]{}
told [{"certname":"c","value":3}]

files commands out of order, and one that is cut
facts a 2024-05-01T10:00:00Z {"k":1}
facts b 2024-05-01T12:00:00Z {"k":2}
facts a 2024-05-01T09:00:00Z {"k":3}
facts b 2024-05-01T11:00:00Z {"k":4}
facts a 2024-05-01T13:00:00Z {"k":5}
keep 620
do run <call> 2024-05-02T00:00:00Z
printed received 4
printed applied 2
printed superseded 2
printed discarded 0
end 3 spool bad at 560
ask facts[certname, value]{}
told [{"certname":"a","value":1},{"certname":"b","value":2}]

files the store is down, and comes back
with disk=2 first=6 count=2
facts a 2024-05-01T10:00:00Z {"k":1}
facts b 2024-05-01T10:00:00Z {"k":2}
facts c 2024-05-01T10:00:00Z {"k":3}
do run <call> 2024-05-02T00:00:00Z
end 7 store down
do run <call> 2024-05-02T00:00:00Z
printed received 0
printed applied 3
printed superseded 0
printed discarded 0
end 0
ask facts[certname, value]{}
told [{"certname":"a","value":1},{"certname":"b","value":2},{"certname":"c","value":3}]

files failures that are got over
with disk=2 first=4 count=15
facts a 2024-05-01T10:00:00Z {"k":1}
facts b 2024-05-01T10:00:00Z {"k":2}
do run <call> 2024-05-02T00:00:00Z
printed received 2
printed applied 2
printed superseded 0
printed discarded 0
end 0
ask facts[certname, value]{}
told [{"certname":"a","value":1},{"certname":"b","value":2}]
"#;

/// Each command is a report, so that none supersedes another.
const AT_ONCE: &str = r#"case one worker decodes one command at a time
short-report a 2024-05-01T11:00:00Z {}
short-report a 2024-05-01T11:00:00Z {}
with wanted=2 turns=1000
gate run 1 2024-05-02T00:00:00Z
apart
printed received 2
printed applied 2
printed superseded 0
printed discarded 0
end 0

case two workers decode two at once
short-report a 2024-05-01T11:00:00Z {}
short-report a 2024-05-01T11:00:00Z {}
with wanted=2 turns=1000000
gate run 2 2024-05-02T00:00:00Z
together
printed received 2
printed applied 2
printed superseded 0
printed discarded 0
end 0

case two workers decode no three at once
short-report a 2024-05-01T11:00:00Z {}
short-report a 2024-05-01T11:00:00Z {}
short-report a 2024-05-01T11:00:00Z {}
with wanted=3 turns=1000
gate run 2 2024-05-02T00:00:00Z
apart
printed received 3
printed applied 3
printed superseded 0
printed discarded 0
end 0

case eight workers decode eight at once
short-report a 2024-05-01T11:00:00Z {}
short-report a 2024-05-01T11:00:00Z {}
short-report a 2024-05-01T11:00:00Z {}
short-report a 2024-05-01T11:00:00Z {}
short-report a 2024-05-01T11:00:00Z {}
short-report a 2024-05-01T11:00:00Z {}
short-report a 2024-05-01T11:00:00Z {}
short-report a 2024-05-01T11:00:00Z {}
with wanted=8 turns=1000000
gate run 8 2024-05-02T00:00:00Z
together
printed received 8
printed applied 8
printed superseded 0
printed discarded 0
end 0
"#;

#[test]
fn any_number_of_workers_comes_to_the_same(rt: HostRuntime) -> Result<(), AllocError> {
    play(&rt, rt.alloc(), "each <call>=1,2,8,64", FLEET)
}

#[test]
fn a_run_has_as_many_workers_as_its_words_say(rt: HostRuntime) -> Result<(), AllocError> {
    play(&rt, rt.alloc(), TWO_NODES, AT_ONCE)
}
