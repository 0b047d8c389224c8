//! Disks that stop in the midst of commands, and what a crash leaves of them.
use crate::rounds::play;
use std::alloc::AllocError;

const FOUR: &str =
    r#"case four commands of which a disk stops, and the same over what a crash leaves
with disk=<disk> stop=<call>
do init
facts a 2024-05-01T11:00:00Z {"k":2}
facts a 2024-05-01T10:00:00Z {"k":1}
facts b 2024-05-01T10:00:00Z []
try run 1 2024-05-02T00:00:00Z
try sweep purge 2024-05-02T00:00:00Z
try compact
log
crash <image>
do init
facts a 2024-05-01T11:00:00Z {"k":2}
facts a 2024-05-01T10:00:00Z {"k":1}
facts b 2024-05-01T10:00:00Z []
try run 1 2024-05-02T00:00:00Z
try sweep purge 2024-05-02T00:00:00Z
try compact
end 0
ask ["from","facts"]
told [{"certname":"a","environment":"production","name":"k","value":2}]
"#;

/// The stops of the queue.
const FOUR_QUEUE: &str = r#"each <disk>=0 <call>=0..64 <image>=0..4
outcome fault 6 queue fault
outcome calm 0

each <disk>=1 <call>=0..32 <image>=0..4
outcome fault 6 queue fault
outcome calm 0"#;

/// The stops of the store.
const FOUR_STORE: &str = r#"each <disk>=2 <call>=0..48 <image>=0..4
outcome fault 14 store fault
outcome fault 7 store down
outcome calm 0

each <disk>=3 <call>=0..32 <image>=0..4
outcome fault 14 store fault
outcome calm 0"#;

/// A run that comes to its end keeps as many nodes as it applied commands, and leaves none to wait. One that is cut leaves each command to
/// the next run, or has applied it. The same spool once more brings the facts of both.
const RUN: &str =
    r#"files a run of which a disk stops, and what another makes of what a crash leaves
with disk=<disk> stop=<call>
facts a 2024-05-01T10:00:00Z {"k":1}
facts b 2024-05-01T10:00:00Z {"k":2}
do run 1 2024-05-02T00:00:00Z
log
crash <image>
do run 1 2024-05-02T00:00:00Z
log
ask ["from","facts",["extract",["certname"]]]
log
do run 1 2024-05-02T00:00:00Z
printed received 0
printed applied 0
printed superseded 0
printed discarded 0
end 0
facts a 2024-05-01T10:00:00Z {"k":1}
facts b 2024-05-01T10:00:00Z {"k":2}
do run 1 2024-05-02T00:00:00Z
ask ["from","facts",["extract",["certname"]]]
told [{"certname":"a"},{"certname":"b"}]
"#;

const RUN_STOPS: &str = r#"each <disk>=0 <call>=0..28 <image>=0..4
outcome fault 6 queue fault; calm 0 received 0 applied 0 superseded 0 discarded 0; calm 0 []
outcome fault 6 queue fault; calm 0 received 0 applied 1 superseded 0 discarded 0; calm 0 [{"certname":"a"}]
outcome fault 6 queue fault; calm 0 received 0 applied 2 superseded 0 discarded 0; calm 0 [{"certname":"a"},{"certname":"b"}]
outcome fault 6 queue fault; calm 0 received 0 applied 1 superseded 0 discarded 0; calm 0 [{"certname":"a"},{"certname":"b"}]
outcome fault 6 queue fault; calm 0 received 0 applied 0 superseded 0 discarded 0; calm 0 [{"certname":"a"},{"certname":"b"}]
outcome calm 0 received 2 applied 2 superseded 0 discarded 0; calm 0 received 0 applied 0 superseded 0 discarded 0; calm 0 [{"certname":"a"},{"certname":"b"}]

each <disk>=2 <call>=0..20 <image>=0..4
outcome fault 14 store fault; calm 0 received 0 applied 0 superseded 0 discarded 0; calm 0 []
outcome fault 0 received 2 applied 0 superseded 0 discarded 2; calm 0 received 0 applied 0 superseded 0 discarded 0; calm 0 []
outcome fault 7 store down; calm 0 received 0 applied 2 superseded 0 discarded 0; calm 0 [{"certname":"a"},{"certname":"b"}]
outcome fault 7 store down; calm 0 received 0 applied 1 superseded 0 discarded 0; calm 0 [{"certname":"a"},{"certname":"b"}]
outcome fault 0 received 2 applied 1 superseded 0 discarded 1; calm 0 received 0 applied 0 superseded 0 discarded 0; calm 0 [{"certname":"a"}]
outcome fault 7 store down; calm 0 received 0 applied 0 superseded 0 discarded 0; calm 0 [{"certname":"a"},{"certname":"b"}]
outcome calm 0 received 2 applied 2 superseded 0 discarded 0; calm 0 received 0 applied 0 superseded 0 discarded 0; calm 0 [{"certname":"a"},{"certname":"b"}]

each <disk>=1 <call>=0..4 <image>=0..4
outcome fault 6 queue fault; calm 0 received 0 applied 0 superseded 0 discarded 0; calm 0 []
outcome calm 0 received 2 applied 2 superseded 0 discarded 0; calm 0 received 0 applied 0 superseded 0 discarded 0; calm 0 [{"certname":"a"},{"certname":"b"}]

each <disk>=3 <call>=0..4 <image>=0..4
outcome fault 14 store fault; calm 0 received 0 applied 0 superseded 0 discarded 0; calm 0 []
outcome calm 0 received 2 applied 2 superseded 0 discarded 0; calm 0 received 0 applied 0 superseded 0 discarded 0; calm 0 [{"certname":"a"},{"certname":"b"}]"#;

const INIT: &str = r#"case an init of which a disk stops, and another over what a crash leaves
with disk=<disk> stop=<call>
do init
log
crash <image>
do init
log
crash 0
laid
same
"#;

const INIT_STOPS: &str = r#"each <disk>=0,1 <call>=0..16 <image>=0..4
outcome fault 6 queue fault; calm 0
outcome fault 6 queue fault; calm 13 already laid
outcome calm 0; calm 13 already laid

each <disk>=2,3 <call>=0..16 <image>=0..4
outcome fault 14 store fault; calm 0
outcome calm 0; calm 13 already laid"#;

const SWEEP: &str = r#"each <call>=14..40 <image>=0..4
case a sweep of which the store stops, and another over what a crash leaves
with disk=2 stop=<call>
do init
end 0
do sweep expire,purge 2024-05-02T00:00:00Z
log
crash <image>
do sweep expire,purge 2024-05-02T00:00:00Z
end 0
outcome fault 14 store fault
outcome fault 7 store down
outcome calm 0
"#;

const COMPACTION: &str =
    r#"case a compaction of which a disk stops, and the facts in what a crash leaves
put 0 \x01PDBLOG1\x01\0\0\0\0\0\0\0
put 0 \x01\x09\0\0\0\0\x02\0\0\0\0\0\0\0
put 0 \0
put 2 \x01PDBLOG1\x01\0\0\0\0\0\0\0
put 2 \x01\x0d\0\0\0\0\x07\0\0\0\x0e\0\0\0\x0e\0\0\0
put 2 \x01\x04\0\0\0\x01\0\0\0
put 2 \x01,\0\0\0\x03\x01\0\0\0\0\0\0\0\0\x01\0\0\0a\0\x07\0\0\0{"k":1}\0@\xf2\x96\x0dU\xcb\x17\0\0\0\0\0\0\0\0\0
put 2 \x015\0\0\0\x03\x02\0\0\0\0\0\0\0\x02\x01\0\0\0a\0\0\0\0\0\0\0@\xf2\x96\x0dU\xcb\x17\0\0\0\0\0\0\0\0\0\0\0\0\0\0\0\0\0\0\0\0\0\0\0\0
put 2 \0
with disk=<disk> stop=<call>
do compact
log
crash <image>
ask facts{}
told [{"certname":"a","environment":null,"name":"k","value":1}]
"#;

const COMPACTION_STOPS: &str = r#"each <disk>=0,1 <call>=0..24 <image>=0..4
outcome fault 6 queue fault
outcome calm 0

each <disk>=2,3 <call>=0..24 <image>=0..4
outcome fault 14 store fault
outcome calm 0"#;

#[test]
fn stops_of_the_queue_are_got_over(rt: HostRuntime) -> Result<(), AllocError> {
    play(&rt, rt.alloc(), FOUR_QUEUE, FOUR)
}

#[test]
fn stops_of_the_store_are_got_over(rt: HostRuntime) -> Result<(), AllocError> {
    play(&rt, rt.alloc(), FOUR_STORE, FOUR)
}

#[test]
fn a_run_goes_on_where_a_disk_stopped(rt: HostRuntime) -> Result<(), AllocError> {
    play(&rt, rt.alloc(), RUN_STOPS, RUN)
}

#[test]
fn a_stopped_init_leaves_files_that_are_laid_or_can_be(rt: HostRuntime) -> Result<(), AllocError> {
    play(&rt, rt.alloc(), INIT_STOPS, INIT)
}

#[test]
fn a_stopped_sweep_leaves_files_that_can_be_swept(rt: HostRuntime) -> Result<(), AllocError> {
    play(&rt, rt.alloc(), "", SWEEP)
}

#[test]
fn a_stopped_compaction_leaves_the_facts(rt: HostRuntime) -> Result<(), AllocError> {
    play(&rt, rt.alloc(), COMPACTION_STOPS, COMPACTION)
}
