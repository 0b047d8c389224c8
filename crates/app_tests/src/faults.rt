//! Calls of a disk or of a stream that fail, once or twice in a row.
use crate::rounds::play;
use std::alloc::AllocError;

const FOUR: &str = r#"case four commands of which one call of a disk fails, and the same again
with disk=<disk> first=<call> count=1
do init
facts a 2024-05-01T11:00:00Z {"k":2}
facts a 2024-05-01T10:00:00Z {"k":1}
facts b 2024-05-01T10:00:00Z []
try run 1 2024-05-02T00:00:00Z
try sweep purge 2024-05-02T00:00:00Z
try compact
log
crash 0
do init
facts a 2024-05-01T11:00:00Z {"k":2}
facts a 2024-05-01T10:00:00Z {"k":1}
facts b 2024-05-01T10:00:00Z []
try run 1 2024-05-02T00:00:00Z
try sweep purge 2024-05-02T00:00:00Z
try compact
end 0
ask ["from","facts"]
told [{"certname":"a","environment":"production","name":"k","value":2}]
"#;

const FOUR_FAULTS: &str = r#"each <disk>=0 <call>=1..33,41..47
outcome fault 6 queue fault

each <disk>=0 <call>=33..41
outcome fault 0

each <disk>=0 <call>=47..65
outcome calm 0

each <disk>=1 <call>=1..24
outcome fault 6 queue fault

each <disk>=1 <call>=24..65
outcome calm 0

each <disk>=2 <call>=1..18,22..32
outcome fault 14 store fault

each <disk>=2 <call>=18..22
outcome fault 0

each <disk>=2 <call>=32..65
outcome calm 0

each <disk>=3 <call>=1..27
outcome fault 14 store fault

each <disk>=3 <call>=27..65
outcome calm 0"#;

const OTHERS: &str = r#"each <call>=1,2
case four commands of which one call of the spool fails, and the same again
with spool=<call>
do init
facts a 2024-05-01T11:00:00Z {"k":2}
facts a 2024-05-01T10:00:00Z {"k":1}
facts b 2024-05-01T10:00:00Z []
with spool=<call>
try run 1 2024-05-02T00:00:00Z
with spool=<call>
try sweep purge 2024-05-02T00:00:00Z
with spool=<call>
try compact
log
crash 0
do init
facts a 2024-05-01T11:00:00Z {"k":2}
facts a 2024-05-01T10:00:00Z {"k":1}
facts b 2024-05-01T10:00:00Z []
try run 1 2024-05-02T00:00:00Z
try sweep purge 2024-05-02T00:00:00Z
try compact
end 0
ask ["from","facts"]
told [{"certname":"a","environment":"production","name":"k","value":2}]
outcome calm 4 read fault

case four commands of which one call of the output fails, and the same again
with out=1
do init
facts a 2024-05-01T11:00:00Z {"k":2}
facts a 2024-05-01T10:00:00Z {"k":1}
facts b 2024-05-01T10:00:00Z []
with out=1
try run 1 2024-05-02T00:00:00Z
with out=1
try sweep purge 2024-05-02T00:00:00Z
with out=1
try compact
log
crash 0
do init
facts a 2024-05-01T11:00:00Z {"k":2}
facts a 2024-05-01T10:00:00Z {"k":1}
facts b 2024-05-01T10:00:00Z []
try run 1 2024-05-02T00:00:00Z
try sweep purge 2024-05-02T00:00:00Z
try compact
end 0
ask ["from","facts"]
told [{"certname":"a","environment":"production","name":"k","value":2}]
outcome calm 5 write fault

each <call>=1..13
case an init of which a call of the queue fails
with disk=0 first=<call> count=1
do init
end 6 queue fault
do init
end 0

case the last sync of the queue comes when its file is open
with disk=0 first=13 count=1
do init
end 6 queue fault
do init
end 13 already laid

each <call>=1..4
case a call of its second file
with disk=1 first=<call> count=1
do init
end 6 queue fault
do init
end 0

each <call>=1..15
case a call of the store
with disk=2 first=<call> count=1
do init
end 14 store fault
do init
end 0

each <call>=1..3
case a call of its second file
with disk=3 first=<call> count=1
do init
end 14 store fault
do init
end 0

each <disk>=0,1 <call>=1..24
files a sweep of which one call of a disk fails
with disk=<disk> first=<call> count=1
do sweep expire,purge 2024-05-02T00:00:00Z
log
outcome fault 6 queue fault
outcome calm 0

each <disk>=2,3 <call>=1..24
files a sweep of which one call of a disk fails
with disk=<disk> first=<call> count=1
do sweep expire,purge 2024-05-02T00:00:00Z
log
outcome fault 14 store fault
outcome calm 0

each <disk>=0,1 <call>=1..24
files a sweep of which two calls of a disk fail, one after the other
with disk=<disk> first=<call> count=2
do sweep expire,purge 2024-05-02T00:00:00Z
log
outcome fault 6 queue fault
outcome calm 0

each <disk>=2 <call>=1..24
files a sweep of which two calls of a disk fail, one after the other
with disk=<disk> first=<call> count=2
do sweep expire,purge 2024-05-02T00:00:00Z
log
outcome fault 14 store fault
outcome fault 7 store down
outcome calm 0

each <disk>=3 <call>=1..24
files a sweep of which two calls of a disk fail, one after the other
with disk=<disk> first=<call> count=2
do sweep expire,purge 2024-05-02T00:00:00Z
log
outcome fault 14 store fault
outcome calm 0

each <disk>=0,1 <call>=1..25
case a compaction of which one call of a disk fails, and the facts then
put 0 \x01PDBLOG1\x01\0\0\0\0\0\0\0
put 0 \x01\x09\0\0\0\0\x02\0\0\0\0\0\0\0
put 0 \0
put 2 \x01PDBLOG1\x01\0\0\0\0\0\0\0
put 2 \x01\x0d\0\0\0\0\x07\0\0\0\x0e\0\0\0\x0e\0\0\0
put 2 \x01\x04\0\0\0\x01\0\0\0
put 2 \x01,\0\0\0\x03\x01\0\0\0\0\0\0\0\0\x01\0\0\0a\0\x07\0\0\0{"k":1}\0@\xf2\x96\x0dU\xcb\x17\0\0\0\0\0\0\0\0\0
put 2 \x015\0\0\0\x03\x02\0\0\0\0\0\0\0\x02\x01\0\0\0a\0\0\0\0\0\0\0@\xf2\x96\x0dU\xcb\x17\0\0\0\0\0\0\0\0\0\0\0\0\0\0\0\0\0\0\0\0\0\0\0\0
put 2 \0
with disk=<disk> first=<call> count=1
do compact
log
crash 0
ask facts{}
told [{"certname":"a","environment":null,"name":"k","value":1}]
outcome fault 6 queue fault
outcome calm 0

each <disk>=2,3 <call>=1..25
case a compaction of which one call of a disk fails, and the facts then
put 0 \x01PDBLOG1\x01\0\0\0\0\0\0\0
put 0 \x01\x09\0\0\0\0\x02\0\0\0\0\0\0\0
put 0 \0
put 2 \x01PDBLOG1\x01\0\0\0\0\0\0\0
put 2 \x01\x0d\0\0\0\0\x07\0\0\0\x0e\0\0\0\x0e\0\0\0
put 2 \x01\x04\0\0\0\x01\0\0\0
put 2 \x01,\0\0\0\x03\x01\0\0\0\0\0\0\0\0\x01\0\0\0a\0\x07\0\0\0{"k":1}\0@\xf2\x96\x0dU\xcb\x17\0\0\0\0\0\0\0\0\0
put 2 \x015\0\0\0\x03\x02\0\0\0\0\0\0\0\x02\x01\0\0\0a\0\0\0\0\0\0\0@\xf2\x96\x0dU\xcb\x17\0\0\0\0\0\0\0\0\0\0\0\0\0\0\0\0\0\0\0\0\0\0\0\0
put 2 \0
with disk=<disk> first=<call> count=1
do compact
log
crash 0
ask facts{}
told [{"certname":"a","environment":null,"name":"k","value":1}]
outcome fault 14 store fault
outcome calm 0
"#;

#[test]
fn faults_of_a_disk_are_told_or_got_over(rt: HostRuntime) -> Result<(), AllocError> {
    play(&rt, rt.alloc(), FOUR_FAULTS, FOUR)
}

#[test]
fn faults_of_one_command_are_told_or_got_over(rt: HostRuntime) -> Result<(), AllocError> {
    play(&rt, rt.alloc(), "", OTHERS)
}
