//! What `init` lays and a sweep adds, byte by byte, what is printed of discarded commands, and damage.
use crate::rounds::play;
use std::alloc::AllocError;

const FILES: &str = r#"case the default lifetimes
do init
end 0
do init
end 13 already laid
crash 0
want 0 \x01PDBLOG1\x01\0\0\0\0\0\0\0\x01\x09\0\0\0\0\0\0\0\0\0\0\0\0\0
want 2 \x01PDBLOG1\x01\0\0\0\0\0\0\0\x01\x0d\0\0\0\0\x07\0\0\0\x0e\0\0\0\x0e\0\0\0\x01\x04\0\0\0\x01\0\0\0\0
same

case the same lifetimes in words
do init 7 14 14
end 0
do init
end 13 already laid
crash 0
laid
same

case at most 100 reports
do init 7 14 14 100
end 0
do init
end 13 already laid
crash 0
want 0 \x01PDBLOG1\x01\0\0\0\0\0\0\0\x01\x09\0\0\0\0\0\0\0\0\0\0\0\0\0
want 2 \x01PDBLOG1\x01\0\0\0\0\0\0\0\x01\x11\0\0\0\x06\x07\0\0\0\x0e\0\0\0\x0e\0\0\0\x64\0\0\0\x01\x04\0\0\0\x01\0\0\0\0
same

case the least days and the most, and as many reports as may be
do init 1 3650 1 1000000
end 0
do init
end 13 already laid
crash 0
want 0 \x01PDBLOG1\x01\0\0\0\0\0\0\0\x01\x09\0\0\0\0\0\0\0\0\0\0\0\0\0
want 2 \x01PDBLOG1\x01\0\0\0\0\0\0\0\x01\x11\0\0\0\x06\x01\0\0\0\x42\x0e\0\0\x01\0\0\0\x40\x42\x0f\0\x01\x04\0\0\0\x01\0\0\0\0
same

case a queue alone
put 0 \x01PDBLOG1\x01\0\0\0\0\0\0\0\x01\x09\0\0\0\0\0\0\0\0\0\0\0\0\0
do init
end 0
crash 0
laid
same

case a store alone
put 2 \x01PDBLOG1\x01\0\0\0\0\0\0\0\x01\x0d\0\0\0\0\x07\0\0\0\x0e\0\0\0\x0e\0\0\0\x01\x04\0\0\0\x01\0\0\0\0
do init
end 0
crash 0
laid
same

case other bytes
put 0 old
put 2 older than that
do init
end 0
crash 0
laid
same

case a queue of 18 bytes
put 0 \x01PDBLOG1 too short
put 2 \x01PDBLOG1\x01\0\0\0\0\0\0\0\x01\x0d\0\0\0\0\x07\0\0\0\x0e\0\0\0\x0e\0\0\0\x01\x04\0\0\0\x01\0\0\0\0
do init
end 13 already laid
crash 0
same

case a queue of 16 bytes
put 0 \x01PDBLOG1 shorter
put 2 \x01PDBLOG1\x01\0\0\0\0\0\0\0\x01\x0d\0\0\0\0\x07\0\0\0\x0e\0\0\0\x0e\0\0\0\x01\x04\0\0\0\x01\0\0\0\0
do init
end 0
crash 0
laid
same

case both with a limit of reports
put 0 \x01PDBLOG1\x01\0\0\0\0\0\0\0\x01\x09\0\0\0\0\0\0\0\0\0\0\0\0\0
put 2 \x01PDBLOG1\x01\0\0\0\0\0\0\0\x01\x11\0\0\0\x06\x07\0\0\0\x0e\0\0\0\x0e\0\0\0\x64\0\0\0\x01\x04\0\0\0\x01\0\0\0\0
do init
end 13 already laid
crash 0
same

files nothing was discarded
do discards
end 0
do payload 7
end 15 no such receipt 7
do payload 18446744073709551615
end 15 no such receipt 18446744073709551615
usage payload 18446744073709551616

case a command was given up after sixteen failures, and another, a report of version 4, was refused
put 0 \x01PDBLOG1\x01\0\0\0\0\0\0\0\x01\x09\0\0\0\0\x02\0\0\0\0\0\0\0
put 0 \x01\x26\0\0\0\x02\x01\0\0\0\0\0\0\0\0\x05\0\0\0\0\0\x0b\x41\xe4\x82\xcb\x17\0\0\0\0\0\0\0\0\x03\0\0\0one\x01
put 0 \x01\x27\0\0\0\x03\x03\0\0\0\0\0\0\0\x02\x04\0\0\0\0\0\x0b\x41\xe4\x82\xcb\x17\0\0\0\0\0\0\0\0\x05\0\0\0three
put 0 \x01\x0a\0\0\0\x06\x03\0\0\0\0\0\0\0\0\0
put 2 \x01PDBLOG1\x01\0\0\0\0\0\0\0\x01\x0d\0\0\0\0\x07\0\0\0\x0e\0\0\0\x0e\0\0\0\x01\x04\0\0\0\x01\0\0\0\0
do discards
printed 1 replace_facts 5 2024-05-02T00:00:00.000Z failures 16
printed 3 store_report 4 2024-05-02T00:00:00.000Z bad version
end 0
with out=1
do discards
end 5 write fault
do payload 1
bare one
end 0
do payload 3
bare three
end 0
with out=1
do payload 3
end 5 write fault
do payload 2
end 15 no such receipt 2
crash 0
same

case a sweep is kept behind what the store has
do init
end 0
do sweep expire,purge 2024-05-02T00:00:00Z
end 0
crash 0
want 0 \x01PDBLOG1\x01\0\0\0\0\0\0\0\x01\x09\0\0\0\0\0\0\0\0\0\0\0\0\0
want 2 \x01PDBLOG1\x01\0\0\0\0\0\0\0\x01\x0d\0\0\0\0\x07\0\0\0\x0e\0\0\0\x0e\0\0\0\x01\x04\0\0\0\x01\0\0\0
want 2 \x01\x12\0\0\0\x04\x03\0\0\x0b\x41\xe4\x82\xcb\x17\0\0\0\0\0\0\0\0\0
same

case no file
do sweep expire,purge 2024-05-02T00:00:00Z
end 8 damaged queue.a at 0
do discards
end 8 damaged queue.a at 0
do payload 1
end 8 damaged queue.a at 0

case no store
put 0 \x01PDBLOG1\x01\0\0\0\0\0\0\0\x01\x09\0\0\0\0\0\0\0\0\0\0\0\0\0
do sweep expire,purge 2024-05-02T00:00:00Z
end 8 damaged store.a at 0
do discards
end 8 damaged store.a at 0
do payload 1
end 8 damaged store.a at 0

case a second queue that is cut
put 0 \x01PDBLOG1\x01\0\0\0\0\0\0\0\x01\x09\0\0\0\0\0\0\0\0\0\0\0\0\0
put 1 \x01PDBLOG1 too short
put 2 \x01PDBLOG1\x01\0\0\0\0\0\0\0\x01\x0d\0\0\0\0\x07\0\0\0\x0e\0\0\0\x0e\0\0\0\x01\x04\0\0\0\x01\0\0\0\0
do sweep expire,purge 2024-05-02T00:00:00Z
end 8 damaged queue.b at 16
do discards
end 8 damaged queue.b at 16
do payload 1
end 8 damaged queue.b at 16

case a store in the place of the queue
put 0 \x01PDBLOG1\x01\0\0\0\0\0\0\0\x01\x0d\0\0\0\0\x07\0\0\0\x0e\0\0\0\x0e\0\0\0\x01\x04\0\0\0\x01\0\0\0\0
put 2 \x01PDBLOG1\x01\0\0\0\0\0\0\0\x01\x0d\0\0\0\0\x07\0\0\0\x0e\0\0\0\x0e\0\0\0\x01\x04\0\0\0\x01\0\0\0\0
do sweep expire,purge 2024-05-02T00:00:00Z
end 8 damaged queue.a at 16
do discards
end 8 damaged queue.a at 16
do payload 1
end 8 damaged queue.a at 16
"#;

#[test]
fn files_hold_what_commands_keep(rt: HostRuntime) -> Result<(), AllocError> {
    play(&rt, rt.alloc(), "", FILES)
}
