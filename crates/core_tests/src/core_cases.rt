//! The cases for cores: what each session does, and what it answers.
use crate::trials::try_all;
use std::alloc::AllocError;

/// Sessions over laid files. An empty line parts two cases.
const CORES: &str = r#"# commands end, and are there when the files are opened again

send a 03 {"k":3} = Receipt(1);send a 01 {"k":1} = Receipt(2);send a 05 {"k":5,"l":5} = Receipt(3);
send a 02 {"k":2} = Receipt(4);send a 04 {"k":4} = Receipt(5);
rests = true;drain = (1, Done);tally = [5, 1, 4, 0];standing = [2, 0, 0];
send a 06 [] = Receipt(6);drain = (1, Done);discarded 6 = true;
send b 01 {"k":1} = Receipt(7);late = NotClaimed;released = NotClaimed;drain = (1, Done);tally = [7, 2, 4, 1]
/tally = [0, 0, 0, 0];pending = (0, 0);standing = [3, 1, 0];sweep = Ok;nodes = 0

# a full core takes a command when one has ended

fill 262144 = true;raw x = Full;work 1 = Ended;raw x = Receipt(262145)

# all that is held is there behind compactions, and a claimed command stays claimed

four = [true, true, true, true]/compact = Ok/compact = Ok/standing = [0, 0, 4];drain = (4, Done)/compact = Ok/standing = [3, 1, 0];drain/all-end = true

serve/compact = Ok/compact = Ok/standing = [3, 1, 0];drain = (0, Done)/compact = Ok/standing = [3, 1, 0];drain/all-end = true

send a 01 {"k":1} = Receipt(1);rests-compacted = true;work 1 = Ended

# the sixteenth failure discards a command; failures before a compaction count behind it

stops 2 3 3 1/send a 01 {"k":1} = Receipt(1);work 15 = Failed;work 1 = Ended;work 1 = Done;down = No
/crash/standing = [0, 1, 0];drain/standing = [0, 1, 0]

stops 2 3 3 1/send a 01 {"k":1} = Receipt(1);work 8 = Failed;down = No/crash/compact = Ok
/crash 0 3 3/work 7 = Failed;down = No/crash/standing = [0, 0, 1]

stops 2 3 3 1/send a 01 {"k":1} = Receipt(1);work 8 = Failed;down = No/crash/compact = Ok
/crash 0 3 3/work 7 = Failed;work 1 = Ended;down = No/crash/standing = [0, 1, 0]

stops 2 3 3 1/send a 01 {"k":1} = Receipt(1);work 15 = Failed;down = No/crash/compact = Ok
/crash 0 3 3/work 1 = Ended;down = No/crash/standing = [0, 1, 0]

stops 2 3 3 1/send a 01 {"k":1} = Receipt(1);work 1 = Failed;down = No/crash/compact = Ok
/crash 0 3 3/work 14 = Failed;down = No/crash/standing = [0, 0, 1]"#;

#[test]
fn a_core_answers_as_its_sessions_say(rt: HostRuntime) -> Result<(), AllocError> {
    try_all(&rt, rt.alloc(), "core", "\n\n", CORES)
}

/// Sessions of which calls fail, or a disk stops. The head names the disk, from 0 to 3 the queue's two and the store's two, the first call
/// and the last one at which that is tried, and how many variants there are; and what the trials show between them.
const FAULTS: &str = r#"# calls that fail lose nothing
fails 0 1 63 2 = less silent whole queue untold undone/?serve/keeps = true;drain/ends = true
fails 1 1 63 2 = whole/?serve/keeps = true;drain/ends = true
fails 2 1 63 2 = whole store untold/?serve/keeps = true;drain/ends = true
fails 3 1 63 2 = whole/?serve/keeps = true;drain/ends = true
# a stop leaves what was answered and at most one command more
stops 0 0 47 5 = less silent whole queue untold undone/?firmly/crash/keeps = true;drain/ends = true
stops 1 0 3 5 = less silent whole/?firmly/crash/keeps = true;drain/ends = true
stops 2 0 47 5 = less silent whole store untold/?firmly/crash/keeps = true;drain/ends = true
stops 3 0 3 5 = less silent whole/?firmly/crash/keeps = true;drain/ends = true
# the sixteenth failure of the store discards a command
stops 2 3 3 1/send a 01 {"k":1} = Receipt(1);work 1 = Failed;down = No/crash/standing = [0, 0, 1];drain/standing = [1, 0, 0]
stops 2 3 3 1/send a 01 {"k":1} = Receipt(1);work 15 = Failed;down = No/crash/standing = [0, 0, 1];drain/standing = [1, 0, 0]
stops 2 3 3 1/send a 01 {"k":1} = Receipt(1);work 15 = Failed;work 1 = Ended;down = No/crash/standing = [0, 1, 0];drain/standing = [0, 1, 0]"#;

#[test]
fn faults_and_stops_lose_nothing(rt: HostRuntime) -> Result<(), AllocError> {
    try_all(&rt, rt.alloc(), "core", "\n", FAULTS)
}

/// Compactions in which calls fail or a disk stops, with four pending commands and with four that have ended.
const COMPACTIONS: &str =
    "# a call fails in an opening, which is tried anew, in the compaction, or behind it: what was there is there
fails 0 33 36 2/four/compact = Ok/standing = [0, 0, 4];drain/all-end = true
fails 1 6 7 2/four/compact = Ok/standing = [0, 0, 4];drain/all-end = true
fails 1 8 27 2/four/compact = QueueFault/standing = [0, 0, 4];drain/all-end = true
fails 1 28 28 2/four/compact = Ok/standing = [0, 0, 4];drain/all-end = true
fails 2 18 21 2/four/compact = Ok/standing = [0, 0, 4];drain/all-end = true
fails 3 5 6 2/four/compact = Ok/standing = [0, 0, 4];drain/all-end = true
fails 3 7 20 2/four/compact = StoreFault/standing = [0, 0, 4];drain/all-end = true
fails 3 21 21 2/four/compact = Ok/standing = [0, 0, 4];drain/all-end = true
fails 0 49 52 2/serve/compact = Ok/standing = [3, 1, 0];drain/all-end = true
fails 1 6 7 2/serve/compact = Ok/standing = [3, 1, 0];drain/all-end = true
fails 1 8 21 2/serve/compact = QueueFault/standing = [3, 1, 0];drain/all-end = true
fails 1 22 22 2/serve/compact = Ok/standing = [3, 1, 0];drain/all-end = true
fails 2 30 33 2/serve/compact = Ok/standing = [3, 1, 0];drain/all-end = true
fails 3 5 6 2/serve/compact = Ok/standing = [3, 1, 0];drain/all-end = true
fails 3 7 32 2/serve/compact = StoreFault/standing = [3, 1, 0];drain/all-end = true
fails 3 33 33 2/serve/compact = Ok/standing = [3, 1, 0];drain/all-end = true
# a disk stops in the opening, so that its files aren't opened, in the compaction, or behind it
stops 0 19 21 4/four/?compact = never/crash/standing = [0, 0, 4];drain/all-end = true
stops 0 22 22 4/four/compact = Ok/crash/standing = [0, 0, 4];drain/all-end = true
stops 1 2 3 4/four/?compact = never/crash/standing = [0, 0, 4];drain/all-end = true
stops 1 4 23 4/four/compact = QueueFault/crash/standing = [0, 0, 4];drain/all-end = true
stops 1 24 24 4/four/compact = Ok/crash/standing = [0, 0, 4];drain/all-end = true
stops 2 3 5 4/four/?compact = never/crash/standing = [0, 0, 4];drain/all-end = true
stops 2 6 6 4/four/compact = Ok/crash/standing = [0, 0, 4];drain/all-end = true
stops 3 2 3 4/four/?compact = never/crash/standing = [0, 0, 4];drain/all-end = true
stops 3 4 17 4/four/compact = StoreFault/crash/standing = [0, 0, 4];drain/all-end = true
stops 3 18 18 4/four/compact = Ok/crash/standing = [0, 0, 4];drain/all-end = true
stops 0 35 37 4/serve/?compact = never/crash/standing = [3, 1, 0];drain/all-end = true
stops 0 38 38 4/serve/compact = Ok/crash/standing = [3, 1, 0];drain/all-end = true
stops 1 2 3 4/serve/?compact = never/crash/standing = [3, 1, 0];drain/all-end = true
stops 1 4 17 4/serve/compact = QueueFault/crash/standing = [3, 1, 0];drain/all-end = true
stops 1 18 18 4/serve/compact = Ok/crash/standing = [3, 1, 0];drain/all-end = true
stops 2 15 17 4/serve/?compact = never/crash/standing = [3, 1, 0];drain/all-end = true
stops 2 18 18 4/serve/compact = Ok/crash/standing = [3, 1, 0];drain/all-end = true
stops 3 2 3 4/serve/?compact = never/crash/standing = [3, 1, 0];drain/all-end = true
stops 3 4 29 4/serve/compact = StoreFault/crash/standing = [3, 1, 0];drain/all-end = true
stops 3 30 30 4/serve/compact = Ok/crash/standing = [3, 1, 0];drain/all-end = true";

#[test]
fn faults_and_stops_in_a_compaction_leave_what_was_there(
    rt: HostRuntime,
) -> Result<(), AllocError> {
    try_all(&rt, rt.alloc(), "core", "\n", COMPACTIONS)
}
