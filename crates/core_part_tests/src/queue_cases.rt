//! The cases for pending commands: calls of their list, and its answers.
use crate::trials::try_all;
use std::alloc::AllocError;

const QUEUES: &str = "# nothing waits, and commands without a group go by receipt
least = None
single - 9 3;single - 5 3;least = Some(1)
# the greatest stamp of a group goes first, of equal ones the later receipt, and a stamp before 1970 is the smaller one
facts 1 10 3;facts 1 20 3;facts 1 15 3;least = Some(2)
facts 1 10 3;facts 1 10 3;facts 1 10 3;least = Some(3)
facts 1 1 3;facts 1 -2 3;least = Some(1)
# one that is claimed holds back its group and no other: another node's, or the other kind of the same node
facts 1 10 3;facts 1 20 3;mark 1 = true;least = None
facts 1 10 3;facts 1 20 3;facts 2 5 3;catalog 1 5 3;mark 2 = true;least = Some(3)
facts 1 10 3;facts 1 20 3;catalog 1 5 3;mark 2 = true;least = Some(3)
# one that is taken out frees its group, unless another one is claimed
facts 1 10 3;facts 1 20 3;mark 2 = true;take 2 = true;least = Some(1)
facts 1 10 3;facts 1 20 3;facts 1 30 3;mark 1 = true;mark 2 = true;take 2 = true;least = None
# a failure is counted up to the sixteenth
single - 0 0;mark 1 = true;fail 1 = Some(1);fail 1 = Some(2);fail 1 = Some(3);fail 1 = Some(4);fail 1 = Some(5);\
fail 1 = Some(6);fail 1 = Some(7);fail 1 = Some(8);fail 1 = Some(9);fail 1 = Some(10);fail 1 = Some(11);fail 1 = Some(12);\
fail 1 = Some(13);fail 1 = Some(14);fail 1 = Some(15);fail 1 = Some(16);fail 1 = None;queued = 0;unmark 1 = true;queued = 1
# the largest queue of one group begins with the newest, or with the last of equal stamps
fill -1 = true;single - 0 100 = None;count = 262144;size = 26214400;least = Some(1);mark 1 = true;least = None;\
queued = 262143;unmark 1 = true;least = Some(1);mark 1 = true;take 1 = true;least = Some(2);mark 2 = true;least = None;\
take 2 = true;least = Some(3);count = 262142
fill 0 = true;single - 0 100 = None;count = 262144;size = 26214400;least = Some(262144);mark 262144 = true;least = None;\
queued = 262143;unmark 262144 = true;least = Some(262144);mark 262144 = true;take 262144 = true;least = Some(262143);\
mark 262143 = true;least = None;take 262143 = true;least = Some(262142);count = 262142";

#[test]
fn the_next_command_is_the_first_candidate(rt: HostRuntime) -> Result<(), AllocError> {
    try_all(&rt, rt.alloc(), "queue", "\n", QUEUES)
}
