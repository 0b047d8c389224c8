//! The cases for keepers of the store's records.
use crate::trials::try_all;
use std::alloc::AllocError;

/// The records of two files, which file counts and the numbers of its records, or where the damage is, and what calls come to then.
const KEEPERS: &str = "# a file of a greater generation
1:S1B2 2:S3B4/(B, 34)
1:S1B2 2:S3B4C5/(B, 345)
1:S1B2 2:l0B4/(B, 4)
# frames that are no record
1:S1B2 2:S3B4!0C5/Damaged { file: B, at: 51 }
1:S1B2 2:S3B4C5-0/Damaged { file: B, at: 87 }
1:S1B2 2:S3+0/Damaged { file: B, at: 34 }
# records that may not stand there, also before a frame that is none
1:S1B2 2:B4S3/Damaged { file: B, at: 16 }
1:S1B2 2:S3C5!0/Damaged { file: B, at: 34 }
1:S1B2 2:S3B4B4/Damaged { file: B, at: 51 }
1:S1B2 2:S3B4l0/Damaged { file: B, at: 51 }
# the first records are missing
1:S1B2 2:S3/Damaged { file: B, at: 34 }
1:S1B2 2:/Damaged { file: B, at: 16 }
# the newest open file counts
1:S1B2 =old/(A, 12)
1:S1B2 2:S3B4/(B, 34)
2:S3B4 1:S1B2/(A, 34)
1:S1B2 1:S1B2/(A, 12)
2:S3B4 1:!0/(A, 34)
=\x01 =/Damaged { file: A, at: 0 }
# a checkpoint stands in the other file with the next generation
1:S1B2 =old/(A, 12); renew = Some(Ok); (B, false, 0)/has a 1:S1B2/has b 2:S7B7/(B, 77)
# the last generation has no checkpoint
= 18446744073709551615:S1B2/(B, 12); renew = Some(Spent), put 3 = Some(Ok); (B, false, 0)/(B, 123)
# a change that was kept is there when it is opened again
1:S1B2 =/(A, 12); put 5 = Some(Ok); (A, false, 0)/has a 1:S1B2C5/(A, 125)
# each fault and each stop leaves the old records or the new ones
weak 0 0 23 5 = nothing/1:S1B2 =old/; put 3, renew/crash/stands
weak 1 0 23 5 = nothing/1:S1B2 =old/; put 3, renew/crash/stands
stops 0 0 23 5 = down/1:S1B2 =old/; put 3, renew/crash/stands
stops 1 0 23 5 = untold down/1:S1B2 =old/; put 3, renew/crash/stands";

#[test]
fn a_keeper_keeps_what_it_said(rt: HostRuntime) -> Result<(), AllocError> {
    try_all(&rt, rt.alloc(), "keeper", "\n", KEEPERS)
}

/// The numbers of the calls that fail, the calls, and how many there were, the faults, and whether the keeper is down.
const MEMORIES: &str =
    "/put 1 = Some(Ok), spelt 2 = Some(Ok), renew = Some(Ok), put 4 = Some(Ok)/(4, 0, false)
2/put 1 = Some(Ok), spelt 2 = Some(Failed), renew = Some(Ok), put 4 = Some(Ok)/(5, 1, false)
2 4/put 1 = Some(Ok), spelt 2 = Some(Failed), renew = Some(Failed), put 4 = Some(Ok)/(6, 2, false)
3/put 1 = Some(Ok), spelt 2 = Some(Ok), renew = Some(Failed), put 4 = Some(Ok)/(5, 1, false)
1 2/put 1 = Some(Down), spelt 2 = None, renew = None, put 4 = None/(2, 2, true)
3 4/put 1 = Some(Ok), spelt 2 = Some(Ok), renew = Some(Down), put 4 = None/(4, 2, true)
9/put 1 = Some(Ok), spelt 2 = Some(Ok), renew = Some(Ok), put 4 = Some(Ok)/(4, 0, false)";

#[test]
fn a_keeper_in_memory_fails_at_its_numbers(rt: HostRuntime) -> Result<(), AllocError> {
    try_all(&rt, rt.alloc(), "memory", "\n", MEMORIES)
}
