//! The cases for openings: files, and what is read in them.
use crate::trials::try_all;
use std::alloc::AllocError;

/// The records of a queue and of a store, and what is found: how many commands are pending and discarded, the last receipt, and how many
/// nodes are known; or where the damage is.
const OPENINGS: &str = "# records behind those of new files
b2 L7E0/(0, 0, 2, 0)
b2c3 L7E0/(1, 0, 3, 0)
b2c3c4 L7E0/(2, 0, 4, 0)
b2c3c4s3 L7E0/(1, 0, 4, 0)
b2c3c4f3 L7E0/(2, 0, 4, 0)
b2c3c4r3 L7E0/(1, 1, 4, 0)
# of commands that ended none is pending
b2c3d3c4d4c5d5c6d6c7d7c8d8c9 L7E0/(1, 0, 9, 0)
# the sixteenth failure discards a command
b2c3c4f3f3f3f3f3f3f3f3f3f3f3f3f3f3f3f3 L7E0/(1, 1, 4, 0)
b2h1c3 L7E0/(2, 0, 3, 0)
b2x1c3 L7E0/(1, 1, 3, 0)
b2c3c4d3 L7E0C3/(1, 0, 4, 1)
b2c3c4d3 L7E0C3w0/(1, 0, 4, 1)
# the Done is missing
b2c3c4 L7E0C3/(1, 0, 4, 1)
# records as a checkpoint has them, and behind it
b2h1x1 L7E0/(1, 1, 2, 0)
b2h1x1c3c4 L7E0/(3, 1, 4, 0)
# a held command keeps its failures: the sixteenth is the fourteenth of these
b2h1f1f1f1f1f1f1f1f1f1f1f1f1f1 L7E0/(1, 0, 2, 0)
b2h1f1f1f1f1f1f1f1f1f1f1f1f1f1f1 L7E0/(0, 1, 2, 0)
b2 L7W0/(0, 0, 2, 0)
b2 L7W0m0/(0, 0, 2, 1)
b2 L7W0m0M0/(0, 0, 2, 2)
b2 L7W0m0C3M0/(0, 0, 2, 2)
b2 L7W0m0R3M0/(0, 0, 2, 2)
b2 L7E0M0U3/(0, 0, 2, 2)
# the command of the base's receipt was applied: if it is pending, its Done is missing
b2c3c4 L7B3/(1, 0, 4, 0)
b2c3c4d3 L7B3/(1, 0, 4, 0)
b2c3c4 L7B3m0/(1, 0, 4, 1)
b2c3c4 L7B3C4/(1, 0, 4, 1)
b2c3c4d3 L7B3C4/(0, 0, 4, 1)
# records that may not stand where they do
1: L7E0/Damaged { file: QueueA, at: 16 }
c3 L7E0/Damaged { file: QueueA, at: 16 }
b2b2 L7E0/Damaged { file: QueueA, at: 30 }
b2d3 L7E0/Damaged { file: QueueA, at: 30 }
b2c3c3 L7E0/Damaged { file: QueueA, at: 70 }
b2c4c3 L7E0/Damaged { file: QueueA, at: 70 }
b2c3d3d3 L7E0/Damaged { file: QueueA, at: 84 }
b2c3!0d3 L7E0/Damaged { file: QueueA, at: 70 }
# a held command stands before the others
b2x1h1 L7E0/Damaged { file: QueueA, at: 71 }
h1 L7E0/Damaged { file: QueueA, at: 16 }
b2c3h1 L7E0/Damaged { file: QueueA, at: 70 }
b2h1h1 L7E0/Damaged { file: QueueA, at: 74 }
b2x1x1 L7E0/Damaged { file: QueueA, at: 71 }
# the queue's before the store's
b2!0 L7/Damaged { file: QueueA, at: 30 }
b2 L7/Damaged { file: StoreA, at: 34 }
# a store begins with its lifetimes and a base, which come once
b2 W0/Damaged { file: StoreA, at: 16 }
b2 L7m0/Damaged { file: StoreA, at: 34 }
b2 L7E0W0/Damaged { file: StoreA, at: 43 }
b2 L7E0L7/Damaged { file: StoreA, at: 43 }
b2 L7W0m0!0/Damaged { file: StoreA, at: 72 }
# a call of a disk fails in an opening, in the next one, or behind both, and the opening behind a fault finds all
fails 0 1 7 1/b2c3c4 L7E0C3/QueueFault/(1, 0, 4, 1)
fails 0 8 10 1/b2c3c4 L7E0C3/(1, 0, 4, 1)/QueueFault
fails 0 11 23 1/b2c3c4 L7E0C3/(1, 0, 4, 1)/(1, 0, 4, 1)
fails 1 1 2 1/b2c3c4 L7E0C3/QueueFault/(1, 0, 4, 1)
fails 1 3 4 1/b2c3c4 L7E0C3/(1, 0, 4, 1)/QueueFault
fails 1 5 23 1/b2c3c4 L7E0C3/(1, 0, 4, 1)/(1, 0, 4, 1)
fails 2 1 3 1/b2c3c4 L7E0C3/StoreFault/(1, 0, 4, 1)
fails 2 4 6 1/b2c3c4 L7E0C3/(1, 0, 4, 1)/StoreFault
fails 2 7 23 1/b2c3c4 L7E0C3/(1, 0, 4, 1)/(1, 0, 4, 1)
fails 3 1 2 1/b2c3c4 L7E0C3/StoreFault/(1, 0, 4, 1)
fails 3 3 4 1/b2c3c4 L7E0C3/(1, 0, 4, 1)/StoreFault
fails 3 5 23 1/b2c3c4 L7E0C3/(1, 0, 4, 1)/(1, 0, 4, 1)";

#[test]
fn files_say_what_an_opening_finds(rt: HostRuntime) -> Result<(), AllocError> {
    try_all(&rt, rt.alloc(), "opening", "\n", OPENINGS)
}
