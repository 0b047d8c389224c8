//! The fault counter that each object keeps.
ghost use Rattle.std.specs.Prelude.{IsErr};
ghost use Rattle.fleet_ports.specs.Counts.{Counts};

use fleet_ports::Failed;
use std::io;

/// The answer of a system call. A failed call raises the counter.
pub(crate) fn count<T: Drop>(answer: io::Result<T>, faults: &mut u64) -> Result<T, Failed>
    ensures cause { Counts faults.old faults.new (IsErr result) }
{
    match answer {
        Ok(value) => Ok(value),
        Err(_) => {
            *faults = faults.saturating_add(1);
            Err(Failed)
        }
    }
}
