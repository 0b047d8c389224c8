//! Makes the standard error a sink.
ghost use Rattle.std.specs.Prelude.{◌≡◌};

use fleet_ports::{Put, Sink};
use std::io::{Stderr, Write};

/// The standard error of this process. A write goes straight to the system.
#[derive(Drop)]
pub(crate) struct StdErrors {
    stderr: Stderr,
    faults: u64,
}

impl StdErrors {
    pub(crate) fn new(rt: &HostRuntime) -> StdErrors
        ensures { result.faults ≡ 0 }
    {
        StdErrors {
            stderr: rt.stderr(),
            faults: 0,
        }
    }
}

impl Sink for StdErrors {
    ghost use Rattle.std.specs.Prelude.{None};

    ghost held = { λ _. None };

    ghost fault_count = { λ s. s.faults };

    fn write_some(&mut self, piece: &[u8]) -> Put {
        match self.stderr.write(piece) {
            Ok(count) if count > 0 => Put::Took(count),
            _ => {
                self.faults = self.faults.saturating_add(1);
                Put::Failed
            }
        }
    }
}
