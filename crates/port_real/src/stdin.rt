//! Standard input as a source.
ghost use Rattle.std.specs.Prelude.{◌≡◌};
ghost use Rattle.port_real.specs.Faults.{source_faults};

use fleet_ports::{Source, Took};
use std::io::{Read, Stdin};

/// Standard input. A read goes straight into the caller's buffer.
#[derive(Drop)]
pub struct StdSource {
    stdin: Stdin,
    faults: u64,
}

impl StdSource {
    /// The standard input of this process.
    pub fn new(rt: &HostRuntime) -> StdSource
        ensures faults { source_faults result ≡ 0 }
    {
        StdSource {
            stdin: rt.stdin(),
            faults: 0,
        }
    }
}

impl Source for StdSource {
    ghost use Rattle.std.specs.Prelude.{None};

    ghost left = { λ _. None };

    ghost fault_count = { λ s. source_faults s };

    fn read_some(&mut self, into: &mut [u8]) -> Took {
        match self.stdin.read(into) {
            Ok(0) => Took::Ended,
            Ok(count) => Took::Bytes(count),
            Err(_) => {
                self.faults = self.faults.saturating_add(1);
                Took::Failed
            }
        }
    }
}
