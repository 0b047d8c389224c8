//! Standard output as a sink.
ghost use Rattle.std.specs.Prelude.{◌≡◌};
ghost use Rattle.port_real.specs.Faults.{sink_faults};

use fleet_ports::{Put, Sink};
use std::io::{Stdout, Write};

/// Standard output. A write goes straight to the system, so nothing needs to be flushed.
#[derive(Drop)]
pub struct StdSink {
    stdout: Stdout,
    faults: u64,
}

impl StdSink {
    /// The standard output of this process.
    pub fn new(rt: &HostRuntime) -> StdSink
        ensures faults { sink_faults result ≡ 0 }
    {
        StdSink {
            stdout: rt.stdout(),
            faults: 0,
        }
    }
}

impl Sink for StdSink {
    ghost use Rattle.std.specs.Prelude.{None};

    ghost held = { λ _. None };

    ghost fault_count = { λ s. sink_faults s };

    fn write_some(&mut self, piece: &[u8]) -> Put {
        match self.stdout.write(piece) {
            Ok(count) if count > 0 => Put::Took(count),
            _ => {
                self.faults = self.faults.saturating_add(1);
                Put::Failed
            }
        }
    }
}
