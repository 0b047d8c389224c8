//! Decodes for the workers, outside the lock.
ghost use Rattle.std.specs.Prelude.{◌<◌, ◌^◌, length};
ghost use Rattle.hub_calls.specs.core_ends.command_decode.Answers.{DecodedAs};

use command_decode::{DecodeFault, decode};
use fleet_rows::{Change, Command};
use std::alloc::Global;

/// Decodes for the workers, outside the lock. The answer is what the command decodes to, or that there was no memory. Only tests
/// use the number of the worker and the receipt.
pub trait Gate {
    fn decode(
        &self,
        alloc: Global,
        worker: u32,
        receipt: u64,
        command: &Command,
    ) -> Result<Change, DecodeFault>
        requires counted { length command.now.payload < 2 ^ 32 }
        ensures answer { DecodedAs result command.now };
}

/// Decodes at once.
pub struct OpenGate;

impl Gate for OpenGate {
    fn decode(
        &self,
        alloc: Global,
        _worker: u32,
        _receipt: u64,
        command: &Command,
    ) -> Result<Change, DecodeFault> {
        decode(alloc, command)
    }
}
