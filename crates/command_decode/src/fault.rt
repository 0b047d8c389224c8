//! Why a command has no change.
ghost use Rattle.std.specs.Prelude.{◌≡◌};
ghost use Rattle.command_decode.specs.Faults.{of_read, of_wire};

use json_read::ReadFault;
use wire_catalog::fleet_rows::Refusal;
use wire_catalog::wire_fields::WireFault;

/// Why a command decodes to no change.
#[derive(Clone, Copy, PartialEq, Eq, Debug)]
pub enum DecodeFault {
    /// The command is refused, now and whenever it is decoded again.
    Refused(Refusal),
    /// Memory ran out.
    Memory,
}

impl From<ReadFault> for DecodeFault {
    ghost from_gives = { λ fault e. e ≡ of_read fault };

    fn from(fault: ReadFault) -> DecodeFault {
        match fault {
            ReadFault::NotJson { at } => DecodeFault::Refused(Refusal::NotJson { at }),
            ReadFault::TooDeep { at } => DecodeFault::Refused(Refusal::TooDeep { at }),
            ReadFault::Memory => DecodeFault::Memory,
        }
    }
}

impl From<WireFault> for DecodeFault {
    ghost from_gives = { λ fault e. e ≡ of_wire fault };

    fn from(fault: WireFault) -> DecodeFault {
        match fault {
            WireFault::Refused(refusal) => DecodeFault::Refused(refusal),
            WireFault::Memory => DecodeFault::Memory,
        }
    }
}
