//! Why an object makes no change, for readers that allocate.
ghost use Rattle.std.specs.Prelude.{◌≡◌};
ghost use Rattle.wire_fields.specs.declared.fault.WireFault.TheVariants.{Refused, Memory};

use std::alloc::{AllocError, AllocFailed};
use wire_spec::fleet_rows::Refusal;

/// Why an object makes no change.
#[derive(Clone, Copy, PartialEq, Eq, Debug)]
pub enum WireFault {
    /// The first refusal, in the order of the table.
    Refused(Refusal),
    /// Memory ran out.
    Memory,
}

impl From<Refusal> for WireFault {
    ghost from_gives = { λ refusal e. e ≡ Refused refusal };

    fn from(refusal: Refusal) -> WireFault {
        WireFault::Refused(refusal)
    }
}

impl From<AllocError> for WireFault {
    ghost from_gives = { λ _ e. e ≡ Memory };

    fn from(_error: AllocError) -> WireFault {
        WireFault::Memory
    }
}

impl<T: Drop> From<AllocFailed<T>> for WireFault {
    ghost from_gives = { λ _ e. e ≡ Memory };

    fn from(_error: AllocFailed<T>) -> WireFault {
        WireFault::Memory
    }
}
