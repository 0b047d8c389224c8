//! Why a text or a field can't be read.
ghost use Rattle.std.specs.Prelude.{◌≡◌};
ghost use Rattle.json_read.specs.declared.fault.ReadFault.TheVariants.{Memory};

use std::alloc::{AllocError, AllocFailed};
use thiserror::Error;

/// Why a text can't be read. Offsets count bytes from 0.
#[derive(Clone, Copy, PartialEq, Eq, Debug, Error)]
pub enum ReadFault {
    /// The bytes before `at` are a prefix of some JSON text, and no JSON text continues with the byte at `at`. Or the bytes end
    /// at `at`, before the text is complete.
    #[error("no JSON text goes on at byte {at}")]
    NotJson { at: usize },
    /// The byte at `at` opens level 128 (RFC 8259 section 9 lets a reader limit the levels).
    #[error("the byte {at} opens level 128")]
    TooDeep { at: usize },
    /// Memory ran out.
    #[error("no memory is left")]
    Memory,
}

impl From<AllocError> for ReadFault {
    ghost from_gives = { λ _ e. e ≡ Memory };

    fn from(_e: AllocError) -> ReadFault {
        ReadFault::Memory
    }
}

impl<T: Drop> From<AllocFailed<T>> for ReadFault {
    ghost from_gives = { λ _ e. e ≡ Memory };

    fn from(_e: AllocFailed<T>) -> ReadFault {
        ReadFault::Memory
    }
}

/// Why a field can't be read.
#[derive(Clone, Copy, PartialEq, Eq, Debug)]
pub enum FieldFault {
    /// No member has this name.
    Missing,
    /// The value has another type.
    Wrong,
    /// The text is no stamp.
    BadStamp,
}
