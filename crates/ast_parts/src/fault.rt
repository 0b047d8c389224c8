//! Why a value can't be read.
ghost use Rattle.std.specs.Prelude.{◌≡◌, Err};
ghost use Rattle.ast_parts.specs.Gives.{Fails};
ghost use Rattle.ast_parts.specs.declared.fault.FormFault.TheVariants.{Memory};

use query_spec::Place;
use std::alloc::{AllocError, AllocFailed, Global};

#[derive(Drop)]
pub enum FormFault {
    /// No form of the AST allows the value at this place.
    NoForm(Place),
    /// There was no memory.
    Memory,
}

impl From<AllocError> for FormFault {
    ghost from_gives = { λ _ e. e ≡ Memory };

    fn from(_e: AllocError) -> FormFault {
        FormFault::Memory
    }
}

impl<T: Drop> From<AllocFailed<T>> for FormFault {
    ghost from_gives = { λ _ e. e ≡ Memory };

    fn from(_e: AllocFailed<T>) -> FormFault {
        FormFault::Memory
    }
}
