//! Why the reader stops.
ghost use Rattle.std.specs.Prelude.{◌≡◌};
ghost use Rattle.pql_parts.specs.declared.fault.Fault.TheVariants.{Memory};

use pql_spec::Token;
use std::alloc::{AllocError, AllocFailed};

#[derive(Drop)]
pub enum Fault {
    /// No query continues with this token.
    Bad,
    /// There was no memory.
    Memory,
}

impl From<AllocError> for Fault {
    ghost from_gives = { λ _ e. e ≡ Memory };

    fn from(_e: AllocError) -> Fault {
        Fault::Memory
    }
}

impl<T: Drop> From<AllocFailed<T>> for Fault {
    ghost from_gives = { λ _ e. e ≡ Memory };

    fn from(_e: AllocFailed<T>) -> Fault {
        Fault::Memory
    }
}

/// Drops a token that no query continues with. A function that drops a value needs a clause for each of its parts, so large
/// values are dropped in functions of their own.
pub fn let_token_go(_token: Token) {}
