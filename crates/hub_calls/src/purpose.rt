//! The calls that a hub allows.
ghost use Rattle.std.specs.Prelude.{Bool, true, false};

/// Which calls of a hub may be made. Only contracts use it.
pub trait Purpose {
    /// Whether commands and sweeps are excluded.
    ghost only_work: { Bool };
}

/// All calls, including commands and sweeps.
pub struct AllCalls;

impl Purpose for AllCalls {
    ghost only_work = { false };
}

/// Only claims, releases and settles.
pub struct WorkAlone;

impl Purpose for WorkAlone {
    ghost only_work = { true };
}
