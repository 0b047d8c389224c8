//! How often the store fails at a command.
ghost use Rattle.core_laws.specs.Failures.{FailuresAreFew, FailuresAreCounted};

/// The store fails at most sixteen times at a command. Since a restart, it has failed at most as often as its fault count rose.
pub fn failures_are_counted()
    ensures few { FailuresAreFew }
    ensures counted { FailuresAreCounted }
{}
