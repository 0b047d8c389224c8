//! What one thread would have made of the same commands.
ghost use Rattle.core_laws.specs.Threads.{OneThreadIsAThread, NoThreadMakesAnother, RowsAreThoseOfOneThread, TheTableIsThatOfOneThread};

/// `one_thread` is what one thread makes of the pending commands and of further items, one after the other. No thread makes
/// anything else of them.
pub fn one_thread_is_a_thread()
    ensures some { OneThreadIsAThread }
    ensures one { NoThreadMakesAnother }
{}

/// If a run settles all that came in, its rows are those of one thread over the same commands, without the discarded ones. The
/// order in which the run claims, fails and supersedes makes no difference. The tables are equal too, so further events have the
/// same effect. Before a purge all that came in must be settled; other sweeps don't need this.
pub fn the_tables_are_those_of_one_thread()
    ensures rows { RowsAreThoseOfOneThread }
    ensures table { TheTableIsThatOfOneThread }
{}
