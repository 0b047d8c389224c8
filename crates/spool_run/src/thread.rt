//! States the law that a whole spool gives the tables of one thread.
ghost use Rattle.fleet_hub.specs.core_course.Sight.{sight_of};
ghost use Rattle.spool_run.specs.Laws.{WholeSpoolsAreOneThread};

use fleet_hub::Keeper;
use fleet_ports::Disk;

/// A spool that was taken to its end, or to an item that isn't whole, leaves the rows of one thread. That thread knows no queue,
/// no claims and no superseding. Each command that was ever submitted has ended exactly once.
pub fn whole_spools_are_one_thread<D: Disk + Drop, K: Keeper + Drop>()
    ensures { WholeSpoolsAreOneThread (sight_of D.Disk K.Keeper) }
{}
