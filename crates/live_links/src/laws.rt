//! The laws, as contracts of functions that do nothing.
ghost use Rattle.core_ends.specs.core_course.Sight.{sight_of};
ghost use Rattle.live_links.specs.Causes.{EachCallIsCaused};
ghost use Rattle.live_links.specs.Laws.{NumbersNeverFall, CallsAreOfRequests, NumbersArePrinted, PrintedNeverFall};

use core_ends::Keeper;
use fleet_ports::Disk;

/// The numbers that a lane tells never fall, and its calls are those of its requests, in order.
pub fn requests_move_a_lane()
    ensures numbers { NumbersNeverFall }
    ensures calls { CallsAreOfRequests }
{}

/// Each call at the stage has its cause: a refusal by a number is that of the core that the hold found, and a fault is counted at the
/// core when the stage closes.
pub fn each_call_is_caused<D: Disk + Drop, K: Keeper + Drop>()
    ensures { EachCallIsCaused (sight_of D.Disk K.Keeper) K.generation }
{}

/// An answer prints the number that came with its request's call, and none without a call. Along a link the printed numbers never
/// fall.
pub fn numbers_are_printed<D: Disk + Drop, K: Keeper + Drop>()
    ensures printed { NumbersArePrinted (sight_of D.Disk K.Keeper) }
    ensures rising { PrintedNeverFall (sight_of D.Disk K.Keeper) }
{}
