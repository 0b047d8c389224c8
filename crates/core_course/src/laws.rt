//! The laws of sequences of calls. Each is the contract of a function with an empty body.
ghost use Rattle.core_course.specs.Sight.{sight_of};
ghost use Rattle.core_course.specs.Laws.{CallsMoveOne, StretchesJoin, CoursesJoin, WorkGoesOn, CoursesStand, CoursesTakeTime, CoursesAreWhole, LastImagesStand};

use core_state::Keeper;
use fleet_ports::Disk;

/// One call takes in at most one command, or lets at most one take effect, or discards at most one. So no batch is one call.
pub fn calls_move_one()
    ensures { CallsMoveOne }
{}

/// Two sequences in a row, seen from the first core to the last, are one sequence.
pub fn stretches_join<D: Disk + Drop, K: Keeper + Drop>()
    ensures { StretchesJoin (sight_of D.Disk K.Keeper) }
{}

/// Two sequences in a row, seen call by call, are one sequence. The test says which events each call may write.
pub fn courses_join<D: Disk + Drop, K: Keeper + Drop>()
    ensures { CoursesJoin (sight_of D.Disk K.Keeper) }
{}

/// Two sequences of work in a row are one sequence of work.
pub fn work_goes_on<D: Disk + Drop, K: Keeper + Drop>()
    ensures { WorkGoesOn (sight_of D.Disk K.Keeper) }
{}

/// After a sequence of calls, a core stands for each history that it stood for, continued.
pub fn courses_stand<D: Disk + Drop, K: Keeper + Drop>()
    ensures { CoursesStand (sight_of D.Disk K.Keeper) }
{}

/// Over a sequence of calls time doesn't go back in any file, if the core stands for some history.
pub fn courses_take_time<D: Disk + Drop, K: Keeper + Drop>()
    ensures { CoursesTakeTime (sight_of D.Disk K.Keeper) }
{}

/// Each moment of a file during a sequence lies within one of its calls.
pub fn courses_are_whole<D: Disk + Drop, K: Keeper + Drop>()
    ensures { CoursesAreWhole (sight_of D.Disk K.Keeper) }
{}

/// After a sequence of calls, each image of the disks stands for the history at the start with a part of the added events. It may
/// also include one more record that one of the calls may write.
pub fn last_images_stand<D: Disk + Drop, K: Keeper + Drop>()
    ensures { LastImagesStand (sight_of D.Disk K.Keeper) }
{}
