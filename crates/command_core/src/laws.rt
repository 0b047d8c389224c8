//! States a law on files, as the contract of a function with an empty body.
ghost use Rattle.command_core.specs.Laid.{LaidFilesStand, LaidFilesAreUndamaged};

/// Files that [`lay_core`](crate::lay_core) leaves can be opened. If files stand for a history by the spelling of their records,
/// then reading them gives the same history, and they have no damage.
pub fn laid_files_can_be_opened()
    ensures stand { LaidFilesStand }
    ensures undamaged { LaidFilesAreUndamaged }
{}
