//! Applied commands.
ghost use Rattle.std.specs.Prelude.{◌≡◌};
ghost use Rattle.fleet_rows.specs.Change.{change_stamp};

use crate::change::Change;
use crate::rank::Rank;
use stamp_time::Moment;

/// An applied command: its receipt, when it was received if known, and the change that it decodes to.
#[derive(Drop)]
pub struct Applied {
    /// The number under which the command was received, counted from 1.
    pub receipt: u64,
    pub received: Option<Moment>,
    pub change: Change,
}

impl Applied {
    /// The rank, which decides which command of a node and kind wins.
    pub fn rank(&self) -> Rank
        ensures stamp { result.stamp ≡ change_stamp self.now.change }
        ensures receipt { result.receipt ≡ self.now.receipt }
    {
        Rank {
            stamp: self.change.stamp(),
            receipt: self.receipt,
        }
    }
}
