//! The rank, which decides which of two commands wins.
ghost use Rattle.std.specs.Prelude.{◌≡◌};
ghost use Rattle.fleet_rows.specs.Rank.{rank_cmp};

use stamp_time::Moment;
use std::cmp::Ordering;

/// The rank of a command. Of two commands of one node and kind, the one with the greater rank wins.
#[derive(Clone, Copy, PartialEq, Eq, Debug)]
pub struct Rank {
    /// The producer's timestamp.
    pub stamp: Moment,
    /// The number under which the command was received, counted from 1.
    pub receipt: u64,
}

impl Rank {
    /// Compares by stamp, then by receipt.
    pub fn order(&self, other: &Rank) -> Ordering
        ensures { result ≡ rank_cmp self.now other.now }
    {
        match self.stamp.cmp(&other.stamp) {
            Ordering::Equal => self.receipt.cmp(&other.receipt),
            unequal => unequal,
        }
    }
}
