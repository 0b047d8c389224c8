//! An entry of the tree, with its mark.
ghost use Rattle.std.specs.Prelude.{◌≡◌};
ghost use Rattle.entry_tree.specs.Waits.{MayChange, changed_by};

use core_machine::core_spec::Entry;

/// A pending command, and whether it is a candidate.
#[derive(Drop)]
pub struct Waiting {
    pub entry: Entry,
    /// The group and timestamp of the command, if it has a group.
    pub key: Option<GroupKey>,
    pub candidate: bool,
}

/// The text of a group, and the producer timestamp in nanoseconds since 1970.
#[derive(Drop)]
pub struct GroupKey {
    pub text: String,
    pub stamp: i128,
}

/// A change of an entry.
#[derive(Clone, Copy)]
pub enum Change {
    /// Sets whether it is claimed.
    Claimed(bool),
    /// Counts one more failure of the store.
    Failed,
    /// Sets whether it is a candidate.
    Candidate(bool),
}

impl Waiting {
    pub(crate) fn change(&mut self, change: Change)
        requires { MayChange change self.old }
        ensures { self.new ≡ changed_by change self.old }
    {
        match change {
            Change::Claimed(claimed) => self.entry.claimed = claimed,
            Change::Failed => self.entry.attempts += 1,
            Change::Candidate(candidate) => self.candidate = candidate,
        }
    }
}
