//! Tells callers what holds of all tables. Its call does nothing when the program runs.
ghost use Rattle.std.specs.List.{AllByRecursion};
ghost use Rattle.fleet_tables.specs.Groups.{StandInOrder};
ghost use Rattle.kept_nodes.specs.Owned.{IsOwn};

use crate::state::State;
use crate::tables::Tables;

impl State {
    fn stand_by_certname(&self)
        ensures order { StandInOrder self.now.nodes }
        ensures own { AllByRecursion IsOwn self.now.nodes }
    {
        let _ = &self.groups;
    }
}

impl Tables {
    /// The nodes stand strictly sorted by certname, and what each has belongs to it.
    pub fn stand_by_certname(&self)
        ensures order { StandInOrder self.now.nodes }
        ensures own { AllByRecursion IsOwn self.now.nodes }
    {
        self.state.stand_by_certname();
    }
}
