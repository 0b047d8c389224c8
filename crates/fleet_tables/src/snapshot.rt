//! Lists the checkpoint of the tables.
ghost use Rattle.std.specs.Prelude.{◌≡◌, ◌++◌, map, flat_map, OnOk, IfOk};
ghost use Rattle.checkpoint_spec.specs.history_spec.Trace.{Trace};
ghost use Rattle.checkpoint_spec.specs.Histories.{checkpoint};
ghost use Rattle.checkpoint_spec.specs.Lists.{commands_of, list_of, mark_of};
ghost use Rattle.fleet_tables.specs.Groups.{joined};
ghost use Rattle.fleet_tables.specs.Listed.{IsLawfulList};
ghost use Rattle.fleet_tables.specs.Stands.{Stands};

use crate::group::Group;
use crate::state::State;
use crate::tables::Tables;
use fleet_rows::{Kepts, Marks, StoreList};
use kept_nodes::{push_commands, push_marks};
use std::alloc::{AllocError, Global};

impl Tables {
    /// The checkpoint of the tables: the lifetimes and the greatest moments of sweeps, then the nodes by certname. Each node has
    /// its mark, its newest command of each kind except reports, and its kept reports by rank. The list is a copy.
    pub fn snapshot(&self) -> Result<StoreList, AllocError>
        ensures value { IfOk result (λ list. list ≡ list_of self.now) }
        ensures stands { (history : Trace) → Stands self.now history
            → IfOk result (λ list. list ≡ checkpoint self.now.ttls history) }
        ensures lawful { (history : Trace) → Stands self.now history → IfOk result IsLawfulList }
    {
        self.state.snapshot(self.alloc)
    }
}

impl State {
    fn snapshot(&self, alloc: Global) -> Result<StoreList, AllocError>
        ensures { IfOk result (λ list. list ≡ list_of self.now) }
    {
        let marks = marks_of(alloc, self.groups.as_slice())?;
        let applied = commands_in(alloc, self.groups.as_slice())?;
        Ok(StoreList {
            ttls: self.ttls,
            expire: self.expiry,
            retain: self.retention,
            marks,
            applied,
        })
    }
}

// ---- marks

fn marks_of(alloc: Global, groups: &[Group]) -> Result<Marks, AllocError>
    ensures { IfOk result (λ marks. marks ≡ map mark_of (joined groups.now)) }
{
    let mut marks = Marks::new(alloc);
    'listing: for group in groups {
        group.push_marks(alloc, &mut marks)?;
    }
    Ok(marks)
}

impl Group {
    fn push_marks(&self, alloc: Global, marks: &mut Marks) -> Result<(), AllocError>
        ensures { OnOk result (marks.new ≡ marks.old ++ map mark_of self.now) }
    {
        push_marks(alloc, self.nodes.as_slice(), marks)
    }

    fn push_commands(&self, alloc: Global, commands: &mut Kepts) -> Result<(), AllocError>
        ensures { OnOk result (commands.new ≡ commands.old ++ flat_map commands_of self.now) }
    {
        push_commands(alloc, self.nodes.as_slice(), commands)
    }
}

// ---- commands

fn commands_in(alloc: Global, groups: &[Group]) -> Result<Kepts, AllocError>
    ensures { IfOk result (λ commands. commands ≡ flat_map commands_of (joined groups.now)) }
{
    let mut commands = Kepts::new(alloc);
    'listing: for group in groups {
        group.push_commands(alloc, &mut commands)?;
    }
    Ok(commands)
}
