//! Sets what a checkpoint tells besides commands: the greatest sweeps, and the greatest activity of each node.
ghost use Rattle.std.specs.Prelude.{◌≡◌, ◌<◌, [], length, OnOk, OnErr, IfOk, IfSome};
ghost use Rattle.std.specs.List.{AllByRecursion};
ghost use Rattle.checkpoint_spec.specs.stamp_time.Range.{IsStampMoment};
ghost use Rattle.checkpoint_spec.specs.table_machine.Steps.{with_node};
ghost use Rattle.checkpoint_spec.specs.Lists.{marked};
ghost use Rattle.kept_nodes.specs.Seen.{with_activity};
ghost use Rattle.fleet_tables.specs.Listed.{with_sweeps};
ghost use Rattle.kept_nodes.specs.Counted.{IsWithin, counts, none};
ghost use Rattle.fleet_tables.specs.Groups.{joined, IsFilled, StandInOrder, AreCountsOf, AreFew};

use crate::group::Group;
use crate::groups::group_of;
use crate::state::State;
use fleet_rows::Mark;
use fleet_rows::json_tree::Text;
use fleet_rows::stamp_time::Moment;
use kept_nodes::{Counts, count_from, mark_in};
use std::alloc::{AllocError, Global};

impl Group {
    // Sets the activity of the node with this certname, and inserts the node if it is missing.
    fn mark(
        &mut self,
        alloc: Global,
        certname: &Text,
        active: Option<Moment>,
    ) -> Result<(), AllocError>
        requires active { IfSome active IsStampMoment }
        requires few { AreFew (with_node certname.now (with_activity active) self.old) }
        ensures marked { OnOk result (self.new ≡ with_node certname.now (with_activity active) self.old) }
        ensures same { OnErr result (self.new ≡ self.old) }
    {
        let from = mark_in(&mut self.nodes, alloc, certname, active)?;
        match from {
            Some(at) => {
                self.total = count_from(&mut self.nodes, at);
                Ok(())
            }
            None => Ok(()),
        }
    }
}

// A group with only this node.
fn first_marked(alloc: Global, certname: &Text, active: Option<Moment>) -> Result<Group, AllocError>
    requires { IfSome active IsStampMoment }
    ensures { IfOk result (λ group. group ≡ with_node certname.now (with_activity active) []) }
{
    let mut group = Group::new(alloc);
    group.mark(alloc, certname, active)?;
    Ok(group)
}

// Adds the first group, with only this node. Returns the numbers of its rows.
fn mark_first(
    groups: &mut Vec<Group>,
    alloc: Global,
    certname: &Text,
    active: Option<Moment>,
) -> Result<Counts, AllocError>
    requires empty { groups.old.items ≡ [] }
    requires active { IfSome active IsStampMoment }
    ensures nodes { OnOk result (joined groups.new.items ≡ with_node certname.now (with_activity active) (joined groups.old.items)) }
    ensures filled { OnOk result (AllByRecursion IsFilled groups.new.items) }
    ensures rows { IfOk result (λ total. AreCountsOf total (joined groups.new.items)) }
    ensures within { IfOk result IsWithin }
    ensures same { OnErr result (groups.new.items ≡ groups.old.items) }
{
    let group = first_marked(alloc, certname, active)?;
    let total = group.counts();
    groups.push(group)?;
    Ok(total)
}

// Sets the activity in the group for this certname. `total` has the numbers of rows before; the result has those after.
fn mark_among(
    groups: &mut Vec<Group>,
    total: &Counts,
    alloc: Global,
    certname: &Text,
    active: Option<Moment>,
) -> Result<Counts, AllocError>
    requires some { 0 < length groups.old.items }
    requires order { StandInOrder (joined groups.old.items) }
    requires filled { AllByRecursion IsFilled groups.old.items }
    requires active { IfSome active IsStampMoment }
    requires total { AreCountsOf total.now (joined groups.old.items) }
    requires few { AreFew (with_node certname.now (with_activity active) (joined groups.old.items)) }
    ensures nodes { OnOk result (joined groups.new.items ≡ with_node certname.now (with_activity active) (joined groups.old.items)) }
    ensures filled { OnOk result (AllByRecursion IsFilled groups.new.items) }
    ensures rows { IfOk result (λ total. AreCountsOf total (joined groups.new.items)) }
    ensures within { IfOk result IsWithin }
    ensures same { OnErr result (groups.new.items ≡ groups.old.items) }
{
    let at = group_of(groups.as_slice(), certname.as_str());
    let group = &mut groups[at];
    let others = total.without(&group.counts());
    group.mark(alloc, certname, active)?;
    Ok(others.plus(&group.counts()))
}

// Sets the activity among all groups, of which there may be none.
fn mark_all(
    groups: &mut Vec<Group>,
    total: &Counts,
    alloc: Global,
    certname: &Text,
    active: Option<Moment>,
) -> Result<Counts, AllocError>
    requires order { StandInOrder (joined groups.old.items) }
    requires filled { AllByRecursion IsFilled groups.old.items }
    requires active { IfSome active IsStampMoment }
    requires total { AreCountsOf total.now (joined groups.old.items) }
    requires few { AreFew (with_node certname.now (with_activity active) (joined groups.old.items)) }
    ensures nodes { OnOk result (joined groups.new.items ≡ with_node certname.now (with_activity active) (joined groups.old.items)) }
    ensures filled { OnOk result (AllByRecursion IsFilled groups.new.items) }
    ensures rows { IfOk result (λ total. AreCountsOf total (joined groups.new.items)) }
    ensures within { IfOk result IsWithin }
    ensures same { OnErr result (groups.new.items ≡ groups.old.items) }
{
    if groups.is_empty() {
        mark_first(groups, alloc, certname, active)
    } else {
        mark_among(groups, total, alloc, certname, active)
    }
}

// The rows of a node of which only the activity is known: one row of `nodes`.
fn one_node() -> Counts
    ensures { result ≡ record none { nodes = 1 } }
{
    Counts {
        nodes: 1,
        ..Counts::none()
    }
}

impl State {
    /// Sets the greatest moments of sweeps.
    pub(crate) fn set_sweeps(&mut self, expire: Option<Moment>, retain: Option<Moment>)
        requires expire { IfSome expire IsStampMoment }
        requires retain { IfSome retain IsStampMoment }
        ensures { self.new ≡ with_sweeps expire retain self.old }
    {
        self.expiry = expire;
        self.retention = retain;
    }

    /// Sets the activity of the mark's node. On an error the state is unchanged. More than 2^62 nodes, which no memory holds,
    /// count as missing memory.
    pub(crate) fn mark(&mut self, alloc: Global, mark: &Mark) -> Result<(), AllocError>
        requires { IfSome mark.now.active IsStampMoment }
        ensures ok { OnOk result (self.new ≡ marked mark.now self.old) }
        ensures same { OnErr result (self.new ≡ self.old) }
    {
        self.split_for(alloc, &mark.certname)?;
        self.mark_there(alloc, mark)
    }

    // Sets the activity without splitting the node's group first.
    fn mark_there(&mut self, alloc: Global, mark: &Mark) -> Result<(), AllocError>
        requires { IfSome mark.now.active IsStampMoment }
        ensures ok { OnOk result (self.new ≡ marked mark.now self.old) }
        ensures same { OnErr result (self.new ≡ self.old) }
    {
        if !self.total.has_room(&one_node()) {
            return Err(AllocError);
        }
        let total = mark_all(
            &mut self.groups,
            &self.total,
            alloc,
            &mark.certname,
            mark.active,
        )?;
        self.total = total;
        self.starts.clear();
        Ok(())
    }
}
