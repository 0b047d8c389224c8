//! Finds the group of a certname or a row, and applies steps to all groups.
ghost use Rattle.std.specs.Prelude.{◌≡◌, ◌<◌, ◌≤◌, ◌+◌, ◌∷◌, [], length, map, take, drop, slice_get, Some, List, IfOk, IfSome};
ghost use Rattle.std.specs.List.{AllByRecursion};
ghost use Rattle.std.specs.Option.{option_and_then};
ghost use Rattle.checkpoint_spec.specs.fleet_rows.Change.{change_stamp, change_certname};
ghost use Rattle.checkpoint_spec.specs.stamp_time.Range.{IsStampMoment};
ghost use Rattle.checkpoint_spec.specs.history_spec.Trace.{applied_as};
ghost use Rattle.checkpoint_spec.specs.table_machine.Steps.{find_node, with_node, with_applied, with_retained};
ghost use Rattle.checkpoint_spec.specs.table_machine.Table.{Node as MachineNode};
ghost use Rattle.kept_nodes.specs.Counted.{IsWithin};
ghost use Rattle.kept_nodes.specs.declared.counts.Counts.{Counts as Rows};
ghost use Rattle.fleet_tables.specs.Groups.{joined, IsFilled, AreFilledOrOne, StandInOrder, AreBefore, AreCountsOf, AreFew};
ghost use Rattle.fleet_tables.specs.Groups.{AreStarts, HaveRow, IsRowOf, AreBelow, AreAbove};
ghost use Rattle.kept_nodes.specs.Places.{left_by_purge};
ghost use Rattle.fleet_tables.specs.Rooms.{IsRoomAt, IsFirstFor};

use crate::group::Group;
use crate::room::NewNode;
use fleet_rows::json_tree::Text;
use fleet_rows::stamp_time::Moment;
use fleet_rows::{Change, Entity, Ttls};
use kept_nodes::{Counts, Derived, insert_in_room, room_for_more};
use std::alloc::{AllocError, Global};

// The number of nodes at which a group is split before it is changed.
const MOST: usize = 256;

/// The index of the group for a node with this certname: the last group that doesn't start above it.
pub(crate) fn group_of(groups: &[Group], certname: &str) -> usize
    requires some { 0 < length groups.now }
    requires order { StandInOrder (joined groups.now) }
    requires filled { AreFilledOrOne groups.now }
    ensures place { result < length groups.now }
    ensures below { AreBelow certname.now (joined (take result groups.now)) }
    ensures above { AreAbove certname.now (joined (drop (result + 1) groups.now)) }
{
    let mut low = 0;
    let mut high = groups.len();
    'halves: while high - low > 1 {
        let middle = low + (high - low) / 2;
        if groups[middle].starts_above(certname) {
            high = middle;
        } else {
            low = middle;
        }
    }
    low
}

/// The group for this certname, or None if there are no groups.
pub(crate) fn group_with<'a>(groups: &'a [Group], certname: &Text) -> Option<&'a Group>
    requires order { StandInOrder (joined groups.now) }
    requires filled { AreFilledOrOne groups.now }
    ensures { option_and_then (λ group. find_node certname.now group.now) result ≡ find_node certname.now (joined groups.now) }
{
    if groups.is_empty() {
        return None;
    }
    Some(&groups[group_of(groups, certname.as_str())])
}

/// The index of the group with row i of an entity, and the row's index within the group. `starts` has the numbers of rows before
/// each of the first groups; behind them the groups are counted one by one.
pub(crate) fn group_of_row(
    groups: &[Group],
    starts: &[Counts],
    entity: Entity,
    i: usize,
) -> (usize, usize)
    requires starts { AreStarts starts.now groups.now }
    requires row { HaveRow entity i (joined groups.now) }
    ensures place { result.0 < length groups.now }
    ensures row { (group : List MachineNode) → slice_get groups.now result.0 ≡ Some group → IsRowOf entity (joined groups.now) i group result.1 }
{
    let (first, before) = start_of_row(starts, entity, i);
    let mut behind = i - before;
    'passing: for at in first..groups.len() {
        let count = groups[at].count(entity);
        if behind < count {
            return (at, behind);
        }
        behind -= count;
    }
    unreachable!()
}

// The last entry with at most i rows before its group: its place, and this number of rows.
fn start_of_row(starts: &[Counts], entity: Entity, i: usize) -> (usize, usize)
    ensures within { result.1 ≤ i }
    ensures before { (groups : List (List MachineNode)) → AreStarts starts.now groups → AreBefore entity groups result.0 result.1 }
{
    let mut low = 0;
    let mut before = 0;
    let mut high = starts.len();
    'halves: while high - low > 1 {
        let middle = low + (high - low) / 2;
        let count = starts[middle].of(entity);
        if count <= i {
            low = middle;
            before = count;
        } else {
            high = middle;
        }
    }
    (low, before)
}

/// Counts the rows before each group for which `starts` has no entry yet.
pub(crate) fn fill_starts(starts: &mut Vec<Counts>, groups: &[Group]) -> Result<(), AllocError>
    requires few { AreFew (joined groups.now) }
    requires starts { AreStarts starts.old.items groups.now }
    ensures { AreStarts starts.new.items groups.now }
{
    'filling: for at in starts.len()..groups.len() {
        let next = next_start(starts.as_slice(), groups);
        starts.push(next)?;
    }
    Ok(())
}

// The numbers of rows before the group behind those that have an entry.
fn next_start(starts: &[Counts], groups: &[Group]) -> Counts
    requires few { AreFew (joined groups.now) }
    requires starts { AreStarts starts.now groups.now }
    requires within { length starts.now ≤ length groups.now }
    ensures { AreCountsOf result (joined (take (length starts.now) groups.now)) }
{
    if starts.is_empty() {
        return Counts::none();
    }
    let last = starts.len() - 1;
    let known = starts[last];
    known.plus(&groups[last].counts())
}

/// The numbers of rows of all nodes.
pub(crate) fn rows_in(groups: &[Group]) -> Counts
    requires { AreFew (joined groups.now) }
    ensures rows { AreCountsOf result (joined groups.now) }
    ensures within { IsWithin result }
{
    let mut total = Counts::none();
    'adding: for group in groups {
        total = total.plus(&group.counts());
    }
    total
}

/// A list with one empty group for the first node. If there are nodes, the list isn't used.
pub(crate) fn first_group(alloc: Global, groups: &[Group]) -> Result<Vec<Group>, AllocError>
    ensures { IfOk result (λ first. groups.now ≡ [] → first.items ≡ [] ∷ []) }
{
    let mut first = Vec::new(alloc);
    if groups.is_empty() {
        first.push(Group::new(alloc))?;
    }
    Ok(first)
}

/// Splits the group for this certname if it has at least `MOST` nodes. Without memory the nodes are unchanged.
pub(crate) fn split_for(
    groups: &mut Vec<Group>,
    starts: &mut Vec<Counts>,
    alloc: Global,
    certname: &Text,
) -> Result<(), AllocError>
    requires order { StandInOrder (joined groups.old.items) }
    requires filled { AllByRecursion IsFilled groups.old.items }
    requires starts { AreStarts starts.old.items groups.old.items }
    ensures same { joined groups.new.items ≡ joined groups.old.items }
    ensures filled { AllByRecursion IsFilled groups.new.items }
    ensures starts { AreStarts starts.new.items groups.new.items }
{
    if groups.is_empty() {
        return Ok(());
    }
    let at = group_of(groups.as_slice(), certname.as_str());
    if groups[at].len() < MOST {
        return Ok(());
    }
    starts.truncate(at + 1);
    split_at(groups, alloc, at)
}

fn split_at(groups: &mut Vec<Group>, alloc: Global, at: usize) -> Result<(), AllocError>
    requires place { at < length groups.old.items }
    requires long { (group : List MachineNode) → slice_get groups.old.items at ≡ Some group → 2 ≤ length group }
    requires filled { AllByRecursion IsFilled groups.old.items }
    ensures same { joined groups.new.items ≡ joined groups.old.items }
    ensures filled { AllByRecursion IsFilled groups.new.items }
    ensures before { take at groups.new.items ≡ take at groups.old.items }
{
    let room = room_for_more(alloc, groups.len())?;
    let upper = groups[at].split(alloc)?;
    insert_in_room(groups, room, at + 1, upper);
    Ok(())
}

/// Takes the first group from the room if there is no group.
pub(crate) fn begin(groups: &mut Vec<Group>, first: Vec<Group>)
    requires first { IsFirstFor first.items (joined groups.old.items) }
    requires filled { AllByRecursion IsFilled groups.old.items }
    ensures some { 0 < length groups.new.items }
    ensures same { joined groups.new.items ≡ joined groups.old.items }
    ensures filled { AreFilledOrOne groups.new.items }
    ensures starts { (starts : List Rows) → AreStarts starts groups.old.items → AreStarts starts groups.new.items }
{
    if groups.is_empty() {
        *groups = first;
    }
}

/// Applies a change for which room was made. `total` has the numbers of rows before. Returns the index of the group that changed,
/// and the numbers of rows after.
pub(crate) fn apply_change(
    groups: &mut Vec<Group>,
    total: &Counts,
    ttls: &Ttls,
    retention: &Option<Moment>,
    shown: Derived,
    new: Option<NewNode>,
    receipt: u64,
    received: Option<Moment>,
    change: Change,
) -> (usize, Counts)
    requires some { 0 < length groups.old.items }
    requires order { StandInOrder (joined groups.old.items) }
    requires filled { AreFilledOrOne groups.old.items }
    requires room { IsRoomAt shown new (joined groups.old.items) change }
    requires stamp { IsStampMoment (change_stamp change) }
    requires retention { IfSome retention.now IsStampMoment }
    requires total { AreCountsOf total.now (joined groups.old.items) }
    requires few { AreFew (with_node (change_certname change) (with_applied ttls.now retention.now (applied_as receipt received change))
        (joined groups.old.items)) }
    ensures nodes { joined groups.new.items
        ≡ with_node (change_certname change) (with_applied ttls.now retention.now (applied_as receipt received change)) (joined groups.old.items) }
    ensures filled { AllByRecursion IsFilled groups.new.items }
    ensures rows { AreCountsOf result.1 (joined groups.new.items) }
    ensures within { IsWithin result.1 }
    ensures place { result.0 < length groups.new.items }
    ensures before { take result.0 groups.new.items ≡ take result.0 groups.old.items }
{
    let at = group_of(groups.as_slice(), change.certname().as_str());
    let group = &mut groups[at];
    let others = total.without(&group.counts());
    group.apply(ttls, retention, shown, new, receipt, received, change);
    (at, others.plus(&group.counts()))
}

/// Removes the nodes that a purge at this moment removes, and the groups that are empty afterwards.
pub(crate) fn purge(groups: &mut Vec<Group>, ttls: &Ttls, m: Moment, expiry: &Option<Moment>)
    requires { IsStampMoment m }
    ensures nodes { joined groups.new.items ≡ left_by_purge ttls.now m expiry.now (joined groups.old.items) }
    ensures filled { AllByRecursion IsFilled groups.new.items }
{
    purge_all(groups, ttls, m, expiry);
    groups.retain(|group| !group.is_empty());
}

fn purge_all(groups: &mut Vec<Group>, ttls: &Ttls, m: Moment, expiry: &Option<Moment>)
    requires { IsStampMoment m }
    ensures { groups.new.items ≡ map (left_by_purge ttls.now m expiry.now) groups.old.items }
{
    purge_each(groups.as_mut_slice(), ttls, m, expiry);
}

fn purge_each(groups: &mut [Group], ttls: &Ttls, m: Moment, expiry: &Option<Moment>)
    requires { IsStampMoment m }
    ensures { groups.new ≡ map (left_by_purge ttls.now m expiry.now) groups.old }
{
    'sweeping: for group in groups {
        group.purge(ttls, m, expiry);
    }
}

/// Removes the reports that a sweep of reports removes.
pub(crate) fn retain(groups: &mut Vec<Group>, ttls: &Ttls, retention: &Option<Moment>)
    requires retention { IfSome retention.now IsStampMoment }
    requires filled { AllByRecursion IsFilled groups.old.items }
    ensures nodes { joined groups.new.items ≡ map (with_retained ttls.now retention.now) (joined groups.old.items) }
    ensures filled { AllByRecursion IsFilled groups.new.items }
{
    retain_all(groups, ttls, retention);
}

fn retain_all(groups: &mut Vec<Group>, ttls: &Ttls, retention: &Option<Moment>)
    requires { IfSome retention.now IsStampMoment }
    ensures { groups.new.items ≡ map (map (with_retained ttls.now retention.now)) groups.old.items }
{
    retain_each(groups.as_mut_slice(), ttls, retention);
}

fn retain_each(groups: &mut [Group], ttls: &Ttls, retention: &Option<Moment>)
    requires { IfSome retention.now IsStampMoment }
    ensures { groups.new ≡ map (map (with_retained ttls.now retention.now)) groups.old }
{
    'sweeping: for group in groups {
        group.retain(ttls, retention);
    }
}
