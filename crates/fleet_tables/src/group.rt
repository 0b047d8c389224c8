//! Stores a group of neighbouring nodes.
//!
//! The tables keep their nodes by certname in groups. A new node, or one whose number of rows changes, moves and recounts only
//! the nodes of its group. Each node stores the numbers of rows before it in the group, so a binary search finds a row.
ghost use Rattle.std.specs.Prelude.{◌≡◌, ℕ, ℤ, ◌==◌, ◌<◌, ◌≤◌, ◌^◌, ◌+◌, ◌++◌, [], Option, false, length, map, take, drop, slice_get, IfOk, IfSome, OnErr};
ghost use Rattle.std.specs.List.{AllByRecursion};
ghost use Rattle.std.specs.Option.{option_and_then, option_map, option_map_or};
ghost use Rattle.checkpoint_spec.specs.fleet_rows.Change.{change_stamp, change_certname};
ghost use Rattle.checkpoint_spec.specs.fleet_rows.declared.settings.Ttls.{Ttls};
ghost use Rattle.checkpoint_spec.specs.stamp_time.Range.{IsStampMoment};
ghost use Rattle.checkpoint_spec.specs.history_spec.Trace.{applied_as};
ghost use Rattle.checkpoint_spec.specs.table_machine.Node.{node_inactive};
ghost use Rattle.checkpoint_spec.specs.table_machine.Rows.{node_rows};
ghost use Rattle.checkpoint_spec.specs.table_machine.Steps.{find_node, with_node, with_applied, with_retained};
ghost use Rattle.checkpoint_spec.specs.table_machine.Table as machine;
ghost use Rattle.row_cells.specs.Texts.{HasPrintableMoments};
ghost use Rattle.kept_nodes.specs.Counted.{IsCountedBefore, IsWithin, total_from, none, counts, count_of};
ghost use Rattle.fleet_tables.specs.Groups.{IsFilled, AreCountsOf, AreFew, HaveRow, rows_of, starts_above};
ghost use Rattle.kept_nodes.specs.Kept.{IsNode};
ghost use Rattle.kept_nodes.specs.Places.{nodes_in, seen_in, left_by_purge, InOrder, IsNodeFor, reports_of};
ghost use Rattle.kept_nodes.specs.ReportPlaces.{IsPlaceAmong};
ghost use Rattle.fleet_tables.specs.Rooms.{IsRoomAt, IsNewFor};
ghost use Rattle.kept_nodes.specs.Rows.{IsRowAt};
ghost use Rattle.kept_nodes.specs.Seen.{newest_rank, node_seen};

use crate::room::NewNode;
use fleet_rows::json_tree::Text;
use fleet_rows::stamp_time::Moment;
use fleet_rows::{Change, Entity, Kind, Rank, ReportChange, Row, Ttls};
use kept_nodes::{
    Counts, Derived, Node, count_from, insert_in_room, move_into, node_of_row, place_of,
    room_for_more,
};
use std::alloc::{AllocError, Global};
use std::marker::Model;

#[derive(Drop)]
pub(crate) struct Group {
    // Sorted by certname.
    pub(crate) nodes: Vec<Box<Node>>,
    pub(crate) total: Counts,
}

impl Model for Group {
    ghost use Rattle.std.specs.Prelude.{List};
    ghost use Rattle.std.specs.Coded.{codes, coded_list};
    ghost use Rattle.checkpoint_spec.specs.text_spec.JsonCode.{coded_json};
    ghost use Rattle.checkpoint_spec.specs.table_machine.Table.{Node};
    ghost use Rattle.kept_nodes.specs.Seen.{coded_node};
    ghost use Rattle.kept_nodes.specs.Kept.{AreNodes};
    ghost use Rattle.kept_nodes.specs.Places.{nodes_in, seen_in};

    ghost Value = { List Node };

    ghost coded = { coded_list (coded_node (Prim.hlevel (codes, coded_json))) };

    ghost view = { λ a. seen_in a.nodes.items };

    ghost invariant = { λ a. AreNodes (nodes_in a.nodes.items) a.total };
}

impl Group {
    /// A group without nodes. It allocates no memory.
    pub(crate) fn new(alloc: Global) -> Group
        ensures { result ≡ [] }
    {
        Group {
            nodes: Vec::new(alloc),
            total: Counts::none(),
        }
    }

    fn of(nodes: Vec<Box<Node>>) -> Group
        requires within { IsWithin (total_from none (nodes_in nodes.items)) }
        requires kept { AllByRecursion IsNode (nodes_in nodes.items) }
        requires order { InOrder (nodes_in nodes.items) }
        ensures { result ≡ seen_in nodes.items }
    {
        let mut nodes = nodes;
        let total = count_from(&mut nodes, 0);
        Group { nodes, total }
    }

    pub(crate) fn len(&self) -> usize
        ensures { result ≡ length self.now }
    {
        self.nodes.len()
    }

    pub(crate) fn is_empty(&self) -> bool
        ensures { result ≡ (length self.now == 0) }
    {
        self.nodes.is_empty()
    }

    /// The number of rows of each entity that the nodes have.
    pub(crate) fn counts(&self) -> Counts
        ensures { AreCountsOf result self.now }
    {
        self.total
    }

    /// The number of rows of this entity that the nodes have.
    pub(crate) fn count(&self, entity: Entity) -> usize
        ensures { (ttls : Ttls) (expiry : Option ℤ) → result ≡ length (rows_of entity ttls expiry self.now) }
    {
        self.total.of(entity)
    }

    /// Whether the first node is above the certname.
    pub(crate) fn starts_above(&self, certname: &str) -> bool
        ensures { result ≡ starts_above certname.now self.now }
    {
        match self.nodes.first() {
            Some(first) => first.certname.as_str().cmp(certname).is_gt(),
            None => false,
        }
    }

    /// The number of kept reports of the node with this certname, or None if it isn't here.
    pub(crate) fn reports(&self, certname: &Text) -> Option<usize>
        ensures value { result ≡ option_map (λ (node : machine.Node). length node.reports) (find_node certname.now self.now) }
        ensures bound { IfSome result (λ n. n < 2 ^ 63) }
    {
        match place_of(self.nodes.as_slice(), certname.as_str()) {
            Ok(at) => Some(self.nodes[at].reports.len()),
            Err(_) => None,
        }
    }

    /// The place of a report among those of its node.
    pub(crate) fn place_of_report(
        &self,
        alloc: Global,
        report: &ReportChange,
    ) -> Result<Result<usize, usize>, AllocError>
        requires { HasPrintableMoments report.now }
        ensures { IfOk result (IsPlaceAmong report.now (reports_of (find_node report.now.certname self.now))) }
    {
        match place_of(self.nodes.as_slice(), report.certname.as_str()) {
            Ok(at) => self.nodes[at].place_for_report(alloc, report),
            Err(_) => Ok(Err(0)),
        }
    }

    /// The rank of the newest command of this kind in the node's present life; None for reports.
    pub(crate) fn newest(&self, certname: &Text, kind: Kind) -> Option<Rank>
        ensures { result ≡ option_and_then (newest_rank kind) (find_node certname.now self.now) }
    {
        match place_of(self.nodes.as_slice(), certname.as_str()) {
            Ok(at) => self.nodes[at].newest(kind),
            Err(_) => None,
        }
    }

    /// Whether the node is deactivated or expired.
    pub(crate) fn inactive(&self, ttls: &Ttls, expiry: &Option<Moment>, certname: &Text) -> bool
        ensures { result ≡ option_map_or (node_inactive ttls.now expiry.now) (find_node certname.now self.now) false }
    {
        match place_of(self.nodes.as_slice(), certname.as_str()) {
            Ok(at) => self.nodes[at].is_inactive(ttls, expiry),
            Err(_) => false,
        }
    }

    /// Row i of an entity, in the order of its keys.
    pub(crate) fn row(
        &self,
        alloc: Global,
        ttls: &Ttls,
        expiry: &Option<Moment>,
        entity: Entity,
        i: usize,
    ) -> Result<Row, AllocError>
        requires { i < length (rows_of entity ttls.now expiry.now self.now) }
        ensures { IfOk result (λ row. IsRowAt row entity (rows_of entity ttls.now expiry.now self.now) i) }
    {
        match entity {
            Entity::Nodes => self.nodes[i].own_row(alloc, ttls, expiry),
            _ => {
                let (node, row) = self.node_at(entity, i);
                node.row(alloc, entity, row)
            }
        }
    }

    /// The node with row i of an entity other than `nodes`, and the index of the row among the node's rows.
    pub(crate) fn node_at(&self, entity: Entity, i: usize) -> (&Node, usize)
        requires { HaveRow entity i self.now }
        ensures kept { IsNode result.0.now }
        ensures within { result.1 < count_of entity (counts result.0.now) }
        ensures row { (ttls : Ttls) (expiry : Option ℤ)
            → slice_get (rows_of entity ttls expiry self.now) i ≡ slice_get (node_rows entity ttls expiry (node_seen result.0.now)) result.1 }
        ensures rows { (ttls : Ttls) (expiry : Option ℤ) (d : ℕ) → result.1 + d < count_of entity (counts result.0.now)
            → slice_get (rows_of entity ttls expiry self.now) (i + d) ≡ slice_get (node_rows entity ttls expiry (node_seen result.0.now)) (result.1 + d) }
    {
        let at = node_of_row(self.nodes.as_slice(), entity, i);
        let node: &Node = &self.nodes[at];
        (node, i - node.before.of(entity))
    }

    /// Applies a change for which room was made.
    pub(crate) fn apply(
        &mut self,
        ttls: &Ttls,
        retention: &Option<Moment>,
        shown: Derived,
        new: Option<NewNode>,
        receipt: u64,
        received: Option<Moment>,
        change: Change,
    )
        requires room { IsRoomAt shown new self.old change }
        requires stamp { IsStampMoment (change_stamp change) }
        requires retention { IfSome retention.now IsStampMoment }
        requires few { AreFew (with_node (change_certname change) (with_applied ttls.now retention.now (applied_as receipt received change)) self.old) }
        ensures { self.new ≡ with_node (change_certname change) (with_applied ttls.now retention.now (applied_as receipt received change)) self.old }
    {
        let from = apply_change(
            &mut self.nodes,
            ttls,
            retention,
            shown,
            new,
            receipt,
            received,
            change,
        );
        if let Some(at) = from {
            self.total = count_from(&mut self.nodes, at);
        }
    }

    /// Removes the nodes that a purge at this moment removes.
    pub(crate) fn purge(&mut self, ttls: &Ttls, m: Moment, expiry: &Option<Moment>)
        requires { IsStampMoment m }
        ensures { self.new ≡ left_by_purge ttls.now m expiry.now self.old }
    {
        purge_nodes(&mut self.nodes, ttls, m, expiry);
        self.total = count_from(&mut self.nodes, 0);
    }

    /// Removes the reports that a sweep of reports removes.
    pub(crate) fn retain(&mut self, ttls: &Ttls, retention: &Option<Moment>)
        requires { IfSome retention.now IsStampMoment }
        ensures { self.new ≡ map (with_retained ttls.now retention.now) self.old }
    {
        retain_reports(&mut self.nodes, ttls, retention);
        self.total = count_from(&mut self.nodes, 0);
    }

    /// Moves the upper half of the nodes into a new group, which has room for as many more. Without memory the group is
    /// unchanged.
    pub(crate) fn split(&mut self, alloc: Global) -> Result<Group, AllocError>
        requires { 2 ≤ length self.old }
        ensures nodes { IfOk result (λ upper. self.new ++ upper ≡ self.old) }
        ensures lower { IsFilled self.new }
        ensures upper { IfOk result IsFilled }
        ensures same { OnErr result (self.new ≡ self.old) }
    {
        let half = self.nodes.len() / 2;
        let upper = upper_half(&mut self.nodes, alloc, half)?;
        self.total = count_from(&mut self.nodes, half);
        Ok(Group::of(upper))
    }
}

// Moves the nodes from this index on into a new list, which has room for as many more.
fn upper_half(
    nodes: &mut Vec<Box<Node>>,
    alloc: Global,
    half: usize,
) -> Result<Vec<Box<Node>>, AllocError>
    requires { half ≤ length nodes.old.items }
    ensures lower { IfOk result (λ upper. nodes.new.items ≡ take half nodes.old.items) }
    ensures upper { IfOk result (λ upper. upper.items ≡ drop half nodes.old.items) }
    ensures same { OnErr result (nodes.new.items ≡ nodes.old.items) }
{
    let room = room_for_more(alloc, nodes.len() - half)?;
    let mut upper = nodes.split_off(half)?;
    move_into(&mut upper, room);
    Ok(upper)
}

// Applies a change. Returns the index from which rows must be recounted, or None if no number of rows changed.
fn apply_change(
    nodes: &mut Vec<Box<Node>>,
    ttls: &Ttls,
    retention: &Option<Moment>,
    shown: Derived,
    new: Option<NewNode>,
    receipt: u64,
    received: Option<Moment>,
    change: Change,
) -> Option<usize>
    requires order { InOrder (nodes_in nodes.old.items) }
    requires kept { AllByRecursion IsNode (nodes_in nodes.old.items) }
    requires room { IsRoomAt shown new (seen_in nodes.old.items) change }
    requires stamp { IsStampMoment (change_stamp change) }
    requires retention { IfSome retention.now IsStampMoment }
    ensures seen { seen_in nodes.new.items
        ≡ with_node (change_certname change) (with_applied ttls.now retention.now (applied_as receipt received change)) (seen_in nodes.old.items) }
    ensures kept { AllByRecursion IsNode (nodes_in nodes.new.items) }
    ensures counted { IsCountedBefore result (nodes_in nodes.old.items) (nodes_in nodes.new.items) }
{
    let came = new.is_some();
    let at = node_at(nodes, change.certname(), new);
    let changed = nodes[at].apply(ttls, retention, receipt, received, change, shown);
    (came || changed).then_some(at)
}

// The index of the node with this certname. Inserts the new node if there is none.
fn node_at(nodes: &mut Vec<Box<Node>>, certname: &Text, new: Option<NewNode>) -> usize
    requires order { InOrder (nodes_in nodes.old.items) }
    requires kept { AllByRecursion IsNode (nodes_in nodes.old.items) }
    requires new { IsNewFor new (find_node certname.now (seen_in nodes.old.items)) certname.now (length (seen_in nodes.old.items)) }
    ensures place { result < length nodes.new.items }
    ensures node { IsNodeFor certname.now (seen_in nodes.old.items) (seen_in nodes.new.items) result }
    ensures kept { AllByRecursion IsNode (nodes_in nodes.new.items) }
    ensures before { take result (nodes_in nodes.new.items) ≡ take result (nodes_in nodes.old.items) }
    ensures same { new ≡ None → nodes.new.items ≡ nodes.old.items }
{
    match place_of(nodes.as_slice(), certname.as_str()) {
        Ok(at) => at,
        Err(at) => {
            match new {
                Some(new) => insert_in_room(nodes, new.nodes, at, new.node),
                None => unreachable!(),
            }
            at
        }
    }
}

// Moves the remaining nodes to the front, in their order, and drops the others.
fn purge_nodes(nodes: &mut Vec<Box<Node>>, ttls: &Ttls, m: Moment, expiry: &Option<Moment>)
    requires kept { AllByRecursion IsNode (nodes_in nodes.old.items) }
    requires moment { IsStampMoment m }
    ensures seen { seen_in nodes.new.items ≡ left_by_purge ttls.now m expiry.now (seen_in nodes.old.items) }
    ensures kept { AllByRecursion IsNode (nodes_in nodes.new.items) }
{
    let left = gather_left(nodes.as_mut_slice(), ttls, m, expiry);
    nodes.truncate(left);
}

// Moves the remaining nodes to the front. Returns how many remain.
fn gather_left(nodes: &mut [Box<Node>], ttls: &Ttls, m: Moment, expiry: &Option<Moment>) -> usize
    requires kept { AllByRecursion IsNode (nodes_in nodes.old) }
    requires moment { IsStampMoment m }
    ensures seen { seen_in (take result nodes.new) ≡ left_by_purge ttls.now m expiry.now (seen_in nodes.old) }
    ensures kept { AllByRecursion IsNode (nodes_in (take result nodes.new)) }
{
    let mut left = 0;
    'gathering: for at in 0..nodes.len() {
        if !nodes[at].is_purged(ttls, m, expiry) {
            nodes.swap(left, at);
            left += 1;
        }
    }
    left
}

fn retain_reports(nodes: &mut Vec<Box<Node>>, ttls: &Ttls, retention: &Option<Moment>)
    requires kept { AllByRecursion IsNode (nodes_in nodes.old.items) }
    requires retention { IfSome retention.now IsStampMoment }
    ensures seen { seen_in nodes.new.items ≡ map (with_retained ttls.now retention.now) (seen_in nodes.old.items) }
    ensures kept { AllByRecursion IsNode (nodes_in nodes.new.items) }
{
    retain_each(nodes.as_mut_slice(), ttls, retention);
}

fn retain_each(nodes: &mut [Box<Node>], ttls: &Ttls, retention: &Option<Moment>)
    requires kept { AllByRecursion IsNode (nodes_in nodes.old) }
    requires retention { IfSome retention.now IsStampMoment }
    ensures seen { seen_in nodes.new ≡ map (with_retained ttls.now retention.now) (seen_in nodes.old) }
    ensures kept { AllByRecursion IsNode (nodes_in nodes.new) }
{
    'sweeping: for node in nodes {
        node.retain(ttls, retention);
    }
}
