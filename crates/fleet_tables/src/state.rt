//! Stores the data of the tables, without an allocator of their own.
ghost use Rattle.std.specs.Prelude.{◌≡◌, ℕ, ◌<◌, ◌+◌, ◌^◌, length, slice_get, Some, None, IfOk, IfErr, IfSome, OnOk};
ghost use Rattle.std.specs.Option.{option_map};
ghost use Rattle.checkpoint_spec.specs.stamp_time.Range.{IsStampMoment};
ghost use Rattle.checkpoint_spec.specs.fleet_rows.Change.{change_certname};
ghost use Rattle.checkpoint_spec.specs.history_spec.Lawful.{IsChange};
ghost use Rattle.checkpoint_spec.specs.history_spec.Trace.{applied_as};
ghost use Rattle.checkpoint_spec.specs.table_machine.Rows.{node_rows, table_rows};
ghost use Rattle.checkpoint_spec.specs.table_machine.Steps.{empty_table, apply, expire, purge, retain, find_node};
ghost use Rattle.checkpoint_spec.specs.table_machine.Table as machine;
ghost use Rattle.row_cells.specs.Texts.{HasPrintableMoments};
ghost use Rattle.fleet_tables.specs.Asked.{newest_in, is_inactive_in};
ghost use Rattle.kept_nodes.specs.Counted.{IsWithin, plus, counts, count_of, counts_changed};
ghost use Rattle.kept_nodes.specs.Kept.{IsNode};
ghost use Rattle.kept_nodes.specs.Places.{reports_of};
ghost use Rattle.kept_nodes.specs.ReportPlaces.{IsPlaceAmong, IsPlaceFor};
ghost use Rattle.kept_nodes.specs.Computed.{IsShownOf};
ghost use Rattle.fleet_tables.specs.Rooms.{room_for, IsSpare, IsNew, IsNewFor};
ghost use Rattle.kept_nodes.specs.Rows.{IsRowAt};
ghost use Rattle.kept_nodes.specs.Seen.{node_seen};

use crate::group::Group;
use crate::groups;
use crate::room::{NewNode, Room, Spare};
use fleet_rows::json_tree::Text;
use fleet_rows::stamp_time::Moment;
use fleet_rows::{Change, Entity, Kind, Rank, ReportChange, Row, Ttls};
use kept_nodes::{Counts, Derived, Node, later, room_for_more, room_for_reports};
use std::alloc::{AllocError, Global};
use std::marker::Model;
use std::snapshot::Snapshot;

/// The newest commands of each node and its kept reports. It holds no allocator except those of its lists. So a call without an
/// allocator takes memory only if a list grows.
#[derive(Drop)]
pub(crate) struct State {
    pub(crate) ttls: Ttls,
    pub(crate) expiry: Option<Moment>,
    pub(crate) retention: Option<Moment>,
    // Sorted by certname.
    pub(crate) groups: Vec<Group>,
    pub(crate) total: Counts,
    // The numbers of rows before each of the first groups. A change cuts the list behind its group, and `prepare` fills it.
    pub(crate) starts: Vec<Counts>,
}

impl Model for State {
    ghost use Rattle.std.specs.Coded.{codes};
    ghost use Rattle.std.proofs.Props.{props};
    ghost use Rattle.checkpoint_spec.specs.text_spec.JsonCode.{coded_json};
    ghost use Rattle.checkpoint_spec.specs.table_machine.Table.{Table};
    ghost use Rattle.kept_nodes.specs.Seen.{coded_table};
    ghost use Rattle.fleet_tables.specs.Groups.{joined, AreKept};

    ghost Value = { Table };

    ghost coded = { coded_table (Prim.hlevel (codes, coded_json)) (Prim.hlevel (codes, props)) };

    ghost view = { λ a. record { ttls = a.ttls; expiry = a.expiry; retention = a.retention; nodes = joined a.groups.items } };

    ghost invariant = { λ a. AreKept a.expiry a.retention a.groups.items a.total a.starts.items };
}

impl State {
    /// State without nodes. `groups` is empty.
    pub(crate) fn new(alloc: Global, ttls: Ttls) -> State
        ensures { result ≡ empty_table ttls }
    {
        State {
            ttls,
            expiry: None,
            retention: None,
            groups: Vec::new(alloc),
            total: Counts::none(),
            starts: Vec::new(alloc),
        }
    }

    /// Splits a long group before a node with this certname changes, so that few other nodes move. The value is unchanged.
    pub(crate) fn split_for(&mut self, alloc: Global, certname: &Text) -> Result<(), AllocError>
        ensures { self.new ≡ self.old }
    {
        groups::split_for(&mut self.groups, &mut self.starts, alloc, certname)
    }

    /// Makes room for a change. On an error the computed values are given back.
    pub(crate) fn room_for(
        &self,
        alloc: Global,
        change: &Change,
        shown: Derived,
    ) -> Result<Room, Derived>
        requires { IsShownOf shown change.now }
        ensures room { IfOk result (λ room. room ≡ room_for self.now change.now) }
        ensures given { IfErr result (λ given. given ≡ shown) }
    {
        match self.spare_for(alloc, change, &shown) {
            Ok(spare) => {
                let Spare {
                    reports,
                    place,
                    new,
                    first,
                } = spare;
                Ok(Room {
                    shown: shown.with_reports(reports, place),
                    new,
                    first,
                    tables: Snapshot::of(self),
                    change: Snapshot::of(change),
                })
            }
            Err(_) => Err(shown),
        }
    }

    // The memory that the change takes in this state.
    fn spare_for(
        &self,
        alloc: Global,
        change: &Change,
        shown: &Derived,
    ) -> Result<Spare, AllocError>
        requires { IsShownOf shown.now change.now }
        ensures { IfOk result (λ spare. IsSpare spare shown.now self.now change.now) }
    {
        check_total(&self.total, change)?;
        let found = self.reports_of(change.certname());
        let reports = room_for_reports(alloc, shown, found.unwrap_or(0))?;
        let place = self.place_for(alloc, change, shown)?;
        let new = new_for(alloc, found, change.certname(), self.total.nodes)?;
        let first = groups::first_group(alloc, self.groups.as_slice())?;
        Ok(Spare {
            reports,
            place,
            new,
            first,
        })
    }

    // The place of a report among those of its node. Other changes have none.
    fn place_for(
        &self,
        alloc: Global,
        change: &Change,
        shown: &Derived,
    ) -> Result<Result<usize, usize>, AllocError>
        requires { IsShownOf shown.now change.now }
        ensures { IfOk result (IsPlaceFor change.now (reports_of (find_node (change_certname change.now) self.now.nodes))) }
    {
        match change {
            Change::Report(report) => self.report_place(alloc, report),
            Change::Facts(_) | Change::Catalog(_) => Ok(Err(0)),
            Change::Deactivate(_) | Change::Expiration(_) => Ok(Err(0)),
        }
    }

    fn report_place(
        &self,
        alloc: Global,
        report: &ReportChange,
    ) -> Result<Result<usize, usize>, AllocError>
        requires { HasPrintableMoments report.now }
        ensures { IfOk result (IsPlaceAmong report.now (reports_of (find_node report.now.certname self.now.nodes))) }
    {
        match groups::group_with(self.groups.as_slice(), &report.certname) {
            Some(group) => group.place_of_report(alloc, report),
            None => Ok(Err(0)),
        }
    }

    // The number of kept reports of the node with this certname, or None if there is no such node.
    fn reports_of(&self, certname: &Text) -> Option<usize>
        ensures value { result ≡ option_map (λ (node : machine.Node). length node.reports) (find_node certname.now self.now.nodes) }
        ensures bound { IfSome result (λ n. n < 2 ^ 63) }
    {
        groups::group_with(self.groups.as_slice(), certname)?.reports(certname)
    }

    /// Applies a change for which room was made.
    pub(crate) fn apply(
        &mut self,
        room: Room,
        receipt: u64,
        received: Option<Moment>,
        change: Change,
    )
        requires room { room ≡ room_for self.old change }
        requires lawful { IsChange change }
        ensures { self.new ≡ apply (applied_as receipt received change) self.old }
    {
        let Room {
            shown,
            new,
            first,
            ..
        } = room;
        let ttls = self.ttls;
        let retention = self.retention;
        groups::begin(&mut self.groups, first);
        let (at, total) = groups::apply_change(
            &mut self.groups,
            &self.total,
            &ttls,
            &retention,
            shown,
            new,
            receipt,
            received,
            change,
        );
        self.total = total;
        self.starts.truncate(at + 1);
    }

    /// The rank of the newest command of this kind in the node's present life; None for reports.
    pub(crate) fn newest(&self, certname: &Text, kind: Kind) -> Option<Rank>
        ensures { result ≡ newest_in self.now certname.now kind }
    {
        groups::group_with(self.groups.as_slice(), certname)?.newest(certname, kind)
    }

    /// Whether the node is deactivated or expired.
    pub(crate) fn inactive(&self, certname: &Text) -> bool
        ensures { result ≡ is_inactive_in self.now certname.now }
    {
        match groups::group_with(self.groups.as_slice(), certname) {
            Some(group) => group.inactive(&self.ttls, &self.expiry, certname),
            None => false,
        }
    }

    /// The number of rows of an entity.
    pub(crate) fn count(&self, entity: Entity) -> usize
        ensures { result ≡ length (table_rows entity self.now) }
    {
        self.total.of(entity)
    }

    /// Row i of an entity, in the order of its keys.
    pub(crate) fn row(&self, alloc: Global, entity: Entity, i: usize) -> Result<Row, AllocError>
        requires { i < length (table_rows entity self.now) }
        ensures { IfOk result (λ row. IsRowAt row entity (table_rows entity self.now) i) }
    {
        let (at, place) = groups::group_of_row(
            self.groups.as_slice(),
            self.starts.as_slice(),
            entity,
            i,
        );
        self.groups[at].row(alloc, &self.ttls, &self.expiry, entity, place)
    }

    /// The node with row i of an entity other than `nodes`, and the index of the row among the node's rows.
    pub(crate) fn node_at(&self, entity: Entity, i: usize) -> (&Node, usize)
        requires { i < length (table_rows entity self.now) }
        ensures kept { IsNode result.0.now }
        ensures within { result.1 < count_of entity (counts result.0.now) }
        ensures row { slice_get (table_rows entity self.now) i
            ≡ slice_get (node_rows entity self.now.ttls self.now.expiry (node_seen result.0.now)) result.1 }
        ensures rows { (d : ℕ) → result.1 + d < count_of entity (counts result.0.now) → slice_get (table_rows entity self.now) (i + d)
            ≡ slice_get (node_rows entity self.now.ttls self.now.expiry (node_seen result.0.now)) (result.1 + d) }
    {
        let (at, place) = groups::group_of_row(
            self.groups.as_slice(),
            self.starts.as_slice(),
            entity,
            i,
        );
        self.groups[at].node_at(entity, place)
    }

    /// Expires nodes that had no activity for longer than the node lifetime.
    pub(crate) fn expire(&mut self, m: Moment)
        requires { IsStampMoment m }
        ensures { self.new ≡ expire m self.old }
    {
        self.expiry = later(m, self.expiry);
    }

    /// Removes nodes that were deactivated or expired for longer than the purge lifetime.
    pub(crate) fn purge(&mut self, m: Moment)
        requires { IsStampMoment m }
        ensures { self.new ≡ purge m self.old }
    {
        self.starts.clear();
        groups::purge(&mut self.groups, &self.ttls, m, &self.expiry);
        self.total = groups::rows_in(self.groups.as_slice());
    }

    /// Removes reports that are older than the report lifetime.
    pub(crate) fn retain(&mut self, m: Moment)
        requires { IsStampMoment m }
        ensures { self.new ≡ retain m self.old }
    {
        self.retention = later(m, self.retention);
        self.starts.clear();
        groups::retain(&mut self.groups, &self.ttls, &self.retention);
        self.total = groups::rows_in(self.groups.as_slice());
    }
}

// Checks that the rows stay within the limit of 2^62 that are counted. More rows count as missing memory.
fn check_total(total: &Counts, change: &Change) -> Result<(), AllocError>
    requires { IsWithin total.now }
    ensures { OnOk result (IsWithin (plus total.now (counts_changed change.now))) }
{
    if total.has_room(&Counts::of_change(change)) {
        Ok(())
    } else {
        Err(AllocError)
    }
}

// A new node with a list for `nodes` others, unless one was found.
fn new_for(
    alloc: Global,
    found: Option<usize>,
    certname: &Text,
    nodes: usize,
) -> Result<Option<NewNode>, AllocError>
    requires { nodes < 2 ^ 63 }
    ensures { IfOk result (λ new. IsNewFor new found certname.now nodes) }
{
    match found {
        Some(_) => Ok(None),
        None => Ok(Some(new_node(alloc, certname, nodes)?)),
    }
}

fn new_node(alloc: Global, certname: &Text, nodes: usize) -> Result<NewNode, AllocError>
    requires { nodes < 2 ^ 63 }
    ensures { IfOk result (λ new. IsNew new certname.now nodes) }
{
    let name = Text::from_str(alloc, certname.as_str())?;
    let node = Box::new(alloc, Node::new(alloc, name))?;
    let nodes = room_for_more(alloc, nodes)?;
    Ok(NewNode { node, nodes })
}
