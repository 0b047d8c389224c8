//! Names what stands ready for a change: what is computed of it, and the memory that it takes.
ghost use Rattle.std.specs.Prelude.{◌≡◌, ◌<◌, IfOk};
ghost use Rattle.checkpoint_spec.specs.history_spec.Lawful.{IsChange};
ghost use Rattle.kept_nodes.specs.Computed.{IsShownOf};

use crate::group::Group;
use crate::state::State;
use fleet_rows::Change;
use kept_nodes::{Derived, HeldReport, Node, shown_by};
use std::alloc::{AllocError, Global};
use std::marker::Model;
use std::snapshot::Snapshot;

/// A change with all that is computed of it in advance: hashes, orders of rows and a report's packed lists. It is made without the
/// tables, so any thread may make it. Contracts see the change.
#[derive(Drop)]
pub struct Prepared {
    pub(crate) change: Change,
    pub(crate) shown: Derived,
}

impl Model for Prepared {
    ghost use Rattle.std.specs.Coded.{codes};
    ghost use Rattle.checkpoint_spec.specs.text_spec.JsonCode.{coded_json};
    ghost use Rattle.checkpoint_spec.specs.fleet_rows.declared.change.Change.{Change};
    ghost use Rattle.kept_nodes.specs.Computed.{IsShownOf};

    ghost Value = { Change };

    ghost coded = { Prim.hlevel (codes, coded_json) };

    ghost view = { λ a. a.change };

    ghost invariant = { λ a. IsShownOf a.shown a.change };
}

impl Prepared {
    /// Computes everything that the change's rows will show. On an error the change is dropped.
    pub fn of(alloc: Global, change: Change) -> Result<Prepared, AllocError>
        requires { IsChange change }
        ensures { IfOk result (λ prepared. prepared ≡ change) }
    {
        match shown_by(alloc, &change) {
            Ok(shown) => Ok(Prepared { change, shown }),
            Err(fault) => {
                drop(change);
                Err(fault)
            }
        }
    }
}

/// The memory that a change takes, and what was computed of it in advance. Contracts see the tables and the change that it was
/// made for.
#[derive(Drop)]
pub struct Room {
    pub(crate) shown: Derived,
    /// The node to add, if the tables don't have it yet.
    pub(crate) new: Option<NewNode>,
    /// A list with one empty group, if the tables have no group.
    pub(crate) first: Vec<Group>,
    pub(crate) tables: Snapshot<State>,
    pub(crate) change: Snapshot<Change>,
}

impl Model for Room {
    ghost use Rattle.std.specs.Coded.{codes};
    ghost use Rattle.std.proofs.Props.{props};
    ghost use Rattle.checkpoint_spec.specs.text_spec.JsonCode.{coded_json};
    ghost use Rattle.kept_nodes.specs.Seen.{coded_table};
    ghost use Rattle.fleet_tables.specs.Rooms.{RoomFor, coded_room, IsRoom};

    ghost Value = { RoomFor };

    ghost coded = { coded_room (coded_table (Prim.hlevel (codes, coded_json)) (Prim.hlevel (codes, props))) (Prim.hlevel (codes, coded_json)) };

    ghost view = { λ a. record { table = a.tables.value; change = a.change.value } };

    ghost invariant = { λ a. IsRoom a.shown a.new a.first.items a.tables.value a.change.value };
}

impl Room {
    /// Takes the prepared change back out of a room that isn't used, and frees the room's memory.
    pub fn into_prepared(self, change: Change) -> Prepared
        requires { self.change ≡ change }
        ensures { result ≡ change }
    {
        let Room {
            shown,
            new,
            first,
            ..
        } = self;
        drop((new, first));
        Prepared { change, shown }
    }
}

/// The memory that a change takes in the tables as they are.
#[derive(Drop)]
pub(crate) struct Spare {
    /// For a report: an empty list with room for the node's reports and one more. It is used if their own list is full.
    pub reports: Vec<HeldReport>,
    /// For a report: its place among them.
    pub place: Result<usize, usize>,
    /// The node to add, if the tables don't have it yet.
    pub new: Option<NewNode>,
    /// A list with one empty group, if the tables have no group.
    pub first: Vec<Group>,
}

/// A new node, and a list with room for it and for all nodes, which is used if the list of its group is full.
#[derive(Drop)]
pub(crate) struct NewNode {
    pub node: Box<Node>,
    pub nodes: Vec<Box<Node>>,
}
