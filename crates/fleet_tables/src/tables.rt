//! The public calls of the tables.
ghost use Rattle.std.specs.Prelude.{◌≡◌, ℕ, ◌<◌, ◌+◌, ◌∷◌, [], length, slice_get, IfOk, IfErr};
ghost use Rattle.checkpoint_spec.specs.stamp_time.Range.{IsStampMoment};
ghost use Rattle.checkpoint_spec.specs.history_spec.Lawful.{IsChange};
ghost use Rattle.checkpoint_spec.specs.history_spec.Trace.{Trace, IsTrace, applied_as, applied, swept};
ghost use Rattle.checkpoint_spec.specs.history_spec.Life.{life, is_inactive};
ghost use Rattle.checkpoint_spec.specs.table_machine.Rows.{node_rows, table_rows};
ghost use Rattle.checkpoint_spec.specs.table_machine.Steps.{empty_table, apply, expire, purge, retain};
ghost use Rattle.checkpoint_spec.specs.table_spec.Rows.{rows};
ghost use Rattle.fleet_tables.specs.Asked.{newest_in, is_inactive_in};
ghost use Rattle.kept_nodes.specs.Computed.{IsShownOf};
ghost use Rattle.kept_nodes.specs.Counted.{counts, count_of};
ghost use Rattle.kept_nodes.specs.Kept.{IsNode};
ghost use Rattle.fleet_tables.specs.Rooms.{room_for};
ghost use Rattle.kept_nodes.specs.Rows.{IsRowAt};
ghost use Rattle.kept_nodes.specs.Seen.{node_seen};
ghost use Rattle.fleet_tables.specs.Stands.{Stands, expire_alone, purge_alone, reports_alone, newest_of};

use crate::room::{Prepared, Room};
use crate::state::State;
use crate::steps::Steps;
use fleet_rows::json_tree::Text;
use fleet_rows::stamp_time::Moment;
use fleet_rows::{Change, Entity, Kind, Rank, Row, Ttls};
use kept_nodes::{Derived, Node, needed_by};
use std::alloc::{AllocError, Global};
use std::marker::Model;
use std::sync::ledger::Ledger;

/// The tables that stand for the applied commands and sweeps: the newest commands of each node and its kept reports.
#[derive(Drop)]
pub struct Tables {
    pub(crate) alloc: Global,
    pub(crate) state: State,
}

impl Model for Tables {
    ghost use Rattle.std.specs.Coded.{codes};
    ghost use Rattle.std.proofs.Props.{props};
    ghost use Rattle.checkpoint_spec.specs.text_spec.JsonCode.{coded_json};
    ghost use Rattle.checkpoint_spec.specs.table_machine.Table.{Table};
    ghost use Rattle.kept_nodes.specs.Seen.{coded_table};

    ghost Value = { Table };

    ghost coded = { coded_table (Prim.hlevel (codes, coded_json)) (Prim.hlevel (codes, props)) };

    ghost view = { λ a. a.state };
}

impl Tables {
    /// Tables without nodes. It allocates no memory.
    pub fn new(alloc: Global, ttls: Ttls) -> Tables
        ensures value { result ≡ empty_table ttls }
        ensures stands { Stands result [] }
    {
        Tables {
            alloc,
            state: State::new(alloc, ttls),
        }
    }

    /// Takes all memory that applying the change will need. It packs a report, and computes nothing else; `prepare` computes the
    /// rest, or `row` for its row. The room fits only this change and the tables as they are: a change or a sweep in between
    /// makes it useless. More than 2^62 rows of an entity, which no memory holds, count as missing memory.
    pub fn reserve(&mut self, change: &Change) -> Result<Room, AllocError>
        requires { IsChange change.now }
        ensures room { IfOk result (λ room. room ≡ room_for self.new change.now) }
        ensures same { self.new ≡ self.old }
    {
        let shown = needed_by(self.alloc, change)?;
        self.room_for(change, shown).map_err(no_memory)
    }

    /// Makes room for a prepared change, and returns the change with the room. Only the place of a report is sought here: the
    /// prepared values go into the tables with the room. On an error the prepared change is given back.
    pub fn reserve_prepared(&mut self, prepared: Prepared) -> Result<(Change, Room), Prepared>
        ensures change { IfOk result (λ made. made.0 ≡ prepared) }
        ensures room { IfOk result (λ made. made.1 ≡ room_for self.new prepared) }
        ensures given { IfErr result (λ given. given ≡ prepared) }
        ensures same { self.new ≡ self.old }
    {
        let Prepared { change, shown } = prepared;
        match self.room_for(&change, shown) {
            Ok(room) => Ok((change, room)),
            Err(shown) => Err(Prepared { change, shown }),
        }
    }

    fn room_for(&mut self, change: &Change, shown: Derived) -> Result<Room, Derived>
        requires { IsShownOf shown change.now }
        ensures room { IfOk result (λ room. room ≡ room_for self.new change.now) }
        ensures given { IfErr result (λ given. given ≡ shown) }
        ensures same { self.new ≡ self.old }
    {
        match self.state.split_for(self.alloc, change.certname()) {
            Ok(()) => self.state.room_for(self.alloc, change, shown),
            Err(_) => Err(shown),
        }
    }

    /// Applies a change for which room was made. `received` is the moment at which its command was received, if it is known. It
    /// takes no memory.
    pub fn apply(&mut self, room: Room, receipt: u64, received: Option<Moment>, change: Change)
        requires room { room ≡ room_for self.old change }
        requires lawful { IsChange change }
        ensures step { self.new ≡ apply (applied_as receipt received change) self.old }
        ensures stands { (history : Trace)
            → Stands self.old history → IsTrace (applied (applied_as receipt received change) ∷ history)
            → Stands self.new (applied (applied_as receipt received change) ∷ history) }
    {
        self.state.apply(room, receipt, received, change);
    }

    /// The rank of the newest command of this kind in the node's present life; None for reports. It takes no memory.
    pub fn newest(&self, certname: &Text, kind: Kind) -> Option<Rank>
        ensures value { result ≡ newest_in self.now certname.now kind }
        ensures stands { (history : Trace) → Stands self.now history
            → result ≡ newest_of kind (life self.now.ttls certname.now history) }
    {
        self.state.newest(certname, kind)
    }

    /// Whether the node is deactivated or expired. It takes no memory.
    pub fn inactive(&self, certname: &Text) -> bool
        ensures value { result ≡ is_inactive_in self.now certname.now }
        ensures stands { (history : Trace) → Stands self.now history
            → result ≡ is_inactive self.now.ttls history certname.now }
    {
        self.state.inactive(certname)
    }

    /// The number of rows of an entity.
    pub fn count(&self, entity: Entity) -> usize
        ensures value { result ≡ length (table_rows entity self.now) }
        ensures stands { (history : Trace) → Stands self.now history
            → result ≡ length (rows entity self.now.ttls history) }
    {
        self.state.count(entity)
    }

    /// Row i of an entity, in the order of its keys. It counts as one step. The hashes that it shows are computed for it, unless
    /// they were prepared.
    pub fn row<L: Ledger>(
        &self,
        entity: Entity,
        i: usize,
        steps: &mut Steps<L>,
    ) -> Result<Row, AllocError>
        requires { i < length (table_rows entity self.now) }
        ensures step { steps.new ≡ steps.old + 1 }
        ensures row { IfOk result (λ row. IsRowAt row entity (table_rows entity self.now) i) }
        ensures stands { (history : Trace) → Stands self.now history
            → IfOk result (λ row. IsRowAt row entity (rows entity self.now.ttls history) i) }
    {
        steps.tick();
        self.state.row(self.alloc, entity, i)
    }

    /// The node with row i of an entity other than `nodes`, and the index of the row among the node's rows. The node's further rows are
    /// the rows behind row i. It counts as one step. It takes no memory.
    pub fn node_at<L: Ledger>(
        &self,
        entity: Entity,
        i: usize,
        steps: &mut Steps<L>,
    ) -> (&Node, usize)
        requires { i < length (table_rows entity self.now) }
        ensures step { steps.new ≡ steps.old + 1 }
        ensures kept { IsNode result.0.now }
        ensures within { result.1 < count_of entity (counts result.0.now) }
        ensures row { slice_get (table_rows entity self.now) i
            ≡ slice_get (node_rows entity self.now.ttls self.now.expiry (node_seen result.0.now)) result.1 }
        ensures rows { (d : ℕ) → result.1 + d < count_of entity (counts result.0.now) → slice_get (table_rows entity self.now) (i + d)
            ≡ slice_get (node_rows entity self.now.ttls self.now.expiry (node_seen result.0.now)) (result.1 + d) }
    {
        steps.tick();
        self.state.node_at(entity, i)
    }

    /// A sweep of expiry: expires nodes that had no activity for longer than the node lifetime. It takes no memory.
    pub fn expire(&mut self, m: Moment)
        requires { IsStampMoment m }
        ensures step { self.new ≡ expire m self.old }
        ensures stands { (history : Trace) → Stands self.old history → Stands self.new (swept expire_alone m ∷ history) }
    {
        self.state.expire(m);
    }

    /// A purge: removes nodes that were deactivated or expired for longer than the purge lifetime, with all their rows. It takes
    /// no memory.
    pub fn purge(&mut self, m: Moment)
        requires { IsStampMoment m }
        ensures step { self.new ≡ purge m self.old }
        ensures stands { (history : Trace) → Stands self.old history → Stands self.new (swept purge_alone m ∷ history) }
    {
        self.state.purge(m);
    }

    /// A sweep of reports: removes reports that are older than the report lifetime. It takes no memory.
    pub fn retain(&mut self, m: Moment)
        requires { IsStampMoment m }
        ensures step { self.new ≡ retain m self.old }
        ensures stands { (history : Trace) → Stands self.old history → Stands self.new (swept reports_alone m ∷ history) }
    {
        self.state.retain(m);
    }
}

fn no_memory(shown: Derived) -> AllocError {
    drop(shown);
    AllocError
}
