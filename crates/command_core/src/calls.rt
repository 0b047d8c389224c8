//! Holds a core together, and makes its calls by the crates below.
ghost use Rattle.std.specs.Prelude.{◌≡◌, ◌≤◌, length, false, ◌^◌, ◌-◌, min};
ghost use Rattle.core_submits.specs.supersede_core.Waiting.{payload_bytes};
ghost use Rattle.core_layout.specs.history_spec.Lawful.{HasStamp};
ghost use Rattle.core_submits.specs.core_state.Seen.{down_of, down_by_of, events_of, CoreIsSound, IsSubmitted, IsFit};
ghost use Rattle.core_submits.specs.core_state.Spelling.{HasSpelling};
ghost use Rattle.core_submits.specs.core_state.compact_laws.Lawful.{IsLawfulTable};
ghost use Rattle.core_submits.specs.Call.{CoreSubmits};
ghost use Rattle.core_settles.specs.core_claims.Calls.{CoreClaims, CoreReleases, CoreFrees};
ghost use Rattle.core_settles.specs.Settles.{IsVerdictOf};
ghost use Rattle.core_settles.specs.Call.{CoreSettles};
ghost use Rattle.core_sweeps.specs.Call.{CoreSweeps};
ghost use Rattle.core_compact.specs.Call.{CoreCompacts};
ghost use Rattle.core_submits.specs.core_state.Tallies.{tally_of};
ghost use Rattle.core_opening.specs.Opened.{disks_in};
ghost use Rattle.fleet_rows.specs.json_tree.Limits.{most_payload};

use core_compact::{Compacted, compact};
use core_settles::{
    Claimed, CoreState, DownBy, Job, Keeper, LogKeeper, Settled, Tables, Tally, Verdict, claim,
    free_claims, release, settle,
};
use core_submits::{Submitted, submit};
use core_sweeps::{Swept, sweep};
use fleet_ports::{Disk, Disks};
use fleet_rows::json_tree::Text;
use fleet_rows::{Command, Entity, Kinds};
use retry_discard::Discards;
use stamp_time::Moment;
use std::alloc::AllocError;
use std::marker::Model;

/// The commands, the tables that they are applied to, and the logs of both. Contracts see its state. Between the calls it is
/// sound, and all that it holds has a spelling.
#[derive(Drop)]
pub struct Core<D: Disk + Drop, K: Keeper + Drop> {
    state: CoreState<D, K>,
}

impl<D: Disk + Drop, K: Keeper + Drop> Model for Core<D, K> {
    ghost use Rattle.core_submits.specs.core_state.declared.state.CoreState.{CoreState};
    ghost use Rattle.command_core.specs.AtRest.{CoreIsAtRest};
    ghost use Rattle.std.specs.Coded.{codes};
    ghost use Rattle.std.proofs.Props.{props};
    ghost use Rattle.core_layout.specs.text_spec.JsonCode.{coded_json};
    ghost use Rattle.core_submits.specs.fleet_tables.Seen.{coded_table};

    ghost Value = { CoreState D K };

    ghost coded = { Prim.hlevel (codes, coded_json, coded_table (Prim.hlevel (codes, coded_json)) (Prim.hlevel (codes, props))) };

    ghost view = { λ a. a.state };

    ghost invariant = { λ a. CoreIsAtRest D.Disk K.Keeper a.state };
}

impl<D: Disk + Drop, K: Keeper + Drop> Core<D, K> {
    /// Submits a command under the next receipt. After a receipt, each image of the disks has the command. After any other answer
    /// the core doesn't hold the command. An image may then have it only if the queue's log went down.
    pub fn submit(&mut self, command: Command) -> Submitted
        requires payload { length command.payload ≤ most_payload }
        requires received { HasStamp command.received }
        ensures does { CoreSubmits D.Disk K.Keeper result command self.old self.new }
    {
        submit(&mut self.state, command)
    }

    /// Claims the least command that may be claimed. First it supersedes each stale candidate, with one record each. A candidate
    /// is stale if the newest applied command of its group has a greater rank. After a claim there is room for its release.
    pub fn claim(&mut self) -> Claimed
        ensures does { CoreClaims D.Disk K.Keeper result self.old self.new }
    {
        claim(&mut self.state)
    }

    /// Queues a claimed command again. If the receipt isn't claimed, or the core is down, nothing changes. It takes no memory and
    /// writes to no disk.
    pub fn release(&mut self, job: Job)
        ensures does { CoreReleases D.Disk K.Keeper job.receipt self.old self.new }
    {
        release(&mut self.state, job.receipt);
    }

    /// Queues every claimed command again. It takes no memory and writes to no disk.
    pub fn free_claims(&mut self)
        requires up { down_of K.down self.old ≡ false }
        ensures does { CoreFrees D.Disk K.Keeper self.old self.new }
    {
        free_claims(&mut self.state);
    }

    /// Ends a claimed command by the worker's verdict. A change is kept in the store and applied, and then its Done is written to
    /// the queue. A refused command is discarded. If the store fails, the failure is counted in the queue; the sixteenth discards
    /// the command.
    pub fn settle(&mut self, job: Job, verdict: Verdict) -> Settled
        requires submitted { IsSubmitted job.receipt job.command self.old }
        requires fit { IsFit job.command }
        requires decodes { IsVerdictOf verdict job.command }
        ensures does { CoreSettles D.Disk K.Keeper result job verdict self.old self.new }
    {
        settle(&mut self.state, job, verdict)
    }

    /// Sweeps the tables at a moment. The store has the sweep before the tables are swept.
    pub fn sweep(&mut self, kinds: Kinds, m: Moment) -> Swept
        requires stamp { HasStamp m }
        ensures does { CoreSweeps D.Disk K.Keeper result kinds m self.old self.new }
    {
        sweep(&mut self.state, kinds, m)
    }

    /// Rewrites both logs as checkpoints, the store's first. Then they have only what the core holds. No event is added, and a
    /// claimed command stays claimed.
    pub fn compact(&mut self) -> Compacted
        ensures does { CoreCompacts D.Disk K.Keeper result self.old self.new }
    {
        compact(&mut self.state)
    }

    /// The core of a sound state, of which all has a spelling.
    pub(crate) fn of_state(state: CoreState<D, K>) -> Core<D, K>
        requires sound { CoreIsSound D.Disk K.Keeper state }
        requires spelling { HasSpelling state }
        ensures { result ≡ state }
    {
        Core { state }
    }

    /// The tables after the applied commands and the sweeps.
    pub fn tables(&self) -> &Tables
        ensures { result.now ≡ self.now.tables }
    {
        &self.state.tables
    }

    /// Computes what rows show, for all changes where that isn't done yet (`Tables::prepare_all`). The core is unchanged, also
    /// without memory. Changes that are settled bring what their rows show.
    pub fn prepare(&mut self) -> Result<(), AllocError>
        ensures { self.new ≡ self.old }
    {
        self.state.tables.prepare_all()
    }

    /// Computes what the rows of one entity show (`Tables::prepare`). The core is unchanged, also without memory.
    pub fn prepare_entity(&mut self, entity: Entity) -> Result<(), AllocError>
        ensures { self.new ≡ self.old }
    {
        self.state.tables.prepare(entity)
    }

    /// Computes what the rows of one node of an entity show (`Tables::prepare_node`). The core is unchanged, also without memory.
    pub fn prepare_node(&mut self, entity: Entity, certname: &Text) -> Result<(), AllocError>
        ensures { self.new ≡ self.old }
    {
        self.state.tables.prepare_node(entity, certname)
    }

    /// The discarded commands, by receipt.
    pub fn discards(&self) -> &Discards
        ensures { result.now ≡ self.now.discards }
    {
        &self.state.discards
    }

    /// A law: a core is sound between its calls. The call does nothing.
    pub fn is_sound(&self)
        ensures { CoreIsSound D.Disk K.Keeper self.now }
    {
        let _ = &self.state;
    }

    /// A law: the tables are lawful between the calls, so tables can be made from their list. The call does nothing.
    pub fn is_lawful(&self)
        ensures { IsLawfulTable self.now.tables }
    {
        let _ = &self.state;
    }

    /// Whether the core is down. A core that is down must be opened again.
    pub fn is_down(&self) -> bool
        ensures { result ≡ down_of K.down self.now }
    {
        self.state.is_down()
    }

    /// Which log the core is down by. If both are down, the answer is the store's.
    pub fn down_by(&self) -> DownBy
        ensures { result ≡ down_by_of K.down self.now }
    {
        self.state.down_by()
    }

    /// The number of pending commands, and the bytes of their payloads, at most 2^64 - 1.
    pub fn pending(&self) -> (u32, u64)
        ensures count { result.0 ≡ length self.now.pending }
        ensures bytes { result.1 ≡ min (payload_bytes self.now.pending) (2 ^ 64 - 1) }
    {
        (self.state.pending.count(), self.state.pending.size())
    }

    /// The number of events since the opening.
    pub fn event_count(&self) -> u64
        ensures { result ≡ length (events_of self.now) }
    {
        self.state.events.count()
    }

    /// How many commands came in since the opening, and how many commands ended in each way.
    pub fn tally(&self) -> Tally
        ensures { result ≡ tally_of (events_of self.now) }
    {
        self.state.events.tally()
    }
}

impl<D: Disk + Drop> Core<D, LogKeeper<D>> {
    /// The four disks, to be opened again or given back. Nothing is written.
    pub fn into_disks(self) -> Disks<D>
        ensures { result ≡ disks_in self }
    {
        let state = self.state;
        let (queue_a, queue_b) = state.queue.into_disks();
        let (store_a, store_b) = state.store.into_disks();
        Disks {
            queue_a,
            queue_b,
            store_a,
            store_b,
        }
    }
}
