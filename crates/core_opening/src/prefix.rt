//! Decides whether a record of the queue's log may come next.
ghost use Rattle.std.specs.Prelude.{◌≡◌, ◌↔◌, ℕ, List, ◌∷◌, length, true, false, IsTrue, [], ◌<◌};
ghost use Rattle.core_state.specs.record_spec.declared.queue.QueueRecord.{QueueRecord as Rec};
ghost use Rattle.core_state.specs.core_spec.Damage.{MayQueue, MayHold, MayBeDead, MaySubmit, Waits};
ghost use Rattle.core_state.specs.core_spec.Legal.{Rises};
ghost use Rattle.core_state.specs.supersede_core.Waiting.{stands};
ghost use Rattle.core_opening.specs.LogPrefix.{IsLogPrefix, IsOver, WaitSo, gone_on};
ghost use Rattle.fleet_rows.specs.Limits.{most_pending};

use fleet_rows::MOST_PENDING;
use record_spec::QueueRecord;
use supersede_core::Pending;

/// What must be known of the earlier records in order to decide which record may come next.
#[derive(Drop)]
pub(crate) struct LogPrefix {
    /// The log has its base.
    pub(crate) begun: bool,
    /// All records so far are the base and held commands.
    pub(crate) only_held: bool,
    /// All records so far are the base, held commands and discarded ones.
    pub(crate) only_held_or_dead: bool,
    /// The greatest receipt of a held command.
    pub(crate) held: Option<u64>,
    /// The greatest receipt of a discarded command.
    pub(crate) dead: Option<u64>,
    /// The greatest receipt that was given out.
    pub(crate) given: Option<u64>,
}

fn is_over(greatest: &Option<u64>, receipt: u64) -> bool
    ensures { IsTrue result ↔ IsOver greatest.now receipt }
{
    match greatest {
        None => true,
        Some(greatest) => *greatest < receipt,
    }
}

fn greater(greatest: &Option<u64>, receipt: u64) -> Option<u64>
    ensures { (r : ℕ) → IsOver result r ↔ (IsOver greatest.now r × (receipt < r)) }
{
    match greatest {
        None => Some(receipt),
        Some(greatest) => Some(receipt.max(*greatest)),
    }
}

fn rises(before: u64, after: u64) -> bool
    ensures { IsTrue result ↔ Rises before after }
{
    before < after || before == u64::MAX && after == u64::MAX
}

fn has_room(pending: &Pending) -> bool
    ensures { IsTrue result ↔ (length pending.now < most_pending) }
{
    pending.count() < MOST_PENDING
}

fn waits(pending: &Pending, receipt: u64) -> bool
    ensures { result ≡ stands receipt pending.now }
{
    pending.entry(receipt).is_some()
}

impl LogPrefix {
    /// The state before the first record.
    pub(crate) fn new() -> LogPrefix
        ensures { IsLogPrefix result [] }
    {
        LogPrefix {
            begun: false,
            only_held: true,
            only_held_or_dead: true,
            held: None,
            dead: None,
            given: None,
        }
    }

    fn may_hold(&self, receipt: u64, pending: &Pending) -> bool
        ensures { (earlier : List Rec) → IsLogPrefix self.now earlier → WaitSo earlier pending.now → IsTrue result ↔ MayHold receipt earlier }
    {
        let over = is_over(&self.held, receipt);
        let room = has_room(pending);
        self.only_held && self.begun && over && room
    }

    fn may_be_dead(&self, receipt: u64) -> bool
        ensures { (earlier : List Rec) → IsLogPrefix self.now earlier → IsTrue result ↔ MayBeDead receipt earlier }
    {
        let over = is_over(&self.dead, receipt);
        self.only_held_or_dead && self.begun && over
    }

    fn may_submit(&self, receipt: u64, pending: &Pending) -> bool
        ensures { (earlier : List Rec) → IsLogPrefix self.now earlier → WaitSo earlier pending.now → IsTrue result ↔ MaySubmit receipt earlier }
    {
        let over = is_over(&self.given, receipt);
        let room = has_room(pending);
        self.begun && over && room
    }

    /// Whether the record may come next, given the pending commands.
    pub(crate) fn admits(&self, rec: &QueueRecord, pending: &Pending) -> bool
        ensures { (earlier : List Rec) → IsLogPrefix self.now earlier → WaitSo earlier pending.now → IsTrue result ↔ MayQueue rec.now earlier }
    {
        match rec {
            QueueRecord::Base(_) => !self.begun,
            QueueRecord::Held(receipt, _, _) => self.may_hold(*receipt, pending),
            QueueRecord::Dead(receipt, _, _) => self.may_be_dead(*receipt),
            QueueRecord::Submit(receipt, _) => self.may_submit(*receipt, pending),
            QueueRecord::Done(receipt) => waits(pending, *receipt),
            QueueRecord::Superseded(receipt, _) => waits(pending, *receipt),
            QueueRecord::Refused(receipt, _) => waits(pending, *receipt),
            QueueRecord::Fail(receipt, before, after) => {
                let rose = rises(*before, *after);
                rose && waits(pending, *receipt)
            }
        }
    }

    /// Notes that the records of a checkpoint are over.
    fn go_on(&mut self)
        ensures { self.new ≡ gone_on self.old }
    {
        self.only_held = false;
        self.only_held_or_dead = false;
    }

    /// Notes that the record came.
    pub(crate) fn follow(&mut self, rec: &QueueRecord)
        ensures { (earlier : List Rec) → IsLogPrefix self.old earlier → MayQueue rec.now earlier → IsLogPrefix self.new (rec.now ∷ earlier) }
    {
        match rec {
            QueueRecord::Base(receipt) => {
                self.begun = true;
                self.given = greater(&self.given, *receipt);
            }
            QueueRecord::Held(receipt, _, _) => {
                self.held = greater(&self.held, *receipt);
                self.given = greater(&self.given, *receipt);
            }
            QueueRecord::Dead(receipt, _, _) => {
                self.only_held = false;
                self.dead = greater(&self.dead, *receipt);
                self.given = greater(&self.given, *receipt);
            }
            QueueRecord::Submit(receipt, _) => {
                self.only_held = false;
                self.only_held_or_dead = false;
                self.given = greater(&self.given, *receipt);
            }
            QueueRecord::Done(_) => self.go_on(),
            QueueRecord::Superseded(_, _) => self.go_on(),
            QueueRecord::Refused(_, _) => self.go_on(),
            QueueRecord::Fail(_, _, _) => self.go_on(),
        }
    }
}
