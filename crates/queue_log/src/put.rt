//! Appends a record to the log.
ghost use Rattle.std.specs.Prelude.{◌≡◌, ◌⊎◌, ◌↔◌, ◌+◌, ◌≤◌, ℕ, List, Option, length, true, IsTrue};
ghost use Rattle.fleet_keeper.specs.log_pair.Pair.{disk_a, disk_b, other_of, generation_of_pair};
ghost use Rattle.fleet_keeper.specs.log_pair.Open.{PairCounts};
ghost use Rattle.fleet_keeper.specs.record_spec.declared.queue.QueueRecord.{QueueRecord as Rec};
ghost use Rattle.fleet_keeper.specs.core_spec.Damage.{IsQueueFrame};
ghost use Rattle.fleet_keeper.specs.Answers.{of_append};
ghost use Rattle.fleet_keeper.specs.Kept.{IsRefusal, IsFaulty};
ghost use Rattle.fleet_keeper.specs.Limits.{IsPast};
ghost use Rattle.fleet_keeper.specs.Records.{AllAre, IsOneOf, with_one};
ghost use Rattle.queue_log.specs.Queued.{queue_pair, queued, QueueImages, QueueIsUp, QueueLeavesOnly, queue_down, queue_size, queue_side, RoseTwice};

use crate::queue::QueueLog;
use fleet_keeper::Kept;
use fleet_keeper::fleet_ports::Disk;
use fleet_keeper::record_log::Appended;
use std::alloc::Global;

/// The answer of an append, in a keeper's words.
fn answered(answer: Appended) -> Kept
    ensures value { result ≡ of_append answer }
{
    match answer {
        Appended::Ok => Kept::Ok,
        Appended::Failed => Kept::Failed,
        Appended::Down => Kept::Down,
        Appended::Memory => Kept::Memory,
        Appended::TooLong => Kept::Spent,
    }
}

impl<D: Disk + Drop> QueueLog<D> {
    /// Appends a record, by its spelling. A spelling of at most 64 bytes takes no memory.
    pub fn put(&mut self, alloc: Global, frame: &[u8]) -> Kept
        requires up { QueueIsUp D.seen D.may_leave self.old }

        // These clauses hold for whatever record the frame spells.
        ensures any_moment { (rec : Rec) → IsQueueFrame frame.now rec
            → QueueLeavesOnly D.Disk self.old self.new (IsOneOf (queued D.seen self.old) (with_one (queued D.seen self.old) rec)) }
        ensures each { (rec : Rec) → IsQueueFrame frame.now rec → (o : Option (List Rec)) → QueueImages D.may_leave self.new o
            → IsOneOf (queued D.seen self.old) (with_one (queued D.seen self.old) rec) o }
        ensures ok { result ≡ Kept.Ok → (rec : Rec) → IsQueueFrame frame.now rec
            → AllAre (QueueImages D.may_leave self.new) (with_one (queued D.seen self.old) rec) }
        ensures queued_one { result ≡ Kept.Ok → IsTrue D.is_told → (rec : Rec) → IsQueueFrame frame.now rec
            → queued D.seen self.new ≡ with_one (queued D.seen self.old) rec }

        ensures refused { IsRefusal result → AllAre (QueueImages D.may_leave self.new) (queued D.seen self.old) }
        ensures queued_old { IsRefusal result → IsTrue D.is_told → queued D.seen self.new ≡ queued D.seen self.old }
        ensures untouched { (result ≡ Kept.Memory) ⊎ (result ≡ Kept.Spent) → self.new ≡ self.old }
        ensures down { (queue_down self.new ≡ true) ↔ (result ≡ Kept.Down) }
        // Unless the log is down, it can be called again.
        ensures again { (result ≡ Kept.Down → ⊥) → QueueIsUp D.seen D.may_leave self.new }

        ensures side { queue_side self.new ≡ queue_side self.old }
        ensures generation { generation_of_pair (queue_pair self.new) ≡ generation_of_pair (queue_pair self.old) }
        ensures other { other_of (queue_pair self.new) ≡ other_of (queue_pair self.old) }
        ensures grew { result ≡ Kept.Ok → queue_size self.new ≡ queue_size self.old + 5 + length frame.now }
        ensures same_size { (result ≡ Kept.Ok → ⊥) → queue_size self.new ≡ queue_size self.old }

        ensures spent { (result ≡ Kept.Spent) ↔ IsPast (queue_size self.old) frame.now }
        ensures short { length frame.now ≤ 64 → result ≡ Kept.Memory → ⊥ }
        ensures cause { PairCounts (D.fault_count (disk_a (queue_pair self.old))) (D.fault_count (disk_a (queue_pair self.new)))
            (D.fault_count (disk_b (queue_pair self.old))) (D.fault_count (disk_b (queue_pair self.new))) (IsFaulty result) }
        ensures twice { result ≡ Kept.Down → RoseTwice (D.fault_count (disk_a (queue_pair self.old))) (D.fault_count (disk_a (queue_pair self.new)))
            (D.fault_count (disk_b (queue_pair self.old))) (D.fault_count (disk_b (queue_pair self.new))) }
    {
        let answer = self.pair.append(alloc, frame);
        answered(answer)
    }
}
