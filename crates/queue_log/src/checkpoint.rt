//! Replaces the records of the log with a checkpoint.
ghost use Rattle.std.specs.Prelude.{◌≡◌, ◌↔◌, ◌+◌, ◌≤◌, Option, List, true, IsTrue};
ghost use Rattle.fleet_keeper.specs.record_log.Lay.{laid_size};
ghost use Rattle.fleet_keeper.specs.log_pair.Pair.{disk_a, disk_b, flipped, generation_of_pair};
ghost use Rattle.fleet_keeper.specs.log_pair.Open.{PairCounts};
ghost use Rattle.fleet_keeper.specs.record_spec.declared.queue.QueueRecord.{QueueRecord as Rec};
ghost use Rattle.fleet_keeper.specs.Answers.{of_checkpoint};
ghost use Rattle.fleet_keeper.specs.Kept.{IsRefusal, IsFaulty};
ghost use Rattle.fleet_keeper.specs.Limits.{ArePast};
ghost use Rattle.fleet_keeper.specs.Records.{AllAre, IsOneOf, read_all};
ghost use Rattle.queue_records.specs.Reading.{queue_at};
ghost use Rattle.queue_log.specs.Queued.{queue_pair, queued, QueueImages, QueueIsUp, QueueSince, queue_down, queue_moment, queue_size, queue_side, RoseTwice};

use crate::queue::QueueLog;
use fleet_keeper::Kept;
use fleet_keeper::fleet_ports::Disk;
use fleet_keeper::log_pair::Checked;
use fleet_keeper::record_log::Frames;

/// The answer of a checkpoint, in a keeper's words.
fn checked(answer: Checked) -> Kept
    ensures value { result ≡ of_checkpoint answer }
{
    match answer {
        Checked::Ok => Kept::Ok,
        Checked::Failed => Kept::Failed,
        Checked::Down => Kept::Down,
        Checked::Spent => Kept::Spent,
        Checked::TooLong => Kept::Spent,
    }
}

impl<D: Disk + Drop> QueueLog<D> {
    /// Replaces all records with those of these spellings. It writes the file that doesn't count, which then counts. It takes no
    /// memory.
    pub fn checkpoint(&mut self, frames: &Frames) -> Kept
        requires up { QueueIsUp D.seen D.may_leave self.old }

        // At each moment within the call, an image is the old list or the new one.
        ensures any_moment { (o : Option (List Rec)) → QueueSince D.left_since self.new (queue_moment D.moment self.old) o
            → IsOneOf (queued D.seen self.old) (read_all queue_at frames.now) o }
        ensures later { ((queue_moment D.moment self.old).0 ≤ (queue_moment D.moment self.new).0)
            × ((queue_moment D.moment self.old).1 ≤ (queue_moment D.moment self.new).1) }
        ensures each { (o : Option (List Rec)) → QueueImages D.may_leave self.new o → IsOneOf (queued D.seen self.old) (read_all queue_at frames.now) o }
        ensures ok { result ≡ Kept.Ok → AllAre (QueueImages D.may_leave self.new) (read_all queue_at frames.now) }
        ensures queued_all { result ≡ Kept.Ok → IsTrue D.is_told → queued D.seen self.new ≡ read_all queue_at frames.now }
        ensures refused { IsRefusal result → AllAre (QueueImages D.may_leave self.new) (queued D.seen self.old) }
        ensures queued_old { IsRefusal result → IsTrue D.is_told → queued D.seen self.new ≡ queued D.seen self.old }
        ensures untouched { result ≡ Kept.Spent → self.new ≡ self.old }
        ensures down { (queue_down self.new ≡ true) ↔ (result ≡ Kept.Down) }
        // Unless the log is down, it can be called again.
        ensures again { (result ≡ Kept.Down → ⊥) → QueueIsUp D.seen D.may_leave self.new }

        ensures side { result ≡ Kept.Ok → queue_side self.new ≡ flipped (queue_side self.old) }
        ensures same_side { (result ≡ Kept.Ok → ⊥) → queue_side self.new ≡ queue_side self.old }
        ensures size { result ≡ Kept.Ok → queue_size self.new ≡ laid_size frames.now }
        ensures same_size { (result ≡ Kept.Ok → ⊥) → queue_size self.new ≡ queue_size self.old }
        ensures generation { result ≡ Kept.Ok → generation_of_pair (queue_pair self.new) ≡ generation_of_pair (queue_pair self.old) + 1 }
        ensures same_generation { (result ≡ Kept.Ok → ⊥) → generation_of_pair (queue_pair self.new) ≡ generation_of_pair (queue_pair self.old) }

        ensures memory { result ≡ Kept.Memory → ⊥ }
        ensures spent { (result ≡ Kept.Spent) ↔ ArePast (generation_of_pair (queue_pair self.old)) frames.now }
        ensures cause { PairCounts (D.fault_count (disk_a (queue_pair self.old))) (D.fault_count (disk_a (queue_pair self.new)))
            (D.fault_count (disk_b (queue_pair self.old))) (D.fault_count (disk_b (queue_pair self.new))) (IsFaulty result) }
        ensures twice { result ≡ Kept.Down → RoseTwice (D.fault_count (disk_a (queue_pair self.old))) (D.fault_count (disk_a (queue_pair self.new)))
            (D.fault_count (disk_b (queue_pair self.old))) (D.fault_count (disk_b (queue_pair self.new))) }
    {
        let answer = self.pair.checkpoint(frames);
        checked(answer)
    }
}
