//! Opens the queue's log.
ghost use Rattle.std.specs.Prelude.{◌≡◌, ℕ, IsTrue, IfOk, IfErr};
ghost use Rattle.fleet_keeper.specs.record_log.Untouched.{IsUntouched};
ghost use Rattle.fleet_keeper.specs.log_spec.ImageOf.{image_of};
ghost use Rattle.fleet_keeper.specs.log_spec.PairImage.{broken, pair_image};
ghost use Rattle.fleet_keeper.specs.log_spec.declared.side.Side.{Side};
ghost use Rattle.fleet_keeper.specs.log_pair.declared.opened.PairFault.TheVariants.{Damaged};
ghost use Rattle.fleet_keeper.specs.log_pair.Pair.{EachPair, IsPair, PairStands};
ghost use Rattle.fleet_keeper.specs.log_pair.Open.{MatchPair, IsPairFault, first_after, second_after, PairCounts};
ghost use Rattle.queue_records.specs.Reading.{queue_at};
ghost use Rattle.fleet_keeper.specs.Records.{AllAre, read_all};
ghost use Rattle.queue_log.specs.Queued.{queue_pair, queued, QueueImages, QueueIsUp};
ghost use Rattle.queue_log.specs.Open.{as_pair};

use crate::queue::QueueLog;
use fleet_keeper::fleet_ports::Disk;
use fleet_keeper::log_pair::{PairFault, open_pair};
use fleet_keeper::record_log::Frames;
use std::alloc::Global;

/// Opens the queue's log over two disks, and answers the frames of their files. Each file that is read is synced first, so a
/// crash leaves what was read. Every error hands the disks back.
pub fn open_queue<D: Disk + Drop>(
    alloc: Global,
    a: D,
    b: D,
) -> Result<(QueueLog<D>, Frames), (PairFault, D, D)>
    ensures told { IsTrue D.is_told → MatchPair (as_pair result) (pair_image (image_of (D.seen a)) (image_of (D.seen b))) }
    ensures up { IfOk result (λ r. QueueIsUp D.seen D.may_leave r.0) }
    ensures pairs { IfOk result (λ r. PairStands D.may_leave (queue_pair r.0) r.1) }
    ensures stands { IfOk result (λ r. AllAre (QueueImages D.may_leave r.0) (read_all queue_at r.1)) }
    ensures queued { IfOk result (λ r. IsTrue D.is_told → queued D.seen r.0 ≡ read_all queue_at r.1) }
    ensures damaged { IfErr result (λ e. (file : Side) (at : ℕ) → e.0 ≡ Damaged file at
        → EachPair (D.may_leave e.1) (D.may_leave e.2) (IsPair (broken file at))) }
    ensures first { IsUntouched D.Disk a (first_after (as_pair result)) }
    ensures second { IsUntouched D.Disk b (second_after (as_pair result)) }
    ensures cause { PairCounts (D.fault_count a) (D.fault_count (first_after (as_pair result)))
        (D.fault_count b) (D.fault_count (second_after (as_pair result))) (IsPairFault (as_pair result)) }
{
    match open_pair(alloc, a, b) {
        Ok((pair, frames)) => Ok((QueueLog { pair }, frames)),
        Err((fault, a, b)) => Err((fault, a, b)),
    }
}
