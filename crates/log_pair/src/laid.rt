//! Lays both files: clears the second, then lays the first.
ghost use Rattle.std.specs.Prelude.{◌≡◌, ◌⊎◌, ◌↔◌, ℕ, List, ◌∷◌, take, OnOk, Err, true, false};
ghost use Rattle.record_log.specs.declared.laid.LayFault.TheVariants.{DiskFault, TooLong};
ghost use Rattle.record_log.specs.fleet_ports.Disks.{Only};
ghost use Rattle.record_log.specs.fleet_ports.Moments.{LeavesOnly};
ghost use Rattle.log_spec.specs.Image.{closed};
ghost use Rattle.log_spec.specs.ImageOf.{rest_text};
ghost use Rattle.record_log.specs.Log.{AllStand};
ghost use Rattle.record_log.specs.Lay.{Fits, IsTooLong, IsLaying, IsOldOrClosed, IsLayFault, IsClosed, CutFrom, AllLaid};
ghost use Rattle.log_pair.specs.Pair.{EachPair, IsPair};
ghost use Rattle.log_pair.specs.Open.{PairCounts};
ghost use Rattle.log_pair.specs.Lay.{laid_pair, LaysSecondFirst, IsLayingPair, IsOpeningPair};

use record_log::fleet_ports::Disk;
use record_log::{Frames, LayFault, clear, lay};

/// Makes a pair of these frames. A second file of more than one byte is cut to its first byte, which isn't written, and the file
/// is synced. Then the first file is laid with generation 1. It allocates nothing.
pub fn lay_pair<D: Disk + Drop>(a: &mut D, b: &mut D, frames: &Frames) -> Result<(), LayFault>
    ensures ok { OnOk result (EachPair (D.may_leave a.new) (D.may_leave b.new) (IsPair (laid_pair frames.now))) }
    // The first file holds exactly what was laid. The second keeps its first byte, or stays empty.
    ensures bytes_a { OnOk result (Only (1 ∷ rest_text 1 frames.now) (D.may_leave a.new)) }
    ensures bytes_b { OnOk result (Only (take 1 (D.seen b.old)) (D.may_leave b.new)) }
    ensures fits { OnOk result (Fits frames.now) }

    // If the second file was closed, each pair of images is an old one, has no open file, or is the laid one.
    ensures any_moment { AllStand (D.may_leave b.old) closed
        → LaysSecondFirst D.Disk a.old b.old a.new b.new (IsLayingPair (D.may_leave a.old) frames.now) }
    ensures first_b { LeavesOnly D.moment D.left_since b.old b.new (CutFrom (D.may_leave b.old)) }
    ensures then_a { LeavesOnly D.moment D.left_since a.old a.new (IsLaying (D.may_leave a.old) 1 frames.now) }
    ensures stays_closed { AllStand (D.may_leave b.old) closed → LeavesOnly D.moment D.left_since b.old b.new IsClosed }
    ensures order { (a.new ≡ a.old) ⊎ AllStand (D.may_leave b.new) closed }
    ensures cut_before { (a.new ≡ a.old) ⊎ Only (take 1 (D.seen b.old)) (D.may_leave b.new) }

    ensures unopened { result ≡ Err (DiskFault false) → (c : List ℕ) → D.may_leave a.new c → IsOldOrClosed (D.may_leave a.old) c }
    // Once the write that opens the first file has begun, every image holds the laid file, except that its first byte may be any.
    ensures opened { result ≡ Err (DiskFault true) → AllLaid (D.may_leave a.new) 1 frames.now }
    ensures opened_pair { result ≡ Err (DiskFault true) → EachPair (D.may_leave a.new) (D.may_leave b.new) (IsOpeningPair frames.now) }
    ensures too_long { (result ≡ Err TooLong) ↔ IsTooLong frames.now }
    ensures untouched { result ≡ Err TooLong → (a.new ≡ a.old) × (b.new ≡ b.old) }
    ensures cause { PairCounts (D.fault_count a.old) (D.fault_count a.new) (D.fault_count b.old) (D.fault_count b.new) (IsLayFault result) }
{
    if !frames.fit() {
        return Err(LayFault::TooLong);
    }
    match clear(b) {
        Ok(()) => lay(a, 1, frames),
        Err(_) => Err(LayFault::DiskFault { opened: false }),
    }
}
