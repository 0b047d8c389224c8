//! Appends a frame to a log.
ghost use Rattle.std.specs.Prelude.{◌≡◌, ◌⊎◌, ◌↔◌, ◌+◌, ◌^◌, ◌<◌, ◌≤◌, ℕ, List, [], ◌∷◌, ◌++◌, length, true, false};
ghost use Rattle.fleet_ports.specs.Counts.{Counts, RoseBy};
ghost use Rattle.fleet_ports.specs.Moments.{LeavesOnly};
ghost use Rattle.record_log.specs.Log.{disk_of, generation_of, gate_of, size_of, down_of, IsOldOrNew, StandsFor, log_frames, IsFaulty, IsRefusal};
ghost use Rattle.log_spec.specs.Limits.{most_log};

use crate::log::{Gate, Log};
use crate::put::{Appended, put_any};
use fleet_ports::Disk;
use log_spec::MOST_LOG;
use std::alloc::Global;

impl<D: Disk + Drop> Log<D> {
    /// Appends a frame. A frame of at most 64 bytes needs no memory. A longer one allocates before any call of the disk.
    pub fn append(&mut self, alloc: Global, frame: &[u8]) -> Appended
        requires up { down_of self.old ≡ false }
        requires stands { StandsFor D.may_leave self.old (log_frames D.seen self.old) }

        ensures any_moment { LeavesOnly D.moment D.left_since (disk_of self.old) (disk_of self.new)
            (IsOldOrNew (generation_of self.old) (log_frames D.seen self.old) (gate_of self.old) frame.now) }
        ensures ok { result ≡ Appended.Ok → StandsFor D.may_leave self.new (log_frames D.seen self.old ++ frame.now ∷ []) }
        ensures refused { IsRefusal result → StandsFor D.may_leave self.new (log_frames D.seen self.old) }
        ensures open_gate { result ≡ Appended.Down → (c : List ℕ) → D.may_leave (disk_of self.new) c
            → IsOldOrNew (generation_of self.old) (log_frames D.seen self.old) (gate_of self.old) frame.now c }
        ensures down { (down_of self.new ≡ true) ↔ (result ≡ Appended.Down) }
        ensures untouched { (result ≡ Appended.Memory) ⊎ (result ≡ Appended.TooLong) → self.new ≡ self.old }

        ensures generation { generation_of self.new ≡ generation_of self.old }
        ensures grew { result ≡ Appended.Ok → size_of self.new ≡ size_of self.old + 5 + length frame.now }
        ensures same_size { (result ≡ Appended.Ok → ⊥) → size_of self.new ≡ size_of self.old }

        // Unless the log is down, it can be called again.
        ensures again { (result ≡ Appended.Down → ⊥) → StandsFor D.may_leave self.new (log_frames D.seen self.new) }

        ensures too_long { (result ≡ Appended.TooLong) ↔ ((2 ^ 32 ≤ length frame.now) ⊎ (most_log < size_of self.old + 5 + length frame.now)) }
        ensures short { length frame.now ≤ 64 → result ≡ Appended.Memory → ⊥ }
        ensures cause { Counts (D.fault_count (disk_of self.old)) (D.fault_count (disk_of self.new)) (IsFaulty result) }
        ensures twice { result ≡ Appended.Down → RoseBy 2 (D.fault_count (disk_of self.old)) (D.fault_count (disk_of self.new)) }
    {
        let n = frame.len() as u64;
        if n > u64::from(u32::MAX)
            || self.gate.place > MOST_LOG
            || self.gate.place + 6 + n > MOST_LOG
        {
            return Appended::TooLong;
        }
        match put_any(alloc, &mut self.disk, self.gate.place, frame) {
            Appended::Ok => {
                self.gate = Gate {
                    place: self.gate.place + 5 + n,
                };
                Appended::Ok
            }
            Appended::Down => {
                self.down = true;
                Appended::Down
            }
            Appended::Failed => Appended::Failed,
            Appended::Memory => Appended::Memory,
            Appended::TooLong => Appended::TooLong,
        }
    }
}
