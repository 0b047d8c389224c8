//! A disk that stops at a chosen call, as at a crash.
ghost use Rattle.std.specs.Prelude.{◌≡◌, ◌+◌, ◌-◌, ◌≤◌, ◌^◌, ℕ, List, length, take, drop, min, max};
ghost use Rattle.std.specs.Prelude.{IsTrue, IsErr, IsOk, OnOk, OnErr, IfOk, true, refl, reverse};
ghost use Rattle.fleet_ports.specs.Counts.{Counts};
ghost use Rattle.port_memory.specs.Calls.{next};
ghost use Rattle.port_memory.specs.Disks.{behind, left_of, bytes_of, images_of, longest_of, moment_of, images_since, faults_of, fuse_faults};
ghost use Rattle.port_memory.specs.Disks.{IsFused, IsUncalled, Leaves, Opens};
ghost use Rattle.fleet_ports.specs.Disks.{overlaid, Torn, Cut, Follows, NoMore, Only};
ghost use Rattle.fleet_ports.specs.Moments.{Elapses};

use crate::disk::MemoryDisk;
use fleet_ports::{Disk, Failed};

/// A disk in memory behind a fuse, which passes a given number of calls on and then fails every call.
#[derive(Drop)]
pub struct FuseDisk {
    pub(crate) disk: MemoryDisk,
    calls: u64,
    refused: u64,
}

/// Uses up one call of the fuse, or counts a fault.
fn spend(calls: &mut u64, refused: &mut u64) -> Result<(), Failed>
    ensures cause { Counts refused.old refused.new (IsErr result) }
    ensures same { OnOk result (refused.new ≡ refused.old) }
    ensures passed { OnOk result (calls.old ≡ calls.new + 1) }
    ensures spent { OnErr result ((calls.old ≡ 0) × (calls.new ≡ 0)) }
    ensures fault { OnErr result (refused.new ≡ next refused.old) }
{
    if *calls == 0 {
        *refused = refused.saturating_add(1);
        return Err(Failed);
    }
    *calls -= 1;
    Ok(())
}

impl FuseDisk {
    /// The disk with a fuse that passes this many calls and then fails every call, each with a fault. A call that the fuse fails
    /// never reaches the disk and changes nothing that a read gives. But a failed write or cut still opens its range.
    pub fn new(disk: MemoryDisk, calls: u64) -> FuseDisk
        ensures disk { behind result ≡ disk }
        ensures calls { left_of result ≡ calls }
        ensures faults { fuse_faults result ≡ faults_of disk }
    {
        FuseDisk {
            disk,
            calls,
            refused: 0,
        }
    }
}

impl Disk for FuseDisk {
    ghost use Rattle.port_memory.specs.Disks.{both_faults};
    ghost use Rattle.port_memory.specs.History.{held};
    ghost use Rattle.port_memory.specs.Laws.{since_now, now_only, images_fit, seen_left};
    ghost use Rattle.port_memory.specs.Mixes.{images_mix};

    ghost is_told = { true };

    ghost seen = { λ f. ⟦<MemoryDisk as Disk>⟧.seen f.disk };

    ghost may_leave = { λ f. ⟦<MemoryDisk as Disk>⟧.may_leave f.disk };

    ghost longest = { λ f. ⟦<MemoryDisk as Disk>⟧.longest f.disk };

    ghost moment = { λ f. ⟦<MemoryDisk as Disk>⟧.moment f.disk };

    ghost left_since = { λ f. ⟦<MemoryDisk as Disk>⟧.left_since f.disk };

    ghost fault_count = { λ f. both_faults (⟦<MemoryDisk as Disk>⟧.fault_count f.disk) f.refused };

    ghost seen_may_stay = { λ f _. seen_left f.disk.start (reverse f.disk.steps.items) (held f.disk.start f.disk.written) f.disk.replayed };

    ghost told = { λ f c _. refl };

    ghost told_since = { λ f t c _. refl };

    ghost no_longer = { λ f c. images_fit f.disk.start (reverse f.disk.steps.items) c };

    ghost mixes = { λ f c i v left lt _.
        images_mix f.disk.start (reverse f.disk.steps.items) (held f.disk.start f.disk.written) c i v f.disk.replayed left lt };

    ghost counts_now = { λ f t c _. since_now f.disk.start t (reverse f.disk.steps.items) c };

    ghost only_now = { λ f c. now_only f.disk.start (reverse f.disk.steps.items) c };

    fn len(&mut self) -> Result<u64, Failed>
        ensures length { IfOk result (λ n. n ≡ length (bytes_of (behind self.old))) }
        ensures seen { bytes_of (behind self.new) ≡ bytes_of (behind self.old) }
        ensures images { NoMore (images_of (behind self.old)) (images_of (behind self.new)) }
        ensures stay { NoMore (images_of (behind self.new)) (images_of (behind self.old)) }
        ensures longest { longest_of (behind self.new) ≡ longest_of (behind self.old) }
        ensures time { Elapses (moment_of (behind self.old)) (moment_of (behind self.new))
            (images_since (behind self.old)) (images_since (behind self.new)) (images_of (behind self.new)) }
        ensures cause { Counts (fuse_faults self.old) (fuse_faults self.new) (IsErr result) }
        ensures fuse { IsFused self.old self.new (IsErr result) (behind self.new ≡ behind self.old) }
    {
        spend(&mut self.calls, &mut self.refused)?;
        self.disk.len()
    }

    fn read_at(&mut self, at: u64, into: &mut [u8]) -> Result<(), Failed>
        requires inside { at + length into.old ≤ length (bytes_of (behind self.old)) }
        ensures bytes { OnOk result (into.new ≡ take (length into.old) (drop at (bytes_of (behind self.old)))) }
        ensures seen { bytes_of (behind self.new) ≡ bytes_of (behind self.old) }
        ensures images { NoMore (images_of (behind self.old)) (images_of (behind self.new)) }
        ensures stay { NoMore (images_of (behind self.new)) (images_of (behind self.old)) }
        ensures longest { longest_of (behind self.new) ≡ longest_of (behind self.old) }
        ensures time { Elapses (moment_of (behind self.old)) (moment_of (behind self.new))
            (images_since (behind self.old)) (images_since (behind self.new)) (images_of (behind self.new)) }
        ensures cause { Counts (fuse_faults self.old) (fuse_faults self.new) (IsErr result) }
        ensures fuse { IsFused self.old self.new (IsErr result) (behind self.new ≡ behind self.old) }
    {
        spend(&mut self.calls, &mut self.refused)?;
        self.disk.read_at(at, into)
    }

    fn write_at(&mut self, at: u64, bytes: &[u8]) -> Result<(), Failed>
        requires inside { at ≤ length (bytes_of (behind self.old)) }
        ensures written { OnOk result (bytes_of (behind self.new) ≡ overlaid (bytes_of (behind self.old)) at bytes.now) }
        ensures unharmed { OnErr result (bytes_of (behind self.new) ≡ bytes_of (behind self.old)) }
        ensures images { Follows (Torn at (length bytes.now)) (images_of (behind self.old)) (images_of (behind self.new)) }
        ensures leaves { OnOk result (Leaves (Torn at (length bytes.now)) (behind self.old) (behind self.new)) }
        ensures open { OnErr result (Opens (Torn at (length bytes.now)) (behind self.old) (behind self.new)) }
        ensures longest { longest_of (behind self.new) ≤ max (longest_of (behind self.old)) (at + length bytes.now) }
        ensures time { Elapses (moment_of (behind self.old)) (moment_of (behind self.new))
            (images_since (behind self.old)) (images_since (behind self.new)) (images_of (behind self.new)) }
        ensures cause { Counts (fuse_faults self.old) (fuse_faults self.new) (IsErr result) }
        ensures fuse { IsFused self.old self.new (IsErr result) (IsUncalled (behind self.old) (behind self.new)) }
    {
        match spend(&mut self.calls, &mut self.refused) {
            Ok(()) => self.disk.write_at(at, bytes),
            Err(_) => {
                self.disk.note_failed_write(at, bytes);
                Err(Failed)
            }
        }
    }

    fn cut(&mut self, len: u64) -> Result<(), Failed>
        requires inside { len ≤ length (bytes_of (behind self.old)) }
        ensures cut { OnOk result (bytes_of (behind self.new) ≡ take len (bytes_of (behind self.old))) }
        ensures unharmed { OnErr result (bytes_of (behind self.new) ≡ bytes_of (behind self.old)) }
        ensures images { Follows (Cut len) (images_of (behind self.old)) (images_of (behind self.new)) }
        ensures leaves { OnOk result (Leaves (Cut len) (behind self.old) (behind self.new)) }
        ensures open { OnErr result (Opens (Cut len) (behind self.old) (behind self.new)) }
        ensures longest { longest_of (behind self.new) ≡ longest_of (behind self.old) }
        ensures time { Elapses (moment_of (behind self.old)) (moment_of (behind self.new))
            (images_since (behind self.old)) (images_since (behind self.new)) (images_of (behind self.new)) }
        ensures cause { Counts (fuse_faults self.old) (fuse_faults self.new) (IsErr result) }
        ensures fuse { IsFused self.old self.new (IsErr result) (IsUncalled (behind self.old) (behind self.new)) }
    {
        match spend(&mut self.calls, &mut self.refused) {
            Ok(()) => self.disk.cut(len),
            Err(_) => {
                self.disk.note_failed_cut(len);
                Err(Failed)
            }
        }
    }

    fn sync(&mut self) -> Result<(), Failed>
        ensures durable { OnOk result (Only (bytes_of (behind self.old)) (images_of (behind self.new))) }
        ensures seen { bytes_of (behind self.new) ≡ bytes_of (behind self.old) }
        ensures images { NoMore (images_of (behind self.old)) (images_of (behind self.new)) }
        ensures stay { OnErr result (NoMore (images_of (behind self.new)) (images_of (behind self.old))) }
        ensures longest { OnOk result (longest_of (behind self.new) ≡ length (bytes_of (behind self.old))) }
        ensures as_long { OnErr result (longest_of (behind self.new) ≡ longest_of (behind self.old)) }
        ensures time { Elapses (moment_of (behind self.old)) (moment_of (behind self.new))
            (images_since (behind self.old)) (images_since (behind self.new)) (images_of (behind self.new)) }
        ensures cause { Counts (fuse_faults self.old) (fuse_faults self.new) (IsErr result) }
        ensures fuse { IsFused self.old self.new (IsErr result) (behind self.new ≡ behind self.old) }
    {
        spend(&mut self.calls, &mut self.refused)?;
        self.disk.sync()
    }

    fn faults(&self) -> u64 {
        self.disk.faults().saturating_add(self.refused)
    }
}
