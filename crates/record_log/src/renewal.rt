//! Lays a new file over an old one, with a repair.
ghost use Rattle.std.specs.Prelude.{◌≡◌, ◌↔◌, ℕ, List, ◌∷◌, IsErr, OnOk};
ghost use Rattle.fleet_ports.specs.Counts.{Counts, RoseBy};
ghost use Rattle.fleet_ports.specs.Disks.{Only};
ghost use Rattle.fleet_ports.specs.Moments.{LeavesOnly};
ghost use Rattle.log_spec.specs.Image.{closed};
ghost use Rattle.log_spec.specs.ImageOf.{rest_text, laid_image};
ghost use Rattle.record_log.specs.Log.{disk_of, generation_of, size_of, down_of, AllStand, StandsFor, log_frames};
ghost use Rattle.record_log.specs.Lay.{Fits, IsTooLong, IsLaying, IsLaidOrTorn, AllLaid, laid_size};
ghost use Rattle.record_log.specs.Renew.{AfterRenew, IsRenewFault};

use crate::frames::Frames;
use crate::gate::gate_behind;
use crate::laid::{LayFault, lay};
use crate::log::{Gate, Log};
use crate::put::write_synced;
use fleet_ports::{Disk, Failed};

/// The result of laying a new file over an old one.
#[derive(Clone, Copy, Debug, PartialEq, Eq)]
pub enum Renewed {
    /// The file is laid.
    Done,
    /// The disk counted a fault. Each image is an old one or closed.
    Failed,
    /// The disk counted a fault when the file's gate was opened, and another in the repair. Each image is an old one, closed, or
    /// the laid file.
    Down,
    /// A frame has 2^32 bytes or more, or the file would exceed 2^62 bytes. The disk wasn't called.
    TooLong,
}

/// Closes a file after the write that opens it failed.
fn shut_laid<D: Disk + Drop>(disk: &mut D) -> Result<(), Failed>
    ensures any_moment { (generation : ℕ) (frames : List (List ℕ)) → AllLaid (D.may_leave disk.old) generation frames
        → LeavesOnly D.moment D.left_since disk.old disk.new (IsLaidOrTorn generation frames) }
    ensures images { (generation : ℕ) (frames : List (List ℕ)) → AllLaid (D.may_leave disk.old) generation frames
        → AllLaid (D.may_leave disk.new) generation frames }
    ensures closed { OnOk result (AllStand (D.may_leave disk.new) closed) }
    ensures cause { Counts (D.fault_count disk.old) (D.fault_count disk.new) (IsErr result) }
{
    write_synced(disk, 0, &[0])?;
    Ok(())
}

/// Lays a file, and closes it if opening it fails. It allocates nothing.
pub fn renew<D: Disk + Drop>(disk: &mut D, generation: u64, frames: &Frames) -> Renewed
    ensures any_moment { LeavesOnly D.moment D.left_since disk.old disk.new (IsLaying (D.may_leave disk.old) generation frames.now) }
    ensures after { AfterRenew result (D.may_leave disk.old) (D.may_leave disk.new) generation frames.now }
    ensures bytes { result ≡ Renewed.Done → Only (1 ∷ rest_text generation frames.now) (D.may_leave disk.new) }
    ensures fits { result ≡ Renewed.Done → Fits frames.now }
    ensures too_long { (result ≡ Renewed.TooLong) ↔ IsTooLong frames.now }
    ensures untouched { result ≡ Renewed.TooLong → disk.new ≡ disk.old }
    ensures cause { Counts (D.fault_count disk.old) (D.fault_count disk.new) (IsRenewFault result) }
    ensures twice { result ≡ Renewed.Down → RoseBy 2 (D.fault_count disk.old) (D.fault_count disk.new) }
{
    match lay(disk, generation, frames) {
        Ok(()) => Renewed::Done,
        Err(LayFault::TooLong) => Renewed::TooLong,
        Err(LayFault::DiskFault { opened }) => {
            if !opened {
                return Renewed::Failed;
            }
            match shut_laid(disk) {
                Ok(()) => Renewed::Failed,
                Err(_) => Renewed::Down,
            }
        }
    }
}

impl<D: Disk + Drop> Log<D> {
    /// Continues the log in a file that `lay` or `renew` made, and hands the log's old file back in `disk`. It allocates nothing,
    /// and calls no disk.
    pub fn go_over(&mut self, disk: &mut D, generation: u64, frames: &Frames)
        requires stands { AllStand (D.may_leave disk.old) (laid_image generation frames.now) }
        requires fits { Fits frames.now }
        ensures stands { StandsFor D.may_leave self.new frames.now }
        ensures again { StandsFor D.may_leave self.new (log_frames D.seen self.new) }
        ensures disk { disk_of self.new ≡ disk.old }
        ensures other { disk.new ≡ disk_of self.old }
        ensures generation { generation_of self.new ≡ generation }
        ensures size { size_of self.new ≡ laid_size frames.now }
        ensures down { down_of self.new ≡ down_of self.old }
    {
        std::mem::swap(&mut self.disk, disk);
        self.generation = generation;
        self.gate = Gate {
            place: gate_behind(frames.as_slice()),
        };
    }
}
