//! Makes a log from a laid file, and reads its properties.
ghost use Rattle.std.specs.Prelude.{◌≡◌, ◌+◌, false};
ghost use Rattle.log_spec.specs.ImageOf.{laid_image};
ghost use Rattle.record_log.specs.Log.{disk_of, generation_of, size_of, down_of, AllStand, StandsFor, log_frames};
ghost use Rattle.record_log.specs.Lay.{Fits, laid_size};

use crate::frames::Frames;
use crate::log::{Gate, Log};
use fleet_ports::Disk;
use json_tree::Bytes;

impl<D: Disk + Drop> Log<D> {
    /// The log of a file that `lay` made with these arguments. It allocates nothing.
    pub fn laid(disk: D, generation: u64, frames: &Frames) -> Log<D>
        requires stands { AllStand (D.may_leave disk) (laid_image generation frames.now) }
        requires fits { Fits frames.now }
        ensures stands { StandsFor D.may_leave result frames.now }
        ensures again { StandsFor D.may_leave result (log_frames D.seen result) }
        ensures disk { disk_of result ≡ disk }
        ensures generation { generation_of result ≡ generation }
        ensures size { size_of result ≡ laid_size frames.now }
        ensures up { down_of result ≡ false }
    {
        Log {
            disk,
            generation,
            gate: Gate {
                place: gate_behind(frames.as_slice()),
            },
            down: false,
        }
    }

    /// The generation of the file.
    pub fn generation(&self) -> u64
        ensures value { result ≡ generation_of self.now }
    {
        self.generation
    }

    /// The bytes of the file up to and including the first closed gate.
    pub fn size(&self) -> u64
        ensures value { result ≡ size_of self.now }
    {
        self.gate.place + 1
    }

    /// Whether a repair failed. If so, open the log anew.
    pub fn is_down(&self) -> bool
        ensures value { result ≡ down_of self.now }
    {
        self.down
    }

    /// The disk, to be opened anew or returned.
    pub fn into_disk(self) -> D
        ensures value { result ≡ disk_of self }
    {
        self.disk
    }
}

/// The offset after the frames of a laid file.
pub(crate) fn gate_behind(frames: &[Bytes]) -> u64
    requires fits { Fits frames.now }
    ensures place { result + 1 ≡ laid_size frames.now }
{
    let mut gate = 16;
    'adding: for frame in frames {
        gate = gate + 5 + frame.as_slice().len() as u64;
    }
    gate
}
