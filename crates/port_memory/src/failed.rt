//! Records a failed write or cut. Until the next successful sync, a crash may leave any bytes in its range, as if the call had
//! reached the file.
ghost use Rattle.std.specs.Prelude.{◌≡◌, ◌+◌, ◌≤◌, length, max};
ghost use Rattle.fleet_ports.specs.Disks.{Torn, Cut, Follows};
ghost use Rattle.fleet_ports.specs.Moments.{Elapses};
ghost use Rattle.port_memory.specs.Disks.{bytes_of, images_of, longest_of, moment_of, images_since, Opens, IsUncalled};

use crate::disk::MemoryDisk;
use crate::note::note_failed;
use crate::step::Step;
use json_tree::Bytes;

impl MemoryDisk {
    /// Records a failed write; only its range if memory is too short for its bytes.
    pub(crate) fn note_failed_write(&mut self, at: u64, bytes: &[u8])
        ensures seen { bytes_of self.new ≡ bytes_of self.old }
        ensures images { Follows (Torn at (length bytes.now)) (images_of self.old) (images_of self.new) }
        ensures open { Opens (Torn at (length bytes.now)) self.old self.new }
        ensures longest { longest_of self.new ≤ max (longest_of self.old) (at + length bytes.now) }
        ensures time { Elapses (moment_of self.old) (moment_of self.new) (images_since self.old) (images_since self.new) (images_of self.new) }
        ensures uncalled { IsUncalled self.old self.new }
    {
        match Bytes::from_slice(self.alloc, bytes) {
            Ok(copy) => {
                let step = Step::Wrote(at, copy, false);
                note_failed(&mut self.steps, step, &mut self.unnoted)
            }
            Err(_) => {
                let step = Step::Opened(at, bytes.len() as u64);
                note_failed(&mut self.steps, step, &mut self.unnoted)
            }
        }
    }

    /// Records a failed cut.
    pub(crate) fn note_failed_cut(&mut self, len: u64)
        ensures seen { bytes_of self.new ≡ bytes_of self.old }
        ensures images { Follows (Cut len) (images_of self.old) (images_of self.new) }
        ensures open { Opens (Cut len) self.old self.new }
        ensures longest { longest_of self.new ≡ longest_of self.old }
        ensures time { Elapses (moment_of self.old) (moment_of self.new) (images_since self.old) (images_since self.new) (images_of self.new) }
        ensures uncalled { IsUncalled self.old self.new }
    {
        note_failed(
            &mut self.steps,
            Step::Shortened(len, false),
            &mut self.unnoted,
        )
    }
}
