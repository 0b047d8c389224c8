//! A real file as a disk. Beside the plain system calls, it does three things for the crash model.
//!
//! - The file is locked for this object until the object is dropped. Another `FileDisk` that opens the file, in this program or
//!   another, is refused. A program that ignores locks isn't held back.
//! - Opening a file syncs its folder, so that a crash keeps the file's name.
//! - After a failed sync, every later sync of this object fails. The system may drop what it couldn't write, and report success
//!   for a later sync. To go on, open the file anew.
ghost use Rattle.std.specs.Prelude.{◌≡◌, IfOk, IsErr};
ghost use Rattle.port_real.specs.Faults.{disk_faults};

use crate::count::count;
use fleet_ports::{Disk, Failed};
use std::fs::{File, OpenOptions};
use std::io;
use std::os::unix::fs::FileExt;
use std::path::Path;

/// A file of the operating system.
#[derive(Drop)]
pub struct FileDisk {
    file: File,
    /// Whether a sync has failed.
    lost: bool,
    faults: u64,
}

/// Opens a file for reading and writing, creates it if it is absent, and locks it. It doesn't wait for the lock.
fn open_or_make(rt: &HostRuntime, name: &str) -> io::Result<File> {
    let file = OpenOptions::new()
        .read(true)
        .write(true)
        .create(true)
        .open(rt, name)?;
    file.try_lock()?;
    let folder = match Path::new(name).parent() {
        Some(parent) if !parent.as_os_str().is_empty() => File::open(rt, parent)?,
        _ => File::open(rt, ".")?,
    };
    folder.sync_all()?;
    Ok(file)
}

impl FileDisk {
    /// The file with this name, created if absent and locked until the disk is dropped. A file that is locked elsewhere is
    /// refused. No counter records a failure of this call.
    pub fn open_file(rt: &HostRuntime, name: &str) -> Result<FileDisk, Failed>
        ensures faults { IfOk result (λ disk. disk_faults disk ≡ 0) }
    {
        match open_or_make(rt, name) {
            Ok(file) => Ok(FileDisk {
                file,
                lost: false,
                faults: 0,
            }),
            Err(_) => Err(Failed),
        }
    }
}

impl Disk for FileDisk {
    ghost use Rattle.std.specs.Prelude.{false, []};

    ghost is_told = { false };

    ghost seen = { λ _. [] };

    ghost may_leave = { λ _ _. ⊥ };

    ghost longest = { λ _. 0 };

    ghost moment = { λ _. 0 };

    ghost left_since = { λ _ _ _. ⊥ };

    ghost fault_count = { λ d. disk_faults d };

    ghost seen_may_stay = { λ d h. Prim.cc };

    ghost told = { λ d c h. absurd h };

    ghost told_since = { λ d t c h. absurd h };

    ghost no_longer = { λ d c h. absurd h };

    ghost mixes = { λ d c i v h lt byte same. absurd h };

    ghost counts_now = { λ d t c le h. h };

    ghost only_now = { λ d c h. h };

    fn len(&mut self) -> Result<u64, Failed> {
        match self.file.metadata() {
            Ok(metadata) => Ok(metadata.len()),
            Err(_) => {
                self.faults = self.faults.saturating_add(1);
                Err(Failed)
            }
        }
    }

    fn read_at(&mut self, at: u64, into: &mut [u8]) -> Result<(), Failed> {
        count(self.file.read_exact_at(into, at), &mut self.faults)
    }

    fn write_at(&mut self, at: u64, bytes: &[u8]) -> Result<(), Failed> {
        count(self.file.write_all_at(bytes, at), &mut self.faults)
    }

    fn cut(&mut self, len: u64) -> Result<(), Failed> {
        count(self.file.set_len(len), &mut self.faults)
    }

    fn sync(&mut self) -> Result<(), Failed> {
        if self.lost {
            self.faults = self.faults.saturating_add(1);
            return Err(Failed);
        }
        let answer = self.file.sync_data();
        self.lost = answer.is_err();
        count(answer, &mut self.faults)
    }

    fn faults(&self) -> u64 {
        self.faults
    }
}
