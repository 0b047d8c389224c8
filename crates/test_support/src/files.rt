//! The four files as bytes, and disks in memory that hold them.
use crate::given::Given;
use crate::texts::{add_bytes, number_of, parted};
use port_memory::fleet_ports::{Disk, Disks};
use port_memory::json_tree::Bytes;
use port_memory::{FuseDisk, MemoryDisk, Numbers};
use std::alloc::{AllocError, Global};
use std::mem;

/// What the four files hold.
type Files = Disks<Vec<u8>>;

/// The first files of the queue and of the store, as `init` leaves them.
const LAID_QUEUE: &str = r"\x01PDBLOG1\x01\0\0\0\0\0\0\0\x01\x09\0\0\0\0\0\0\0\0\0\0\0\0\0";

const LAID_STORE: &str =
    r"\x01PDBLOG1\x01\0\0\0\0\0\0\0\x01\x0d\0\0\0\0\x07\0\0\0\x0e\0\0\0\x0e\0\0\0\x01\x04\0\0\0\x01\0\0\0\0";

fn empty(alloc: Global) -> Files {
    Disks {
        queue_a: Vec::new(alloc),
        queue_b: Vec::new(alloc),
        store_a: Vec::new(alloc),
        store_b: Vec::new(alloc),
    }
}

// Leaves no byte.
fn clear(files: &mut Files) {
    files.queue_a.clear();
    files.queue_b.clear();
    files.store_a.clear();
    files.store_b.clear();
}

// Makes these files those that `init` lays.
fn lay(files: &mut Files) -> Result<(), AllocError> {
    clear(files);
    add_bytes(&mut files.queue_a, LAID_QUEUE)?;
    add_bytes(&mut files.store_a, LAID_STORE)
}

// Appends bytes to a file. The first word names it: 0 and 1 those of the queue, 2 and any other those of the store.
fn add_to(files: &mut Files, text: &str) -> Result<(), AllocError> {
    let (which, bytes) = parted(text, " ");
    match number_of(which) {
        0 => add_bytes(&mut files.queue_a, bytes),
        1 => add_bytes(&mut files.queue_b, bytes),
        2 => add_bytes(&mut files.store_a, bytes),
        _ => add_bytes(&mut files.store_b, bytes),
    }
}

// Whether each file holds the same.
fn are_same(files: &Files, others: &Files) -> bool {
    files.queue_a.as_slice() == others.queue_a.as_slice()
        && files.queue_b.as_slice() == others.queue_b.as_slice()
        && files.store_a.as_slice() == others.store_a.as_slice()
        && files.store_b.as_slice() == others.store_b.as_slice()
}

// Makes a file what another is, one generation later, which the byte at 8 tells.
fn follow(file: &mut Vec<u8>, other: &[u8]) -> Result<(), AllocError> {
    file.clear();
    file.extend_from_slice(other)?;
    if let Some(byte) = file.get_mut(8) {
        *byte = byte.wrapping_add(1);
    }
    Ok(())
}

/// So many numbers from this one on. Where memory is short, there are fewer.
pub fn numbers(alloc: Global, first: u64, count: u64) -> Numbers {
    let mut numbers = Numbers::new(alloc);
    for place in 0..count {
        let _ = numbers.push(first.saturating_add(place));
    }
    numbers
}

/// The bytes in a place of their own. Where memory is short, there are none.
pub(crate) fn copy_of(alloc: Global, bytes: &[u8]) -> Bytes {
    match Bytes::from_slice(alloc, bytes) {
        Ok(bytes) => bytes,
        Err(_) => Bytes::from_vec(Vec::new(alloc)),
    }
}

// A disk that holds the file. It has the given faults where they are meant for it, or for each disk.
fn disk_of(alloc: Global, file: &[u8], place: u64, given: &Given) -> FuseDisk {
    let meant = given.number(" disk=", u64::MAX);
    let bytes = copy_of(alloc, file);
    if meant == place || meant == u64::MAX {
        let fails = numbers(
            alloc,
            given.number(" first=", 0),
            given.number(" count=", 0),
        );
        FuseDisk::new(
            MemoryDisk::new(alloc, bytes, fails),
            given.number(" stop=", u64::MAX),
        )
    } else {
        FuseDisk::new(MemoryDisk::new(alloc, bytes, Numbers::new(alloc)), u64::MAX)
    }
}

// Disks that hold the files.
fn disks_of(alloc: Global, files: &Files, given: &Given) -> Disks<FuseDisk> {
    Disks {
        queue_a: disk_of(alloc, files.queue_a.as_slice(), 0, given),
        queue_b: disk_of(alloc, files.queue_b.as_slice(), 1, given),
        store_a: disk_of(alloc, files.store_a.as_slice(), 2, given),
        store_b: disk_of(alloc, files.store_b.as_slice(), 3, given),
    }
}

// Whether a call of a disk has failed.
fn have_failed(disks: &Disks<FuseDisk>) -> bool {
    disks.queue_a.faults() > 0
        || disks.queue_b.faults() > 0
        || disks.store_a.faults() > 0
        || disks.store_b.faults() > 0
}

// What the disk holds.
fn held(alloc: Global, disk: &mut MemoryDisk) -> Result<Vec<u8>, AllocError> {
    match disk.len() {
        Ok(len) => {
            let mut bytes = vec![in alloc; 0; len as usize]?;
            let _ = disk.read_at(0, bytes.as_mut_slice());
            Ok(bytes)
        }
        Err(_) => Ok(Vec::new(alloc)),
    }
}

// What a crash leaves of the disk, by the choice. Where memory is short, that is nothing.
fn left(alloc: Global, disk: FuseDisk, choice: u64) -> Vec<u8> {
    let bytes = match disk.crash(alloc, choice) {
        Ok(mut left) => held(alloc, &mut left),
        Err(fault) => Err(fault),
    };
    bytes.unwrap_or(Vec::new(alloc))
}

// The files that a crash leaves.
fn left_of(alloc: Global, disks: Disks<FuseDisk>, choice: u64) -> Files {
    let Disks {
        queue_a,
        queue_b,
        store_a,
        store_b,
    } = disks;
    Disks {
        queue_a: left(alloc, queue_a, choice),
        queue_b: left(alloc, queue_b, choice),
        store_a: left(alloc, store_a, choice),
        store_b: left(alloc, store_b, choice),
    }
}

/// The files of a script.
#[derive(Drop)]
pub struct Stored {
    files: Files,
    // What the files are to hold.
    wanted: Files,
    // The disks, where a command ran over the files.
    disks: Option<Disks<FuseDisk>>,
}

impl Stored {
    pub(crate) fn new(alloc: Global) -> Stored {
        Stored {
            files: empty(alloc),
            wanted: empty(alloc),
            disks: None,
        }
    }

    /// The disks as the last command left them, or those that hold the files.
    pub fn take_disks(&mut self, alloc: Global, given: &Given) -> Disks<FuseDisk> {
        match self.disks.take() {
            Some(disks) => disks,
            None => disks_of(alloc, &self.files, given),
        }
    }

    /// Keeps the disks that a command left.
    pub fn keep_disks(&mut self, disks: Option<Disks<FuseDisk>>) {
        drop(mem::replace(&mut self.disks, disks));
    }

    /// Whether a call of a disk has failed.
    pub(crate) fn have_failed(&self) -> bool {
        match &self.disks {
            Some(disks) => have_failed(disks),
            None => false,
        }
    }

    fn crash(&mut self, alloc: Global, choice: u64) {
        if let Some(disks) = self.disks.take() {
            self.files = left_of(alloc, disks, choice);
        }
    }

    /// Does what a line says of the files, and tells whether it is as the line says; none for other lines.
    pub(crate) fn step(
        &mut self,
        alloc: Global,
        word: &str,
        text: &str,
    ) -> Result<Option<bool>, AllocError> {
        match word {
            "files" => {
                lay(&mut self.files)?;
                lay(&mut self.wanted)?;
            }
            "put" => {
                add_to(&mut self.files, text)?;
                add_to(&mut self.wanted, text)?;
            }
            "want" => add_to(&mut self.wanted, text)?,
            "laid" => lay(&mut self.wanted)?,
            "turned" => {
                follow(&mut self.wanted.queue_a, self.wanted.queue_b.as_slice())?;
                follow(&mut self.wanted.store_a, self.wanted.store_b.as_slice())?;
            }
            "crash" => self.crash(alloc, number_of(text)),
            "same" => return Ok(Some(are_same(&self.files, &self.wanted))),
            "untouched" => return Ok(Some(!self.have_failed())),
            _ => return Ok(None),
        }
        Ok(Some(true))
    }
}
