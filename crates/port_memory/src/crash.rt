//! Simulates a crash: a number picks one image.
//!
//! The recorded steps are replayed from the start. The replay keeps an image of the file beside what a read gives. Each write or
//! cut changes the image as the choice says for that step. A sync sets the image to what a read gives.
ghost use Rattle.std.specs.Prelude.{◌≡◌, ◌≤◌, [], length, reverse, IfOk};
ghost use Rattle.fleet_ports.specs.Disks.{overlaid};
ghost use Rattle.port_memory.specs.History.{seen_after, next_seen};
ghost use Rattle.port_memory.specs.Ways.{put_by, torn_by, past_by, shortened_by, left_by, next_ways, left_after};
ghost use Rattle.port_memory.specs.Disks.{IsFresh, fails_of, behind, bytes_of, images_of, crash_left};

use crate::disk::MemoryDisk;
use crate::fuse::FuseDisk;
use crate::numbers::Numbers;
use crate::step::Step;
use json_tree::Bytes;
use std::alloc::{AllocError, Global};

/// The number of ways that a write or a cut can end: nothing of it, all of it, half of it, or bytes 1 in its range.
const WAYS: u64 = 4;

/// The file with these bytes written at an offset, which may be past the end.
fn laid_over(alloc: Global, file: &[u8], at: u64, bytes: &[u8]) -> Result<Vec<u8>, AllocError>
    ensures { IfOk result (λ next. next.items ≡ overlaid file.now at bytes.now) }
{
    let front = (at as usize).min(file.len());
    let mut next = file[..front].to_vec(alloc)?;
    next.extend_from_slice(bytes)?;
    if front == at as usize && bytes.len() < file.len() - front {
        next.extend_from_slice(&file[front + bytes.len()..])?;
    }
    Ok(next)
}

/// The bytes that a write leaves: all of them, half of them, or as many bytes 1.
fn put_down(alloc: Global, bytes: &[u8], way: u64) -> Result<Vec<u8>, AllocError>
    ensures { IfOk result (λ put. put.items ≡ put_by way bytes.now) }
{
    if way == 1 {
        return bytes.to_vec(alloc);
    }
    if way == 2 {
        return bytes[..bytes.len() / 2].to_vec(alloc);
    }
    vec![in alloc; 1; bytes.len()]
}

/// What a write leaves of an image.
fn torn(alloc: Global, image: &[u8], at: u64, bytes: &[u8], way: u64) -> Result<Vec<u8>, AllocError>
    ensures { IfOk result (λ next. next.items ≡ torn_by way at bytes.now image.now) }
{
    if way == 0 || (image.len() as u64) < at {
        return image.to_vec(alloc);
    }
    let put = put_down(alloc, bytes, way)?;
    laid_over(alloc, image, at, &put)
}

/// What a cut leaves of an image that it shortens: nothing past `len`, half of what was past it, or bytes 1 there.
fn past(alloc: Global, image: &[u8], len: usize, way: u64) -> Result<Vec<u8>, AllocError>
    requires inside { len ≤ length image.now }
    ensures { IfOk result (λ next. next.items ≡ past_by way len image.now) }
{
    let past = image.len() - len;
    if way == 1 {
        return image[..len].to_vec(alloc);
    }
    if way == 2 {
        return image[..len + past / 2].to_vec(alloc);
    }
    let mut next = image[..len].to_vec(alloc)?;
    next.resize(len + past, 1)?;
    Ok(next)
}

/// What a cut leaves of an image.
fn shortened(alloc: Global, image: &[u8], len: u64, way: u64) -> Result<Vec<u8>, AllocError>
    ensures { IfOk result (λ next. next.items ≡ shortened_by way len image.now) }
{
    if way == 0 || (image.len() as u64) < len {
        return image.to_vec(alloc);
    }
    past(alloc, image, len as usize, way)
}

/// What a read gives after a step.
fn step_seen(alloc: Global, seen: &[u8], step: &Step) -> Result<Vec<u8>, AllocError>
    ensures value { IfOk result (λ next. next.items ≡ next_seen step.now seen.now) }
{
    match step {
        Step::Wrote(at, bytes, done) if *done => laid_over(alloc, seen, *at, bytes.as_slice()),
        Step::Shortened(len, done) if *done && *len < seen.len() as u64 =>
            seen[..*len as usize].to_vec(alloc),
        _ => seen.to_vec(alloc),
    }
}

/// What a step leaves of an image, if a read gave `seen` before it.
fn step_image(
    alloc: Global,
    image: &[u8],
    seen: &[u8],
    step: &Step,
    way: u64,
) -> Result<Vec<u8>, AllocError>
    ensures { IfOk result (λ left. left.items ≡ left_by way step.now seen.now image.now) }
{
    match step {
        Step::Wrote(at, bytes, _) => torn(alloc, image, *at, bytes.as_slice(), way),
        Step::Opened(at, len) => {
            let ones = vec![in alloc; 1; *len as usize]?;
            torn(alloc, image, *at, &ones, way)
        }
        Step::Shortened(len, _) => shortened(alloc, image, *len, way),
        Step::Synced => seen.to_vec(alloc),
    }
}

/// The ways of the steps after this one. The pattern starts over at a sync and at its end.
fn ways_behind(ways: u64, pattern: u64, step: &Step) -> u64
    ensures { result ≡ next_ways ways pattern step.now }
{
    match step {
        Step::Synced => pattern,
        _ => {
            if ways < WAYS {
                return pattern;
            }
            ways / WAYS
        }
    }
}

/// One image of a disk that held `start`, after these steps. The base-4 digits of the pattern are the ways of the steps since the
/// last sync; they repeat.
fn left_of(alloc: Global, start: &[u8], steps: &[Step], pattern: u64) -> Result<Vec<u8>, AllocError>
    ensures { IfOk result (λ image. image.items ≡ left_after start.now pattern (reverse steps.now)) }
{
    let mut image = start.to_vec(alloc)?;
    let mut seen = start.to_vec(alloc)?;
    let mut ways = pattern;
    'replaying: for step in steps {
        image = step_image(alloc, &image, &seen, step, ways % WAYS)?;
        seen = step_seen(alloc, &seen, step)?;
        ways = ways_behind(ways, pattern, step);
    }
    Ok(image)
}

impl MemoryDisk {
    /// What a crash leaves by a choice.
    fn left_by_choice(&self, alloc: Global, choice: u64) -> Result<Vec<u8>, AllocError>
        ensures { IfOk result (λ image. image.items ≡ crash_left self.now choice) }
    {
        if choice == 0 {
            return self.as_slice().to_vec(alloc);
        }
        left_of(alloc, self.start.as_slice(), &self.steps, choice - 1)
    }
}

impl FuseDisk {
    /// The disk that a crash leaves. It holds one image of the disk behind the fuse, a crash leaves the same of it again, and no
    /// call of it is listed to fail.
    ///
    /// Choice 0 gives what a read gives. For any other choice, the base-4 digits of `choice - 1` say how the steps since the last
    /// sync end, lowest digit first, repeating: 0 leaves nothing of a step, 1 all of it, 2 half of it, 3 bytes 1 in its range. A
    /// failed write recorded only by its range counts as a write of bytes 1. Two choices may leave the same file.
    pub fn crash(self, alloc: Global, choice: u64) -> Result<MemoryDisk, AllocError>
        ensures left { IfOk result (λ left. bytes_of left ≡ crash_left (behind self) choice) }
        ensures image { IfOk result (λ left. images_of (behind self) (bytes_of left)) }
        ensures fresh { IfOk result (λ left. IsFresh left (bytes_of left)) }
        ensures calm { IfOk result (λ left. fails_of left ≡ []) }
    {
        let image = self.disk.left_by_choice(alloc, choice)?;
        let bytes = Bytes::from_vec(image);
        Ok(MemoryDisk::new(alloc, bytes, Numbers::new(alloc)))
    }
}
