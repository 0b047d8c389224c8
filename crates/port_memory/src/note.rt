//! Records a call of a disk in memory: its number, its fault, its step.
ghost use Rattle.std.specs.Prelude.{◌≡◌, ◌≤◌, ◌∷◌, length, take, reverse, true, IsErr, OnOk, OnErr, IfOk, vec_len};
ghost use Rattle.fleet_ports.specs.Disks.{overlaid};
ghost use Rattle.fleet_ports.specs.Counts.{Counts};
ghost use Rattle.port_memory.specs.declared.step.Step.TheVariants.{Wrote, Shortened, Synced};
ghost use Rattle.port_memory.specs.History.{held, Noted};
ghost use Rattle.port_memory.specs.Calls.{is_listed, next};

use crate::numbers::Numbers;
use crate::overlay::{make_room, overlay};
use crate::step::Step;
use fleet_ports::Failed;
use json_tree::Bytes;
use std::alloc::{AllocError, Global};

/// Counts a call, and returns whether it is listed to fail.
pub(crate) fn begin(calls: &mut u64, fail: &Numbers) -> bool
    ensures answer { result ≡ is_listed fail.now calls.new }
    ensures count { calls.new ≡ next calls.old }
{
    *calls = calls.saturating_add(1);
    fail.lists(*calls)
}

/// Counts a fault.
pub(crate) fn refuse(faults: &mut u64) -> Result<(), Failed>
    ensures count { Counts faults.old faults.new (IsErr result) }
    ensures one { faults.new ≡ next faults.old }
    ensures err { IsErr result }
{
    *faults = faults.saturating_add(1);
    Err(Failed)
}

/// Counts a fault of a call that ran out of memory.
pub(crate) fn starve(starved: &mut u64, faults: &mut u64) -> Result<(), Failed>
    ensures count { Counts faults.old faults.new (IsErr result) }
    ensures one { faults.new ≡ next faults.old }
    ensures starved { starved.new ≡ next starved.old }
    ensures err { IsErr result }
{
    *starved = starved.saturating_add(1);
    refuse(faults)
}

/// Records a failed call, or counts that memory was too short for that.
pub(crate) fn note_failed(steps: &mut Vec<Step>, step: Step, unnoted: &mut u64)
    ensures note { Noted step (reverse steps.old.items) (reverse steps.new.items) unnoted.old unnoted.new }
{
    match steps.push(step) {
        Ok(()) => {}
        Err(_) => *unnoted = unnoted.saturating_add(1),
    }
}

/// The file that a read gives, ready to be written.
fn current(
    alloc: Global,
    start: &Bytes,
    written: &mut Option<Vec<u8>>,
) -> Result<Vec<u8>, AllocError>
    ensures ok { IfOk result (λ file. file.items ≡ held start.now written.old) }
    ensures err { OnErr result (held start.now written.new ≡ held start.now written.old) }
{
    match written.take() {
        Some(file) => Ok(file),
        None => start.as_slice().to_vec(alloc),
    }
}

/// Records a write over the file, and writes.
fn note_over(
    file: &mut Vec<u8>,
    steps: &mut Vec<Step>,
    at: u64,
    bytes: &[u8],
    copy: Bytes,
) -> Result<(), AllocError>
    requires inside { at ≤ vec_len file.old }
    requires same { copy ≡ bytes.now }
    ensures step { OnOk result (reverse steps.new.items ≡ Wrote at bytes.now true ∷ reverse steps.old.items) }
    ensures written { OnOk result (file.new.items ≡ overlaid file.old.items at bytes.now) }
    ensures err { OnErr result (steps.new.items ≡ steps.old.items) }
    ensures stays { OnErr result (file.new.items ≡ file.old.items) }
{
    make_room(file, at as usize, bytes.len())?;
    steps.push(Step::Wrote(at, copy, true))?;
    overlay(file, at as usize, bytes);
    Ok(())
}

/// Records a write, and writes.
pub(crate) fn note_write(
    alloc: Global,
    start: &Bytes,
    written: &mut Option<Vec<u8>>,
    steps: &mut Vec<Step>,
    at: u64,
    bytes: &[u8],
) -> Result<(), AllocError>
    requires inside { at ≤ length (held start.now written.old) }
    ensures step { OnOk result (reverse steps.new.items ≡ Wrote at bytes.now true ∷ reverse steps.old.items) }
    ensures seen { OnOk result (held start.now written.new ≡ overlaid (held start.now written.old) at bytes.now) }
    ensures err { OnErr result (steps.new.items ≡ steps.old.items) }
    ensures same { OnErr result (held start.now written.new ≡ held start.now written.old) }
{
    let copy = Bytes::from_slice(alloc, bytes)?;
    let mut file = current(alloc, start, written)?;
    let noted = note_over(&mut file, steps, at, bytes, copy);
    *written = Some(file);
    noted
}

/// Records a cut, and cuts.
pub(crate) fn note_cut(
    alloc: Global,
    start: &Bytes,
    written: &mut Option<Vec<u8>>,
    steps: &mut Vec<Step>,
    len: u64,
) -> Result<(), AllocError>
    requires inside { len ≤ length (held start.now written.old) }
    ensures step { OnOk result (reverse steps.new.items ≡ Shortened len true ∷ reverse steps.old.items) }
    ensures seen { OnOk result (held start.now written.new ≡ take len (held start.now written.old)) }
    ensures err { OnErr result (steps.new.items ≡ steps.old.items) }
    ensures same { OnErr result (held start.now written.new ≡ held start.now written.old) }
{
    let mut file = current(alloc, start, written)?;
    match steps.push(Step::Shortened(len, true)) {
        Ok(()) => {
            file.truncate(len as usize);
            *written = Some(file);
            Ok(())
        }
        Err(_) => {
            *written = Some(file);
            Err(AllocError)
        }
    }
}

/// Records a sync.
pub(crate) fn note_sync(steps: &mut Vec<Step>) -> Result<(), AllocError>
    ensures step { OnOk result (reverse steps.new.items ≡ Synced ∷ reverse steps.old.items) }
    ensures err { OnErr result (steps.new.items ≡ steps.old.items) }
{
    steps.push(Step::Synced)?;
    Ok(())
}
