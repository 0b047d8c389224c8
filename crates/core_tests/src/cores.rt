//! Cores over laid disks: sessions between openings and crashes.
use crate::answers::{SILENCE, Told, answer};
use command_core::{Core, DownBy, LayCoreFault, lay_core, open_core};
use fleet_keeper::LogKeeper;
use fleet_ports::{Disk, Disks};
use fleet_rows::Ttls;
use port_memory::{FuseDisk, MemoryDisk};
use std::alloc::Global;
use test_support::{
    Fault, NO_FAULT, Notes, crashed_disks, fused_disks, numbers_of, parted, parts_of, says,
    weak_disks,
};

// Whether the files are laid.
fn is_laid(alloc: Global, disks: &mut Disks<MemoryDisk>) -> bool {
    let laid = lay_core(alloc, disks, Ttls::default_lifetimes());
    matches!(laid, Ok(()) | Err(LayCoreFault::AlreadyLaid))
}

// The same, at the third time where two calls failed.
fn lay(alloc: Global, disks: &mut Disks<MemoryDisk>) -> bool {
    is_laid(alloc, disks) || is_laid(alloc, disks) || is_laid(alloc, disks)
}

// Disks on which the files were laid; then one of them may stop.
fn laid(notes: &mut Notes, fault: Fault) -> Disks<FuseDisk> {
    let mut disks = weak_disks(notes.alloc, b"", b"", fault);
    let laid = lay(notes.alloc, &mut disks);
    says(notes, laid, "true");
    fused_disks(disks, fault)
}

// A core over the files, or the disks. No function above needs what an opening ensures.
fn opened_once<D: Disk + Drop>(
    alloc: Global,
    disks: Disks<D>,
) -> Result<Core<D, LogKeeper<D>>, Disks<D>> {
    match open_core(alloc, disks) {
        Ok(core) => Ok(core),
        Err((_fault, back)) => Err(back),
    }
}

// The same, at the second time where a call failed.
fn opened_twice<D: Disk + Drop>(
    alloc: Global,
    disks: Disks<D>,
) -> Result<Core<D, LogKeeper<D>>, Disks<D>> {
    match opened_once(alloc, disks) {
        Ok(core) => Ok(core),
        Err(back) => opened_once(alloc, back),
    }
}

// The same, at the third time where two calls failed.
fn opened<D: Disk + Drop>(
    alloc: Global,
    disks: Disks<D>,
) -> Result<Core<D, LogKeeper<D>>, Disks<D>> {
    match opened_twice(alloc, disks) {
        Ok(core) => Ok(core),
        Err(back) => opened_once(alloc, back),
    }
}

fn answer_each<D: Disk + Drop>(
    notes: &mut Notes,
    core: &mut Core<D, LogKeeper<D>>,
    told: &mut Told,
    text: &str,
) {
    let mut rest = text.trim_start_matches('?');
    'items: for _ in 0..text.len() {
        let (item, more) = parted(rest, ";");
        answer(notes, core, told, item);
        if more.is_empty() {
            return;
        }
        rest = more;
    }
}

// Opens the files, and does what the words say. If the text begins with `?`, the opening may fail.
fn session<D: Disk + Drop>(
    notes: &mut Notes,
    disks: Disks<D>,
    told: &mut Told,
    text: &str,
) -> Disks<D> {
    match opened(notes.alloc, disks) {
        Ok(core) => {
            let mut core = core;
            answer_each(notes, &mut core, told, text);
            core.into_disks()
        }
        Err(disks) => {
            says(notes, text.starts_with('?'), "true");
            disks
        }
    }
}

// The fault behind a crash, by the words behind `crash`: the choice of the image, which disk stops then, and behind how many calls.
// Where there are none, the image is that of the fault before it, and no disk stops.
fn fault_behind(text: &str, fault: Fault) -> Fault {
    let mut next = NO_FAULT;
    if text.is_empty() {
        next.image = fault.image;
        return next;
    }
    let [image, which, calls, _] = numbers_of(text);
    next.image = image;
    next.which = which;
    next.stop = calls;
    next
}

fn part(
    notes: &mut Notes,
    disks: Disks<FuseDisk>,
    told: &mut Told,
    text: &str,
    fault: Fault,
) -> Disks<FuseDisk> {
    let text = text.trim_ascii();
    if text.is_empty() {
        return disks;
    }
    match text.strip_prefix("crash") {
        Some(rest) => crashed_disks(notes.alloc, disks, fault_behind(rest.trim_ascii(), fault)),
        None => session(notes, disks, told, text),
    }
}

fn three_parts(
    notes: &mut Notes,
    disks: Disks<FuseDisk>,
    told: &mut Told,
    texts: [&str; 3],
    fault: Fault,
) -> Disks<FuseDisk> {
    let [first, second, third] = texts;
    let disks = part(notes, disks, told, first, fault);
    let disks = part(notes, disks, told, second, fault);
    part(notes, disks, told, third, fault)
}

// The bit, where the fact holds.
fn bit_at(fact: bool, bit: u64) -> u64 {
    if fact { bit } else { 0 }
}

// What a trial shows: what the core answered about the four, beside what is left of them.
fn shown_by(told: &Told) -> u64 {
    let [applied, _discarded, waiting] = told.left;
    let done = told.applied.saturating_add(told.discarded);
    bit_at(told.received < 4, 1)
        | bit_at(told.received == 0, 2)
        | bit_at(told.ended == 4, 4)
        | bit_at(told.by == DownBy::Queue, 8)
        | bit_at(told.by == DownBy::Store, 16)
        | bit_at(applied > told.applied || waiting > told.received, 32)
        | bit_at(done > told.ended, 64)
}

/// Tries a script over laid disks: nine sessions and crashes at most, with `/` between them.
pub(crate) fn try_core(notes: &mut Notes, script: &str, fault: Fault) -> u64 {
    let (first, rest) = parts_of(script, "/");
    let (second, rest) = parts_of(rest, "/");
    let (third, more) = parts_of(rest, "/");
    says(notes, more.is_empty(), "true");
    let mut told = SILENCE;
    let disks = laid(notes, fault);
    let disks = three_parts(notes, disks, &mut told, first, fault);
    let disks = three_parts(notes, disks, &mut told, second, fault);
    let disks = three_parts(notes, disks, &mut told, third, fault);
    drop(disks);
    shown_by(&told)
}
