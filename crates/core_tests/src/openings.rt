//! What an opening reads in files.
use core_opening::{OpenCoreFault, open_state};
use core_state::CoreState;
use fleet_keeper::LogKeeper;
use fleet_ports::{Disk, Disks};
use fleet_rows::Entity;
use port_memory::MemoryDisk;
use std::alloc::Global;
use test_support::{Fault, Notes, file, parted, parts_of, says, weak_disks};

// The parts of a core over the files, or the disks. No function above needs what an opening ensures.
fn opened<D: Disk + Drop>(
    alloc: Global,
    disks: Disks<D>,
) -> Result<CoreState<D, LogKeeper<D>>, (OpenCoreFault, Disks<D>)> {
    open_state(alloc, disks)
}

// How many commands are pending and discarded, the last receipt, and how many nodes are known.
fn counted<D: Disk + Drop>(core: &CoreState<D, LogKeeper<D>>) -> (u32, usize, u64, usize) {
    (
        core.pending.count(),
        core.discards.count(),
        core.last,
        core.tables.count(Entity::Nodes),
    )
}

fn disks_in<D: Disk + Drop>(core: CoreState<D, LogKeeper<D>>) -> Disks<D> {
    let (queue_a, queue_b) = core.queue.into_disks();
    let (store_a, store_b) = core.store.into_disks();
    Disks {
        queue_a,
        queue_b,
        store_a,
        store_b,
    }
}

fn found_core<D: Disk + Drop>(
    notes: &mut Notes,
    core: CoreState<D, LogKeeper<D>>,
    wanted: &str,
) -> Disks<D> {
    says(notes, counted(&core), wanted);
    disks_in(core)
}

// Opens the files, and compares what is found, or why they aren't opened.
fn found<D: Disk + Drop>(notes: &mut Notes, disks: Disks<D>, wanted: &str) -> Disks<D> {
    match opened(notes.alloc, disks) {
        Ok(core) => found_core(notes, core, wanted),
        Err((why, disks)) => {
            says(notes, why, wanted);
            disks
        }
    }
}

// The same, where there is a text.
fn found_again(notes: &mut Notes, disks: Disks<MemoryDisk>, wanted: &str) -> Disks<MemoryDisk> {
    if wanted.is_empty() {
        disks
    } else {
        found(notes, disks, wanted)
    }
}

// Disks with the files of a queue and a store, by the names of their records.
fn disks_of(notes: &mut Notes, files: &str, fault: Fault) -> Disks<MemoryDisk> {
    let (queue, store) = parted(files, " ");
    let queue = file(notes, queue);
    let store = file(notes, store);
    weak_disks(notes.alloc, queue.as_slice(), store.as_slice(), fault)
}

/// Opens the files of a queue and a store, by the names of their records, and compares what is found, once or twice.
pub(crate) fn try_opening(notes: &mut Notes, script: &str, fault: Fault) -> u64 {
    let ([files, first, second], _) = parts_of(script, "/");
    let disks = disks_of(notes, files, fault);
    let disks = found(notes, disks, first);
    let disks = found_again(notes, disks, second);
    drop(disks);
    0
}
