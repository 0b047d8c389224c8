//! Disks in memory, of which calls fail, or one stops. Where memory is short, they hold nothing.
use crate::files::{copy_of, numbers};
use port_memory::fleet_ports::Disks;
use port_memory::{FuseDisk, MemoryDisk};
use std::alloc::Global;

/// Which disk fails or stops, and what a crash leaves.
#[derive(Clone, Copy)]
pub struct Fault {
    /// The place of the disk, from 0 on.
    pub which: u64,
    /// From this call on so many fail.
    pub first: u64,
    pub count: u64,
    /// Behind so many calls it stops.
    pub stop: u64,
    /// The choice of the image.
    pub image: u64,
}

/// No call fails, and no disk stops.
pub const NO_FAULT: Fault = Fault {
    which: 0,
    first: 0,
    count: 0,
    stop: u64::MAX,
    image: 0,
};

/// A disk with these bytes, of which calls fail where it stands at the place of the fault.
pub fn weak_disk(alloc: Global, bytes: &[u8], fault: Fault, place: u64) -> MemoryDisk {
    let count = if fault.which == place { fault.count } else { 0 };
    let fails = numbers(alloc, fault.first, count);
    MemoryDisk::new(alloc, copy_of(alloc, bytes), fails)
}

/// The disk, which stops where it stands at the place of the fault.
pub fn fused(disk: MemoryDisk, fault: Fault, place: u64) -> FuseDisk {
    FuseDisk::new(
        disk,
        if fault.which == place {
            fault.stop
        } else {
            u64::MAX
        },
    )
}

/// The disk that a crash leaves, in the image of the fault.
pub fn crashed_disk(alloc: Global, disk: FuseDisk, fault: Fault, place: u64) -> FuseDisk {
    match disk.crash(alloc, fault.image) {
        Ok(left) => fused(left, fault, place),
        Err(_) => fused(weak_disk(alloc, b"", fault, place), fault, place),
    }
}

/// Disks with these two first files, and with two second ones that were never laid.
pub fn weak_disks(alloc: Global, queue: &[u8], store: &[u8], fault: Fault) -> Disks<MemoryDisk> {
    Disks {
        queue_a: weak_disk(alloc, queue, fault, 0),
        queue_b: weak_disk(alloc, b"", fault, 1),
        store_a: weak_disk(alloc, store, fault, 2),
        store_b: weak_disk(alloc, b"", fault, 3),
    }
}

/// The disks, of which one stops.
pub fn fused_disks(disks: Disks<MemoryDisk>, fault: Fault) -> Disks<FuseDisk> {
    let Disks {
        queue_a,
        queue_b,
        store_a,
        store_b,
    } = disks;
    Disks {
        queue_a: fused(queue_a, fault, 0),
        queue_b: fused(queue_b, fault, 1),
        store_a: fused(store_a, fault, 2),
        store_b: fused(store_b, fault, 3),
    }
}

/// The disks that a crash leaves.
pub fn crashed_disks(alloc: Global, disks: Disks<FuseDisk>, fault: Fault) -> Disks<FuseDisk> {
    let Disks {
        queue_a,
        queue_b,
        store_a,
        store_b,
    } = disks;
    Disks {
        queue_a: crashed_disk(alloc, queue_a, fault, 0),
        queue_b: crashed_disk(alloc, queue_b, fault, 1),
        store_a: crashed_disk(alloc, store_a, fault, 2),
        store_b: crashed_disk(alloc, store_b, fault, 3),
    }
}
