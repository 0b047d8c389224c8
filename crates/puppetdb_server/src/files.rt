//! Opens the log files in the working folder.
use fleet_app::StartFault;
use fleet_ports::Disks;
use port_real::FileDisk;

/// Opens the four files of the two logs. It creates those that are absent, empty.
pub(crate) fn open_files(rt: &HostRuntime) -> Result<Disks<FileDisk>, StartFault> {
    Ok(Disks {
        queue_a: open_file(rt, "queue.a", StartFault::QueueFile)?,
        queue_b: open_file(rt, "queue.b", StartFault::QueueFile)?,
        store_a: open_file(rt, "store.a", StartFault::StoreFile)?,
        store_b: open_file(rt, "store.b", StartFault::StoreFile)?,
    })
}

fn open_file(rt: &HostRuntime, name: &str, fault: StartFault) -> Result<FileDisk, StartFault> {
    match FileDisk::open_file(rt, name) {
        Ok(file) => Ok(file),
        Err(_) => Err(fault),
    }
}
