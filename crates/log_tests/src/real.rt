//! One test of each real object against the system.
use port_real::fleet_ports::{Disk, Failed, Put, Sink, Source, Took};
use port_real::{FileDisk, StdSink, StdSource};
use std::fs;
use std::test::Fail;

fn writes(disk: &mut FileDisk, at: u64, bytes: &[u8]) -> bool {
    disk.write_at(at, bytes).is_ok()
}

fn cuts(disk: &mut FileDisk, len: u64) -> bool {
    disk.cut(len).is_ok() && disk.sync().is_ok()
}

fn has_len(disk: &mut FileDisk, len: u64) -> bool {
    disk.len() == Ok(len)
}

/// The three bytes from a place on.
fn three_at(disk: &mut FileDisk, at: u64) -> Option<[u8; 3]> {
    let mut back = [0; 3];
    match disk.read_at(at, &mut back) {
        Ok(()) => Some(back),
        Err(_) => None,
    }
}

/// Whether a new file is read as it was written.
fn is_read_as_written(disk: &mut FileDisk) -> bool {
    has_len(disk, 0)
        && writes(disk, 0, b"abcdef")
        && writes(disk, 4, b"xyz")
        && cuts(disk, 6)
        && has_len(disk, 6)
        && three_at(disk, 3) == Some(*b"dxy")
}

#[test]
fn a_file_is_read_as_it_was_written_and_counts_its_faults(rt: HostRuntime) -> Result<(), Fail> {
    let name = "log_tests_real.log";
    let _ = fs::remove_file(&rt, name);
    let mut disk = match FileDisk::open_file(&rt, name) {
        Ok(disk) => disk,
        Err(_) => return Err(Failed.into()),
    };
    assert!(rt; is_read_as_written(&mut disk));
    assert!(rt; disk.faults() == 0);
    assert!(rt; three_at(&mut disk, 4).is_none());
    assert!(rt; disk.faults() == 1);
    drop(disk);
    assert!(rt; FileDisk::open_file(&rt, "no_such_folder/a").is_err());
    fs::remove_file(&rt, name)?;
    Ok(())
}

#[test]
fn a_file_is_opened_by_one_at_a_time(rt: HostRuntime) -> Result<(), Fail> {
    let name = "log_tests_locked.log";
    let first = match FileDisk::open_file(&rt, name) {
        Ok(disk) => disk,
        Err(_) => return Err(Failed.into()),
    };
    assert!(rt; FileDisk::open_file(&rt, name).is_err());
    drop(first);
    assert!(rt; FileDisk::open_file(&rt, name).is_ok());
    fs::remove_file(&rt, name)?;
    Ok(())
}

#[test]
fn the_input_gives_bytes_or_ends(rt: HostRuntime) {
    let mut source = StdSource::new(&rt);
    let mut buffer = [0; 64];
    assert!(rt; source.read_some(&mut buffer) != Took::Failed);
}

#[test]
fn the_output_takes_a_byte(rt: HostRuntime) {
    let mut sink = StdSink::new(&rt);
    assert!(rt; sink.write_some(b"\n") == Put::Took(1));
}
