//! Writes over a file in memory, in place.
ghost use Rattle.std.specs.Prelude.{◌≡◌, ◌+◌, ◌≤◌, length, OnOk, vec_len, vec_capacity};
ghost use Rattle.fleet_ports.specs.Disks.{overlaid};

use std::alloc::AllocError;

/// Writes the bytes over a file from an offset on. It allocates nothing: the caller made room.
pub(crate) fn overlay(file: &mut Vec<u8>, at: usize, bytes: &[u8])
    requires inside { at ≤ vec_len file.old }
    requires room { at + length bytes.now ≤ vec_capacity file.old }
    ensures written { file.new.items ≡ overlaid file.old.items at bytes.now }
{
    let over = bytes.len().min(file.len() - at);
    file[at..at + over].copy_from_slice(&bytes[..over]);
    if over < bytes.len() && file.extend_from_slice(&bytes[over..]).is_err() {
        unreachable!()
    }
}

/// Makes room for bytes that will be written at an offset.
pub(crate) fn make_room(file: &mut Vec<u8>, at: usize, len: usize) -> Result<(), AllocError>
    requires inside { at ≤ vec_len file.old }
    ensures items { file.new.items ≡ file.old.items }
    ensures room { OnOk result (at + len ≤ vec_capacity file.new) }
{
    let over = len.min(file.len() - at);
    file.reserve(len - over)?;
    Ok(())
}
