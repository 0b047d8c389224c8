//! Reads whether files are open.
ghost use Rattle.std.specs.Prelude.{◌≡◌, ◌≤◌, ◌↔◌, length, IsTrue, IsErr, IfOk, get_or};
ghost use Rattle.log_pair.specs.fleet_ports.Counts.{Counts};
ghost use Rattle.log_pair.specs.record_log.Untouched.{IsUntouched};
ghost use Rattle.core_spec.specs.log_spec.Image.{IsOpen};
ghost use Rattle.log_pair.specs.Open.{PairCounts};
ghost use Rattle.core_layout.specs.Layout.{EitherIsOpen};

use log_pair::fleet_ports::{Disk, Failed};

fn measure<D: Disk + Drop>(disk: &mut D) -> Result<u64, Failed>
    ensures length { IfOk result (λ n. IsTrue D.is_told → n ≡ length (D.seen disk.old)) }
    ensures untouched { IsUntouched D.Disk disk.old disk.new }
    ensures cause { Counts (D.fault_count disk.old) (D.fault_count disk.new) (IsErr result) }
{
    disk.len()
}

fn first_byte<D: Disk + Drop>(disk: &mut D) -> Result<u8, Failed>
    requires { IsTrue D.is_told → 1 ≤ length (D.seen disk.old) }
    ensures byte { IfOk result (λ b. IsTrue D.is_told → b ≡ get_or (D.seen disk.old) 0 0) }
    ensures untouched { IsUntouched D.Disk disk.old disk.new }
    ensures cause { Counts (D.fault_count disk.old) (D.fault_count disk.new) (IsErr result) }
{
    let mut byte = [0; 1];
    disk.read_at(0, &mut byte)?;
    Ok(byte[0])
}

/// Whether the file is open.
fn is_open<D: Disk + Drop>(disk: &mut D) -> Result<bool, Failed>
    ensures told { IfOk result (λ is. IsTrue D.is_told → IsTrue is ↔ IsOpen (D.seen disk.old)) }
    ensures untouched { IsUntouched D.Disk disk.old disk.new }
    ensures cause { Counts (D.fault_count disk.old) (D.fault_count disk.new) (IsErr result) }
{
    if measure(disk)? < 17 {
        return Ok(false);
    }
    let first = first_byte(disk)?;
    Ok(first == 1)
}

/// Whether one of the two files is open.
pub(crate) fn either_is_open<D: Disk + Drop>(a: &mut D, b: &mut D) -> Result<bool, Failed>
    ensures told { IfOk result (λ is. IsTrue D.is_told → IsTrue is ↔ EitherIsOpen D.seen a.old b.old) }
    ensures first { IsUntouched D.Disk a.old a.new }
    ensures second { IsUntouched D.Disk b.old b.new }
    ensures cause { PairCounts (D.fault_count a.old) (D.fault_count a.new) (D.fault_count b.old) (D.fault_count b.new) (IsErr result) }
{
    if is_open(a)? {
        return Ok(true);
    }
    is_open(b)
}
