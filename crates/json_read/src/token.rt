//! Reads white space and literals.
ghost use Rattle.std.specs.Prelude.{◌≡◌, ◌<◌, ◌≤◌, length, drop, slice_index, IfOk, List, false};
ghost use Rattle.json_machine.specs.Machine as machine;
ghost use Rattle.json_machine.specs.Machine.{is_space, verdict, owed_verdict};
ghost use Rattle.json_read.specs.Found.{PassesSpace, owed_found};

#[inline(always)]
fn is_space_byte(byte: u8) -> bool
    ensures { result ≡ is_space byte }
{
    byte == b' ' || byte == b'\t' || byte == b'\n' || byte == b'\r'
}

// The first offset from `at` on without white space.
#[inline(always)]
pub(crate) fn skip(bytes: &[u8], at: usize) -> usize
    requires { at ≤ length bytes.now }
    ensures same { (fs : List machine.Frame) (m : machine.Mode) → PassesSpace m → verdict 127 fs m at (drop at bytes.now)
        ≡ verdict 127 fs m result (drop result bytes.now) }
    ensures bounds { (at ≤ result) × (result ≤ length bytes.now) }
    ensures black { result < length bytes.now → is_space (slice_index bytes.now result) ≡ false }
{
    let mut end = at;
    'spaces: while end < bytes.len() {
        if !is_space_byte(bytes[end]) {
            return end;
        }
        end += 1;
    }
    end
}

// The offset after the owed bytes, or the first offset at which one is missing.
#[inline(always)]
pub(crate) fn owed_end(bytes: &[u8], at: usize, owed: &[u8]) -> Result<usize, usize>
    requires { at ≤ length bytes.now }
    ensures value { owed_verdict owed.now at (drop at bytes.now) ≡ owed_found bytes.now result }
    ensures bound { IfOk result (λ end. (at ≤ end) × (end ≤ length bytes.now)) }
{
    let mut end = at;
    'bytes: for expected in owed {
        if end == bytes.len() {
            return Err(end);
        }
        if bytes[end] != *expected {
            return Err(end);
        }
        end += 1;
    }
    Ok(end)
}
