//! Writes a spool to a sink, a piece at a time.
ghost use Rattle.std.specs.Prelude.{◌≡◌, ◌++◌};
ghost use Rattle.fleet_ports.specs.Counts.{Counts};
ghost use Rattle.made_spec.specs.Made.{item_text, made_text};
ghost use Rattle.spool_maker.specs.Answer.{MatchAdded, MatchMade};

use crate::item::{next_number, put_item};
use fleet_ports::{Sink, Wrote, write_all};
use std::alloc::Global;

/// How making a spool ended.
#[derive(Clone, Copy, PartialEq, Eq, Debug)]
pub enum Made {
    /// The whole text was written.
    Ok,
    /// The sink failed. It took a prefix of the text, and not all of it.
    WriteFault,
    /// There was no memory. The sink took a prefix of the text.
    Memory,
}

/// The number of bytes at which buffered text is written.
const PIECE: usize = 65_536;

/// Writes the spool of `count` items that the seed leads to.
pub fn make<O: Sink + Drop>(alloc: Global, seed: u64, count: u32, out: &mut O) -> Made
    ensures which { MatchMade result (made_text seed count) (O.held out.old) (O.held out.new) }
    ensures cause { Counts (O.fault_count out.old) (O.fault_count out.new) (result ≡ Made.WriteFault) }
{
    let mut text = Vec::new(alloc);
    let mut payload = Vec::new(alloc);
    let mut x = seed;
    'items: for i in 0..count {
        x = next_number(x);
        match add_item(&mut text, &mut payload, i, x, out) {
            Made::Ok => {}
            Made::WriteFault => return Made::WriteFault,
            Made::Memory => return Made::Memory,
        }
    }
    match write_all(out, text.as_slice()) {
        Wrote::All => Made::Ok,
        Wrote::Failed { .. } => Made::WriteFault,
    }
}

// Appends item i, which is made from the number x, to the text that is still to be written. Writes the text once it has `PIECE`
// bytes.
fn add_item<O: Sink + Drop>(
    text: &mut Vec<u8>,
    payload: &mut Vec<u8>,
    i: u32,
    x: u64,
    out: &mut O,
) -> Made
    ensures which { MatchAdded result (text.old.items ++ item_text i x) text.new.items (O.held out.old) (O.held out.new) }
    ensures cause { Counts (O.fault_count out.old) (O.fault_count out.new) (result ≡ Made.WriteFault) }
{
    if put_item(text, payload, i, x).is_err() {
        return Made::Memory;
    }
    if text.len() < PIECE {
        return Made::Ok;
    }
    match write_all(out, text.as_slice()) {
        Wrote::All => {
            text.clear();
            Made::Ok
        }
        Wrote::Failed { .. } => Made::WriteFault,
    }
}
