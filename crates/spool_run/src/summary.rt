//! Prints the summary of a run.
ghost use Rattle.std.specs.Prelude.{◌≡◌, ◌++◌, ◌∷◌, [], IfOk, OnOk, decimal};
ghost use Rattle.calm_commands.specs.Told.{stream};
ghost use Rattle.spool_run.specs.Summary.{summary_text, Printed};

use calm_commands::Status;
use fleet_hub::Tally;
use fleet_ports::{Sink, Wrote, write_all};
use itoa::Buffer;
use std::alloc::{AllocError, Global};

/// Prints the summary. If all of it went out, the answer is this status.
pub(crate) fn print_summary<O: Sink + Drop>(
    alloc: Global,
    tally: &Tally,
    status: Status,
    out: &mut O,
) -> Status
    ensures { Printed (summary_text tally.now) status (stream (O.held out.old) (O.fault_count out.old))
        (stream (O.held out.new) (O.fault_count out.new)) result }
{
    match lines_of(alloc, tally) {
        Ok(text) => match write_all(out, text.as_slice()) {
            Wrote::All => status,
            Wrote::Failed { .. } => Status::WriteFault,
        },
        Err(_) => Status::Memory,
    }
}

// Four lines: how many commands came in, were applied, were superseded and were discarded.
fn lines_of(alloc: Global, tally: &Tally) -> Result<Vec<u8>, AllocError>
    ensures { IfOk result (λ text. text.items ≡ summary_text tally.now) }
{
    let mut text = Vec::new(alloc);
    put_line(&mut text, b"received ", tally.received)?;
    put_line(&mut text, b"applied ", tally.applied)?;
    put_line(&mut text, b"superseded ", tally.superseded)?;
    put_line(&mut text, b"discarded ", tally.discarded)?;
    Ok(text)
}

fn put_line(text: &mut Vec<u8>, word: &[u8], number: u64) -> Result<(), AllocError>
    ensures { OnOk result (text.new.items ≡ text.old.items ++ (word.now ++ (decimal number ++ 10 ∷ []))) }
{
    let mut digits = Buffer::new();
    text.extend_from_slice(word)?;
    text.extend_from_slice(digits.format(number).as_bytes())?;
    text.push(b'\n')?;
    Ok(())
}
