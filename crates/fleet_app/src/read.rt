//! Reads a spool to its end, and applies it to tables.
//!
//! The loop holds the tables and one item. Its invariant has three parts. The items so far lead one thread to a history. The
//! tables stand for that history. Parsing the rest equals parsing the whole after these items.
ghost use Rattle.std.specs.Prelude.{◌≡◌, ◌<◌, ◌^◌, length};
ghost use Rattle.busy_commands.specs.fleet_ports.Counts.{Counts};
ghost use Rattle.busy_commands.specs.history_spec.Lawful.{HasStamp};
ghost use Rattle.fleet_app.specs.Reads.{MatchSpool, MatchTaken};

use command_decode::{DecodeFault, decode};
use fleet_ports::Source;
use fleet_rows::{Change, Command, Ttls};
use fleet_tables::Tables;
use spool_text::{NextItem, SpoolReader};
use stamp_time::Moment;
use std::alloc::{AllocError, Global};
use ttl_sweeps::sweep;

/// The result of reading a spool to its end.
#[derive(Drop)]
pub(crate) enum ReadSpool {
    /// The tables of one thread over the items.
    Tables(Tables),
    /// No whole item stands at this byte offset.
    Bad { at: u64 },
    ReadFault,
    Memory,
}

/// Applies the commands and sweeps of the spool in order, to its end. A refused command is left out, but has a receipt all the
/// same.
pub(crate) fn read_spool<S: Source + Drop>(alloc: Global, spool: &mut S) -> ReadSpool
    ensures which { MatchSpool result (S.left spool.old) (S.left spool.new) }
    ensures cause { Counts (S.fault_count spool.old) (S.fault_count spool.new) (result ≡ ReadSpool.ReadFault) }
{
    let mut reader = SpoolReader::new(alloc);
    let mut tables = Tables::new(alloc, Ttls::default_lifetimes());
    let mut receipt: u64 = 0;
    'items: loop {
        match reader.next_item(spool, Moment::from_nanosecond(0)) {
            NextItem::Command(command) => {
                receipt += 1;
                match take_command(alloc, &mut tables, receipt, command) {
                    Ok(()) => {}
                    Err(_) => return ReadSpool::Memory,
                }
            }
            NextItem::Sweep(kinds, m) => sweep(&mut tables, kinds, m),
            NextItem::End => return ReadSpool::Tables(tables),
            NextItem::SpoolBad { at } => return ReadSpool::Bad { at },
            NextItem::ReadFault => return ReadSpool::ReadFault,
            NextItem::Memory => return ReadSpool::Memory,
        }
    }
}

// Applies a command under this receipt, unless it is refused.
fn take_command(
    alloc: Global,
    tables: &mut Tables,
    receipt: u64,
    command: Command,
) -> Result<(), AllocError>
    requires size { length command.payload < 2 ^ 32 }
    requires stamp { HasStamp command.received }
    ensures { MatchTaken result command receipt tables.old tables.new }
{
    match decode(alloc, &command) {
        Ok(change) => {
            let room = tables.reserve(&change)?;
            tables.apply(room, receipt, Some(command.received), change);
            Ok(())
        }
        Err(DecodeFault::Refused(_)) => Ok(()),
        Err(DecodeFault::Memory) => Err(AllocError),
    }
}
