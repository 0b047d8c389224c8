//! Runs `show`: prints the facts of a spool.
ghost use Rattle.std.specs.Prelude.{◌≡◌, ◌<◌, IfOk};
ghost use Rattle.busy_commands.specs.fleet_ports.Counts.{Counts};
ghost use Rattle.busy_commands.specs.history_spec.Trace.{Trace};
ghost use Rattle.busy_commands.specs.fleet_tables.Stands.{Stands};
ghost use Rattle.busy_commands.specs.calm_commands.Told.{stream};
ghost use Rattle.fleet_app.specs.Show.{shown_text, MatchPrinted, MatchShown};
ghost use Rattle.fleet_app.specs.Runs.{IsShowRun};

use crate::read::{ReadSpool, read_spool};
use crate::rows::rows_text;
use busy_commands::Status;
use fleet_ports::{Sink, Source, Wrote, write_all};
use fleet_rows::Entity;
use fleet_tables::Tables;
use std::alloc::{AllocError, Global};
use std::marker::Brand;
use std::sync::ledger::{Blank, Ledger};

/// Reads the spool to its end, and prints the facts of its active nodes.
pub(crate) fn show<S: Source + Drop, O: Sink + Drop>(
    alloc: Global,
    spool: &mut S,
    out: &mut O,
) -> Status
    ensures { IsShowRun
        (stream (S.left spool.old) (S.fault_count spool.old)) (stream (S.left spool.new) (S.fault_count spool.new))
        (stream (O.held out.old) (O.fault_count out.old)) (stream (O.held out.new) (O.fault_count out.new)) result }
{
    show_items(alloc, spool, out)
}

// The same, by cases on the answer.
fn show_items<S: Source + Drop, O: Sink + Drop>(alloc: Global, spool: &mut S, out: &mut O) -> Status
    ensures which { MatchShown result (S.left spool.old) (S.left spool.new) (O.held out.old) (O.held out.new) }
    ensures read_cause { Counts (S.fault_count spool.old) (S.fault_count spool.new) (result ≡ Status.ReadFault) }
    ensures write_cause { Counts (O.fault_count out.old) (O.fault_count out.new) (result ≡ Status.WriteFault) }
{
    match read_spool(alloc, spool) {
        ReadSpool::Tables(tables) => print::<Brand, O>(alloc, Blank::new(1), tables, out),
        ReadSpool::Bad { at } => Status::SpoolBad { at },
        ReadSpool::ReadFault => Status::ReadFault,
        ReadSpool::Memory => Status::Memory,
    }
}

// Prints the rows of facts of active nodes.
fn print<L: Ledger, O: Sink + Drop>(
    alloc: Global,
    blank: Blank,
    tables: Tables,
    out: &mut O,
) -> Status
    requires name { blank.name ≡ L.name }
    requires parts { blank.parts ≡ L.parts }
    requires some { 0 < blank.parts }
    requires stands { (history : Trace) × Stands tables history }
    ensures which { (history : Trace) → Stands tables history
        → MatchPrinted result (shown_text tables.ttls history) (O.held out.old) (O.held out.new) }
    ensures cause { Counts (O.fault_count out.old) (O.fault_count out.new) (result ≡ Status.WriteFault) }
{
    match prepared_text::<L>(alloc, blank, tables) {
        Ok(text) => match write_all(out, text.as_slice()) {
            Wrote::All => Status::Done,
            Wrote::Failed { .. } => Status::WriteFault,
        },
        Err(_) => Status::Memory,
    }
}

// The text of the rows, after computing what rows of facts show, and nothing else.
fn prepared_text<L: Ledger>(
    alloc: Global,
    blank: Blank,
    tables: Tables,
) -> Result<Vec<u8>, AllocError>
    requires name { blank.name ≡ L.name }
    requires parts { blank.parts ≡ L.parts }
    requires some { 0 < blank.parts }
    requires stands { (history : Trace) × Stands tables history }
    ensures { (history : Trace) → Stands tables history
        → IfOk result (λ text. text.items ≡ shown_text tables.ttls history) }
{
    let mut tables = tables;
    tables.prepare(Entity::Facts)?;
    rows_text::<L>(alloc, blank, &tables)
}
