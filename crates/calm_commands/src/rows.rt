//! Prints the rows of a query.
ghost use Rattle.std.specs.Prelude.{◌≡◌, ◌≢◌, ◌++◌, [], ◌∷◌, ℕ, List};
ghost use Rattle.std.specs.Io.KnownBytes.{Keeps};
ghost use Rattle.query_answer.specs.fleet_ports.Counts.{Counts};
ghost use Rattle.query_answer.specs.fleet_tables.Stands.{Stands};
ghost use Rattle.query_answer.specs.history_spec.Trace.{Trace};
ghost use Rattle.query_answer.specs.means_spec.World.{world_of};
ghost use Rattle.core_opening.specs.Opened.{disks_in};
ghost use Rattle.calm_commands.specs.Told.{stream};
ghost use Rattle.calm_commands.specs.Openings.{disk_sight_of};
ghost use Rattle.query_answer.specs.Told.{told_of};
ghost use Rattle.calm_commands.specs.Rows.{pattern_sight, fault_status, PrintsText, PrintsRows, IsRowsEnd, IsPatternEnd, AnswersText, IsQueryRun};

use crate::open::open_parts;
use crate::preparing::prepare_text;
use crate::{Ended, Status};
use command_core::LogKeeper;
use core_state::CoreState;
use fleet_ports::{Disk, Disks, Sink, Wrote, write_all};
use fleet_tables::Tables;
use pattern_port::Patterns;
use query_answer::{AnswerFault, answer_text};
use std::alloc::Global;

/// Prints the rows of the query that the text spells, as one JSON array (RFC 8259), and a line end. If the text spells no query,
/// or a pattern or a sum is refused, it prints nothing, and the status says why.
pub fn print_rows<O: Sink + Drop, D: Disk + Drop, P: Patterns + Drop>(
    alloc: Global,
    disks: Disks<D>,
    text: &[u8],
    out: &mut O,
    patterns: &mut P,
) -> Ended<D>
    ensures { IsQueryRun (disk_sight_of D.Disk) text.now
        (pattern_sight (P.says patterns.old) (P.asked patterns.old) (P.refusals patterns.old))
        (pattern_sight (P.says patterns.new) (P.asked patterns.new) (P.refusals patterns.new))
        (stream (O.held out.old) (O.fault_count out.old)) (stream (O.held out.new) (O.fault_count out.new)) disks result.disks result.status }
{
    match open_parts(alloc, disks) {
        Ok(core) => {
            let mut core = core;
            let status = print_prepared(alloc, &mut core, text, out, patterns);
            Ended {
                status,
                disks: disks_of(core),
            }
        }
        Err(ended) => ended,
    }
}

// The four disks of a core, to be given back. Nothing is written.
fn disks_of<D: Disk + Drop>(core: CoreState<D, LogKeeper<D>>) -> Disks<D>
    ensures { result ≡ disks_in core }
{
    let (queue_a, queue_b) = core.queue.into_disks();
    let (store_a, store_b) = core.store.into_disks();
    Disks {
        queue_a,
        queue_b,
        store_a,
        store_b,
    }
}

// Prints the core's answer to the text, after computing what its rows show.
fn print_prepared<O: Sink + Drop, D: Disk + Drop, P: Patterns + Drop>(
    alloc: Global,
    core: &mut CoreState<D, LogKeeper<D>>,
    text: &[u8],
    out: &mut O,
    patterns: &mut P,
) -> Status
    ensures core { core.new ≡ core.old }
    ensures ends { IsRowsEnd result }
    ensures stands { (history : Trace) → Stands core.old.tables history
        → PrintsRows (world_of core.old.tables.ttls history (P.says patterns.old)) text.now
        (P.asked patterns.old) (P.asked patterns.new) result (O.held out.old) (O.held out.new) }
    ensures text { AnswersText result (told_of text.now) }
    ensures silent { result ≢ Status.Done → result ≢ Status.WriteFault → Keeps (O.held out.old) (O.held out.new) }
    ensures same { (p t : List ℕ) → P.says patterns.new p t ≡ P.says patterns.old p t }
    ensures write_cause { Counts (O.fault_count out.old) (O.fault_count out.new) (result ≡ Status.WriteFault) }
    ensures pattern_cause { Counts (P.refusals patterns.old) (P.refusals patterns.new) (IsPatternEnd result) }
{
    prepare_text(alloc, &mut core.tables, text);
    print_answer(alloc, &core.tables, text, out, patterns)
}

// Prints the tables' answer to the text.
fn print_answer<O: Sink + Drop, P: Patterns + Drop>(
    alloc: Global,
    tables: &Tables,
    text: &[u8],
    out: &mut O,
    patterns: &mut P,
) -> Status
    ensures ends { IsRowsEnd result }
    ensures stands { (history : Trace) → Stands tables.now history
        → PrintsRows (world_of tables.now.ttls history (P.says patterns.old)) text.now
        (P.asked patterns.old) (P.asked patterns.new) result (O.held out.old) (O.held out.new) }
    ensures text { AnswersText result (told_of text.now) }
    ensures silent { result ≢ Status.Done → result ≢ Status.WriteFault → Keeps (O.held out.old) (O.held out.new) }
    ensures same { (p t : List ℕ) → P.says patterns.new p t ≡ P.says patterns.old p t }
    ensures write_cause { Counts (O.fault_count out.old) (O.fault_count out.new) (result ≡ Status.WriteFault) }
    ensures pattern_cause { Counts (P.refusals patterns.old) (P.refusals patterns.new) (IsPatternEnd result) }
{
    match answer_text(alloc, tables, text, patterns) {
        Ok(rows) => print_text(out, rows.as_slice()),
        Err(fault) => status_of(fault),
    }
}

fn status_of(fault: AnswerFault) -> Status
    ensures { result ≡ fault_status fault }
{
    match fault {
        AnswerFault::Refused(why) => Status::QueryRefused(why),
        AnswerFault::Memory => Status::Memory,
    }
}

// Prints a text and a line end, up to the first fault.
fn print_text<O: Sink + Drop>(out: &mut O, text: &[u8]) -> Status
    ensures which { PrintsText result (text.now ++ 10 ∷ []) (O.held out.old) (O.held out.new) }
    ensures cause { Counts (O.fault_count out.old) (O.fault_count out.new) (result ≡ Status.WriteFault) }
{
    match write_all(out, text) {
        Wrote::All => match write_all(out, b"\n") {
            Wrote::All => Status::Done,
            Wrote::Failed { .. } => Status::WriteFault,
        },
        Wrote::Failed { .. } => Status::WriteFault,
    }
}
