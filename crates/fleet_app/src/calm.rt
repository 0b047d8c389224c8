//! Runs the commands that don't wait.
ghost use Rattle.std.specs.Prelude.{◌≡◌, ◌≢◌, ℕ, List, Some};
ghost use Rattle.busy_commands.specs.calm_commands.Told.{stream};
ghost use Rattle.busy_commands.specs.calm_commands.Openings.{disk_sight_of, QueueDisksCount, StoreDisksCount};
ghost use Rattle.busy_commands.specs.program_words.Words.{IsRequest, AsksQuery, HasMoment};
ghost use Rattle.busy_commands.specs.program_words.Splitting.{value_word};
ghost use Rattle.busy_commands.specs.calm_commands.Rows.{pattern_sight};
ghost use Rattle.fleet_app.specs.Words.{IsCalm};
ghost use Rattle.fleet_app.specs.Runs.{outside, InitRun, CalmRun, IsCalmRun};

use crate::making::print_made;
use crate::show::show;
use crate::words::is_calm;
use busy_commands::{
    Ended, Status, compact_disks, print_discards, print_payload, print_rows, sweep_disks,
};
use core_layout::{LayCoreFault, lay_core};
use fleet_ports::{Disk, Disks, Sink, Source};
use fleet_rows::Ttls;
use json_tree::Text;
use pattern_port::Patterns;
use program_words::{Request, asked_by};
use std::alloc::Global;

/// Runs the command that the arguments name, if it is one that doesn't wait. Those are `show`, `init`, `sweep`, `compact`,
/// `discards`, `payload`, `query` and `make`. For other arguments it answers [`Status::Usage`] and does nothing. Without memory
/// to read the arguments it answers [`Status::Memory`] and does nothing.
///
/// - `show` reads the spool to its end, and applies its commands and sweeps in order to tables with the default lifetimes. Then
///   it prints the rows of facts of the nodes that are neither deactivated nor expired, and a line end. It writes nothing before
///   the spool's end, and uses no disk.
/// - `init` initializes the disks with the default lifetimes. `init N P R` takes the lifetimes of nodes, purges and reports in
///   days, each from 1 to 3,650. `init N P R K` also keeps at most K reports of a node, from 1 to 1,000,000. It uses no stream.
/// - `sweep KINDS NOW` makes one sweep. It reads no spool.
/// - `compact` rewrites both logs as checkpoints of what they stand for. It reads no spool.
/// - `discards` prints a line for each discarded command, and `payload R` the payload of one of them. They read no spool.
/// - `query TEXT` prints the rows of a query, and a line end. It reads no spool.
/// - `make SEED COUNT` prints the spool of COUNT items that the seed gives. It uses no disk and reads no spool.
///
/// Without memory the answer is [`Status::Memory`]; no clause says when that happens.
pub fn run_calm<S: Source + Drop, O: Sink + Drop, D: Disk + Drop, P: Patterns + Drop>(
    alloc: Global,
    words: &[Text],
    spool: &mut S,
    out: &mut O,
    disks: Disks<D>,
    patterns: &mut P,
) -> Ended<D>
    ensures run { IsCalmRun (disk_sight_of D.Disk) words.now
        (outside (stream (S.left spool.old) (S.fault_count spool.old)) (stream (O.held out.old) (O.fault_count out.old))
        (pattern_sight (P.says patterns.old) (P.asked patterns.old) (P.refusals patterns.old)))
        (outside (stream (S.left spool.new) (S.fault_count spool.new)) (stream (O.held out.new) (O.fault_count out.new))
        (pattern_sight (P.says patterns.new) (P.asked patterns.new) (P.refusals patterns.new))) disks result.disks result.status }
    ensures usage { result.status ≡ Status.Usage → (spool.new ≡ spool.old) × (out.new ≡ out.old) × (patterns.new ≡ patterns.old) }
{
    match asked_by(alloc, words) {
        Ok(found) => match found {
            Some(asked) => {
                if is_calm(&asked.request) {
                    run_request(
                        alloc,
                        words,
                        asked.request,
                        asked.query,
                        spool,
                        out,
                        disks,
                        patterns,
                    )
                } else {
                    unused(disks)
                }
            }
            None => unused(disks),
        },
        Err(_) => unread(disks),
    }
}

// The end for arguments that are no command of this call.
fn unused<D: Disk + Drop>(disks: Disks<D>) -> Ended<D>
    ensures status { result.status ≡ Status.Usage }
    ensures disks { result.disks ≡ disks }
{
    Ended {
        status: Status::Usage,
        disks,
    }
}

// The end without memory to read the arguments.
fn unread<D: Disk + Drop>(disks: Disks<D>) -> Ended<D>
    ensures status { result.status ≡ Status.Memory }
    ensures disks { result.disks ≡ disks }
{
    Ended {
        status: Status::Memory,
        disks,
    }
}

// Runs the command of a request. The arguments stand in its contract alone.
fn run_request<S: Source + Drop, O: Sink + Drop, D: Disk + Drop, P: Patterns + Drop>(
    alloc: Global,
    words: &[Text],
    request: Request,
    query: Option<&str>,
    spool: &mut S,
    out: &mut O,
    disks: Disks<D>,
    patterns: &mut P,
) -> Ended<D>
    requires words { IsRequest words.now request }
    requires query { (text : List ℕ) → AsksQuery words.now text → value_word query ≡ Some text }
    requires calm { IsCalm request }
    requires moment { HasMoment request }
    ensures run { CalmRun (disk_sight_of D.Disk) words.now request
        (outside (stream (S.left spool.old) (S.fault_count spool.old)) (stream (O.held out.old) (O.fault_count out.old))
        (pattern_sight (P.says patterns.old) (P.asked patterns.old) (P.refusals patterns.old)))
        (outside (stream (S.left spool.new) (S.fault_count spool.new)) (stream (O.held out.new) (O.fault_count out.new))
        (pattern_sight (P.says patterns.new) (P.asked patterns.new) (P.refusals patterns.new))) disks result.disks result.status }
    ensures useful { result.status ≢ Status.Usage }
{
    match request {
        Request::Show => {
            let status = show(alloc, spool, out);
            Ended { status, disks }
        }
        Request::Init { ttls } => {
            let mut disks = disks;
            let status = init(alloc, &mut disks, ttls);
            Ended { status, disks }
        }
        Request::Run { .. } => unreachable!(),
        Request::Serve { .. } => unreachable!(),
        Request::Sweep { kinds, now } => sweep_disks(alloc, disks, kinds, now),
        Request::Compact => compact_disks(alloc, disks),
        Request::Discards => print_discards(alloc, disks, out),
        Request::Payload { receipt } => print_payload(alloc, disks, receipt, out),
        Request::Query => match query {
            Some(text) => print_rows(alloc, disks, text.as_bytes(), out, patterns),
            None => unreachable!(),
        },
        Request::Make { seed, count } => {
            let status = print_made(alloc, seed, count, out);
            Ended { status, disks }
        }
    }
}

// Initializes the disks.
fn init<D: Disk + Drop>(alloc: Global, disks: &mut Disks<D>, ttls: Ttls) -> Status
    ensures run { InitRun D.Disk ttls disks.old disks.new result }
    ensures queue_cause { QueueDisksCount (disk_sight_of D.Disk) disks.old disks.new (result ≡ Status.QueueFault) }
    ensures store_cause { StoreDisksCount (disk_sight_of D.Disk) disks.old disks.new (result ≡ Status.StoreFault) }
{
    match lay_core(alloc, disks, ttls) {
        Ok(()) => Status::Done,
        Err(LayCoreFault::QueueFault) => Status::QueueFault,
        Err(LayCoreFault::StoreFault) => Status::StoreFault,
        Err(LayCoreFault::AlreadyLaid) => Status::AlreadyLaid,
        Err(LayCoreFault::Memory) => Status::Memory,
    }
}
