//! Drains by many workers.
ghost use Rattle.std.specs.Prelude.{◌≤◌};

use crate::gates::TestGate;
use crate::made::{MemoryCore, busy_core};
use crate::said::{number_of, parted, says};
use crate::shown::text;
use fleet_hub::{DownBy, Drained, Gate, OpenGate, Tally, WorkEnd, drain};
use fleet_rows::Entity;
use std::alloc::{AllocError, Global};
use std::process::Abort;
use std::str;
use std::sync::Wait;
use std::thread::Threads;

/// How many commands came in, and how they ended: received, applied, superseded, discarded.
pub(crate) fn counts(core: &MemoryCore) -> [u64; 4] {
    let Tally {
        received,
        applied,
        superseded,
        discarded,
    } = core.tally();
    [received, applied, superseded, discarded]
}

/// The rows of facts of five nodes, of which the newest is of 14 o'clock.
const FIVE: &str =
    r#" "n0" "production" "k" 14 "n1" "production" "k" 14 "n2" "production" "k" 14 "n3" "production" "k" 14 "n4" "production" "k" 14"#;

fn end_word(done: bool) -> &'static str {
    if done { "done" } else { "not done" }
}

// The rows as text, and those of the five nodes as two words.
fn words_of(rows: &[u8]) -> &str {
    let rows = str::from_utf8(rows).unwrap_or("no text");
    if rows == FIVE { " five rows" } else { rows }
}

// What a drain left: how it ended, how many commands came in and how they ended, and the rows of facts.
fn outcome_of(alloc: Global, core: MemoryCore, done: bool) -> Result<String, AllocError> {
    let counts = counts(&core);
    let rows = text(alloc, core.tables(), Entity::Facts);
    drop(core);
    let rows = rows?;
    let (end, words) = (end_word(done), words_of(rows.as_slice()));
    format!(in alloc; "{end} {counts:?}{words}")
}

// What a drain by so many workers leaves of a core.
fn drained<G: Gate + Sync, R: Threads + Wait + Sync>(
    rt: &R,
    alloc: Global,
    core: MemoryCore,
    workers: u32,
    gate: &G,
) -> Result<String, AllocError>
    requires some { 1 ≤ workers }
    requires few { workers ≤ 64 }
{
    let Drained { core, end } = drain(rt, alloc, core, workers, gate);
    outcome_of(alloc, core, matches!(end, WorkEnd::Done))
}

// The same with the gate of this name, and what a gate of tests told.
fn drained_by<R: Threads + Wait + Sync>(
    rt: &R,
    alloc: Global,
    core: MemoryCore,
    workers: u32,
    gate: &str,
) -> Result<String, AllocError>
    requires some { 1 ≤ workers }
    requires few { workers ≤ 64 }
{
    if gate == "open" {
        return drained(rt, alloc, core, workers, &OpenGate);
    }
    let gate = TestGate::new(gate == "two", if gate == "poor" { u64::MAX } else { 0 });
    let said = drained(rt, alloc, core, workers, &gate)?;
    let (met, poor) = gate.told();
    format!(in alloc; "{said}, {met} met, {poor}")
}

// A drain of so many nodes with so many hours' facts, by so many workers with this gate.
fn drained_case<R: Threads + Wait + Sync>(
    rt: &R,
    alloc: Global,
    case: &str,
) -> Result<String, AllocError> {
    let (nodes, rest) = parted(case, " ");
    let (hours, rest) = parted(rest, " ");
    let (workers, gate) = parted(rest, " ");
    let workers = workers.parse::<u32>().unwrap_or(0);
    if workers < 1 || workers > 64 {
        return Err(AllocError);
    }
    match busy_core(alloc, (0, 0), number_of(nodes), number_of(hours))? {
        Some(core) => drained_by(rt, alloc, core, workers, gate),
        None => Err(AllocError),
    }
}

/// How many nodes have how many hours' facts, how many workers there are at which gate, and what is left: how many commands came in, were
/// applied, superseded and discarded, and the rows of facts. Of the facts of a node the newest are applied. At `two` two commands are at
/// the gate at the same time, and at `poor` no worker finds memory, so that the caller settles all.
const DRAINS: &str = r#"1 5 8 open = done [5, 1, 4, 0] "n0" "production" "k" 14
5 5 1 open = done [25, 5, 20, 0] five rows
5 5 2 open = done [25, 5, 20, 0] five rows
5 5 8 open = done [25, 5, 20, 0] five rows
2 1 2 two = done [2, 2, 0, 0] "n0" "production" "k" 10 "n1" "production" "k" 10, 2 met, false
5 5 1 poor = done [25, 5, 20, 0] five rows, 0 met, true
5 5 8 poor = done [25, 5, 20, 0] five rows, 0 met, true"#;

fn drain_line<R: Abort + Threads + Wait + Sync>(
    rt: &R,
    alloc: Global,
    line: &str,
) -> Result<(), AllocError> {
    let (case, wanted) = parted(line, " = ");
    let said = drained_case(rt, alloc, case)?;
    assert!(rt; said.as_str() == wanted, "{said} for {wanted}");
    Ok(())
}

fn drain_each<R: Abort + Threads + Wait + Sync>(rt: &R, alloc: Global) -> Result<(), AllocError> {
    let mut rest = DRAINS;
    'lines: for _ in 0..DRAINS.len() {
        let (line, more) = parted(rest, "\n");
        drain_line(rt, alloc, line)?;
        if more.is_empty() {
            return Ok(());
        }
        rest = more;
    }
    Ok(())
}

#[test]
fn any_number_of_workers_comes_to_the_same(rt: HostRuntime) -> Result<(), AllocError> {
    drain_each(&rt, rt.alloc())
}

// How a drain ends where calls of the store fail, a bit for each: there is no core; the store goes down, and stays so; each failure is
// repaired, and sixteen of them discard a command; or otherwise.
const NO_CORE: u64 = 1;

const STAYS_DOWN: u64 = 2;

const ALL_REPAIRED: u64 = 4;

const OTHERWISE: u64 = 8;

fn down_again<R: Threads + Wait + Sync>(rt: &R, alloc: Global, core: MemoryCore) -> u64 {
    let left = core.down_by() == DownBy::Store && core.pending().0 > 0;
    let Drained { core, end } = drain(rt, alloc, core, 8, &OpenGate);
    drop(core);
    if left && matches!(end, WorkEnd::Down) {
        STAYS_DOWN
    } else {
        OTHERWISE
    }
}

fn repaired(core: MemoryCore) -> u64 {
    let [received, applied, superseded, discarded] = counts(&core);
    drop(core);
    if received == 8 && superseded == 0 && applied.wrapping_add(discarded) == 8 {
        ALL_REPAIRED
    } else {
        OTHERWISE
    }
}

fn drained_weakly<R: Threads + Wait + Sync>(rt: &R, alloc: Global, core: MemoryCore) -> u64 {
    let Drained { core, end } = drain(rt, alloc, core, 8, &OpenGate);
    match end {
        WorkEnd::StoreDown => down_again(rt, alloc, core),
        WorkEnd::Done => repaired(core),
        _ => {
            drop(core);
            OTHERWISE
        }
    }
}

// The end of a drain by eight workers of a core whose store fails at 64 calls, from this one on.
fn weak_end<R: Threads + Wait + Sync>(
    rt: &R,
    alloc: Global,
    first: u64,
) -> Result<u64, AllocError> {
    match busy_core(alloc, (first, 64), 8, 1)? {
        Some(core) => Ok(drained_weakly(rt, alloc, core)),
        None => Ok(NO_CORE),
    }
}

// The ends of such drains, where the calls fail from the first to the 63rd on.
fn weak_ends<R: Threads + Wait + Sync>(rt: &R, alloc: Global) -> Result<u64, AllocError> {
    let mut ends = 0;
    'calls: for first in 1..64 {
        ends |= weak_end(rt, alloc, first)?;
    }
    Ok(ends)
}

#[test]
fn a_store_that_goes_down_under_eight_workers_ends_the_drain(
    rt: HostRuntime,
) -> Result<(), AllocError> {
    says(&rt, rt.alloc(), weak_ends(&rt, rt.alloc())?, "7")
}
