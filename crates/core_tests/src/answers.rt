//! What a core answers to the words of a session.
use crate::worker::{Came, rests, send, sweep, work, work_late, work_released};
use command_core::{Compacted, Core, DownBy, Submitted, Tally};
use fleet_keeper::Keeper;
use fleet_ports::Disk;
use fleet_rows::{Entity, Kind};
use json_tree::Text;
use std::alloc::{AllocError, Global};
use test_support::{Notes, count_of, gives, made, parted, parts_of, says};

/// Four commands, each of a node of its own: facts of `a`, `b`, `c` and `d`. The values of `b` are refused.
static FOUR: [&str; 4] = [
    r#"{"certname":"a","values":{"k":1},"producer_timestamp":"2024-05-01T01:00:00Z"}"#,
    r#"{"certname":"b","values":[],"producer_timestamp":"2024-05-01T01:00:00Z"}"#,
    r#"{"certname":"c","values":{"k":1},"producer_timestamp":"2024-05-01T01:00:00Z"}"#,
    r#"{"certname":"d","values":{"k":1},"producer_timestamp":"2024-05-01T01:00:00Z"}"#,
];

/// What a core answered about the four. `taken` says which got a receipt, `ended` counts the commands that it said had ended. Then come its
/// own counts, and the log that it is down by. `left` says how many commands are found applied, discarded and pending.
#[derive(Clone, Copy)]
pub(crate) struct Told {
    pub(crate) taken: [bool; 4],
    pub(crate) ended: u64,
    pub(crate) received: u64,
    pub(crate) applied: u64,
    pub(crate) discarded: u64,
    pub(crate) by: DownBy,
    pub(crate) left: [u64; 3],
}

/// Nothing was answered, and nothing found.
pub(crate) const SILENCE: Told = Told {
    taken: [false; 4],
    ended: 0,
    received: 0,
    applied: 0,
    discarded: 0,
    by: DownBy::No,
    left: [0; 3],
};

// Submits facts of this node, with this hour and these values.
fn send_facts<D: Disk + Drop, K: Keeper + Drop>(
    alloc: Global,
    core: &mut Core<D, K>,
    text: &str,
) -> Result<Submitted, AllocError> {
    let ([node, hour, values], _) = parts_of(text, " ");
    let payload = format!(in alloc;
        r#"{{"certname":"{node}","values":{values},"producer_timestamp":"2024-05-01T{hour}:00:00Z"}}"#
    )?;
    send(alloc, core, payload.as_str())
}

fn is_taken<D: Disk + Drop, K: Keeper + Drop>(
    alloc: Global,
    core: &mut Core<D, K>,
    payload: &str,
) -> Result<bool, AllocError> {
    Ok(matches!(send(alloc, core, payload)?, Submitted::Receipt(_)))
}

// Submits so many commands that are no JSON. Whether each gets a receipt.
fn fill<D: Disk + Drop, K: Keeper + Drop>(
    alloc: Global,
    core: &mut Core<D, K>,
    count: u64,
) -> Result<bool, AllocError> {
    for _ in 0..count {
        if !is_taken(alloc, core, "x")? {
            return Ok(false);
        }
    }
    Ok(true)
}

// The same, where it goes on.
fn is_taken_then<D: Disk + Drop, K: Keeper + Drop>(
    alloc: Global,
    core: &mut Core<D, K>,
    payload: &str,
    goes_on: bool,
) -> Result<bool, AllocError> {
    if goes_on {
        is_taken(alloc, core, payload)
    } else {
        Ok(false)
    }
}

// Submits the four, up to the first that gets no receipt, or beyond it. Answers which got one.
fn send_four<D: Disk + Drop, K: Keeper + Drop>(
    alloc: Global,
    core: &mut Core<D, K>,
    beyond: bool,
) -> Result<[bool; 4], AllocError> {
    let first = is_taken(alloc, core, FOUR[0])?;
    let second = is_taken_then(alloc, core, FOUR[1], first || beyond)?;
    let third = is_taken_then(alloc, core, FOUR[2], second || beyond)?;
    let fourth = is_taken_then(alloc, core, FOUR[3], third || beyond)?;
    Ok([first, second, third, fourth])
}

// Whether a worker stops: no command is pending, or it goes not beyond a time that ends none.
fn is_last(came: Came, beyond: bool) -> bool {
    match came {
        Came::Ended => false,
        Came::Done => true,
        _ => !beyond,
    }
}

// Works eight times, up to the first time that ends no command, or beyond it while commands are pending. Answers how many ended, and
// what came last.
fn turns<D: Disk + Drop, K: Keeper + Drop>(
    alloc: Global,
    core: &mut Core<D, K>,
    beyond: bool,
) -> Result<(u64, Came), AllocError> {
    let mut ended: u64 = 0;
    'turns: for _ in 0..8 {
        let came = work(alloc, core)?;
        if is_last(came, beyond) {
            return Ok((ended, came));
        }
        ended = ended.saturating_add(u64::from(came == Came::Ended));
    }
    Ok((ended, Came::Failed))
}

// How many commands end, where it goes on.
fn ended_then<D: Disk + Drop, K: Keeper + Drop>(
    alloc: Global,
    core: &mut Core<D, K>,
    beyond: bool,
    goes_on: bool,
) -> Result<u64, AllocError> {
    if goes_on {
        Ok(turns(alloc, core, beyond)?.0)
    } else {
        Ok(0)
    }
}

// Notes what the core says of itself.
fn note<D: Disk + Drop, K: Keeper + Drop>(core: &Core<D, K>, told: &mut Told) {
    let tally = core.tally();
    told.received = tally.received;
    told.applied = tally.applied;
    told.discarded = tally.discarded;
    told.by = core.down_by();
}

// Submits the four and works, as far as the disks allow: up to the first call that fails, or beyond it.
fn serve<D: Disk + Drop, K: Keeper + Drop>(
    notes: &mut Notes,
    core: &mut Core<D, K>,
    told: &mut Told,
    beyond: bool,
) {
    let alloc = notes.alloc;
    let taken = send_four(alloc, core, beyond);
    told.taken = made(notes, taken, [false; 4]);
    let ended = ended_then(alloc, core, beyond, told.taken[3] || beyond);
    told.ended = made(notes, ended, 0);
    note(core, told);
}

fn counts<D: Disk + Drop, K: Keeper + Drop>(core: &Core<D, K>) -> [u64; 4] {
    let Tally {
        received,
        applied,
        superseded,
        discarded,
    } = core.tally();
    [received, applied, superseded, discarded]
}

// How many facts there are, and how many commands are discarded and pending.
fn standing<D: Disk + Drop, K: Keeper + Drop>(core: &Core<D, K>) -> [u64; 3] {
    let (waiting, _bytes) = core.pending();
    let applied = core.tables().count(Entity::Facts) as u64;
    let discarded = core.discards().count() as u64;
    [applied, discarded, u64::from(waiting)]
}

// Whether all outcomes and commands that the core answered are found, with at most one command more.
fn keeps(told: &Told) -> bool {
    let [applied, discarded, waiting] = told.left;
    let all = applied.saturating_add(discarded).saturating_add(waiting);
    applied >= told.applied
        && discarded >= told.discarded
        && all >= told.received
        && all <= told.received.saturating_add(1)
}

// Whether the node has facts; true if it need not have any.
fn has_facts<D: Disk + Drop, K: Keeper + Drop>(
    alloc: Global,
    core: &Core<D, K>,
    certname: &str,
    must: bool,
) -> Result<bool, AllocError> {
    let certname = Text::from_str(alloc, certname)?;
    let newest = core.tables().newest(&certname, Kind::Facts);
    Ok(newest.is_some() || !must)
}

// Whether one command is discarded; true if none need be.
fn has_discarded<D: Disk + Drop, K: Keeper + Drop>(core: &Core<D, K>, must: bool) -> bool {
    core.discards().count() == 1 || !must
}

// Whether each of these commands has ended as it must.
fn have_ended<D: Disk + Drop, K: Keeper + Drop>(
    alloc: Global,
    core: &Core<D, K>,
    taken: [bool; 4],
) -> Result<bool, AllocError> {
    let [first, second, third, fourth] = taken;
    let first = has_facts(alloc, core, "a", first)?;
    let third = has_facts(alloc, core, "c", third)?;
    let fourth = has_facts(alloc, core, "d", fourth)?;
    let second = has_discarded(core, second);
    Ok(first && second && third && fourth)
}

fn is_idle<D: Disk + Drop, K: Keeper + Drop>(core: &Core<D, K>) -> bool {
    core.pending() == (0, 0)
}

// Whether all pending commands end, and each of these commands has ended as it must.
fn all_end<D: Disk + Drop, K: Keeper + Drop>(
    alloc: Global,
    core: &mut Core<D, K>,
    taken: [bool; 4],
) -> Result<bool, AllocError> {
    let (_, last) = turns(alloc, core, false)?;
    let ended = have_ended(alloc, core, taken)?;
    let idle = is_idle(core);
    Ok(last == Came::Done && ended && idle)
}

// Works so often, and compares what it comes to each time.
fn work_often<D: Disk + Drop, K: Keeper + Drop>(
    notes: &mut Notes,
    core: &mut Core<D, K>,
    times: u64,
    wanted: &str,
) {
    for _ in 0..times {
        let came = work(notes.alloc, core);
        gives(notes, came, wanted);
    }
}

// The calls of a core, in functions that ensure nothing.
fn is_discarded<D: Disk + Drop, K: Keeper + Drop>(core: &Core<D, K>, receipt: u64) -> bool {
    core.discards().get(receipt).is_some()
}

fn compact<D: Disk + Drop, K: Keeper + Drop>(core: &mut Core<D, K>) -> Compacted {
    core.compact()
}

fn pending<D: Disk + Drop, K: Keeper + Drop>(core: &Core<D, K>) -> (u32, u64) {
    core.pending()
}

fn nodes<D: Disk + Drop, K: Keeper + Drop>(core: &Core<D, K>) -> usize {
    core.tables().count(Entity::Nodes)
}

fn down_by<D: Disk + Drop, K: Keeper + Drop>(core: &Core<D, K>) -> DownBy {
    core.down_by()
}

// Whether it is so.
fn is_so<D: Disk + Drop, K: Keeper + Drop>(
    alloc: Global,
    core: &mut Core<D, K>,
    told: &mut Told,
    word: &str,
    text: &str,
) -> Result<bool, AllocError> {
    match word {
        "fill" => fill(alloc, core, count_of(text)),
        "rests" => Ok(rests(core, false)),
        "rests-compacted" => Ok(rests(core, true)),
        "discarded" => Ok(is_discarded(core, count_of(text))),
        "keeps" => {
            told.left = standing(core);
            Ok(keeps(told))
        }
        "ends" => all_end(alloc, core, told.taken),
        "all-end" => all_end(alloc, core, [true; 4]),
        _ => Ok(false),
    }
}

// Looks at a core, and compares what is seen.
fn look<D: Disk + Drop, K: Keeper + Drop>(
    notes: &mut Notes,
    core: &mut Core<D, K>,
    told: &mut Told,
    call: &str,
    wanted: &str,
) {
    let (word, text) = parted(call, " ");
    match word {
        "tally" => says(notes, counts(core), wanted),
        "standing" => says(notes, standing(core), wanted),
        "pending" => says(notes, pending(core), wanted),
        "nodes" => says(notes, nodes(core), wanted),
        "down" => says(notes, down_by(core), wanted),
        _ => {
            let fact = is_so(notes.alloc, core, told, word, text);
            gives(notes, fact, wanted);
        }
    }
}

/// Does what a word of a session says, and compares the answer with the text behind ` = `.
///
/// `send` submits facts by their node, hour and values, `raw` by their payload, and `fill` so many that are no JSON. `four` submits the four.
/// `serve` works too, and notes what the core answered; so does `firmly`, which ends at the first failure. `work` works so often, and
/// `drain` while commands end. `late` and `released` settle a job whose claim was freed or released. `rests` claims a command, sees that
/// no other can be claimed, and releases it; `rests-compacted` compacts in between. `standing` counts the facts, the discarded commands
/// and the pending ones; `keeps` compares them with what was noted. `ends` works on and looks for each command that got a receipt,
/// `all-end` for all four.
pub(crate) fn answer<D: Disk + Drop, K: Keeper + Drop>(
    notes: &mut Notes,
    core: &mut Core<D, K>,
    told: &mut Told,
    item: &str,
) {
    let alloc = notes.alloc;
    let (call, wanted) = parted(item.trim_ascii(), " = ");
    let (word, text) = parted(call, " ");
    match word {
        "send" => gives(notes, send_facts(alloc, core, text), wanted),
        "raw" => gives(notes, send(alloc, core, text), wanted),
        "four" => gives(notes, send_four(alloc, core, true), wanted),
        "serve" => serve(notes, core, told, true),
        "firmly" => serve(notes, core, told, false),
        "work" => work_often(notes, core, count_of(text), wanted),
        "drain" => gives(notes, turns(alloc, core, false), wanted),
        "late" => gives(notes, work_late(alloc, core), wanted),
        "released" => gives(notes, work_released(alloc, core), wanted),
        "sweep" => gives(notes, sweep(core), wanted),
        "compact" => says(notes, compact(core), wanted),
        _ => look(notes, core, told, call, wanted),
    }
}
