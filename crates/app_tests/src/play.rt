//! What the lines of a script do.
//!
//! `A` and `B` stand for words of a line, `TEXT` for the rest of it.
//!
//! | line | what it does |
//! |---|---|
//! | `case TEXT`, `files TEXT` | a title; the four files are empty, or those that `init` lays |
//! | `put A TEXT` | appends these bytes to file A, which is 0 or 1 of the queue, 2 or 3 of the store |
//! | `with A=B ..` | sets numbers of the next command, below |
//! | `crash A` | puts in the place of the files what a crash leaves of them by the choice A; choice 0 leaves what a read gives |
//! | `facts A B TEXT` and other words of `items.rt` in `test_support` | appends an item to the spool of the next command |
//! | `bytes TEXT`, `keep A` | appends bytes to it, or keeps its first A bytes |
//! | `piped` | appends to it what the last command printed |
//! | `middle A TEXT`, `nodes A B TEXT` | makes a large part of payloads, and appends the items B of A nodes |
//! | `link TEXT` | adds a link on which these bytes come |
//! | `do A B ..` | runs the command of these words over the spool and the links |
//! | `try A B ..` | does so, if the last command that ran ended with code 0 or 13 |
//! | `gate A B ..` | runs the command as `do`, but at a gate; the line of its status isn't printed |
//! | `ask TEXT` | asks a query |
//! | `note A B ..` | runs the command as `do`, with a reader of patterns that notes each text that it tries |
//! | `tried A` | says how many texts that were |
//! | `usage A B ..` | runs words that are no command |
//! | `printed TEXT`, `bare TEXT` | says what the last command printed, with a line end and without |
//! | `again` | says that the next command prints what the last one printed |
//! | `port A`, `answer TEXT` | says which port was listened to, and the answer of each link that was given back |
//! | `end A TEXT` | compares all of that, the code A and the line of the errors; a line that was cut has ` ..` behind it |
//! | `told TEXT` | the same for code 0 and this line printed |
//! | `want A TEXT`, `laid` | appends bytes to what file A is to hold, or says that the files are to hold what `init` lays |
//! | `turned` | says that the first file of each log is to hold what the second is to, one generation later |
//! | `same files` | compares the files with that |
//! | `untouched` | no call of a disk failed |
//! | `together`, `apart` | no command went through the gate before all had come, or some did |
//! | `log` | appends to the round's log whether a disk failed, the code, the line and what was printed |
//!
//! Numbers: `disk`, `first`, `count` and `stop` of the disks that are made for the next command (all disks where no disk is named);
//! `spool`, `out`, `errors` and `front`, the call that fails; `piece`, how many bytes of the spool come at once; `wanted` and `turns`
//! of the gate; `wide`, how many bytes the query's text is filled up to; `start`, why no run begins.
use crate::gate::FullGate;
use fleet_app::{Ended, Exit, StartFault, run_busy, run_program};
use fleet_ports::Disks;
use front_memory::MemoryFront;
use json_tree::Text;
use pattern_memory::pattern_port::Patterns;
use pattern_memory::{MemoryPatterns, Note};
use pattern_regex::RegexPatterns;
use port_memory::{FuseDisk, MemorySink};
use std::alloc::{AllocError, Global};
use std::sync::Wait;
use std::thread::Threads;
use test_support::{
    Given, Pieces, Script, Told, add_text, code_of, numbers, parted, query_of, words_of,
};

/// What a command reads and writes, beside its disks.
#[derive(Drop)]
struct Streams {
    spool: Pieces,
    out: MemorySink,
    errors: MemorySink,
    front: MemoryFront,
}

// The streams of the next command.
fn streams_of(alloc: Global, given: &mut Given) -> Streams {
    let links = given.take_links(alloc);
    let fails = numbers(alloc, given.number(" front=", 0), 1);
    Streams {
        spool: given.take_spool(alloc),
        out: given.sink(alloc, " out="),
        errors: given.sink(alloc, " errors="),
        front: MemoryFront::new(alloc, links, fails),
    }
}

// How the next command begins.
fn start<'a>(
    alloc: Global,
    script: &mut Script,
    words: &'a [Text],
) -> Result<(&'a [Text], Disks<FuseDisk>), StartFault> {
    match script.given.number(" start=", 0) {
        0 => Ok((words, script.stored.take_disks(alloc, &script.given))),
        1 => Err(StartFault::NotUtf8),
        2 => Err(StartFault::Memory),
        3 => Err(StartFault::QueueFile),
        _ => Err(StartFault::StoreFile),
    }
}

// Keeps what a command came to, and what it served.
fn keep(told: &mut Told, code: u8, streams: &Streams) -> Result<(), AllocError> {
    told.keep(code, streams.out.held(), streams.errors.held())?;
    told.keep_port(streams.front.port())?;
    for link in streams.front.ended() {
        told.keep_answer(link.outgoing.held())?;
    }
    Ok(())
}

// Runs the words with this reader of patterns.
fn run<P: Patterns + Drop, R: Threads + Wait + Sync>(
    rt: &R,
    alloc: Global,
    script: &mut Script,
    words: &[Text],
    patterns: &mut P,
) -> Result<(), AllocError> {
    let start = start(alloc, script, words);
    let mut streams = streams_of(alloc, &mut script.given);
    let Exit { code, disks } = run_program(
        rt,
        alloc,
        start,
        &mut streams.spool,
        &mut streams.out,
        &mut streams.errors,
        &mut streams.front,
        patterns,
    );
    script.stored.keep_disks(disks);
    let kept = keep(&mut script.told, code_of(code), &streams);
    drop(streams);
    kept
}

// Runs the words.
fn run_plainly<R: Threads + Wait + Sync>(
    rt: &R,
    alloc: Global,
    script: &mut Script,
    words: &[Text],
) -> Result<(), AllocError> {
    let mut patterns = RegexPatterns::new(alloc);
    let ran = run(rt, alloc, script, words, &mut patterns);
    drop(patterns);
    ran
}

// How many texts were tried. Where memory was short, that is more than any line says.
fn tries_of(patterns: &MemoryPatterns) -> u64 {
    let mut count = 0_u64;
    for note in patterns.notes() {
        if matches!(note, Note::Tried(_, _)) {
            count = count.saturating_add(1);
        }
    }
    if patterns.lost() == 0 {
        count
    } else {
        u64::MAX
    }
}

// Runs the words, with a reader of patterns that notes each text that it tries.
fn run_noted<R: Threads + Wait + Sync>(
    rt: &R,
    alloc: Global,
    script: &mut Script,
    words: &[Text],
) -> Result<(), AllocError> {
    let mut patterns = MemoryPatterns::new(alloc);
    let ran = run(rt, alloc, script, words, &mut patterns);
    script.told.keep_tries(tries_of(&patterns));
    drop(patterns);
    ran
}

// The gate of the next command.
fn gate_of(given: &Given) -> FullGate {
    FullGate::new(given.number(" wanted=", 0), given.number(" turns=", 0))
}

// Runs the words of a command that may wait, at a gate.
fn run_at_gate<R: Threads + Wait + Sync>(
    rt: &R,
    alloc: Global,
    script: &mut Script,
    words: &[Text],
) -> Result<(), AllocError> {
    let disks = script.stored.take_disks(alloc, &script.given);
    let mut streams = streams_of(alloc, &mut script.given);
    let mut patterns = RegexPatterns::new(alloc);
    let gate = gate_of(&script.given);
    let Ended { status, disks } = run_busy(
        rt,
        alloc,
        words,
        &mut streams.spool,
        &mut streams.out,
        disks,
        &mut streams.front,
        &mut patterns,
        &gate,
    );
    script.stored.keep_disks(Some(disks));
    script.told.keep_early(gate.early());
    let kept = keep(&mut script.told, status.code(), &streams);
    drop(status);
    drop(patterns);
    drop(streams);
    kept
}

// Runs the words as the word in front of them says.
fn run_as<R: Threads + Wait + Sync>(
    rt: &R,
    alloc: Global,
    script: &mut Script,
    word: &str,
    words: &[Text],
) -> Result<(), AllocError> {
    match word {
        "gate" => run_at_gate(rt, alloc, script, words),
        "note" => run_noted(rt, alloc, script, words),
        "try" if !script.told.goes_on() => Ok(()),
        _ => run_plainly(rt, alloc, script, words),
    }
}

// The words of the command that a line names; none for other lines.
fn command_of(
    alloc: Global,
    given: &Given,
    word: &str,
    text: &str,
) -> Result<Option<Vec<Text>>, AllocError> {
    match word {
        "ask" => Ok(Some(query_of(alloc, text, given.number(" wide=", 0))?)),
        "do" | "try" | "usage" | "gate" | "note" => Ok(Some(words_of(alloc, text)?)),
        _ => Ok(None),
    }
}

// Does what the line says, and tells whether it is as the line says.
fn step<R: Threads + Wait + Sync>(
    rt: &R,
    alloc: Global,
    script: &mut Script,
    line: &str,
) -> Result<bool, AllocError> {
    let (word, text) = parted(line, " ");
    match command_of(alloc, &script.given, word, text)? {
        Some(words) => {
            let ran = run_as(rt, alloc, script, word, words.as_slice());
            drop(words);
            ran?;
            Ok(script.is_over(word))
        }
        None => script.note(alloc, word, text),
    }
}

// Appends which line isn't so, and how the last command ended and what it printed.
fn tell(
    alloc: Global,
    script: &mut Script,
    scenario: &str,
    line: &str,
    wrong: &mut String,
) -> Result<(), AllocError> {
    script.note(alloc, "log", "")?;
    add_text(wrong, scenario)?;
    add_text(wrong, line)?;
    add_text(wrong, script.told.log.as_str())
}

/// Does what the lines of the scenario say, up to one that isn't so, which is told.
pub(crate) fn play<R: Threads + Wait + Sync>(
    rt: &R,
    alloc: Global,
    script: &mut Script,
    scenario: &str,
    wrong: &mut String,
) -> Result<(), AllocError> {
    let mut rest = scenario;
    'lines: for _ in 0..scenario.len() {
        let (line, more) = parted(rest, "\n");
        if !step(rt, alloc, script, line)? {
            return tell(alloc, script, scenario, line, wrong);
        }
        if more.is_empty() {
            break;
        }
        rest = more;
    }
    Ok(())
}
