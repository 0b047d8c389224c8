//! What the lines of a case do. Each case has a link, which is served once its lines are read.
//!
//! `A` and `B` stand for words of a line, `TEXT` for the rest of it.
//!
//! | line | what it does |
//! |---|---|
//! | `for A B ..` | plays the case once for each of these words, which stands for `<it>` |
//! | `send TEXT`, `more A B` | appends bytes to what comes in on the link, or the byte B so many times |
//! | `ask A B TEXT` | appends a request with the method A, the target B and this body |
//! | `fields TEXT`, `get A` | says which fields a client sends, and appends its GET of the target A |
//! | `ok TEXT`, `bad TEXT` | appends to what is to be written: an answer of the status 200 or 400 with this body |
//! | `answer A.. \| FIELD \| TEXT` | appends one with this status and this field, which may lack; no blank stands beside the bars |
//! | `often A` | has what comes in, and what is to be written, so many times |
//! | `with A=B ..` | sets numbers |
//! | `says A` | says what the inbox answers to each command, in place of taking it |
//! | `takes A B C TEXT` | says that a command is taken: its kind, its version, and how many bytes its payload has, and the first ones |
//!
//! Numbers: `piece`, how many bytes come at once; `fails`, the read that fails; `room`, how many bytes can be written; `end`, how the
//! link ends: 1 by a fault of reading, 2 of writing, and then only some of the answers may be written; `tried`, how many texts are tried
//! on patterns at most, and one at least.
use crate::fleet::tables_of;
use crate::outside::{OneInbox, Says};
use crate::wrong::{Wrong, holds};
use fleet_rows::{Command, Kind};
use front_port::Link;
use http_routes::{LinkEnd, serve_link};
use itoa::Buffer;
use pattern_memory::pattern_port::Patterns;
use pattern_memory::{MemoryPatterns, Note};
use pattern_regex::RegexPatterns;
use stamp_time::read_stamp;
use std::alloc::{AllocError, Global};
use test_support::{Exchange, Pieces, Room, add_bytes, parted, scenarios_of, turns_of};

#[derive(Drop)]
struct Case {
    exchange: Exchange,
    says: Says,
    // The fields that a client sends.
    fields: Vec<u8>,
    // The commands that are to be taken.
    takes: Vec<u8>,
}

fn says_of(word: &str) -> Says {
    match word {
        "full" => Says::Full,
        "fault" => Says::QueueFault,
        "spent" => Says::Spent,
        "down" => Says::Down,
        "memory" => Says::Memory,
        _ => Says::Taking,
    }
}

fn add_request(alloc: Global, bytes: &mut Vec<u8>, text: &str) -> Result<(), AllocError> {
    let (method, rest) = parted(text, " ");
    let (target, body) = parted(rest, " ");
    let len = body.len();
    let request = format!(in alloc;
        "{method} {target} HTTP/1.1\r\nContent-Length: {len}\r\n\r\n{body}"
    )?;
    bytes.extend_from_slice(request.as_bytes())
}

// Appends an answer, by its status, a field and its body, with bars between them.
fn add_answer(alloc: Global, wanted: &mut Vec<u8>, text: &str) -> Result<(), AllocError> {
    let (status, rest) = parted(text, "|");
    let (field, body) = parted(rest, "|");
    let end = if field.is_empty() { "" } else { "\r\n" };
    let len = body.len();
    let answer = format!(in alloc;
        "HTTP/1.1 {status}\r\nContent-Type: application/json\r\nContent-Length: {len}\r\n{field}{end}\r\n{body}"
    )?;
    wanted.extend_from_slice(answer.as_bytes())
}

// Appends an answer that has a status and a body alone.
fn add_plain_answer(
    alloc: Global,
    wanted: &mut Vec<u8>,
    status: &str,
    body: &str,
) -> Result<(), AllocError> {
    let text = format!(in alloc; "{status}||{body}")?;
    add_answer(alloc, wanted, text.as_str())
}

// Appends a GET of this target.
fn add_get(bytes: &mut Vec<u8>, target: &str, fields: &[u8]) -> Result<(), AllocError> {
    bytes.extend_from_slice(b"GET ")?;
    bytes.extend_from_slice(target.as_bytes())?;
    bytes.extend_from_slice(b" HTTP/1.1\r\n")?;
    bytes.extend_from_slice(fields)
}

// Does what a line says, and tells whether it says something.
fn step(alloc: Global, case: &mut Case, line: &str) -> Result<bool, AllocError> {
    let (word, text) = parted(line, " ");
    let exchange = &mut case.exchange;
    match word {
        "ask" => add_request(alloc, &mut exchange.bytes, text)?,
        "get" => add_get(&mut exchange.bytes, text, case.fields.as_slice())?,
        "fields" => add_bytes(&mut case.fields, text)?,
        "ok" => add_plain_answer(alloc, &mut exchange.wanted, "200 OK", text)?,
        "bad" => add_plain_answer(alloc, &mut exchange.wanted, "400 Bad Request", text)?,
        "answer" => add_answer(alloc, &mut exchange.wanted, text)?,
        "takes" => add_bytes(&mut case.takes, text)?,
        "says" => case.says = says_of(text),
        _ => return exchange.step(alloc, word, text),
    }
    Ok(true)
}

// Serves a link, with commands received at a moment of 2024.
fn serve<P: Patterns + Drop>(
    alloc: Global,
    inbox: &mut OneInbox,
    link: &mut Link<Pieces, Room>,
    patterns: &mut P,
) -> Result<LinkEnd, Wrong> {
    match read_stamp("2024-05-02T00:00:00Z") {
        Some(now) => Ok(serve_link(alloc, inbox, link, patterns, now)),
        None => Err(Wrong::NoStamp),
    }
}

fn serve_plainly(
    alloc: Global,
    inbox: &mut OneInbox,
    link: &mut Link<Pieces, Room>,
) -> Result<LinkEnd, Wrong> {
    let mut patterns = RegexPatterns::new(alloc);
    serve(alloc, inbox, link, &mut patterns)
}

// Whether as few texts were tried, and one at least.
fn tried_few(patterns: &MemoryPatterns, most: u64) -> bool {
    let mut count = 0_u64;
    for note in patterns.notes() {
        if matches!(note, Note::Tried(_, _)) {
            count = count.saturating_add(1);
        }
    }
    patterns.lost() == 0 && count > 0 && count <= most
}

// Serves a link with a reader of patterns that notes each text that it tries.
fn serve_noted(
    alloc: Global,
    inbox: &mut OneInbox,
    link: &mut Link<Pieces, Room>,
    most: u64,
) -> Result<LinkEnd, Wrong> {
    let mut patterns = MemoryPatterns::new(alloc);
    let end = serve(alloc, inbox, link, &mut patterns);
    let few = tried_few(&patterns, most);
    drop(patterns);
    holds(few, 0)?;
    end
}

fn serve_as(
    alloc: Global,
    inbox: &mut OneInbox,
    link: &mut Link<Pieces, Room>,
    most: u64,
) -> Result<LinkEnd, Wrong> {
    if most == 0 {
        serve_plainly(alloc, inbox, link)
    } else {
        serve_noted(alloc, inbox, link, most)
    }
}

fn kind_word(kind: Kind) -> &'static str {
    match kind {
        Kind::Facts => "facts ",
        Kind::Catalog => "catalog ",
        Kind::Report => "report ",
        Kind::Deactivate => "deactivate ",
        Kind::Expiration => "expiration ",
    }
}

// Appends a command that was taken: its kind, its version, and how many bytes its payload has, and the first ones.
fn add_taken(text: &mut Vec<u8>, command: &Command) -> Result<(), AllocError> {
    let payload = command.payload.as_slice();
    text.extend_from_slice(kind_word(command.kind).as_bytes())?;
    text.extend_from_slice(Buffer::new().format(command.version).as_bytes())?;
    text.push(b' ')?;
    text.extend_from_slice(Buffer::new().format(payload.len()).as_bytes())?;
    text.push(b' ')?;
    text.extend_from_slice(payload.get(..20).unwrap_or(payload))
}

// Whether these commands were taken.
fn are_taken(alloc: Global, taken: &[Command], wanted: &[u8]) -> Result<bool, AllocError> {
    let mut text = Vec::new(alloc);
    for command in taken {
        add_taken(&mut text, command)?;
    }
    Ok(text.as_slice() == wanted)
}

// Whether a link that ends so may have these bytes written on it.
fn is_written(end: LinkEnd, written: &[u8], case: &Case) -> bool {
    let wanted = case.exchange.wanted.as_slice();
    let (number, is_so) = match end {
        LinkEnd::Closed => (0, written == wanted),
        LinkEnd::ReadFault => (1, wanted.starts_with(written)),
        LinkEnd::WriteFault => (2, wanted.starts_with(written)),
    };
    is_so && number == case.exchange.given.number(" end=", 0)
}

// Whether a link that was served so is as the lines of the case say.
fn is_so(
    case: &Case,
    end: Result<LinkEnd, Wrong>,
    written: &[u8],
    are_taken: Result<bool, AllocError>,
) -> Result<bool, Wrong> {
    Ok(are_taken? && is_written(end?, written, case))
}

// Whether the link of the case is served as its lines say, by this inbox.
fn is_served(alloc: Global, inbox: &mut OneInbox, case: &mut Case) -> Result<bool, Wrong> {
    let room = case.exchange.given.number(" room=", 1_000_000) as usize;
    let most = case.exchange.given.number(" tried=", 0);
    let mut link = Link {
        incoming: case.exchange.take_source(alloc),
        outgoing: Room::new(alloc, room),
    };
    let end = serve_as(alloc, inbox, &mut link, most);
    let are_taken = are_taken(alloc, inbox.taken(), case.takes.as_slice());
    let told = is_so(case, end, link.outgoing.written(), are_taken);
    drop(link);
    told
}

// The same by an inbox over this fleet.
fn is_served_over(alloc: Global, fleet: &str, case: &mut Case) -> Result<bool, Wrong> {
    let tables = tables_of(alloc, fleet)?;
    let mut inbox = OneInbox::new(alloc, tables, case.says);
    let told = is_served(alloc, &mut inbox, case);
    drop(inbox);
    told
}

// Does what the lines say, and tells whether each says something.
fn read_lines(alloc: Global, case: &mut Case, lines: &str) -> Result<bool, AllocError> {
    for line in lines.split('\n') {
        if !step(alloc, case, line)? {
            return Ok(false);
        }
    }
    Ok(true)
}

// Whether the case is so over this fleet.
fn play_lines(alloc: Global, fleet: &str, lines: &str) -> Result<bool, Wrong> {
    let mut case = Case {
        exchange: Exchange::new(alloc),
        says: Says::Taking,
        fields: Vec::new(alloc),
        takes: Vec::new(alloc),
    };
    let read = read_lines(alloc, &mut case, lines);
    let served = is_served_over(alloc, fleet, &mut case);
    drop(case);
    Ok(read? && served?)
}

// The same for each word that its line `for` names.
fn play_case(alloc: Global, fleet: &str, case: &str) -> Result<bool, Wrong> {
    let turns = turns_of(alloc, case)?;
    for turn in turns.as_slice() {
        if !play_lines(alloc, fleet, turn.as_str())? {
            return Ok(false);
        }
    }
    Ok(true)
}

/// Plays the cases, which empty lines part, with each of the heads in front, which are parted so too. The fleet has a command a line, by
/// its kind and its payload. A line that ends with a backslash goes on in the next one.
pub(crate) fn play(alloc: Global, fleet: &str, heads: &str, cases: &str) -> Result<(), Wrong> {
    let fleet = fleet.replace(alloc, "\\\n", "")?;
    let all = scenarios_of(alloc, heads, cases)?;
    for (at, case) in all.as_slice().iter().enumerate() {
        holds(play_case(alloc, fleet.as_str(), case.as_str())?, at)?;
    }
    Ok(())
}
