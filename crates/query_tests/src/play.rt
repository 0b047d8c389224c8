//! Tables and what they are asked as lines of text, and the loop that reads the lines.
ghost use Rattle.command_decode.specs.history_spec.Lawful.{IsChange};

use ast_reader::ast_tree::{Paging, Query};
use ast_reader::{read_ast, read_filter};
use command_decode::decode;
use command_decode::fleet_rows::{Change, Command, Entity, Kind, Kinds, Ttls};
use command_decode::json_tree::Bytes;
use command_decode::stamp_time::{Moment, read_stamp};
use fleet_tables::Tables;
use itoa::Buffer;
use paging_text::{page, write_rows};
use pattern_memory::{MemoryPatterns, Note};
use pattern_regex::RegexPatterns;
use pql_reader::read_pql;
use query_answer::{
    AnswerFault, QueryRefusal, answer_ast, answer_filter, answer_query, answer_text,
};
use query_plain::{Picked, QueryFault, select_plain};
use std::alloc::{AllocError, Global};
use std::process::Abort;
use std::str;
use test_support::{add_words, count_of, parted};
use ttl_sweeps::sweep;

// The kind of a command, and the version that is taken.
fn kind_of(word: &str) -> Option<(Kind, u32)> {
    match word {
        "facts" => Some((Kind::Facts, 5)),
        "catalog" => Some((Kind::Catalog, 9)),
        "report" => Some((Kind::Report, 8)),
        "deactivate" => Some((Kind::Deactivate, 3)),
        _ => None,
    }
}

// The entity whose rows are asked.
fn entity_of(word: &str) -> Option<Entity> {
    match word {
        "nodes" => Some(Entity::Nodes),
        "fact_contents" => Some(Entity::FactContents),
        "inventory" => Some(Entity::Inventory),
        "events" => Some(Entity::Events),
        "event_counts" => Some(Entity::EventCounts),
        _ => None,
    }
}

fn expire(tables: &mut Tables, stamp: &str) -> bool {
    let kinds = Kinds {
        expire: true,
        purge: false,
        reports: false,
    };
    match read_stamp(stamp) {
        Some(moment) => {
            sweep(tables, kinds, moment);
            true
        }
        None => false,
    }
}

// The text of an answer: that of the rows, or that of the refusal.
fn text_of(alloc: Global, answer: Result<Bytes, AnswerFault>) -> Result<Bytes, AllocError> {
    match answer {
        Ok(text) => Ok(text),
        Err(AnswerFault::Refused(why)) => why.text(alloc),
        Err(AnswerFault::Memory) => Bytes::from_slice(alloc, b"no memory"),
    }
}

// The texts of answers: of a whole query in either language, of one in the AST, of one that was read, and of what is asked of the rows of an
// entity. No function above needs what the calls ensure.
fn told_text(alloc: Global, tables: &Tables, text: &[u8]) -> Result<Bytes, AllocError> {
    let mut patterns = RegexPatterns::new(alloc);
    let answer = answer_text(alloc, tables, text, &mut patterns);
    drop(patterns);
    text_of(alloc, answer)
}

fn told_ast(alloc: Global, tables: &Tables, text: &[u8]) -> Result<Bytes, AllocError> {
    let mut patterns = RegexPatterns::new(alloc);
    let answer = answer_ast(alloc, tables, text, &mut patterns);
    drop(patterns);
    text_of(alloc, answer)
}

fn told_query(alloc: Global, tables: &Tables, query: Query) -> Result<Bytes, AllocError> {
    let mut patterns = RegexPatterns::new(alloc);
    let answer = answer_query(alloc, tables, &query, &mut patterns);
    drop(patterns);
    drop(query);
    text_of(alloc, answer)
}

fn told_filter(
    alloc: Global,
    tables: &Tables,
    entity: Entity,
    text: &[u8],
) -> Result<Bytes, AllocError> {
    let mut patterns = RegexPatterns::new(alloc);
    let answer = answer_filter(alloc, tables, entity, text, &mut patterns);
    drop(patterns);
    text_of(alloc, answer)
}

fn copied(alloc: Global, query: Query) -> Result<Query, AllocError> {
    let copy = query.copy(alloc);
    drop(query);
    copy
}

// What is asked of the rows of an entity: a copy of the query is answered, and a text that is none is refused.
fn route_answer(
    alloc: Global,
    tables: &Tables,
    entity: Entity,
    text: &[u8],
) -> Result<Bytes, AllocError> {
    match read_filter(alloc, entity, text) {
        Ok(query) => told_query(alloc, tables, copied(alloc, query)?),
        Err(_) => told_filter(alloc, tables, entity, text),
    }
}

fn put_note(out: &mut Vec<u8>, note: &Note) -> Result<(), AllocError> {
    match note {
        Note::Read(pattern, true) => add_words(out, &["refused ", pattern.as_str(), ";"]),
        Note::Read(pattern, false) => add_words(out, &["read ", pattern.as_str(), ";"]),
        Note::Tried(pattern, text) => {
            add_words(out, &["tried ", pattern.as_str(), " ", text.as_str(), ";"])
        }
    }
}

// What a reader of patterns was asked, in order.
fn notes_of(alloc: Global, patterns: &MemoryPatterns) -> Result<Vec<u8>, AllocError> {
    let mut out = Vec::new(alloc);
    for note in patterns.notes() {
        put_note(&mut out, note)?;
    }
    if patterns.lost() > 0 {
        add_words(&mut out, &["no memory"])?;
    }
    Ok(out)
}

// Answers a query with a reader of patterns that notes what it is asked.
fn answer_noted(alloc: Global, tables: &Tables, text: &[u8], patterns: &mut MemoryPatterns) {
    drop(answer_text(alloc, tables, text, patterns));
}

// What a reader of patterns is asked for the answer to a query, in order.
fn course(alloc: Global, tables: &Tables, text: &[u8]) -> Result<Bytes, AllocError> {
    let mut patterns = MemoryPatterns::new(alloc);
    answer_noted(alloc, tables, text, &mut patterns);
    let notes = notes_of(alloc, &patterns);
    drop(patterns);
    Ok(Bytes::from_vec(notes?))
}

fn paging_in(alloc: Global, query: &Query) -> Option<Paging> {
    let (_, _, _, _, paging) = query.level().parts();
    paging.copy(alloc).ok()
}

// The paging of a query, with the number of all rows.
fn paging_of(alloc: Global, text: &str) -> Option<Paging> {
    match read_ast(alloc, text.as_bytes()) {
        Ok(query) => {
            let paging = paging_in(alloc, &query);
            drop(query);
            let mut paging = paging?;
            paging.include_total = true;
            Some(paging)
        }
        Err(_) => None,
    }
}

// What is picked where all rows are read.
fn picked_by(alloc: Global, tables: &Tables, query: &Query) -> Result<Picked, QueryFault> {
    let mut patterns = RegexPatterns::new(alloc);
    let picked = select_plain(alloc, tables, query, &mut patterns);
    drop(patterns);
    picked
}

fn picked(alloc: Global, tables: &Tables, text: &str) -> Option<Picked> {
    match read_ast(alloc, text.as_bytes()) {
        Ok(query) => {
            let picked = picked_by(alloc, tables, &query);
            drop(query);
            picked.ok()
        }
        Err(_) => None,
    }
}

// The query that a text spells in either language.
fn query_in(alloc: Global, text: &[u8]) -> Option<Query> {
    match read_ast(alloc, text) {
        Ok(query) => Some(query),
        Err(_) => read_pql(alloc, text).ok(),
    }
}

fn rows_text(alloc: Global, picked: Picked) -> Result<Bytes, AllocError> {
    let text = write_rows(alloc, &picked.rows);
    drop(picked);
    text
}

// What a query is answered where all rows are read: the text of its rows, or that of the refusal.
fn plain_text(alloc: Global, tables: &Tables, query: &Query) -> Result<Bytes, AllocError> {
    match picked_by(alloc, tables, query) {
        Ok(picked) => rows_text(alloc, picked),
        Err(QueryFault::BadPattern(path)) => QueryRefusal::BadPattern(path).text(alloc),
        Err(QueryFault::SumTooLarge(path)) => QueryRefusal::SumTooLarge(path).text(alloc),
        Err(QueryFault::Memory) => Bytes::from_slice(alloc, b"no memory"),
    }
}

// Whether this was told where all rows are read. A text that spells no query is told that alone.
fn is_plain(
    alloc: Global,
    tables: &Tables,
    query: Option<Query>,
    told: &[u8],
) -> Result<bool, AllocError> {
    match query {
        Some(query) => {
            let text = plain_text(alloc, tables, &query);
            drop(query);
            Ok(text?.as_slice() == told)
        }
        None => Ok(true),
    }
}

// The number of all rows, and those of the page.
fn page_text(alloc: Global, picked: Picked, paging: &Paging) -> Result<Bytes, AllocError> {
    let page = page(picked.rows, paging)?;
    let total = page.total;
    let rows = write_rows(alloc, &page.rows);
    drop(page);
    let rows = rows?;
    let mut out = Vec::new(alloc);
    add_words(&mut out, &[Buffer::new().format(total), " "])?;
    out.extend_from_slice(rows.as_slice())?;
    Ok(Bytes::from_vec(out))
}

// The rows by this paging.
fn paged_text(alloc: Global, picked: Option<Picked>, paging: Paging) -> Result<Bytes, AllocError> {
    let text = match picked {
        Some(picked) => page_text(alloc, picked, &paging),
        None => Bytes::from_slice(alloc, b"no rows"),
    };
    drop(paging);
    text
}

// The rows of a query by the paging of another one, which stands behind a bar.
fn page_answer(alloc: Global, tables: &Tables, text: &str) -> Result<Bytes, AllocError> {
    let (query, paging) = parted(text, "|");
    match paging_of(alloc, paging) {
        Some(paging) => paged_text(alloc, picked(alloc, tables, query), paging),
        None => Bytes::from_slice(alloc, b"no paging"),
    }
}

fn add_often(out: &mut Vec<u8>, part: &str, times: u64) -> Result<(), AllocError> {
    if !part.is_empty() {
        for _ in 0..times {
            add_words(out, &[part])?;
        }
    }
    Ok(())
}

// The parts between bars, each second one so many times as the number in front says.
fn repeated(alloc: Global, text: &str) -> Result<Bytes, AllocError> {
    let (times, parts) = parted(text, " ");
    let times = count_of(times);
    let mut out = Vec::new(alloc);
    let mut rest = parts;
    'parts: for _ in 0..parts.len() {
        let (once, more) = parted(rest, "|");
        let (often, more) = parted(more, "|");
        add_words(&mut out, &[once])?;
        add_often(&mut out, often, times)?;
        rest = more;
    }
    Ok(Bytes::from_vec(out))
}

/// Tables, and what they told last.
#[derive(Drop)]
pub(crate) struct Fleet {
    alloc: Global,
    tables: Tables,
    receipt: u64,
    told: Bytes,
}

impl Fleet {
    pub(crate) fn new(alloc: Global) -> Fleet {
        Fleet {
            alloc,
            tables: Tables::new(alloc, Ttls::default_lifetimes()),
            receipt: 1,
            told: Bytes::from_vec(Vec::new(alloc)),
        }
    }

    fn put(&mut self, change: Change) -> Result<bool, AllocError>
        requires { IsChange change }
    {
        let room = self.tables.reserve(&change)?;
        self.tables.apply(room, self.receipt, None, change);
        self.receipt = self.receipt.saturating_add(1);
        Ok(true)
    }

    /// Applies a command that isn't refused.
    pub(crate) fn apply(
        &mut self,
        kind: Kind,
        version: u32,
        payload: &[u8],
    ) -> Result<bool, AllocError> {
        if payload.len() >= 4_294_967_296 {
            return Ok(false);
        }
        let command = Command {
            kind,
            version,
            received: Moment::from_nanosecond(0),
            payload: Bytes::from_slice(self.alloc, payload)?,
        };
        match decode(self.alloc, &command) {
            Ok(change) => self.put(change),
            Err(_) => Ok(false),
        }
    }

    // Whether the query is told the same where all rows are read.
    fn is_told_plainly(&self, query: Option<Query>) -> Result<bool, AllocError> {
        is_plain(self.alloc, &self.tables, query, self.told.as_slice())
    }

    /// Asks a whole query in either language.
    pub(crate) fn ask(&mut self, text: &[u8]) -> Result<bool, AllocError> {
        self.told = told_text(self.alloc, &self.tables, text)?;
        self.is_told_plainly(query_in(self.alloc, text))
    }

    fn ask_ast(&mut self, text: &[u8]) -> Result<bool, AllocError> {
        self.told = told_ast(self.alloc, &self.tables, text)?;
        self.is_told_plainly(read_ast(self.alloc, text).ok())
    }

    fn ask_route(&mut self, entity: Entity, text: &[u8]) -> Result<bool, AllocError> {
        self.told = route_answer(self.alloc, &self.tables, entity, text)?;
        self.is_told_plainly(read_filter(self.alloc, entity, text).ok())
    }

    // Asks the rows of an entity, or applies a command.
    fn take(&mut self, word: &str, text: &str) -> Result<bool, AllocError> {
        if let Some((kind, version)) = kind_of(word) {
            return self.apply(kind, version, text.as_bytes());
        }
        match entity_of(word) {
            Some(entity) => self.ask_route(entity, text.as_bytes()),
            None => Ok(false),
        }
    }

    /// The tables told this last.
    pub(crate) fn has_told(&self, text: &[u8]) -> bool {
        self.told.as_slice() == text
    }

    // Whether the line's command was taken, or what it says was told.
    fn step(&mut self, word: &str, text: &str) -> Result<bool, AllocError> {
        match word {
            "fleet" => self.tables = Tables::new(self.alloc, Ttls::default_lifetimes()),
            "expire" => return Ok(expire(&mut self.tables, text)),
            "ask" => return self.ask(text.as_bytes()),
            "ast" => return self.ask_ast(text.as_bytes()),
            "repeat" => return self.ask(repeated(self.alloc, text)?.as_slice()),
            "course" => self.told = course(self.alloc, &self.tables, text.as_bytes())?,
            "page" => self.told = page_answer(self.alloc, &self.tables, text)?,
            "told" => return Ok(self.has_told(text.as_bytes())),
            "tells" => {
                return Ok(self.told.as_slice() == repeated(self.alloc, text)?.as_slice());
            }
            _ => return self.take(word, text),
        }
        Ok(true)
    }
}

/// Plays the lines, up to one that isn't so; none where each is.
pub(crate) fn wrong_line<'a>(
    fleet: &mut Fleet,
    lines: &'a str,
) -> Result<Option<&'a str>, AllocError> {
    let mut rest = lines;
    'lines: for _ in 0..lines.len() {
        let (line, more) = parted(rest, "\n");
        let (word, text) = parted(line, " ");
        if !fleet.step(word, text)? {
            return Ok(Some(line));
        }
        if more.is_empty() {
            break;
        }
        rest = more;
    }
    Ok(None)
}

// A line that isn't so, and what was told; nothing where there is no such line.
fn said_of(
    alloc: Global,
    wrong: Result<Option<&str>, AllocError>,
    told: &[u8],
) -> Result<String, AllocError> {
    let told = str::from_utf8(told).unwrap_or("no text");
    match wrong? {
        Some(line) => format!(in alloc; "{line}: {told}"),
        None => Ok(String::new(alloc)),
    }
}

// Plays the lines over tables of no node. The first one that isn't so, and what was told.
fn wrong_text(alloc: Global, lines: &str) -> Result<String, AllocError> {
    let mut fleet = Fleet::new(alloc);
    let wrong = wrong_line(&mut fleet, lines);
    let said = said_of(alloc, wrong, fleet.told.as_slice());
    drop(fleet);
    said
}

/// Plays the lines, each a word and its text; the first that isn't so ends the test.
///
/// `fleet` begins with tables of no node. `facts`, `catalog`, `report` and `deactivate` apply a command by its payload, and `expire`
/// is a sweep of expiry at a stamp. `ask` is a whole query in either language, `ast` one in the AST, and the name of an entity
/// asks for its rows in the AST. These three fail where reading all rows tells something else. `told` is what the last question was
/// told: the rows, or the refusal. `course` asks, and is told what a reader of patterns was asked. `page` asks a query by the
/// paging of another one. `repeat` asks the parts between bars, each second one so many times; `tells` repeats what is told so.
pub(crate) fn play(rt: &impl Abort, alloc: Global, lines: &str) -> Result<(), AllocError> {
    let wrong = wrong_text(alloc, lines)?;
    assert!(rt; wrong.is_empty(), "{wrong}");
    Ok(())
}
