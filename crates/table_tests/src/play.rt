//! Tables, and what is done to them and what they show then as lines of text, and the loop that reads the lines.
ghost use Rattle.std.specs.Prelude.{◌≡◌, ◌<◌, IfSome};
ghost use Rattle.command_decode.specs.fleet_rows.Lifetime.{IsReportCount};
ghost use Rattle.command_decode.specs.history_spec.Lawful.{IsChange};

use crate::lookups::agree;
use command_decode::decode;
use command_decode::fleet_rows::{Change, Command, Entity, Kind, Kinds, StoreList, Ttls};
use command_decode::json_tree::{Bytes, Text};
use plain_tables::{kinds_of, put_moment, put_row, put_told, put_words};
use stamp_time::{Moment, read_stamp};
use std::alloc::{AllocError, Global};
use std::marker::Brand;
use std::process::Abort;
use std::str;
use std::sync::ledger::{Blank, Ledger};
use ttl_sweeps::fleet_tables::{Steps, Tables};
use ttl_sweeps::sweep;

const ENTITIES: [(&str, Entity); 11] = [
    ("nodes", Entity::Nodes),
    ("factsets", Entity::Factsets),
    ("facts", Entity::Facts),
    ("fact_contents", Entity::FactContents),
    ("inventory", Entity::Inventory),
    ("catalogs", Entity::Catalogs),
    ("resources", Entity::Resources),
    ("edges", Entity::Edges),
    ("reports", Entity::Reports),
    ("events", Entity::Events),
    ("event_counts", Entity::EventCounts),
];

const KINDS: [(&str, Kind); 5] = [
    ("facts", Kind::Facts),
    ("catalog", Kind::Catalog),
    ("report", Kind::Report),
    ("deactivate", Kind::Deactivate),
    ("expiration", Kind::Expiration),
];

// The parts before and behind the first space.
fn parted(text: &str) -> (&str, &str) {
    text.split_once(' ').unwrap_or((text, ""))
}

fn number_of(word: &str) -> u64 {
    word.parse::<u64>().unwrap_or(0)
}

pub(crate) fn entity_of(word: &str) -> Option<Entity> {
    for (name, entity) in ENTITIES {
        if name == word {
            return Some(entity);
        }
    }
    None
}

fn kind_of(word: &str) -> Option<Kind> {
    for (name, kind) in KINDS {
        if name == word {
            return Some(kind);
        }
    }
    None
}

// The version that is taken.
fn version(kind: Kind) -> u32 {
    match kind {
        Kind::Facts => 5,
        Kind::Catalog => 9,
        Kind::Report => 8,
        Kind::Deactivate => 3,
        Kind::Expiration => 1,
    }
}

/// The change that a payload of the kind asks for; None where it is refused.
pub(crate) fn change_of(alloc: Global, kind: Kind, payload: &[u8]) -> Option<Change>
    ensures { IfSome result IsChange }
{
    if payload.len() >= 4_294_967_296 {
        return None;
    }
    let Ok(payload) = Bytes::from_slice(alloc, payload) else {
        return None;
    };
    let command = Command {
        kind,
        version: version(kind),
        received: Moment::from_nanosecond(0),
        payload,
    };
    decode(alloc, &command).ok()
}

// The rows of an entity from this one on and before that one.
fn rows_by<L: Ledger>(
    blank: Blank,
    alloc: Global,
    tables: &Tables,
    entity: Entity,
    from: usize,
    end: usize,
) -> Result<Vec<u8>, AllocError>
    requires name { blank.name ≡ L.name }
    requires parts { blank.parts ≡ L.parts }
    requires one { 0 < blank.parts }
{
    let mut steps: Steps<L> = Steps::begin(blank);
    let mut out = Vec::new(alloc);
    for i in from..tables.count(entity) {
        if i < end {
            put_row(&mut out, &tables.row(entity, i, &mut steps)?)?;
        }
    }
    Ok(out)
}

// Two moments, of which either may not be told, with a space between them, and a line end.
fn put_pair(
    out: &mut Vec<u8>,
    first: Option<Moment>,
    second: Option<Moment>,
) -> Result<(), AllocError> {
    put_told(out, first)?;
    out.push(b' ')?;
    put_told(out, second)?;
    out.extend_from_slice(b"\n")
}

// The number behind a space.
fn put_number(out: &mut Vec<u8>, alloc: Global, number: u64) -> Result<(), AllocError> {
    let digits = format!(in alloc; " {number}")?;
    out.extend_from_slice(digits.as_bytes())
}

// The greatest sweeps of expiry and of reports, each node with its greatest activity and its greatest deactivation, and the
// receipts of the commands.
fn put_list(out: &mut Vec<u8>, alloc: Global, list: &StoreList) -> Result<(), AllocError> {
    put_pair(out, list.expire, list.retain)?;
    for mark in list.marks.as_slice() {
        put_words(out, &[mark.certname.as_str(), " "])?;
        put_pair(out, mark.active, mark.deactivated)?;
    }
    out.extend_from_slice(b"receipts")?;
    for applied in list.applied.as_slice() {
        put_number(out, alloc, applied.receipt)?;
    }
    out.extend_from_slice(b"\n")
}

// By the lifetimes of all tests, and by the greatest number of reports of a node.
fn tables_of(alloc: Global, report_count: Option<u32>) -> Tables
    requires { IfSome report_count IsReportCount }
{
    let ttls = Ttls {
        node_days: 7,
        purge_days: 14,
        report_days: 14,
        report_count,
    };
    Tables::new(alloc, ttls)
}

/// Tables, what they told last, and what they are to tell.
#[derive(Drop)]
pub(crate) struct Fleet {
    alloc: Global,
    pub(crate) tables: Tables,
    told: Vec<u8>,
    wanted: Vec<u8>,
}

impl Fleet {
    pub(crate) fn over(alloc: Global, tables: Tables) -> Fleet {
        Fleet {
            alloc,
            tables,
            told: Vec::new(alloc),
            wanted: Vec::new(alloc),
        }
    }

    /// Over tables of no node, where at most so many reports of one are kept.
    pub(crate) fn new(alloc: Global, report_count: Option<u32>) -> Fleet
        requires { IfSome report_count IsReportCount }
    {
        Fleet::over(alloc, tables_of(alloc, report_count))
    }

    fn limit(&mut self, reports: u64) -> bool {
        if reports < 1 || reports > 1_000_000 {
            return false;
        }
        self.tables = tables_of(self.alloc, Some(reports as u32));
        true
    }

    fn put(&mut self, receipt: u64, received: Option<Moment>, change: Change) -> bool
        requires { IsChange change }
    {
        match self.tables.reserve(&change) {
            Ok(room) => {
                self.tables.apply(room, receipt, received, change);
                true
            }
            Err(_) => false,
        }
    }

    /// Applies a command that isn't refused.
    pub(crate) fn send(
        &mut self,
        kind: Kind,
        receipt: u64,
        received: Option<Moment>,
        payload: &[u8],
    ) -> bool {
        match change_of(self.alloc, kind, payload) {
            Some(change) => self.put(receipt, received, change),
            None => false,
        }
    }

    // A command of a line: its receipt, and its payload.
    fn command(&mut self, kind: Option<Kind>, received: Option<Moment>, text: &str) -> bool {
        let (receipt, payload) = parted(text);
        match kind {
            Some(kind) => self.send(kind, number_of(receipt), received, payload.as_bytes()),
            None => false,
        }
    }

    /// One sweep, at a moment that a stamp names.
    pub(crate) fn sweep_at(&mut self, kinds: Kinds, moment: Moment) -> bool {
        if moment.has_stamp() {
            sweep(&mut self.tables, kinds, moment);
        }
        moment.has_stamp()
    }

    /// The rows of an entity from this one on and before that one, each with its cells in order and a line end: a moment by its stamp
    /// of nine digits, and a value by its compact text.
    pub(crate) fn rows(
        &self,
        entity: Entity,
        from: usize,
        end: usize,
    ) -> Result<Vec<u8>, AllocError> {
        rows_by::<Brand>(Blank::new(1), self.alloc, &self.tables, entity, from, end)
    }

    // The rows are the same where each is computed for itself and where all are prepared.
    fn show(&mut self, entity: Entity) -> Result<bool, AllocError> {
        self.told = self.rows(entity, 0, usize::MAX)?;
        self.tables.prepare(entity)?;
        Ok(self.rows(entity, 0, usize::MAX)?.as_slice() == self.told.as_slice())
    }

    fn is_inactive(&self, certname: &str) -> Result<bool, AllocError> {
        let certname = Text::from_str(self.alloc, certname)?;
        Ok(self.tables.inactive(&certname))
    }

    // Tells the rank of the newest command of that kind and node.
    fn newest(&mut self, kind: Kind, certname: &str) -> Result<bool, AllocError> {
        let certname = Text::from_str(self.alloc, certname)?;
        match self.tables.newest(&certname, kind) {
            Some(rank) => {
                put_moment(&mut self.told, rank.stamp)?;
                put_number(&mut self.told, self.alloc, rank.receipt)?;
            }
            None => self.told.extend_from_slice(b"none")?,
        }
        self.told.push(b'\n')?;
        Ok(true)
    }

    fn list(&mut self) -> Result<bool, AllocError> {
        let list = self.tables.snapshot()?;
        put_list(&mut self.told, self.alloc, &list)?;
        Ok(true)
    }

    // Looks at an entity: all of its rows, one of them, or how many there are.
    fn look(&mut self, word: &str, entity: Entity, text: &str) -> Result<bool, AllocError> {
        let number = number_of(text) as usize;
        match word {
            "rows" => self.show(entity),
            "row" => {
                self.told = self.rows(entity, number, number.saturating_add(1))?;
                Ok(true)
            }
            _ => Ok(self.tables.count(entity) == number),
        }
    }

    // Whether the line is so.
    fn step(&mut self, word: &str, text: &str) -> Result<bool, AllocError> {
        let (first, rest) = parted(text);
        match word {
            "fleet" => {
                self.tables = tables_of(self.alloc, None);
                Ok(true)
            }
            "reports" => Ok(self.limit(number_of(first))),
            "expire" | "purge" | "retain" | "sweep" => match read_stamp(text) {
                Some(moment) => Ok(self.sweep_at(kinds_of(word), moment)),
                None => Ok(false),
            },
            "rows" | "row" | "count" => match entity_of(first) {
                Some(entity) => self.look(word, entity, rest),
                None => Ok(false),
            },
            "inactive" => self.is_inactive(text),
            "active" => Ok(!self.is_inactive(text)?),
            "newest" => match kind_of(first) {
                Some(kind) => self.newest(kind, rest),
                None => Ok(false),
            },
            "list" => self.list(),
            "found" => agree(self.alloc, &self.tables, text),
            "prepared" => {
                self.tables.prepare_all()?;
                Ok(true)
            }
            "received" => Ok(self.command(Some(Kind::Report), read_stamp(first), rest)),
            "end" => Ok(true),
            _ => Ok(self.command(kind_of(word), None, text)),
        }
    }

    /// Plays the lines, each a word and its text; the first that isn't so ends the test. The last one is `end`.
    ///
    /// `fleet` begins with tables of no node, and `reports` with such that keep so many reports of a node. The name of a kind applies a
    /// command by its receipt and its payload, and `received` a report by the moment of its receipt before these. `expire`, `purge` and
    /// `retain` sweep at a stamp, and `sweep` does all three. `inactive` and `active` tell of a node, and `count` of an entity's rows.
    /// `prepared` prepares all rows, and `found` compares the look-ups for some names with a filter of all rows, and with their number.
    /// What `rows`, `row`, `newest` and `list` show stands behind them, each line behind a bar.
    pub(crate) fn play(&mut self, rt: &impl Abort, lines: &str) -> Result<(), AllocError> {
        for (place, line) in lines.split('\n').enumerate() {
            let (word, text) = parted(line);
            if word == "|" {
                put_words(&mut self.wanted, &[text, "\n"])?;
            } else {
                let told = str::from_utf8(self.told.as_slice()).unwrap_or("no text");
                assert!(rt;
                    told.as_bytes() == self.wanted.as_slice(),
                    "before line {place}: {told}"
                );
                self.told.clear();
                self.wanted.clear();
                assert!(rt; self.step(word, text)?, "line {place}");
            }
        }
        Ok(())
    }
}

/// Plays the lines over tables of no node.
pub(crate) fn play(rt: &impl Abort, alloc: Global, lines: &str) -> Result<(), AllocError> {
    Fleet::new(alloc, None).play(rt, lines)
}
