//! Generated events.
ghost use Rattle.std.specs.Prelude.{◌<◌};

use crate::events::{Applied, Event};
use fleet_rows::{Kind, Kinds};

// 2024-05-01T10:00:00Z
const TEN: i64 = 1_714_557_600_000_000_000;

const DAY: i64 = 86_400_000_000_000;

/// What a sweep does: it expires, purges and drops reports, or one of these.
pub fn kinds_of(word: &str) -> Kinds {
    let is_all = word == "sweep";
    Kinds {
        expire: is_all || word == "expire",
        purge: is_all || word == "purge",
        reports: is_all || word == "retain",
    }
}

/// A sequence of numbers by Knuth's linear congruences.
#[derive(Drop)]
pub struct Turns {
    state: u64,
}

impl Turns {
    pub fn new(seed: u64) -> Turns {
        Turns { state: seed }
    }

    // Below n.
    fn below(&mut self, n: u64) -> u64
        requires { 0 < n }
        ensures { result < n }
    {
        self.state = self
            .state
            .wrapping_mul(6_364_136_223_846_793_005)
            .wrapping_add(1_442_695_040_888_963_407);
        (self.state >> 33) % n
    }

    // A day, at most so many days behind that one.
    fn day(&mut self, from: u64, span: u64) -> i64
        requires from { from < 1000 }
        requires span { 0 < span }
        requires small { span < 1000 }
    {
        TEN + (from + self.below(span)) as i64 * DAY
    }

    fn kind(&mut self) -> Kind {
        match self.below(12) {
            0..=2 => Kind::Facts,
            3..=4 => Kind::Catalog,
            5..=8 => Kind::Report,
            9..=10 => Kind::Deactivate,
            _ => Kind::Expiration,
        }
    }

    /// The event of a turn. Three nodes of five send at a time, and each day has five turns. Of four receipts in a row the last comes first.
    pub fn event(&mut self, turn: u64) -> Event
        requires { turn < 1000 }
    {
        let today = turn / 5;
        if self.below(10) == 0 {
            let word = ["expire", "purge", "retain", "sweep"][self.below(4) as usize];
            return Event::Swept(kinds_of(word), self.day(today, 20));
        }
        let node = (self.below(3) + turn / 60) % 5;
        Event::Applied(Applied {
            receipt: (turn ^ 3).saturating_add(1),
            kind: self.kind(),
            node: node as usize,
            stamp: self.day(today, 6),
            received: TEN + turn as i64,
            form: self.below(4) as usize,
        })
    }
}
