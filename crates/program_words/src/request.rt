//! The requests that arguments can spell.
ghost use Rattle.std.specs.Prelude.{◌≡◌};
ghost use Rattle.program_words.specs.Words.{uses_disks};

use spool_spec::fleet_rows::{Kinds, Ttls};
use spool_spec::stamp_time::Moment;

/// Which port to serve, and how many connections.
#[derive(Clone, Copy, PartialEq, Eq, Debug)]
pub struct Serving {
    /// The TCP port, from 1 to 65535.
    pub port: u16,
    /// How many connections to serve, one after the other: the value of `--links`, or 2^32 - 1.
    pub links: u32,
}

/// What the arguments of a command line ask for.
#[derive(Clone, Copy, PartialEq, Eq, Debug)]
pub enum Request {
    /// `show`: print the facts that a spool leads to.
    Show,
    /// `init`, with lifetimes or without: create the files with these lifetimes.
    Init {
        ttls: Ttls,
    },
    /// `run N NOW`: settle a spool's commands with N workers. They are received at the moment NOW. With `--serve PORT` the
    /// service then serves connections.
    Run {
        workers: u32,
        now: Moment,
        serving: Option<Serving>,
    },
    /// `serve PORT NOW`: serve connections. The commands that they post are received at the moment NOW.
    Serve {
        serving: Serving,
        now: Moment,
    },
    /// `sweep KINDS NOW`: one sweep of these kinds at the moment NOW.
    Sweep {
        kinds: Kinds,
        now: Moment,
    },
    /// `compact`: rewrite both logs.
    Compact,
    /// `discards`: print a line for each discarded command.
    Discards,
    /// `payload R`: print the payload of the discarded command with receipt R.
    Payload {
        receipt: u64,
    },
    /// `query TEXT`: print the rows of a query. Its text is the argument after `query`, or after `--`.
    Query,
    /// `make SEED COUNT`: write the spool of COUNT items that the seed leads to.
    Make {
        seed: u64,
        count: u32,
    },
}

/// What the arguments of a command line ask for, with the text of a query.
#[derive(Clone, Copy)]
pub struct Asked<'a> {
    pub request: Request,
    /// The text, if the request is a query.
    pub query: Option<&'a str>,
}

impl Request {
    /// Whether the command uses the four files: all but `show` and `make` do.
    pub fn uses_disks(&self) -> bool
        ensures { result ≡ uses_disks self.now }
    {
        match self {
            Request::Show => false,
            Request::Make { .. } => false,
            _ => true,
        }
    }
}
