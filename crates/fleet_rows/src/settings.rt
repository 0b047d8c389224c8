//! Settings of lifetimes, and the parts of a sweep.
ghost use Rattle.std.specs.Prelude.{◌≡◌, IfSome};
ghost use Rattle.std.proofs.Props.{props};
ghost use Rattle.fleet_rows.specs.Lifetime.{IsLifetime, IsReportCount};

/// The parts of one sweep, in the order in which they run.
#[derive(Clone, Copy, PartialEq, Eq, Debug)]
pub struct Kinds {
    /// Expire nodes that were silent for longer than the node lifetime.
    pub expire: bool,
    /// Purge nodes that were inactive for longer than the purge lifetime.
    pub purge: bool,
    /// Remove reports that are older than the report lifetime.
    pub reports: bool,
}

/// Lifetimes in days, each 1 to 3,650 (PuppetDB's `node-ttl`, `node-purge-ttl` and `report-ttl`), and the limit of reports per
/// node.
#[derive(Clone, Copy, PartialEq, Eq, Debug)]
pub struct Ttls {
    pub node_days: u32,
    pub purge_days: u32,
    pub report_days: u32,
    /// The most reports kept per node, 1 to 1,000,000; None for no limit.
    pub report_count: Option<u32>,
    pub ghost node: { IsLifetime node_days },
    pub ghost purge: { IsLifetime purge_days },
    pub ghost report: { IsLifetime report_days },
    pub ghost count: { IfSome report_count IsReportCount } by { Prim.hlevel props },
}

impl Ttls {
    ghost use Rattle.fleet_rows.specs.Defaults.{default_ttls};

    /// The default lifetimes: a node expires after 7 days and is purged after 14 more. A report is kept for 14 days, without a
    /// limit on their number.
    pub fn default_lifetimes() -> Ttls
        ensures { result ≡ default_ttls }
    {
        Ttls {
            node_days: 7,
            purge_days: 14,
            report_days: 14,
            report_count: None,
        }
    }
}
