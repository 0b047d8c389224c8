//! What the definitions of histories say of a list of events, as a plain and slow program.
use fleet_rows::{Kind, Kinds};
use std::alloc::{AllocError, Global};

const DAY: i64 = 86_400_000_000_000;

/// A command that was applied. Moments are nanoseconds since 1970.
#[derive(Clone, Copy)]
pub struct Applied {
    pub receipt: u64,
    pub kind: Kind,
    pub node: usize,
    pub stamp: i64,
    pub received: i64,
    /// Which payload it has.
    pub form: usize,
}

/// Events, the first first.
#[derive(Clone, Copy)]
pub enum Event {
    Applied(Applied),
    Swept(Kinds, i64),
}

fn later(a: Option<i64>, b: i64) -> Option<i64> {
    match a {
        Some(a) if a > b => Some(a),
        _ => Some(b),
    }
}

/// The greatest moments of sweeps of expiry and of reports.
pub(crate) fn greatest_sweeps(events: &[Event]) -> (Option<i64>, Option<i64>) {
    let mut expiry = None;
    let mut retention = None;
    for event in events {
        if let Event::Swept(kinds, m) = event {
            if kinds.expire {
                expiry = later(expiry, *m);
            }
            if kinds.reports {
                retention = later(retention, *m);
            }
        }
    }
    (expiry, retention)
}

/// The commands of the node behind the last purge that took it.
pub(crate) fn life(
    alloc: Global,
    events: &[Event],
    node: usize,
) -> Result<Vec<Applied>, AllocError> {
    let mut life: Vec<Applied> = Vec::new(alloc);
    for at in 0..events.len() {
        match events[at] {
            Event::Applied(x) if x.node == node => life.push(x)?,
            Event::Swept(kinds, m) if kinds.purge => {
                let (expiry, _) = greatest_sweeps(&events[..at + 1]);
                if is_purged(life.as_slice(), expiry, m) {
                    life.clear();
                }
            }
            _ => {}
        }
    }
    Ok(life)
}

fn is_above(x: &Applied, y: &Applied) -> bool {
    x.stamp > y.stamp || (x.stamp == y.stamp && x.receipt > y.receipt)
}

/// The command of the kind with the greatest rank.
pub(crate) fn newest(commands: &[Applied], kind: Kind) -> Option<Applied> {
    let mut newest: Option<Applied> = None;
    for x in commands {
        if x.kind == kind {
            newest = match newest {
                Some(y) if is_above(&y, x) => Some(y),
                _ => Some(*x),
            };
        }
    }
    newest
}

fn greatest_activity(life: &[Applied]) -> Option<i64> {
    let mut greatest = None;
    for x in life {
        if matches!(x.kind, Kind::Facts | Kind::Catalog | Kind::Report) {
            greatest = later(greatest, x.stamp);
        }
    }
    greatest
}

/// The moment at which the node is deactivated, where it is.
pub(crate) fn deactivated(life: &[Applied]) -> Option<i64> {
    let deactivation = newest(life, Kind::Deactivate)?.stamp;
    match greatest_activity(life) {
        Some(activity) if activity > deactivation => None,
        _ => Some(deactivation),
    }
}

/// The moment at which the node expired, where it did. Half of the forms of a configuration let nodes expire.
pub(crate) fn expired(life: &[Applied], expiry: Option<i64>) -> Option<i64> {
    if let Some(x) = newest(life, Kind::Expiration)
        && x.form % 2 == 0
    {
        return None;
    }
    let end = greatest_activity(life)?.saturating_add(7 * DAY);
    if end < expiry? { Some(end) } else { None }
}

fn is_purged(life: &[Applied], expiry: Option<i64>, m: i64) -> bool {
    let edge = m.saturating_sub(14 * DAY);
    matches!(deactivated(life), Some(end) if end < edge)
        || matches!(expired(life, expiry), Some(end) if end < edge)
}

fn is_retained(x: &Applied, retention: Option<i64>) -> bool {
    let edge = match retention {
        Some(m) => m.saturating_sub(14 * DAY),
        None => i64::MIN,
    };
    x.kind == Kind::Report && x.stamp >= edge
}

// Of the reports with one stamp and form, which have one canonical text, the one of the greatest rank.
fn is_kept(x: &Applied, life: &[Applied], retention: Option<i64>) -> bool {
    for y in life {
        if is_retained(y, retention) && x.stamp == y.stamp && x.form == y.form && is_above(y, x) {
            return false;
        }
    }
    is_retained(x, retention)
}

// Fewer reports than the limit have a greater rank.
fn is_within(x: &Applied, life: &[Applied], retention: Option<i64>, limit: Option<u32>) -> bool {
    let mut above = 0u32;
    for y in life {
        if is_kept(y, life, retention) && is_above(y, x) {
            above = above.saturating_add(1);
        }
    }
    match limit {
        Some(limit) => above < limit,
        None => true,
    }
}

// Which of the forms of reports stands first by its canonical text: an environment in quotes before null, and then the number of
// the format.
fn place_of(form: usize) -> usize {
    [0, 2, 1, 3][form % 4]
}

// How many of the reports stand before this one.
fn count_before(reports: &[Applied], x: &Applied) -> usize {
    let mut count = 0usize;
    for y in reports {
        if y.stamp < x.stamp || (y.stamp == x.stamp && place_of(y.form) < place_of(x.form)) {
            count = count.saturating_add(1);
        }
    }
    count
}

/// The reports that are kept, at most so many, by their stamps and then by their canonical texts.
pub(crate) fn kept_reports(
    alloc: Global,
    life: &[Applied],
    retention: Option<i64>,
    limit: Option<u32>,
) -> Result<Vec<Applied>, AllocError> {
    let mut kept: Vec<Applied> = Vec::new(alloc);
    for x in life {
        if is_kept(x, life, retention) && is_within(x, life, retention, limit) {
            let place = count_before(kept.as_slice(), x).min(kept.len());
            if kept.insert(place, *x).is_err() {
                return Ok(kept);
            }
        }
    }
    Ok(kept)
}
