//! Discarded commands: their lines, and their order.
ghost use Rattle.std.specs.Prelude.{◌≡◌, IfOk};
ghost use Rattle.stamp_time.specs.Range.{IsStampMoment};

use fleet_rows::{Cause, Command, Field, Kind, Place, Refusal, Shared};
use json_tree::Bytes;
use retry_discard::{Dead, Discards, is_last, write_line};
use stamp_time::{Moment, read_stamp};
use std::alloc::{AllocError, Global};

const VALUES: Place = Place {
    field: Field::Values,
    outer: None,
    inner: None,
};

const TITLE: Place = Place {
    field: Field::Title,
    outer: Some(3),
    inner: None,
};

const EVENT: Place = Place {
    field: Field::Events,
    outer: Some(1),
    inner: Some(0),
};

const STAMP: Place = Place {
    field: Field::ProducerTimestamp,
    outer: None,
    inner: None,
};

/// Kinds and causes, and the lines of their commands with the receipt 2, the version 5 and a moment of 2024.
const LINES: [(Kind, Cause, &str); 10] = [
    (
        Kind::Facts,
        Cause::Refused(Refusal::Wrong(VALUES)),
        "2 replace_facts 5 2024-05-02T00:00:00.000Z wrong values",
    ),
    (
        Kind::Facts,
        Cause::Failures,
        "2 replace_facts 5 2024-05-02T00:00:00.000Z failures 16",
    ),
    (
        Kind::Catalog,
        Cause::Refused(Refusal::BadVersion),
        "2 replace_catalog 5 2024-05-02T00:00:00.000Z bad version",
    ),
    (
        Kind::Report,
        Cause::Refused(Refusal::NotJson { at: 7 }),
        "2 store_report 5 2024-05-02T00:00:00.000Z not json at 7",
    ),
    (
        Kind::Deactivate,
        Cause::Refused(Refusal::TooDeep { at: 127 }),
        "2 deactivate_node 5 2024-05-02T00:00:00.000Z too deep at 127",
    ),
    (
        Kind::Expiration,
        Cause::Refused(Refusal::NotObject),
        "2 configure_expiration 5 2024-05-02T00:00:00.000Z not object",
    ),
    (
        Kind::Catalog,
        Cause::Refused(Refusal::Missing(TITLE)),
        "2 replace_catalog 5 2024-05-02T00:00:00.000Z missing resources[3].title",
    ),
    (
        Kind::Report,
        Cause::Refused(Refusal::Wrong(EVENT)),
        "2 store_report 5 2024-05-02T00:00:00.000Z wrong resources[1].events[0]",
    ),
    (
        Kind::Facts,
        Cause::Refused(Refusal::BadStamp(STAMP)),
        "2 replace_facts 5 2024-05-02T00:00:00.000Z bad stamp producer_timestamp",
    ),
    (
        Kind::Catalog,
        Cause::Refused(Refusal::DuplicateResource { index: 12 }),
        "2 replace_catalog 5 2024-05-02T00:00:00.000Z duplicate resource 12",
    ),
];

fn moment(stamp: &str) -> Result<Moment, AllocError>
    ensures { IfOk result IsStampMoment }
{
    match read_stamp(stamp) {
        Some(moment) => Ok(moment),
        None => Err(AllocError),
    }
}

fn dead(
    alloc: Global,
    receipt: u64,
    kind: Kind,
    received: Moment,
    cause: Cause,
) -> Result<Dead, AllocError>
    ensures { IfOk result (λ dead. dead.command.received ≡ received) }
{
    let payload = Bytes::from_slice(alloc, b"{}")?;
    let command = Shared::new(
        alloc,
        Command {
            kind,
            version: 5,
            received,
            payload,
        },
    )?;
    Ok(Dead {
        receipt,
        command,
        cause,
    })
}

#[tactic(auto, using(stamp_time::proofs::RangeLaws::stamp_is_printable))]
fn line(alloc: Global, kind: Kind, cause: Cause) -> Result<Bytes, AllocError> {
    let received = moment("2024-05-02T01:00:00.000999999+01:00")?;
    let dead = dead(alloc, 2, kind, received, cause)?;
    write_line(alloc, &dead)
}

#[test]
fn a_line_says_why_the_command_was_given_up(rt: HostRuntime) -> Result<(), AllocError> {
    for (kind, cause, wanted) in LINES {
        let line = line(rt.alloc(), kind, cause)?;
        assert!(&rt; line.as_slice() == wanted.as_bytes(), "{wanted}");
    }
    Ok(())
}

// Commands with these receipts, which come in one after the other.
fn discards_of(alloc: Global, receipts: &[u64]) -> Result<Discards, AllocError> {
    let received = moment("2024-05-02T00:00:00Z")?;
    let mut discards = Discards::new(alloc);
    for receipt in receipts {
        let dead = dead(alloc, *receipt, Kind::Facts, received, Cause::Failures)?;
        discards.reserve()?;
        discards.put(dead);
    }
    Ok(discards)
}

fn are_sorted(alloc: Global) -> Result<bool, AllocError> {
    let sorted = [1, 2, 4, 7, 8, 9];
    let discards = discards_of(alloc, &[7, 2, 9, 4, 1, 8])?;
    let mut same = discards.count() == 6;
    for (at, receipt) in sorted.iter().enumerate() {
        same = same && at < discards.count() && discards.at(at).receipt == *receipt;
    }
    for receipt in 0..11 {
        same = same && discards.get(receipt).is_some() == sorted.contains(&receipt);
    }
    Ok(same)
}

#[test]
fn commands_stand_by_receipt(rt: HostRuntime) -> Result<(), AllocError> {
    assert!(rt; are_sorted(rt.alloc())?);
    Ok(())
}

#[test]
fn the_sixteenth_failure_is_the_last(rt: HostRuntime) {
    let few = is_last(0) || is_last(14);
    let many = is_last(15) && is_last(16) && is_last(u32::MAX);
    assert!(rt; many && !few);
}
