//! Refusals and causes in words.
use crate::wrong::{Wrong, holds};
use command_decode::fleet_rows::{Cause, Field, Place, Refusal};
use command_decode::wire_fields::{cause_text, inner, outer, place_text, refusal_text, top};
use std::alloc::{AllocError, Global};

fn is_place(alloc: Global, place: Place, text: &str) -> Result<bool, AllocError> {
    Ok(place_text(alloc, place)?.as_slice() == text.as_bytes())
}

fn are_places(alloc: Global, places: &[(Place, &str)]) -> Result<(), Wrong> {
    for (at, (place, text)) in places.iter().enumerate() {
        holds(is_place(alloc, *place, text)?, at)?;
    }
    Ok(())
}

#[test]
fn places_are_printed_with_their_indices(rt: HostRuntime) -> Result<(), Wrong> {
    let places: &[(Place, &str)] = &[
        (top(Field::ProducerTimestamp), "producer_timestamp"),
        (top(Field::ExpireFacts), "expire.facts"),
        (outer(3, Field::Title), "resources[3].title"),
        (
            outer(4_294_967_295, Field::Resources),
            "resources[4294967295]",
        ),
        (outer(0, Field::SourceType), "edges[0].source.type"),
        (outer(0, Field::Metrics), "metrics[0]"),
        (inner(3, 1, Field::Tags), "resources[3].tags[1]"),
        (inner(1, 0, Field::Status), "resources[1].events[0].status"),
    ];
    are_places(rt.alloc(), places)
}

static REFUSALS: [(Refusal, &str); 6] = [
    (Refusal::BadVersion, "bad version"),
    (Refusal::NotJson { at: 0 }, "not json at 0"),
    (Refusal::TooDeep { at: 127 }, "too deep at 127"),
    (Refusal::NotObject, "not object"),
    (
        Refusal::DuplicateResource { index: 10 },
        "duplicate resource 10",
    ),
    (Refusal::BadRelationship { index: 2 }, "bad relationship 2"),
];

fn is_refusal(alloc: Global, refusal: Refusal, text: &str) -> Result<bool, AllocError> {
    Ok(refusal_text(alloc, refusal)?.as_slice() == text.as_bytes())
}

fn is_cause(alloc: Global, cause: Cause, text: &str) -> Result<bool, AllocError> {
    Ok(cause_text(alloc, cause)?.as_slice() == text.as_bytes())
}

fn are_refusals(alloc: Global) -> Result<(), Wrong> {
    for (at, (refusal, text)) in REFUSALS.iter().enumerate() {
        holds(is_refusal(alloc, *refusal, text)?, at)?;
        holds(is_cause(alloc, Cause::Refused(*refusal), text)?, at)?;
    }
    Ok(())
}

#[test]
fn refusals_are_printed_in_words(rt: HostRuntime) -> Result<(), Wrong> {
    are_refusals(rt.alloc())?;
    holds(is_cause(rt.alloc(), Cause::Failures, "failures 16")?, 6)
}
