//! Writes the payloads of the items.
ghost use Rattle.std.specs.Prelude.{◌≡◌, ◌++◌, ◌/◌, ◌%◌, ◌^◌, codes, decimal, flat_map, OnOk};
ghost use Rattle.made_spec.specs.Made.{facts_payload, catalog_payload, report_payload, made_payload, node_name, stamp};

use crate::stamp::second_text;
use itoa::Buffer;
use std::alloc::AllocError;

/// Appends the payload of item i, which is made from the number x.
#[tactic(auto, unfolding(made_spec::specs::Made::made_payload))]
pub(crate) fn put_payload(payload: &mut Vec<u8>, i: u32, x: u64) -> Result<(), AllocError>
    ensures { OnOk result (payload.new.items ≡ payload.old.items ++ made_payload i x) }
{
    let node = (x / (1 << 33) % 50) as u32;
    let stamp = second_text((x / (1 << 40) % 86_400) as u32);
    let turn = i % 4;
    if turn == 2 {
        put_catalog(payload, node, i % 7, &stamp)
    } else if turn == 3 {
        put_report(payload, node, i, &stamp)
    } else {
        put_facts(payload, node, i, &stamp)
    }
}

// Appends a payload with one fact, whose value is `number`.
#[tactic(auto, unfolding(made_spec::specs::Made::facts_payload))]
fn put_facts(payload: &mut Vec<u8>, node: u32, number: u32, stamp: &[u8]) -> Result<(), AllocError>
    ensures { OnOk result (payload.new.items ≡ payload.old.items ++ facts_payload (codes "node" ++ decimal node) number stamp.now) }
{
    put_all(
        payload,
        &[
            b"{\"certname\":\"node",
            Buffer::new().format(node).as_bytes(),
            b"\",\"environment\":\"production\",\"values\":{\"k\":",
            Buffer::new().format(number).as_bytes(),
            b"},\"producer_timestamp\":\"",
            stamp,
            b"\",\"producer\":\"m\"}",
        ],
    )
}

// Appends a payload with one resource, whose title ends with `number`.
#[tactic(auto, unfolding(made_spec::specs::Made::catalog_payload))]
fn put_catalog(
    payload: &mut Vec<u8>,
    node: u32,
    number: u32,
    stamp: &[u8],
) -> Result<(), AllocError>
    ensures { OnOk result (payload.new.items ≡ payload.old.items ++ catalog_payload (codes "node" ++ decimal node) number stamp.now) }
{
    put_all(
        payload,
        &[
            b"{\"certname\":\"node",
            Buffer::new().format(node).as_bytes(),
            b"\",\"version\":\"1\",\"environment\":\"production\",\"transaction_uuid\":null,\"catalog_uuid\":null,\
\"code_id\":null,\"job_id\":null,\"producer_timestamp\":\"",
            stamp,
            b"\",\"producer\":\"m\",\"edges\":[],\"resources\":[{\"type\":\"Class\",\"title\":\"c",
            Buffer::new().format(number).as_bytes(),
            b"\",\"exported\":false,\"file\":null,\"line\":null,\"tags\":[\"class\"],\"parameters\":{}}]}",
        ],
    )
}

// Appends a payload of a report, whose configuration version is `number`.
#[tactic(auto, unfolding(made_spec::specs::Made::report_payload))]
fn put_report(payload: &mut Vec<u8>, node: u32, number: u32, stamp: &[u8]) -> Result<(), AllocError>
    ensures { OnOk result (payload.new.items ≡ payload.old.items ++ report_payload (codes "node" ++ decimal node) number stamp.now) }
{
    put_all(
        payload,
        &[
            b"{\"certname\":\"node",
            Buffer::new().format(node).as_bytes(),
            b"\",\"environment\":\"production\",\"puppet_version\":\"8.0.0\",\"report_format\":12,\"configuration_version\":\"",
            Buffer::new().format(number).as_bytes(),
            b"\",\"start_time\":\"",
            stamp,
            b"\",\"end_time\":\"",
            stamp,
            b"\",\"producer_timestamp\":\"",
            stamp,
            b"\",\"producer\":\"m\",\"noop\":false,\"status\":\"changed\",\"transaction_uuid\":null,\"resources\":[],\"logs\":[],\"metrics\":[]}",
        ],
    )
}

/// Appends the pieces in their order.
pub(crate) fn put_all(text: &mut Vec<u8>, pieces: &[&[u8]]) -> Result<(), AllocError>
    ensures { OnOk result (text.new.items ≡ text.old.items ++ flat_map (λ piece. piece.now) pieces.now) }
{
    for piece in pieces {
        text.extend_from_slice(piece)?;
    }
    Ok(())
}
