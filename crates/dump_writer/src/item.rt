//! Writes the items of a dump.
ghost use Rattle.std.specs.Prelude.{◌≡◌, ◌++◌, ◌∷◌, [], decimal, flat_map, length, OnOk, if◌then◌else◌};
ghost use Rattle.dump_laws.specs.dump_spec.history_spec.Lawful.{HasStamp, IsChange};
ghost use Rattle.dump_laws.specs.dump_spec.spool_spec.Spool.{kind_word, sweep_text};
ghost use Rattle.dump_laws.specs.dump_spec.wire_spec.Decode.{version_of};
ghost use Rattle.dump_laws.specs.dump_spec.Stamps.{short_text};
ghost use Rattle.dump_laws.specs.dump_spec.list_again.Told.{expire_alone, reports_alone};
ghost use Rattle.dump_writer.specs.Referred.{change_referred, change_text, IsShort};

use crate::payload::put_payload;
use crate::referred::ChangeRef;
use crate::stamp::put_stamp;
use fleet_rows::Kind;
use fleet_rows::json_tree::MOST_PAYLOAD;
use fleet_rows::stamp_time::Moment;
use itoa::Buffer;
use std::alloc::AllocError;

/// Appends the text of the change's command. The buffer `payload` is reused for its payload. A payload that passes the limit of
/// payloads counts as missing memory.
pub fn put_command(
    out: &mut Vec<u8>,
    payload: &mut Vec<u8>,
    change: &ChangeRef,
) -> Result<(), AllocError>
    requires { IsChange (change_referred change.now) }
    ensures text { OnOk result (out.new.items ≡ out.old.items ++ change_text (change_referred change.now)) }
    ensures short { OnOk result (IsShort (change_referred change.now)) }
{
    payload.clear();
    put_payload(payload, change)?;
    if payload.len() > MOST_PAYLOAD as usize {
        return Err(AllocError);
    }
    put_framed(out, head(change.kind()), payload.as_slice())
}

// Appends a command. `head` is its first line up to the payload's length.
fn put_framed(out: &mut Vec<u8>, head: &[u8], payload: &[u8]) -> Result<(), AllocError>
    ensures { OnOk result (out.new.items ≡ out.old.items ++ (head.now ++ (decimal (length payload.now) ++ 10 ∷ (payload.now ++ 10 ∷ [])))) }
{
    put_all(
        out,
        &[
            head,
            Buffer::new().format(payload.len()).as_bytes(),
            b"\n",
            payload,
            b"\n",
        ],
    )
}

// The kind's word and its version, each followed by a space.
fn head(kind: Kind) -> &'static [u8]
    ensures { result.now ≡ kind_word kind ++ 32 ∷ (decimal (version_of kind) ++ 32 ∷ []) }
{
    match kind {
        Kind::Facts => b"replace_facts 5 ",
        Kind::Catalog => b"replace_catalog 9 ",
        Kind::Report => b"store_report 8 ",
        Kind::Deactivate => b"deactivate_node 3 ",
        Kind::Expiration => b"configure_expiration 1 ",
    }
}

/// Appends the text of a sweep of expiry alone, or of reports alone.
pub fn put_sweep(out: &mut Vec<u8>, reports: bool, moment: Moment) -> Result<(), AllocError>
    requires { HasStamp moment }
    ensures { OnOk result (out.new.items ≡ out.old.items ++ sweep_text (if reports then reports_alone else expire_alone) (short_text moment)) }
{
    if reports {
        out.extend_from_slice(b"sweep reports ")?;
    } else {
        out.extend_from_slice(b"sweep expire ")?;
    }
    put_stamp(out, moment)?;
    out.push(b'\n')?;
    Ok(())
}

// Appends the pieces in their order.
fn put_all(out: &mut Vec<u8>, pieces: &[&[u8]]) -> Result<(), AllocError>
    ensures { OnOk result (out.new.items ≡ out.old.items ++ flat_map (λ piece. piece.now) pieces.now) }
{
    for piece in pieces {
        out.extend_from_slice(piece)?;
    }
    Ok(())
}
