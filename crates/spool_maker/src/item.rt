//! Writes one item of a spool.
ghost use Rattle.std.specs.Prelude.{◌≡◌, ◌++◌, ◌∷◌, [], length, decimal, OnOk};
ghost use Rattle.made_spec.specs.spool_spec.Spool.{kind_word};
ghost use Rattle.made_spec.specs.Made.{next_number, made_kind, made_version, item_text};

use crate::payload::{put_all, put_payload};
use itoa::Buffer;
use std::alloc::AllocError;

/// The next number of the sequence that a seed starts.
pub(crate) fn next_number(x: u64) -> u64
    ensures { result ≡ next_number x }
{
    x.wrapping_mul(6_364_136_223_846_793_005)
        .wrapping_add(1_442_695_040_888_963_407)
}

/// Appends item i, which is made from the number x. The buffer `payload` is reused for its payload.
pub(crate) fn put_item(
    text: &mut Vec<u8>,
    payload: &mut Vec<u8>,
    i: u32,
    x: u64,
) -> Result<(), AllocError>
    ensures { OnOk result (text.new.items ≡ text.old.items ++ item_text i x) }
{
    payload.clear();
    put_payload(payload, i, x)?;
    put_command(text, head(i), payload.as_slice())
}

// Appends a command. `head` is its first line up to the payload's length.
fn put_command(text: &mut Vec<u8>, head: &[u8], payload: &[u8]) -> Result<(), AllocError>
    ensures { OnOk result (text.new.items ≡ text.old.items ++ (head.now ++ (decimal (length payload.now) ++ 10 ∷ (payload.now ++ 10 ∷ [])))) }
{
    put_all(
        text,
        &[
            head,
            Buffer::new().format(payload.len()).as_bytes(),
            b"\n",
            payload,
            b"\n",
        ],
    )
}

// The kind's word and the version of item i, each followed by a space.
fn head(i: u32) -> &'static [u8]
    ensures { result.now ≡ kind_word (made_kind i) ++ 32 ∷ (decimal (made_version i) ++ 32 ∷ []) }
{
    let turn = i % 4;
    if turn == 2 {
        b"replace_catalog 9 "
    } else if turn == 3 {
        b"store_report 8 "
    } else {
        b"replace_facts 5 "
    }
}
