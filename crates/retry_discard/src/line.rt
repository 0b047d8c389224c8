//! Prints a discarded command as one line.
ghost use Rattle.std.specs.Prelude.{◌≡◌, ◌++◌, ◌∷◌, IfOk, OnOk, decimal};
ghost use Rattle.core_spec.specs.stamp_time.Range.{IsPrintable};
ghost use Rattle.spool_spec.specs.Spool.{kind_word};
ghost use Rattle.wire_fields.specs.wire_spec.Refusals.{cause_text};
ghost use Rattle.retry_discard.specs.Line.{line_text, IsLineOf};

use core_spec::Dead;
use core_spec::fleet_rows::Kind;
use core_spec::json_tree::Bytes;
use core_spec::stamp_time::write_stamp;
use itoa::Buffer;
use std::alloc::{AllocError, Global};
use wire_fields::cause_text;

/// The line of a discarded command: receipt, word of the kind, version, receive time and cause, separated by single spaces. An
/// example is `2 replace_facts 5 2024-05-02T00:00:00.000Z wrong values`.
pub fn write_line(alloc: Global, dead: &Dead) -> Result<Bytes, AllocError>
    requires { IsPrintable dead.now.command.received }
    ensures { IfOk result (IsLineOf dead.now) }
{
    let command = dead.command.command();
    let received = write_stamp(command.received);
    let cause = cause_text(alloc, dead.cause)?;
    let line = line_of(alloc, dead, &received, cause.as_slice())?;
    Ok(Bytes::from_vec(line))
}

// The line, from the texts of the moment and of the cause.
fn line_of(alloc: Global, dead: &Dead, received: &[u8], cause: &[u8]) -> Result<Vec<u8>, AllocError>
    requires { cause.now ≡ cause_text dead.now.cause }
    ensures { IfOk result (λ line. line.items ≡ line_text dead.now received.now) }
{
    let command = dead.command.command();
    let mut line = Vec::new(alloc);
    put_number(&mut line, dead.receipt)?;
    put_word(&mut line, kind_word(command.kind).as_bytes())?;
    line.push(b' ')?;
    put_number(&mut line, command.version as u64)?;
    put_word(&mut line, received)?;
    put_word(&mut line, cause)?;
    Ok(line)
}

fn put_number(line: &mut Vec<u8>, number: u64) -> Result<(), AllocError>
    ensures { OnOk result (line.new.items ≡ line.old.items ++ decimal number) }
{
    let mut digits = Buffer::new();
    line.extend_from_slice(digits.format(number).as_bytes())
}

// Appends a space and a word.
fn put_word(line: &mut Vec<u8>, word: &[u8]) -> Result<(), AllocError>
    ensures { OnOk result (line.new.items ≡ line.old.items ++ 32 ∷ word.now) }
{
    line.push(b' ')?;
    line.extend_from_slice(word)
}

// The word of the kind, as in a spool.
fn kind_word(kind: Kind) -> &'static str
    ensures { result.now ≡ kind_word kind }
{
    match kind {
        Kind::Facts => "replace_facts",
        Kind::Catalog => "replace_catalog",
        Kind::Report => "store_report",
        Kind::Deactivate => "deactivate_node",
        Kind::Expiration => "configure_expiration",
    }
}
