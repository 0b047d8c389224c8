//! Reads a command that is posted to the command route.
ghost use Rattle.std.specs.Prelude.{◌≡◌, IfOk, Some, Ok, Err, codes, if◌then◌else◌, option_copied};
ghost use Rattle.routes_spec.specs.Commands.{kind_named, has_checksum, if_filled, IsVersion, IsPosted};
ghost use Rattle.paging_params.specs.Params.{last_under};
ghost use Rattle.http_routes.specs.Posted.{Tells, IsTold, with_version, with_certname, with_text, with_word};

use crate::parameters::last_under;
use fleet_rows::{Command, Kind, sha1_hex};
use itoa::Buffer;
use json_tree::{Bytes, Text};
use stamp_time::Moment;
use std::alloc::{AllocError, Global};

/// The result of reading a posted command.
#[derive(Drop)]
pub(crate) enum Posted {
    /// The request posts this command.
    Command(Command),
    /// The request posts no command, for this reason.
    Bad(&'static [u8]),
    /// There was no memory.
    Memory,
}

/// The kind with this name.
#[tactic(auto, unfolding(routes_spec::specs::Commands::kind_named))]
fn kind_named(word: &str) -> Option<Kind>
    ensures { result ≡ kind_named word.now }
{
    if word == "replace_catalog" {
        Some(Kind::Catalog)
    } else if word == "replace_facts" {
        Some(Kind::Facts)
    } else if word == "store_report" {
        Some(Kind::Report)
    } else if word == "deactivate_node" {
        Some(Kind::Deactivate)
    } else if word == "configure_expiration" {
        Some(Kind::Expiration)
    } else {
        None
    }
}

// The number below 2^32 that the text writes in decimal, without a sign or a leading zero.
fn version_of(text: &Text) -> Option<u32>
    ensures { IsVersion (Some text.now) result }
{
    match text.as_str().parse::<u32>() {
        Ok(number) => {
            let mut digits = Buffer::new();
            if digits.format(number) == text.as_str() {
                Some(number)
            } else {
                None
            }
        }
        Err(_) => None,
    }
}

// The version among the parameters, if it is a number.
fn version_in(list: &[(Text, Text)]) -> Option<u32>
    ensures { IsVersion (last_under (codes "version") list.now) result }
{
    match last_under(list, "version") {
        Some(text) => version_of(text),
        None => None,
    }
}

// Whether the checksum, if there is one, is that of the body.
fn has_checksum(alloc: Global, checksum: Option<&Text>, body: &[u8]) -> Result<bool, AllocError>
    ensures { IfOk result (λ has. has ≡ has_checksum (option_copied checksum.entry) body.now) }
{
    match checksum {
        None => Ok(true),
        Some(text) => {
            let digits = sha1_hex(alloc, body)?;
            Ok(text.as_str().eq_ignore_ascii_case(digits.as_str()))
        }
    }
}

// The text, unless it is empty.
fn if_filled(text: Option<&Text>) -> Option<&Text>
    ensures { option_copied result ≡ if_filled (option_copied text.entry) }
{
    match text {
        Some(text) => if text.as_str().is_empty() {
            None
        } else {
            Some(text)
        },
        None => None,
    }
}

// The command, unless its checksum is bad.
fn summed(alloc: Global, checksum: Option<&Text>, command: Command) -> Posted
    ensures { Tells result (if has_checksum (option_copied checksum.entry) command.payload then Ok command else Err (codes "bad checksum")) }
{
    match has_checksum(alloc, checksum, command.payload.as_slice()) {
        Ok(good) => if good {
            Posted::Command(command)
        } else {
            Posted::Bad(b"bad checksum")
        },
        Err(_) => Posted::Memory,
    }
}

// Checks the command with this word and version.
fn with_version(
    alloc: Global,
    now: Moment,
    list: &[(Text, Text)],
    body: Bytes,
    word: &Text,
    version: u32,
) -> Posted
    ensures { Tells result (with_version now list.now body word.now version) }
{
    match kind_named(word.as_str()) {
        Some(kind) => {
            let checksum = last_under(list, "checksum");
            let command = Command {
                kind,
                version,
                received: now,
                payload: body,
            };
            summed(alloc, checksum, command)
        }
        None => Posted::Bad(b"bad command"),
    }
}

// Checks the certname, then the rest.
fn with_certname(
    alloc: Global,
    now: Moment,
    list: &[(Text, Text)],
    body: Bytes,
    word: &Text,
    version: Option<u32>,
) -> Posted
    ensures { Tells result (with_certname now list.now body word.now version) }
{
    match version {
        Some(version) => with_version(alloc, now, list, body, word, version),
        None => Posted::Bad(b"bad version"),
    }
}

// Checks that a version is given, then the rest.
fn with_text(
    alloc: Global,
    now: Moment,
    list: &[(Text, Text)],
    body: Bytes,
    word: &Text,
    version: Option<u32>,
) -> Posted
    ensures { Tells result (with_text now list.now body word.now version) }
{
    match if_filled(last_under(list, "certname")) {
        Some(_name) => with_certname(alloc, now, list, body, word, version),
        None => Posted::Bad(b"missing certname"),
    }
}

// Checks the command that has this word.
fn with_word(
    alloc: Global,
    now: Moment,
    list: &[(Text, Text)],
    body: Bytes,
    word: &Text,
    version: Option<u32>,
) -> Posted
    ensures { Tells result (with_word now list.now body version word.now) }
{
    match last_under(list, "version") {
        Some(_text) => with_text(alloc, now, list, body, word, version),
        None => Posted::Bad(b"missing version"),
    }
}

/// Reads a command with these parameters and this body, received at the moment `now`.
pub(crate) fn posted_with(alloc: Global, now: Moment, list: &[(Text, Text)], body: Bytes) -> Posted
    ensures { IsTold result (IsPosted now list.now body) }
{
    let version = version_in(list);
    match last_under(list, "command") {
        Some(word) => with_word(alloc, now, list, body, word, version),
        None => Posted::Bad(b"missing command"),
    }
}
