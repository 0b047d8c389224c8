//! Computes the hashes of factsets and resources, and the text that a report's hash is made from.
ghost use Rattle.std.specs.Prelude.{◌≡◌, IfOk, IsTrue, map};
ghost use Rattle.std.specs.List.{AllByRecursion};
ghost use Rattle.table_spec.specs.text_spec.Json.{object, members_of};
ghost use Rattle.table_spec.specs.stamp_time.Range.{IsPrintable};
ghost use Rattle.table_spec.specs.history_spec.Report.{report_text};
ghost use Rattle.table_spec.specs.Cells.{hash, factset_object, resource_object};
ghost use Rattle.row_cells.specs.Texts.{rises, column, CanBeText, HasPrintableMoments};

use crate::shown::Shown;
use crate::text::put_object;
use std::alloc::{AllocError, Global};
use table_spec::fleet_rows::{FactsChange, ReportChange, Resource, sha1_hex};
use table_spec::json_tree::{Bytes, Text};

/// The hash of a node's facts: the SHA-1 of the canonical text of the factset's other columns, as 40 hexadecimal digits.
pub fn factset_hash(alloc: Global, change: &FactsChange) -> Result<Text, AllocError>
    requires { IsPrintable change.now.stamp }
    ensures { IfOk result (λ digest. digest ≡ hash (factset_object change.now)) }
{
    object_hash(
        alloc,
        &[
            ("certname", Shown::Text(&change.certname)),
            ("environment", Shown::OptionalText(&change.environment)),
            ("facts", Shown::Object(&change.values)),
            ("producer", Shown::OptionalText(&change.producer)),
            ("producer_timestamp", Shown::Stamp(change.stamp)),
        ],
    )
}

/// The hash of a resource: the SHA-1 of the canonical text of its own columns, as 40 hexadecimal digits.
pub fn resource_hash(alloc: Global, resource: &Resource) -> Result<Text, AllocError>
    ensures { IfOk result (λ digest. digest ≡ hash (resource_object resource.now)) }
{
    let mut text = Vec::new(alloc);
    resource_hash_by(alloc, &mut text, resource)
}

/// The hash of a resource. The buffer `text` is reused between calls.
pub(crate) fn resource_hash_by(
    alloc: Global,
    text: &mut Vec<u8>,
    resource: &Resource,
) -> Result<Text, AllocError>
    ensures { IfOk result (λ digest. digest ≡ hash (resource_object resource.now)) }
{
    object_hash_by(
        alloc,
        text,
        &[
            ("exported", Shown::Flag(resource.exported)),
            ("file", Shown::OptionalText(&resource.file)),
            ("line", Shown::OptionalNumber(resource.line)),
            ("parameters", Shown::Object(&resource.parameters)),
            ("tags", Shown::Tags(resource.tags.as_slice())),
            ("title", Shown::Text(&resource.title)),
            ("type", Shown::Text(&resource.rtype)),
        ],
    )
}

/// The canonical text of a report's columns except its hash, which is the SHA-1 of this text.
pub fn report_canonical(alloc: Global, change: &ReportChange) -> Result<Bytes, AllocError>
    requires { HasPrintableMoments change.now }
    ensures { IfOk result (λ text. text ≡ report_text change.now) }
{
    let mut text = Vec::new(alloc);
    put_object(
        alloc,
        &mut text,
        &[
            ("certname", Shown::Text(&change.certname)),
            (
                "configuration_version",
                Shown::OptionalText(&change.configuration_version),
            ),
            ("end_time", Shown::OptionalStamp(change.end_time)),
            ("environment", Shown::OptionalText(&change.environment)),
            ("logs", Shown::List(&change.logs)),
            ("metrics", Shown::List(&change.metrics)),
            ("noop", Shown::OptionalFlag(change.noop)),
            ("producer", Shown::OptionalText(&change.producer)),
            ("producer_timestamp", Shown::Stamp(change.stamp)),
            (
                "puppet_version",
                Shown::OptionalText(&change.puppet_version),
            ),
            ("report_format", Shown::OptionalNumber(change.report_format)),
            ("resources", Shown::List(&change.resources)),
            ("start_time", Shown::OptionalStamp(change.start_time)),
            ("status", Shown::OptionalText(&change.status)),
            (
                "transaction_uuid",
                Shown::OptionalText(&change.transaction_uuid),
            ),
        ],
    )?;
    Ok(Bytes::from_vec(text))
}

fn object_hash(alloc: Global, columns: &[(&str, Shown)]) -> Result<Text, AllocError>
    requires order { IsTrue (rises (map (λ c. c.0.now) columns.now)) }
    requires moments { AllByRecursion (λ c. CanBeText c.1) columns.now }
    ensures { IfOk result (λ digest. digest ≡ hash (object (members_of (map column columns.now)))) }
{
    let mut text = Vec::new(alloc);
    object_hash_by(alloc, &mut text, columns)
}

fn object_hash_by(
    alloc: Global,
    text: &mut Vec<u8>,
    columns: &[(&str, Shown)],
) -> Result<Text, AllocError>
    requires order { IsTrue (rises (map (λ c. c.0.now) columns.now)) }
    requires moments { AllByRecursion (λ c. CanBeText c.1) columns.now }
    ensures { IfOk result (λ digest. digest ≡ hash (object (members_of (map column columns.now)))) }
{
    text.clear();
    put_object(alloc, text, columns)?;
    sha1_hex(alloc, text.as_slice())
}
