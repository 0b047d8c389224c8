//! Writes the payload of a change.
ghost use Rattle.std.specs.Prelude.{◌≡◌, ◌++◌, ◌∷◌, [], Some, codes, OnOk};
ghost use Rattle.dump_laws.specs.dump_spec.history_spec.Lawful.{IsChange, IsFactsChange, IsReportChange, IsDeactivateChange, IsExpirationChange, HasStamp};
ghost use Rattle.dump_laws.specs.dump_spec.text_spec.Compact.{compact};
ghost use Rattle.dump_laws.specs.dump_spec.text_spec.Json.{boolean};
ghost use Rattle.dump_laws.specs.dump_spec.list_again.Whole.{empty_report};
ghost use Rattle.dump_laws.specs.dump_spec.Payloads.{dictionary, facts_fields, report_fields, deactivate_fields, expiration_fields, payload_of};
ghost use Rattle.dump_writer.specs.Referred.{change_referred};

use crate::catalog::put_catalog;
use crate::fields::{put_dictionary, put_fields, put_name};
use crate::referred::ChangeRef;
use crate::shown::{Shown, put_flag};
use fleet_rows::json_tree::Text;
use fleet_rows::stamp_time::Moment;
use fleet_rows::{DeactivateChange, ExpirationChange, FactsChange};
use kept_nodes::PackedReport;
use std::alloc::AllocError;

/// Appends the payload of the change.
pub(crate) fn put_payload(out: &mut Vec<u8>, change: &ChangeRef) -> Result<(), AllocError>
    requires { IsChange (change_referred change.now) }
    ensures { OnOk result (out.new.items ≡ out.old.items ++ compact (payload_of (change_referred change.now))) }
{
    match change {
        ChangeRef::Facts(facts) => put_facts(out, facts),
        ChangeRef::Catalog(catalog) => put_catalog(out, catalog),
        ChangeRef::Report(report) => put_report(out, report),
        ChangeRef::Deactivate(deactivation) => put_deactivation(out, deactivation),
        ChangeRef::Expiration(expiration) => put_expiration(out, expiration),
        ChangeRef::Empty(certname, stamp) => put_empty(out, certname, *stamp),
    }
}

fn put_facts(out: &mut Vec<u8>, facts: &FactsChange) -> Result<(), AllocError>
    requires { IsFactsChange facts.now }
    ensures { OnOk result (out.new.items ≡ out.old.items ++ compact (dictionary (facts_fields facts.now))) }
{
    put_dictionary(
        out,
        &[
            ("certname", Shown::Text(&facts.certname)),
            ("environment", Shown::OptionalText(&facts.environment)),
            ("values", Shown::Object(&facts.values)),
            ("producer_timestamp", Shown::Stamp(facts.stamp)),
            ("producer", Shown::OptionalText(&facts.producer)),
        ],
    )
}

// The lists stand as they were received. None of them is unpacked.
fn put_report(out: &mut Vec<u8>, report: &PackedReport) -> Result<(), AllocError>
    requires { IsReportChange report.now }
    ensures { OnOk result (out.new.items ≡ out.old.items ++ compact (dictionary (report_fields report.now))) }
{
    let lists = report.lists();
    put_dictionary(
        out,
        &[
            ("certname", Shown::Text(report.certname())),
            ("environment", Shown::OptionalText(report.environment())),
            (
                "puppet_version",
                Shown::OptionalText(report.puppet_version()),
            ),
            (
                "report_format",
                Shown::OptionalNumber(report.report_format()),
            ),
            (
                "configuration_version",
                Shown::OptionalText(report.configuration_version()),
            ),
            ("start_time", Shown::OptionalStamp(report.start_time())),
            ("end_time", Shown::OptionalStamp(report.end_time())),
            ("producer_timestamp", Shown::Stamp(report.stamp())),
            ("producer", Shown::OptionalText(report.producer())),
            ("noop", Shown::OptionalFlag(report.noop())),
            ("status", Shown::OptionalText(report.status())),
            (
                "transaction_uuid",
                Shown::OptionalText(report.transaction_uuid()),
            ),
            ("resources", Shown::IfPacked(&lists.resources)),
            ("logs", Shown::IfPacked(&lists.logs)),
            ("metrics", Shown::IfPacked(&lists.metrics)),
        ],
    )
}

// A report with nothing else.
fn put_empty(out: &mut Vec<u8>, certname: &Text, stamp: Moment) -> Result<(), AllocError>
    requires { HasStamp stamp }
    ensures { OnOk result (out.new.items ≡ out.old.items ++ compact (payload_of (empty_report certname.now stamp))) }
{
    put_dictionary(
        out,
        &[
            ("certname", Shown::Text(certname)),
            ("producer_timestamp", Shown::Stamp(stamp)),
        ],
    )
}

fn put_deactivation(out: &mut Vec<u8>, deactivation: &DeactivateChange) -> Result<(), AllocError>
    requires { IsDeactivateChange deactivation.now }
    ensures { OnOk result (out.new.items ≡ out.old.items ++ compact (dictionary (deactivate_fields deactivation.now))) }
{
    put_dictionary(
        out,
        &[
            ("certname", Shown::Text(&deactivation.certname)),
            ("producer_timestamp", Shown::Stamp(deactivation.stamp)),
        ],
    )
}

fn put_expiration(out: &mut Vec<u8>, expiration: &ExpirationChange) -> Result<(), AllocError>
    requires { IsExpirationChange expiration.now }
    ensures { OnOk result (out.new.items ≡ out.old.items ++ compact (dictionary (expiration_fields expiration.now))) }
{
    out.push(b'{')?;
    put_fields(
        out,
        &[
            ("certname", Shown::Text(&expiration.certname)),
            ("producer_timestamp", Shown::Stamp(expiration.stamp)),
        ],
    )?;
    put_name(out, true, "expire")?;
    put_expire(out, expiration.expire)?;
    out.push(b'}')?;
    Ok(())
}

// The object that says whether the node's facts expire.
fn put_expire(out: &mut Vec<u8>, expire: bool) -> Result<(), AllocError>
    ensures { OnOk result (out.new.items ≡ out.old.items ++ compact (dictionary ((codes "facts", Some (boolean expire)) ∷ []))) }
{
    out.push(b'{')?;
    put_name(out, false, "facts")?;
    put_flag(out, expire)?;
    out.push(b'}')?;
    Ok(())
}
