//! Decodes catalogs.
ghost use Rattle.std.specs.Prelude.{◌≡◌, IfOk};
ghost use Rattle.std.specs.Option.{option_map};
ghost use Rattle.record_fields.specs.Reading.{Shows};
ghost use Rattle.change_reader.specs.Changes.{edges_at, resources_at, catalog_head_at, catalog_marks_at, catalog_at};

use crate::distinct::{are_distinct_edges, are_distinct_resources};
use crate::resource::{take_edges, take_resources};
use json_read::json_tree::Text;
use record_fields::{take_moment, take_text};
use record_values::{own_optional, take_certname, take_optional_text};
use std::alloc::{AllocError, Global};
use wire_catalog::fleet_rows::{CatalogChange, Edges, Resources};

#[tactic(auto, unfolding(crate::specs::Changes::edges_at))]
fn take_distinct_edges(alloc: Global, bytes: &[u8]) -> Result<Option<(Edges, &[u8])>, AllocError>
    ensures { IfOk result (λ o. Shows (λ x. (x.0, x.1.now)) o (edges_at bytes.now)) }
{
    let Some((edges, rest)) = take_edges(alloc, bytes)? else {
        return Ok(None);
    };
    if are_distinct_edges(alloc, edges.as_slice())? {
        Ok(Some((edges, rest)))
    } else {
        Ok(None)
    }
}

#[tactic(auto, unfolding(crate::specs::Changes::resources_at))]
fn take_distinct_resources(
    alloc: Global,
    bytes: &[u8],
) -> Result<Option<(Resources, &[u8])>, AllocError>
    ensures { IfOk result (λ o. Shows (λ x. (x.0, x.1.now)) o (resources_at bytes.now)) }
{
    let Some((resources, rest)) = take_resources(alloc, bytes)? else {
        return Ok(None);
    };
    if are_distinct_resources(alloc, resources.as_slice())? {
        Ok(Some((resources, rest)))
    } else {
        Ok(None)
    }
}

// Reads certname, version and environment.
#[tactic(auto, unfolding(crate::specs::Changes::catalog_head_at))]
fn take_head(bytes: &[u8]) -> Option<(&str, &str, Option<&str>, &[u8])>
    ensures { Shows (λ x. ((x.0.now, (x.1.now, option_map (λ s. s.now) x.2)), x.3.now)) result (catalog_head_at bytes.now) }
{
    let (certname, rest) = take_certname(bytes)?;
    let (version, rest) = take_text(rest)?;
    let (environment, rest) = take_optional_text(rest)?;
    Some((certname, version, environment, rest))
}

// Reads the identifiers of the transaction, the catalog, the code and the job.
#[tactic(auto, unfolding(crate::specs::Changes::catalog_marks_at))]
fn take_marks(
    bytes: &[u8],
) -> Option<
    (
        Option<&str>,
        Option<&str>,
        Option<&str>,
        Option<&str>,
        &[u8],
    ),
>
    ensures { Shows (λ x. (
      (
        option_map (λ s. s.now) x.0,
        (
          option_map (λ s. s.now) x.1,
          (option_map (λ s. s.now) x.2, option_map (λ s. s.now) x.3),
        ),
      ),
      x.4.now,
    )) result (catalog_marks_at bytes.now) }
{
    let (transaction, rest) = take_optional_text(bytes)?;
    let (catalog, rest) = take_optional_text(rest)?;
    let (code, rest) = take_optional_text(rest)?;
    let (job, rest) = take_optional_text(rest)?;
    Some((transaction, catalog, code, job, rest))
}

// Copies of certname, version and environment. Texts are copied by groups, since each copy that fails lets go of all that were
// made before.
fn own_head(
    alloc: Global,
    certname: &str,
    version: &str,
    environment: Option<&str>,
) -> Result<(Text, Text, Option<Text>), AllocError>
    ensures certname { IfOk result (λ x. x.0 ≡ certname.now) }
    ensures version { IfOk result (λ x. x.1 ≡ version.now) }
    ensures environment { IfOk result (λ x. x.2 ≡ option_map (λ s. s.now) environment.entry) }
{
    let certname = Text::from_str(alloc, certname)?;
    let version = Text::from_str(alloc, version)?;
    let environment = own_optional(alloc, environment)?;
    Ok((certname, version, environment))
}

// Copies of the identifiers.
fn own_marks(
    alloc: Global,
    transaction: Option<&str>,
    catalog: Option<&str>,
    code: Option<&str>,
    job: Option<&str>,
) -> Result<(Option<Text>, Option<Text>, Option<Text>, Option<Text>), AllocError>
    ensures transaction { IfOk result (λ x. x.0 ≡ option_map (λ s. s.now) transaction.entry) }
    ensures catalog { IfOk result (λ x. x.1 ≡ option_map (λ s. s.now) catalog.entry) }
    ensures code { IfOk result (λ x. x.2 ≡ option_map (λ s. s.now) code.entry) }
    ensures job { IfOk result (λ x. x.3 ≡ option_map (λ s. s.now) job.entry) }
{
    let transaction = own_optional(alloc, transaction)?;
    let catalog = own_optional(alloc, catalog)?;
    let code = own_optional(alloc, code)?;
    let job = own_optional(alloc, job)?;
    Ok((transaction, catalog, code, job))
}

#[tactic(auto, unfolding(crate::specs::Changes::catalog_at))]
pub(crate) fn take_catalog(
    alloc: Global,
    bytes: &[u8],
) -> Result<Option<(CatalogChange, &[u8])>, AllocError>
    ensures { IfOk result (λ o. Shows (λ x. (x.0, x.1.now)) o (catalog_at bytes.now)) }
{
    let Some((certname, version, environment, rest)) = take_head(bytes) else {
        return Ok(None);
    };
    let Some((transaction, catalog, code, job, rest)) = take_marks(rest) else {
        return Ok(None);
    };
    let Some((stamp, rest)) = take_moment(rest) else {
        return Ok(None);
    };
    let Some((producer, rest)) = take_optional_text(rest) else {
        return Ok(None);
    };
    let Some((edges, rest)) = take_distinct_edges(alloc, rest)? else {
        return Ok(None);
    };
    let Some((resources, rest)) = take_distinct_resources(alloc, rest)? else {
        return Ok(None);
    };
    let (certname, version, environment) = own_head(alloc, certname, version, environment)?;
    let (transaction_uuid, catalog_uuid, code_id, job_id) = own_marks(
        alloc,
        transaction,
        catalog,
        code,
        job,
    )?;
    let change = CatalogChange {
        certname,
        version,
        environment,
        transaction_uuid,
        catalog_uuid,
        code_id,
        job_id,
        stamp,
        producer: own_optional(alloc, producer)?,
        edges,
        resources,
    };
    Ok(Some((change, rest)))
}
