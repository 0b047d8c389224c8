//! Decodes edges and resources of catalogs.
ghost use Rattle.std.specs.Prelude.{◌≡◌, Option, IfOk};
ghost use Rattle.std.specs.Option.{option_map};
ghost use Rattle.record_fields.specs.Reading.{Shows};
ghost use Rattle.change_reader.specs.Relationships.{relationship_named, relationship_at};
ghost use Rattle.record_values.specs.Lists.{items_at, list_at};
ghost use Rattle.change_reader.specs.Changes.{make_name, make_edge, edge_at, resource_at};

use json_read::json_tree::Text;
use record_fields::{take_bool, take_text, take_u32};
use record_values::{
    own_optional, take_members, take_optional_text, take_optional_whole, take_tags,
};
use std::alloc::{AllocError, Global};
use wire_catalog::fleet_rows::{Edge, Edges, Relationship, Resource, ResourceName, Resources};

fn relationship_named(name: &str) -> Option<Relationship>
    ensures { result ≡ relationship_named name.now }
{
    match name {
        "contains" => Some(Relationship::Contains),
        "before" => Some(Relationship::Before),
        "required-by" => Some(Relationship::RequiredBy),
        "notifies" => Some(Relationship::Notifies),
        "subscription-of" => Some(Relationship::SubscriptionOf),
        _ => None,
    }
}

#[tactic(auto, unfolding(crate::specs::Relationships::relationship_at))]
fn take_relationship(bytes: &[u8]) -> Option<(Relationship, &[u8])>
    ensures { Shows (λ x. (x.0, x.1.now)) result (relationship_at bytes.now) }
{
    let (name, rest) = take_text(bytes)?;
    let relationship = relationship_named(name)?;
    Some((relationship, rest))
}

// Reads the parts of an edge: the source's type and title, the target's type and title, and the relationship.
#[tactic(auto, unfolding(crate::specs::Changes::edge_at))]
fn edge_parts(bytes: &[u8]) -> Option<(&str, &str, &str, &str, Relationship, &[u8])>
    ensures { Shows (λ x. (make_edge (x.0.now, (x.1.now, (x.2.now, (x.3.now, x.4)))), x.5.now)) result (edge_at bytes.now) }
{
    let (source_type, rest) = take_text(bytes)?;
    let (source_title, rest) = take_text(rest)?;
    let (target_type, rest) = take_text(rest)?;
    let (target_title, rest) = take_text(rest)?;
    let (relationship, rest) = take_relationship(rest)?;
    Some((
        source_type,
        source_title,
        target_type,
        target_title,
        relationship,
        rest,
    ))
}

fn named(alloc: Global, rtype: &str, title: &str) -> Result<ResourceName, AllocError>
    ensures { IfOk result (λ n. n ≡ make_name (rtype.now, title.now)) }
{
    Ok(ResourceName {
        rtype: Text::from_str(alloc, rtype)?,
        title: Text::from_str(alloc, title)?,
    })
}

fn take_edge(alloc: Global, bytes: &[u8]) -> Result<Option<(Edge, &[u8])>, AllocError>
    ensures { IfOk result (λ o. Shows (λ x. (x.0, x.1.now)) o (edge_at bytes.now)) }
{
    let Some((source_type, source_title, target_type, target_title, relationship, rest)) =
        edge_parts(bytes) else {
        return Ok(None);
    };
    let edge = Edge {
        source: named(alloc, source_type, source_title)?,
        target: named(alloc, target_type, target_title)?,
        relationship,
    };
    Ok(Some((edge, rest)))
}

#[tactic(auto, unfolding(crate::specs::Changes::resource_at))]
fn take_resource(alloc: Global, bytes: &[u8]) -> Result<Option<(Resource, &[u8])>, AllocError>
    ensures { IfOk result (λ o. Shows (λ x. (x.0, x.1.now)) o (resource_at bytes.now)) }
{
    let Some((rtype, rest)) = take_text(bytes) else {
        return Ok(None);
    };
    let Some((title, rest)) = take_text(rest) else {
        return Ok(None);
    };
    let Some((exported, rest)) = take_bool(rest) else {
        return Ok(None);
    };
    let Some((file, rest)) = take_optional_text(rest) else {
        return Ok(None);
    };
    let Some((line, rest)) = take_optional_whole(rest) else {
        return Ok(None);
    };
    let Some((tags, rest)) = take_tags(alloc, rest)? else {
        return Ok(None);
    };
    let Some((parameters, rest)) = take_members(alloc, 124, rest)? else {
        return Ok(None);
    };
    let resource = Resource {
        rtype: Text::from_str(alloc, rtype)?,
        title: Text::from_str(alloc, title)?,
        exported,
        file: own_optional(alloc, file)?,
        line,
        tags,
        parameters,
    };
    Ok(Some((resource, rest)))
}

#[tactic(auto, using(crate::proofs::Lists::none_before, crate::proofs::Lists::step_read, crate::proofs::Lists::fail_read, crate::proofs::Lists::done_read))]
fn edges_of(alloc: Global, count: u32, bytes: &[u8]) -> Result<Option<(Edges, &[u8])>, AllocError>
    ensures { IfOk result (λ o. Shows (λ x. (x.0, x.1.now)) o (items_at edge_at count bytes.now)) }
{
    // (an edge takes 17 bytes at least)
    let mut done = Edges::with_capacity(alloc, (count as usize).min(bytes.len() / 17))?;
    let mut left = count;
    let mut rest = bytes;
    'reading: while left > 0 {
        match take_edge(alloc, rest)? {
            None => return Ok(None),
            Some((edge, behind)) => {
                done.push(edge)?;
                rest = behind;
            }
        }
        left -= 1;
    }
    Ok(Some((done, rest)))
}

#[tactic(auto, unfolding(record_values::specs::Lists::list_at))]
pub(crate) fn take_edges(alloc: Global, bytes: &[u8]) -> Result<Option<(Edges, &[u8])>, AllocError>
    ensures { IfOk result (λ o. Shows (λ x. (x.0, x.1.now)) o (list_at edge_at bytes.now)) }
{
    let Some((count, rest)) = take_u32(bytes) else {
        return Ok(None);
    };
    edges_of(alloc, count, rest)
}

#[tactic(auto, using(crate::proofs::Lists::none_before, crate::proofs::Lists::step_read, crate::proofs::Lists::fail_read, crate::proofs::Lists::done_read))]
fn resources_of(
    alloc: Global,
    count: u32,
    bytes: &[u8],
) -> Result<Option<(Resources, &[u8])>, AllocError>
    ensures { IfOk result (λ o. Shows (λ x. (x.0, x.1.now)) o (items_at resource_at count bytes.now)) }
{
    // (a resource takes 18 bytes at least)
    let mut done = Resources::with_capacity(alloc, (count as usize).min(bytes.len() / 18))?;
    let mut left = count;
    let mut rest = bytes;
    'reading: while left > 0 {
        match take_resource(alloc, rest)? {
            None => return Ok(None),
            Some((resource, behind)) => {
                done.push(resource)?;
                rest = behind;
            }
        }
        left -= 1;
    }
    Ok(Some((done, rest)))
}

#[tactic(auto, unfolding(record_values::specs::Lists::list_at))]
pub(crate) fn take_resources(
    alloc: Global,
    bytes: &[u8],
) -> Result<Option<(Resources, &[u8])>, AllocError>
    ensures { IfOk result (λ o. Shows (λ x. (x.0, x.1.now)) o (list_at resource_at bytes.now)) }
{
    let Some((count, rest)) = take_u32(bytes) else {
        return Ok(None);
    };
    resources_of(alloc, count, rest)
}
