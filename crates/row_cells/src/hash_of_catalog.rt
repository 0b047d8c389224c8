//! Computes the hash of a catalog, from the hashes of its resources and from its edges, both in the order of their rows.
ghost use Rattle.std.specs.Prelude.{◌≡◌, ◌++◌, Some, IfOk, OnOk, map, slice_get, codes, true, false};
ghost use Rattle.table_spec.specs.text_spec.Json.{array, items_of};
ghost use Rattle.table_spec.specs.text_spec.Compact.{canonical};
ghost use Rattle.table_spec.specs.stamp_time.Range.{IsPrintable};
ghost use Rattle.table_spec.specs.Cells.{hash, tags_value, resource_object, edge_texts, catalog_object};
ghost use Rattle.table_spec.specs.Sorted.{sorted_by, resource_cmp, edge_cmp};
ghost use Rattle.row_cells.specs.Catalogs.{edges_value, before_edges, behind_edges};
ghost use Rattle.row_cells.specs.Texts.{member_text, members_text};

use crate::hash::resource_hash_by;
use crate::order::in_order;
use crate::relationship::edge_name;
use crate::shown::Shown;
use crate::text::{put_columns, put_comma, put_name};
use std::alloc::{AllocError, Global};
use table_spec::fleet_rows::{CatalogChange, Edge, Resource, sha1_hex};
use table_spec::json_tree::{Text, append_quoted};

/// The hashes of the resources in the order of their rows. `places` is the result of `resource_order`.
pub fn resource_hashes(
    alloc: Global,
    resources: &[Resource],
    places: &[usize],
) -> Result<Vec<Text>, AllocError>
    requires { map (slice_get resources.now) places.now ≡ map Some (sorted_by resource_cmp resources.now) }
    ensures { IfOk result (λ v. v.items ≡ map (λ r. hash (resource_object r)) (sorted_by resource_cmp resources.now)) }
{
    let ordered = in_order(alloc, resources, places)?;
    digests(alloc, ordered.as_slice())
}

/// The hash of a node's catalog: the SHA-1 of a canonical text, as 40 hexadecimal digits. The text has the catalog's other
/// columns, its resources' hashes and its edges. `digests` is the result of `resource_hashes`, `edge_places` that of
/// `edge_order`.
pub fn catalog_hash(
    alloc: Global,
    change: &CatalogChange,
    digests: &[Text],
    edge_places: &[usize],
) -> Result<Text, AllocError>
    requires moment { IsPrintable change.now.stamp }
    requires digests { digests.now ≡ map (λ r. hash (resource_object r)) (sorted_by resource_cmp change.now.resources) }
    requires edges { map (slice_get change.now.edges) edge_places.now ≡ map Some (sorted_by edge_cmp change.now.edges) }
    ensures { IfOk result (λ digest. digest ≡ hash (catalog_object change.now)) }
{
    let edges = in_order(alloc, change.edges.as_slice(), edge_places)?;
    let mut text = Vec::new(alloc);
    put_catalog(alloc, &mut text, change, digests, edges.as_slice())?;
    sha1_hex(alloc, text.as_slice())
}

// All texts are written into the same buffer, one after the other.
fn digests(alloc: Global, resources: &[&Resource]) -> Result<Vec<Text>, AllocError>
    ensures { IfOk result (λ v. v.items ≡ map (λ r. hash (resource_object r.now)) resources.now) }
{
    let mut digests = Vec::with_capacity(alloc, resources.len())?;
    let mut text = Vec::new(alloc);
    for resource in resources {
        digests.push(resource_hash_by(alloc, &mut text, resource)?)?;
    }
    Ok(digests)
}

fn put_catalog(
    alloc: Global,
    out: &mut Vec<u8>,
    change: &CatalogChange,
    digests: &[Text],
    edges: &[&Edge],
) -> Result<(), AllocError>
    requires moment { IsPrintable change.now.stamp }
    requires digests { digests.now ≡ map (λ r. hash (resource_object r)) (sorted_by resource_cmp change.now.resources) }
    requires edges { map (λ e. e.now) edges.now ≡ sorted_by edge_cmp change.now.edges }
    ensures { OnOk result (out.new.items ≡ out.old.items ++ canonical (catalog_object change.now)) }
{
    out.push(b'{')?;
    put_before_edges(alloc, out, change)?;
    put_edges(out, edges)?;
    put_behind_edges(alloc, out, change, digests)?;
    out.push(b'}')?;
    Ok(())
}

fn put_before_edges(
    alloc: Global,
    out: &mut Vec<u8>,
    change: &CatalogChange,
) -> Result<(), AllocError>
    ensures { OnOk result (out.new.items ≡ out.old.items ++ members_text false (before_edges change.now)) }
{
    put_columns(
        alloc,
        out,
        false,
        &[
            ("catalog_uuid", Shown::OptionalText(&change.catalog_uuid)),
            ("certname", Shown::Text(&change.certname)),
            ("code_id", Shown::OptionalText(&change.code_id)),
        ],
    )
}

fn put_behind_edges<'a>(
    alloc: Global,
    out: &mut Vec<u8>,
    change: &'a CatalogChange,
    digests: &'a [Text],
) -> Result<(), AllocError>
    requires { IsPrintable change.now.stamp }
    ensures { OnOk result (out.new.items ≡ out.old.items ++ members_text true (behind_edges change.now (tags_value digests.now))) }
{
    put_columns(
        alloc,
        out,
        true,
        &[
            ("environment", Shown::OptionalText(&change.environment)),
            ("job_id", Shown::OptionalText(&change.job_id)),
            ("producer", Shown::OptionalText(&change.producer)),
            ("producer_timestamp", Shown::Stamp(change.stamp)),
            ("resources", Shown::Tags(digests)),
            (
                "transaction_uuid",
                Shown::OptionalText(&change.transaction_uuid),
            ),
            ("version", Shown::Text(&change.version)),
        ],
    )
}

// Appends the edges as a member that follows others.
fn put_edges(out: &mut Vec<u8>, edges: &[&Edge]) -> Result<(), AllocError>
    ensures { OnOk result (out.new.items
        ≡ out.old.items ++ member_text true (codes "edges") (edges_value (map (λ e. e.now) edges.now))) }
{
    put_name(out, true, "edges")?;
    put_edge_list(out, edges)
}

fn put_edge_list(out: &mut Vec<u8>, edges: &[&Edge]) -> Result<(), AllocError>
    ensures { OnOk result (out.new.items ≡ out.old.items ++ canonical (edges_value (map (λ e. e.now) edges.now))) }
{
    out.push(b'[')?;
    let mut later = false;
    for edge in edges {
        put_comma(out, later)?;
        put_edge(out, edge)?;
        later = true;
    }
    out.push(b']')?;
    Ok(())
}

fn put_edge<'a>(out: &mut Vec<u8>, edge: &'a Edge) -> Result<(), AllocError>
    ensures { OnOk result (out.new.items ≡ out.old.items ++ canonical (edge_texts edge.now)) }
{
    put_words(
        out,
        &[
            edge.source.rtype.as_str(),
            edge.source.title.as_str(),
            edge.target.rtype.as_str(),
            edge.target.title.as_str(),
            edge_name(edge),
        ],
    )
}

fn put_words(out: &mut Vec<u8>, words: &[&str]) -> Result<(), AllocError>
    ensures { OnOk result (out.new.items ≡ out.old.items ++ canonical (tags_value (map (λ w. w.now) words.now))) }
{
    out.push(b'[')?;
    let mut later = false;
    for word in words {
        put_comma(out, later)?;
        append_quoted(out, word)?;
        later = true;
    }
    out.push(b']')?;
    Ok(())
}
