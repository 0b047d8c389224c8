//! Finds where the sought facts or resources of a node begin and end, among its facts by name or its resources by type and title.
//!
//! Where the order of the rows is computed, a binary search finds both ends. Otherwise all facts or resources are compared once
//! for each end: as many rows stand before the sought ones as there are below them, in whatever order they are stored.
ghost use Rattle.std.specs.Prelude.{◌≡◌, ◌<◌, length, slice_get, Some, option_map};
ghost use Rattle.checkpoint_spec.specs.fleet_rows.declared.change.Change.TheVariants as changes;
ghost use Rattle.checkpoint_spec.specs.table_spec.Rows.{fact_rows, resource_rows};
ghost use Rattle.kept_nodes.specs.Kept.{IsFactset, IsFactOrder, IsCatalog, IsResourceOrder};
ghost use Rattle.kept_nodes.specs.Runs.{as_one, is_before, name_rank, number, resource_rank};
ghost use Rattle.kept_nodes.specs.Spans.{IsSpanOf};
ghost use Rattle.kept_nodes.specs.Wanted.{has_name, has_resource, text_in};

use crate::kept::{Factset, NodeCatalog};
use crate::wanted::Span;
use fleet_rows::json_tree::{Members, Text};
use fleet_rows::{FactsChange, Resource};
use packed_shown::PackedOrder;
use std::cmp::Ordering;

// Whether something of this rank is below the sought, or with `past` not above it.
fn stands_before(rank: Ordering, past: bool) -> bool
    ensures { result ≡ is_before past rank }
{
    if past { rank.is_le() } else { rank.is_lt() }
}

fn as_one(counted: bool) -> usize
    ensures { result ≡ as_one counted }
{
    if counted { 1 } else { 0 }
}

// ---- facts

fn fact_rank(values: &Members, at: usize, name: &str) -> Ordering
    requires { at < length values.now }
    ensures { option_map (name_rank name.now) (slice_get values.now at) ≡ Some result }
{
    let (found, _value) = values.pair(at);
    found.as_str().cmp(name)
}

// The number of facts below the name, or with `past` not above it. `order` has their indices by name.
fn facts_before(change: &FactsChange, order: &PackedOrder, name: &str, past: bool) -> usize
    requires { IsFactOrder order.now change.now }
    ensures { result ≡ number (λ fact. is_before past (name_rank name.now fact)) change.now.values }
{
    let mut low = 0;
    let mut high = order.len();
    'halves: while low < high {
        let middle = low + (high - low) / 2;
        let place = order.at(middle);
        if stands_before(fact_rank(&change.values, place, name), past) {
            low = middle + 1;
        } else {
            high = middle;
        }
    }
    low
}

// The same without their order.
fn facts_counted(values: &Members, name: &str, past: bool) -> usize
    ensures { result ≡ number (λ fact. is_before past (name_rank name.now fact)) values.now }
{
    let mut before = 0;
    'facts: for at in 0..values.len() {
        before += as_one(stands_before(fact_rank(values, at, name), past));
    }
    before
}

impl Factset {
    fn facts_ahead(&self, name: &str, past: bool) -> usize
        requires { IsFactset self.now }
        ensures { result ≡ number (λ fact. is_before past (name_rank name.now fact)) self.now.change.values }
    {
        match &self.shown.order {
            Some(order) => facts_before(&self.change, order, name, past),
            None => facts_counted(&self.change.values, name, past),
        }
    }

    /// Where the facts with this name stand among the rows of the facts.
    pub(crate) fn named_span(&self, name: &str) -> Span
        requires { IsFactset self.now }
        ensures { IsSpanOf (has_name (Some name.now)) (fact_rows (changes.Facts self.now.change)) result }
    {
        let from = self.facts_ahead(name, false);
        let to = self.facts_ahead(name, true);
        Span {
            from,
            count: to - from,
        }
    }
}

// ---- resources

fn resource_rank(resource: &Resource, rtype: &str, title: Option<&Text>) -> Ordering
    ensures { result ≡ resource_rank rtype.now (text_in title.entry) resource.now }
{
    match title {
        Some(title) => match resource.rtype.as_str().cmp(rtype) {
            Ordering::Equal => resource.title.as_str().cmp(title.as_str()),
            unequal => unequal,
        },
        None => resource.rtype.as_str().cmp(rtype),
    }
}

// The number of resources below the sought, or with `past` not above it. `order` has their indices by type and title.
fn resources_before(
    resources: &[Resource],
    order: &PackedOrder,
    rtype: &str,
    title: Option<&Text>,
    past: bool,
) -> usize
    requires { IsResourceOrder order.now resources.now }
    ensures { result ≡ number (λ resource. is_before past (resource_rank rtype.now (text_in title.entry) resource)) resources.now }
{
    let mut low = 0;
    let mut high = order.len();
    'halves: while low < high {
        let middle = low + (high - low) / 2;
        let place = order.at(middle);
        if stands_before(resource_rank(&resources[place], rtype, title), past) {
            low = middle + 1;
        } else {
            high = middle;
        }
    }
    low
}

// The same without their order.
fn resources_counted(resources: &[Resource], rtype: &str, title: Option<&Text>, past: bool) -> usize
    ensures { result ≡ number (λ resource. is_before past (resource_rank rtype.now (text_in title.entry) resource)) resources.now }
{
    let mut before = 0;
    'resources: for at in 0..resources.len() {
        before += as_one(stands_before(resource_rank(&resources[at], rtype, title), past));
    }
    before
}

impl NodeCatalog {
    fn resources_ahead(&self, rtype: &str, title: Option<&Text>, past: bool) -> usize
        requires { IsCatalog self.now }
        ensures { result ≡ number (λ resource. is_before past (resource_rank rtype.now (text_in title.entry) resource)) self.now.change.resources }
    {
        let resources = self.change.resources.as_slice();
        match &self.shown.resources {
            Some(shown) => resources_before(resources, &shown.order, rtype, title, past),
            None => resources_counted(resources, rtype, title, past),
        }
    }

    /// Where the resources of this type, and with this title if one is given, stand among the rows of the resources.
    pub(crate) fn typed_span(&self, rtype: &str, title: Option<&Text>) -> Span
        requires { IsCatalog self.now }
        ensures { IsSpanOf (has_resource (Some rtype.now) (text_in title.entry)) (resource_rows (changes.Catalog self.now.change)) result }
    {
        let from = self.resources_ahead(rtype, title, false);
        let to = self.resources_ahead(rtype, title, true);
        Span {
            from,
            count: to - from,
        }
    }
}
