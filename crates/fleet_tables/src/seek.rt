//! Finds the places of all rows that are sought, without reading a row.
ghost use Rattle.std.specs.Prelude.{◌≡◌, ◌++◌, ◌+◌, ◌<◌, ◌^◌, ℤ, length, Option, Ok, IfOk, OnOk};
ghost use Rattle.std.specs.List.{AllByRecursion};
ghost use Rattle.checkpoint_spec.specs.fleet_rows.declared.settings.Ttls.{Ttls};
ghost use Rattle.checkpoint_spec.specs.table_machine.Rows.{table_rows};
ghost use Rattle.fleet_tables.specs.Groups.{joined, rows_of, AreFew};
ghost use Rattle.kept_nodes.specs.Kept.{IsNode};
ghost use Rattle.kept_nodes.specs.Places.{nodes_in, seen_in};
ghost use Rattle.kept_nodes.specs.Runs.{number};
ghost use Rattle.kept_nodes.specs.Spans.{neighbours, places_from, places_of, IsNthPlace};
ghost use Rattle.kept_nodes.specs.Wanted.{has_own, is_wanted, texts_of};

use crate::group::Group;
use crate::state::State;
use fleet_rows::Entity;
use kept_nodes::{Node, Span, Wanted};
use std::alloc::{AllocError, Global};

// Appends neighbouring places.
fn push_neighbours(places: &mut Vec<usize>, span: Span) -> Result<(), AllocError>
    requires { span.from + span.count < 2 ^ 64 }
    ensures { OnOk result (places.new.items ≡ places.old.items ++ neighbours span.from span.count) }
{
    'pushing: for place in span.from..span.from + span.count {
        places.push(place)?;
    }
    Ok(())
}

// ---- the nodes of a group

// Appends the places of the sought rows of these nodes. `before` is the place of their first row.
fn push_nodes(
    nodes: &[Box<Node>],
    before: usize,
    entity: Entity,
    sought: &Wanted<'_>,
    places: &mut Vec<usize>,
) -> Result<(), AllocError>
    requires kept { AllByRecursion IsNode (nodes_in nodes.now) }
    requires few { (ttls : Ttls) (expiry : Option ℤ) → before + length (rows_of entity ttls expiry (seen_in nodes.now)) < 2 ^ 64 }
    ensures { OnOk result ((ttls : Ttls) (expiry : Option ℤ)
        → places.new.items ≡ places.old.items ++ places_from before (has_own entity (texts_of sought.now)) (rows_of entity ttls expiry (seen_in nodes.now))) }
{
    let mut before = before;
    'walking: for node in nodes {
        push_neighbours(places, node.span(entity, sought).behind(before))?;
        before += node.number_of(entity);
    }
    Ok(())
}

// The number of the sought rows of these nodes.
fn count_nodes(nodes: &[Box<Node>], entity: Entity, sought: &Wanted<'_>) -> usize
    requires kept { AllByRecursion IsNode (nodes_in nodes.now) }
    requires few { (ttls : Ttls) (expiry : Option ℤ) → length (rows_of entity ttls expiry (seen_in nodes.now)) < 2 ^ 64 }
    ensures { (ttls : Ttls) (expiry : Option ℤ) → result ≡ number (has_own entity (texts_of sought.now)) (rows_of entity ttls expiry (seen_in nodes.now)) }
{
    let mut count = 0;
    'walking: for node in nodes {
        count += node.span(entity, sought).count;
    }
    count
}

// Ok: place i of the sought rows of these nodes. Err: what is left of i behind them. `before` is the place of their first row.
fn place_in_nodes(
    nodes: &[Box<Node>],
    before: usize,
    entity: Entity,
    sought: &Wanted<'_>,
    i: usize,
) -> Result<usize, usize>
    requires kept { AllByRecursion IsNode (nodes_in nodes.now) }
    requires few { (ttls : Ttls) (expiry : Option ℤ) → before + length (rows_of entity ttls expiry (seen_in nodes.now)) < 2 ^ 64 }
    ensures { (ttls : Ttls) (expiry : Option ℤ)
        → IsNthPlace before (has_own entity (texts_of sought.now)) (rows_of entity ttls expiry (seen_in nodes.now)) i result }
{
    let mut before = before;
    let mut left = i;
    'walking: for node in nodes {
        let span = node.span(entity, sought);
        if left < span.count {
            return Ok(before + span.from + left);
        }
        left -= span.count;
        before += node.number_of(entity);
    }
    Err(left)
}

impl Group {
    // Appends the places of the group's sought rows. `before` is the place of its first row.
    fn push_sought(
        &self,
        before: usize,
        entity: Entity,
        sought: &Wanted<'_>,
        places: &mut Vec<usize>,
    ) -> Result<(), AllocError>
        requires { (ttls : Ttls) (expiry : Option ℤ) → before + length (rows_of entity ttls expiry self.now) < 2 ^ 64 }
        ensures { OnOk result ((ttls : Ttls) (expiry : Option ℤ)
            → places.new.items ≡ places.old.items ++ places_from before (has_own entity (texts_of sought.now)) (rows_of entity ttls expiry self.now)) }
    {
        push_nodes(self.nodes.as_slice(), before, entity, sought, places)
    }

    // The number of the group's sought rows.
    fn sought_count(&self, entity: Entity, sought: &Wanted<'_>) -> usize
        requires { (ttls : Ttls) (expiry : Option ℤ) → length (rows_of entity ttls expiry self.now) < 2 ^ 64 }
        ensures { (ttls : Ttls) (expiry : Option ℤ) → result ≡ number (has_own entity (texts_of sought.now)) (rows_of entity ttls expiry self.now) }
    {
        count_nodes(self.nodes.as_slice(), entity, sought)
    }

    // Ok: place i of the group's sought rows. Err: what is left of i behind them. `before` is the place of its first row.
    fn sought_place(
        &self,
        before: usize,
        entity: Entity,
        sought: &Wanted<'_>,
        i: usize,
    ) -> Result<usize, usize>
        requires { (ttls : Ttls) (expiry : Option ℤ) → before + length (rows_of entity ttls expiry self.now) < 2 ^ 64 }
        ensures { (ttls : Ttls) (expiry : Option ℤ)
            → IsNthPlace before (has_own entity (texts_of sought.now)) (rows_of entity ttls expiry self.now) i result }
    {
        place_in_nodes(self.nodes.as_slice(), before, entity, sought, i)
    }
}

// ---- all groups

fn push_groups(
    groups: &[Group],
    entity: Entity,
    sought: &Wanted<'_>,
    places: &mut Vec<usize>,
) -> Result<(), AllocError>
    requires { AreFew (joined groups.now) }
    ensures { OnOk result ((ttls : Ttls) (expiry : Option ℤ)
        → places.new.items ≡ places.old.items ++ places_from 0 (has_own entity (texts_of sought.now)) (rows_of entity ttls expiry (joined groups.now))) }
{
    let mut before = 0;
    'walking: for group in groups {
        group.push_sought(before, entity, sought, places)?;
        before += group.count(entity);
    }
    Ok(())
}

fn count_groups(groups: &[Group], entity: Entity, sought: &Wanted<'_>) -> usize
    requires { AreFew (joined groups.now) }
    ensures { (ttls : Ttls) (expiry : Option ℤ) → result ≡ number (has_own entity (texts_of sought.now)) (rows_of entity ttls expiry (joined groups.now)) }
{
    let mut count = 0;
    'walking: for group in groups {
        count += group.sought_count(entity, sought);
    }
    count
}

// Ok: place i of the sought rows. Err: what is left of i behind them.
fn place_in_groups(
    groups: &[Group],
    entity: Entity,
    sought: &Wanted<'_>,
    i: usize,
) -> Result<usize, usize>
    requires { AreFew (joined groups.now) }
    ensures { (ttls : Ttls) (expiry : Option ℤ)
        → IsNthPlace 0 (has_own entity (texts_of sought.now)) (rows_of entity ttls expiry (joined groups.now)) i result }
{
    let mut before = 0;
    let mut left = i;
    'walking: for group in groups {
        match group.sought_place(before, entity, sought, left) {
            Ok(place) => return Ok(place),
            Err(rest) => left = rest,
        }
        before += group.count(entity);
    }
    Err(left)
}

fn places_in_span(alloc: Global, span: Span) -> Result<Vec<usize>, AllocError>
    requires { span.from + span.count < 2 ^ 64 }
    ensures { IfOk result (λ places. places.items ≡ neighbours span.from span.count) }
{
    let mut places = Vec::new(alloc);
    push_neighbours(&mut places, span)?;
    Ok(places)
}

fn places_in_groups(
    alloc: Global,
    groups: &[Group],
    entity: Entity,
    sought: &Wanted<'_>,
) -> Result<Vec<usize>, AllocError>
    requires { AreFew (joined groups.now) }
    ensures { IfOk result (λ places. (ttls : Ttls) (expiry : Option ℤ)
        → places.items ≡ places_from 0 (has_own entity (texts_of sought.now)) (rows_of entity ttls expiry (joined groups.now))) }
{
    let mut places = Vec::new(alloc);
    push_groups(groups, entity, sought, &mut places)?;
    Ok(places)
}

impl State {
    /// The places of the sought rows, in order.
    pub(crate) fn seek(
        &self,
        alloc: Global,
        entity: Entity,
        sought: &Wanted<'_>,
    ) -> Result<Vec<usize>, AllocError>
        ensures { IfOk result (λ places. places.items ≡ places_of (is_wanted entity (texts_of sought.now)) (table_rows entity self.now)) }
    {
        match sought.certname {
            Some(certname) => { places_in_span(alloc, self.sought_span(entity, certname, sought)) }
            None => places_in_groups(alloc, self.groups.as_slice(), entity, sought),
        }
    }

    /// The number of the rows that are sought by their own texts, whatever their certname.
    pub(crate) fn sought_number(&self, entity: Entity, sought: &Wanted<'_>) -> usize
        ensures { result ≡ number (has_own entity (texts_of sought.now)) (table_rows entity self.now) }
    {
        count_groups(self.groups.as_slice(), entity, sought)
    }

    /// Place i of these rows.
    pub(crate) fn sought_at(&self, entity: Entity, sought: &Wanted<'_>, i: usize) -> usize
        requires { i < number (has_own entity (texts_of sought.now)) (table_rows entity self.now) }
        ensures { IsNthPlace 0 (has_own entity (texts_of sought.now)) (table_rows entity self.now) i (Ok result) }
    {
        match place_in_groups(self.groups.as_slice(), entity, sought, i) {
            Ok(place) => place,
            Err(_) => unreachable!(),
        }
    }
}
