//! Finds where the sought rows of one node stand: among its own rows, among those of its group, and among all rows.
ghost use Rattle.std.specs.Prelude.{◌≡◌, ◌≤◌, ℤ, length, take, Option};
ghost use Rattle.std.specs.List.{AllByRecursion};
ghost use Rattle.checkpoint_spec.specs.fleet_rows.declared.settings.Ttls.{Ttls};
ghost use Rattle.checkpoint_spec.specs.table_machine.Rows.{table_rows};
ghost use Rattle.kept_nodes.specs.Counted.{none, AreCountedFrom};
ghost use Rattle.fleet_tables.specs.Groups.{joined, rows_of, AreFew, AreFilledOrOne, StandInOrder};
ghost use Rattle.kept_nodes.specs.Kept.{IsNode};
ghost use Rattle.kept_nodes.specs.Owned.{IsOwn};
ghost use Rattle.kept_nodes.specs.Places.{nodes_in, seen_in, InOrder};
ghost use Rattle.kept_nodes.specs.Spans.{IsSpanOf};
ghost use Rattle.kept_nodes.specs.Wanted.{is_of_node, texts_of};

use crate::group::Group;
use crate::groups::group_of;
use crate::state::State;
use fleet_rows::Entity;
use kept_nodes::{Node, Span, Wanted, place_of};

impl Group {
    /// Where the sought rows of the node with this certname stand among the group's rows.
    pub(crate) fn span_of(&self, entity: Entity, certname: &str, sought: &Wanted<'_>) -> Span
        requires { AllByRecursion IsOwn self.now }
        ensures { (ttls : Ttls) (expiry : Option ℤ)
            → IsSpanOf (is_of_node entity certname.now (texts_of sought.now)) (rows_of entity ttls expiry self.now) result }
    {
        span_in(self.nodes.as_slice(), entity, certname, sought)
    }
}

fn span_in(nodes: &[Box<Node>], entity: Entity, certname: &str, sought: &Wanted<'_>) -> Span
    requires kept { AllByRecursion IsNode (nodes_in nodes.now) }
    requires order { InOrder (nodes_in nodes.now) }
    requires counted { AreCountedFrom none (nodes_in nodes.now) }
    requires few { AreFew (seen_in nodes.now) }
    requires own { AllByRecursion IsOwn (seen_in nodes.now) }
    ensures { (ttls : Ttls) (expiry : Option ℤ)
        → IsSpanOf (is_of_node entity certname.now (texts_of sought.now)) (rows_of entity ttls expiry (seen_in nodes.now)) result }
{
    match place_of(nodes, certname) {
        Ok(at) => {
            let node = &nodes[at];
            node.span(entity, sought).behind(node.before.of(entity))
        }
        Err(_) => Span::empty(),
    }
}

// The number of rows of an entity that the groups before this one have.
fn rows_before(groups: &[Group], at: usize, entity: Entity) -> usize
    requires within { at ≤ length groups.now }
    requires few { AreFew (joined groups.now) }
    ensures { (ttls : Ttls) (expiry : Option ℤ) → result ≡ length (rows_of entity ttls expiry (joined (take at groups.now))) }
{
    let mut before = 0;
    'passing: for passed in 0..at {
        before += groups[passed].count(entity);
    }
    before
}

// Where the sought rows of the node with this certname stand among all rows.
fn span_among(groups: &[Group], entity: Entity, certname: &str, sought: &Wanted<'_>) -> Span
    requires filled { AreFilledOrOne groups.now }
    requires order { StandInOrder (joined groups.now) }
    requires few { AreFew (joined groups.now) }
    requires own { AllByRecursion IsOwn (joined groups.now) }
    ensures { (ttls : Ttls) (expiry : Option ℤ)
        → IsSpanOf (is_of_node entity certname.now (texts_of sought.now)) (rows_of entity ttls expiry (joined groups.now)) result }
{
    if groups.is_empty() {
        return Span::empty();
    }
    let at = group_of(groups, certname);
    let before = rows_before(groups, at, entity);
    groups[at].span_of(entity, certname, sought).behind(before)
}

impl State {
    /// Where the sought rows of the node with this certname stand among the rows of this entity.
    pub(crate) fn sought_span(&self, entity: Entity, certname: &str, sought: &Wanted<'_>) -> Span
        ensures { IsSpanOf (is_of_node entity certname.now (texts_of sought.now)) (table_rows entity self.now) result }
    {
        span_among(self.groups.as_slice(), entity, certname, sought)
    }
}
