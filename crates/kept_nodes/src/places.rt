//! Finds nodes and rows in a group.
ghost use Rattle.std.specs.Prelude.{◌≡◌, ◌<◌, ◌≤◌, ◌+◌, length, map, take, slice_get, Some};
ghost use Rattle.std.specs.List.{AllByRecursion};
ghost use Rattle.std.specs.List.Sorted.{IsStrictlySortedBy};
ghost use Rattle.checkpoint_spec.specs.table_machine.Table.{node_cmp};
ghost use Rattle.kept_nodes.specs.Counted.{none, counts, count_of, total_from, AreCountedFrom, IsWithin};
ghost use Rattle.kept_nodes.specs.Kept.{IsNode, AreNodes};
ghost use Rattle.kept_nodes.specs.Places.{IsPlaceOf, InOrder, nodes_in, seen_in, recounted, HasRow};
ghost use Rattle.kept_nodes.specs.Seen.{node_seen};
ghost use Rattle.kept_nodes.specs.declared.node.Node.{Node};

use crate::counts::Counts;
use crate::node::Node;
use fleet_rows::Entity;
use std::cmp::Ordering;

/// Ok: the index of the node with this certname. Err: the index at which it would be inserted.
pub fn place_of(nodes: &[Box<Node>], certname: &str) -> Result<usize, usize>
    requires { IsStrictlySortedBy node_cmp (map node_seen (nodes_in nodes.now)) }
    ensures { IsPlaceOf certname.now (nodes_in nodes.now) result }
{
    let mut low = 0;
    let mut high = nodes.len();
    'halves: while low < high {
        let middle = low + (high - low) / 2;
        match nodes[middle].certname.as_str().cmp(certname) {
            Ordering::Less => low = middle + 1,
            Ordering::Equal => return Ok(middle),
            Ordering::Greater => high = middle,
        }
    }
    Err(low)
}

/// The index of the node with row i of an entity other than `nodes`: the last node with at most i rows before it.
pub fn node_of_row(nodes: &[Box<Node>], entity: Entity, i: usize) -> usize
    requires counted { AreCountedFrom none (nodes_in nodes.now) }
    requires within { i < count_of entity (total_from none (nodes_in nodes.now)) }
    ensures place { result < length nodes.now }
    ensures row { (node : Node) → slice_get (nodes_in nodes.now) result ≡ Some node → HasRow entity i node }
{
    let mut low = 0;
    let mut high = nodes.len();
    'halves: while high - low > 1 {
        let middle = low + (high - low) / 2;
        if nodes[middle].before.of(entity) <= i {
            low = middle;
        } else {
            high = middle;
        }
    }
    low
}

// Stores in each node the numbers of rows before it, beginning with `before`. Returns the numbers after the last node.
fn recount(nodes: &mut [Box<Node>], before: Counts) -> Counts
    requires { IsWithin (total_from before (nodes_in nodes.old)) }
    ensures nodes { nodes_in nodes.new ≡ recounted before (nodes_in nodes.old) }
    ensures total { result ≡ total_from before (nodes_in nodes.old) }
{
    let mut before = before;
    for node in nodes {
        node.before = before;
        before = before.plus(&node.counts());
    }
    before
}

// The numbers of rows of nodes that are counted.
fn rows_in(nodes: &[Box<Node>]) -> Counts
    requires counted { AreCountedFrom none (nodes_in nodes.now) }
    requires within { IsWithin (total_from none (nodes_in nodes.now)) }
    ensures { result ≡ total_from none (nodes_in nodes.now) }
{
    match nodes.last() {
        Some(last) => last.before.plus(&last.counts()),
        None => Counts::none(),
    }
}

/// Recounts the rows of the nodes from this index on. Returns the numbers of all nodes' rows.
pub fn count_from(nodes: &mut Vec<Box<Node>>, at: usize) -> Counts
    requires place { at ≤ length nodes.old.items }
    requires counted { AreCountedFrom none (take at (nodes_in nodes.old.items)) }
    requires within { IsWithin (total_from none (nodes_in nodes.old.items)) }
    requires kept { AllByRecursion IsNode (nodes_in nodes.old.items) }
    requires order { InOrder (nodes_in nodes.old.items) }
    ensures seen { seen_in nodes.new.items ≡ seen_in nodes.old.items }
    ensures kept { AreNodes (nodes_in nodes.new.items) result }
{
    let before = rows_in(&nodes[..at]);
    recount(&mut nodes.as_mut_slice()[at..], before)
}
