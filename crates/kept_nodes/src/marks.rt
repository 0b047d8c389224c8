//! Sets the greatest activity of a node, as a checkpoint tells it.
ghost use Rattle.std.specs.Prelude.{◌≡◌, OnOk, OnErr, IfOk, IfSome};
ghost use Rattle.std.specs.List.{AllByRecursion};
ghost use Rattle.checkpoint_spec.specs.stamp_time.Range.{IsStampMoment};
ghost use Rattle.checkpoint_spec.specs.table_machine.Steps.{empty_node, with_node};
ghost use Rattle.kept_nodes.specs.Counted.{IsCountedBefore, counts};
ghost use Rattle.kept_nodes.specs.Kept.{IsNode};
ghost use Rattle.kept_nodes.specs.Places.{nodes_in, seen_in, InOrder};
ghost use Rattle.kept_nodes.specs.Seen.{node_seen, with_activity};

use crate::node::Node;
use crate::places::place_of;
use fleet_rows::json_tree::Text;
use fleet_rows::stamp_time::Moment;
use std::alloc::{AllocError, Global};

impl Node {
    // Sets the node's greatest activity.
    fn know(&mut self, active: Option<Moment>)
        requires kept { IsNode self.old }
        requires active { IfSome active IsStampMoment }
        ensures seen { node_seen self.new ≡ with_activity active (node_seen self.old) }
        ensures kept { IsNode self.new }
        ensures before { self.new.before ≡ self.old.before }
        ensures counts { counts self.new ≡ counts self.old }
    {
        self.active = active;
    }
}

// A node of which only the certname and the activity are known.
fn marked_node(
    alloc: Global,
    certname: &Text,
    active: Option<Moment>,
) -> Result<Box<Node>, AllocError>
    requires { IfSome active IsStampMoment }
    ensures seen { IfOk result (λ b. node_seen b.value ≡ with_activity active (empty_node certname.now)) }
    ensures kept { IfOk result (λ b. IsNode b.value) }
{
    let name = Text::from_str(alloc, certname.as_str())?;
    let mut node = Node::new(alloc, name);
    node.know(active);
    Ok(Box::new(alloc, node)?)
}

/// Sets the activity of the node, and inserts the node if it is missing. Returns the index from which rows must be recounted after
/// an insertion.
pub fn mark_in(
    nodes: &mut Vec<Box<Node>>,
    alloc: Global,
    certname: &Text,
    active: Option<Moment>,
) -> Result<Option<usize>, AllocError>
    requires order { InOrder (nodes_in nodes.old.items) }
    requires kept { AllByRecursion IsNode (nodes_in nodes.old.items) }
    requires active { IfSome active IsStampMoment }
    ensures seen { OnOk result (seen_in nodes.new.items ≡ with_node certname.now (with_activity active) (seen_in nodes.old.items)) }
    ensures kept { OnOk result (AllByRecursion IsNode (nodes_in nodes.new.items)) }
    ensures counted { IfOk result (λ from. IsCountedBefore from (nodes_in nodes.old.items) (nodes_in nodes.new.items)) }
    ensures same { OnErr result (nodes.new.items ≡ nodes.old.items) }
{
    match place_of(nodes.as_slice(), certname.as_str()) {
        Ok(at) => {
            nodes[at].know(active);
            Ok(None)
        }
        Err(at) => {
            let node = marked_node(alloc, certname, active)?;
            nodes.insert(at, node)?;
            Ok(Some(at))
        }
    }
}
