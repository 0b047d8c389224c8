//! Counts the rows of active nodes, without reading a row.
ghost use Rattle.std.specs.Prelude.{◌≡◌, ◌<◌, ◌^◌, length, filter};
ghost use Rattle.std.specs.List.{AllByRecursion};
ghost use Rattle.checkpoint_spec.specs.table_machine.Rows.{table_rows};
ghost use Rattle.fleet_tables.specs.Active.{active_rows, active_rows_of, is_active_row};
ghost use Rattle.fleet_tables.specs.Groups.{joined, AreFew};
ghost use Rattle.kept_nodes.specs.Kept.{IsNode};
ghost use Rattle.kept_nodes.specs.Places.{nodes_in, seen_in};
ghost use Rattle.kept_nodes.specs.Seen.{node_seen};

use crate::group::Group;
use crate::state::State;
use crate::tables::Tables;
use fleet_rows::stamp_time::Moment;
use fleet_rows::{Entity, Ttls};
use kept_nodes::Node;

// The number of the node's rows, or 0 if it is inactive.
fn count_if_active(node: &Box<Node>, ttls: &Ttls, expiry: &Option<Moment>, entity: Entity) -> usize
    requires { IsNode node.now.value }
    ensures { result ≡ length (active_rows entity ttls.now expiry.now (node_seen node.now.value)) }
{
    if node.is_inactive(ttls, expiry) {
        0
    } else {
        node.number_of(entity)
    }
}

fn count_active_nodes(
    nodes: &[Box<Node>],
    ttls: &Ttls,
    expiry: &Option<Moment>,
    entity: Entity,
) -> usize
    requires kept { AllByRecursion IsNode (nodes_in nodes.now) }
    requires few { length (active_rows_of entity ttls.now expiry.now (seen_in nodes.now)) < 2 ^ 64 }
    ensures { result ≡ length (active_rows_of entity ttls.now expiry.now (seen_in nodes.now)) }
{
    let mut count = 0;
    'walking: for node in nodes {
        count += count_if_active(node, ttls, expiry, entity);
    }
    count
}

impl Group {
    // The number of rows of the group's active nodes.
    fn active_count(&self, ttls: &Ttls, expiry: &Option<Moment>, entity: Entity) -> usize
        requires { length (active_rows_of entity ttls.now expiry.now self.now) < 2 ^ 64 }
        ensures { result ≡ length (active_rows_of entity ttls.now expiry.now self.now) }
    {
        count_active_nodes(self.nodes.as_slice(), ttls, expiry, entity)
    }
}

fn count_active_groups(
    groups: &[Group],
    ttls: &Ttls,
    expiry: &Option<Moment>,
    entity: Entity,
) -> usize
    requires { AreFew (joined groups.now) }
    ensures { result ≡ length (active_rows_of entity ttls.now expiry.now (joined groups.now)) }
{
    let mut count = 0;
    'walking: for group in groups {
        count += group.active_count(ttls, expiry, entity);
    }
    count
}

impl State {
    // The number of rows of this entity whose nodes are active.
    fn active_count(&self, entity: Entity) -> usize
        ensures { result ≡ length (filter (is_active_row entity self.now) (table_rows entity self.now)) }
    {
        count_active_groups(self.groups.as_slice(), &self.ttls, &self.expiry, entity)
    }
}

impl Tables {
    /// The number of rows of an entity whose node is neither deactivated nor expired. It asks each node once, reads no row and takes
    /// no memory.
    pub fn active_count(&self, entity: Entity) -> usize
        ensures { result ≡ length (filter (is_active_row entity self.now) (table_rows entity self.now)) }
    {
        self.state.active_count(entity)
    }
}
