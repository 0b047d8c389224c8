//! Hands out what the tables store, by reference.
ghost use Rattle.std.specs.Prelude.{◌≡◌, map, IfOk};
ghost use Rattle.kept_nodes.specs.Places.{seen_in};
ghost use Rattle.fleet_tables.specs.Groups.{joined};

use crate::group::Group;
use crate::state::State;
use crate::tables::Tables;
use fleet_rows::stamp_time::Moment;
use kept_nodes::Node;
use std::alloc::{AllocError, Global};

impl Tables {
    /// The greatest moment of a sweep of expiry.
    pub fn expiry(&self) -> Option<Moment>
        ensures { result ≡ self.now.expiry }
    {
        self.state.greatest_expiry()
    }

    /// The greatest moment of a sweep of reports.
    pub fn retention(&self) -> Option<Moment>
        ensures { result ≡ self.now.retention }
    {
        self.state.greatest_retention()
    }

    /// The nodes by certname, in lists of neighbours. It copies no node; the list of references has 16 bytes for each group.
    pub fn node_lists(&self) -> Result<Vec<&[Box<Node>]>, AllocError>
        ensures { IfOk result (λ lists. joined (map (λ nodes. seen_in nodes.now) lists.items) ≡ self.now.nodes) }
    {
        self.state.node_lists(self.alloc)
    }
}

impl State {
    fn greatest_expiry(&self) -> Option<Moment>
        ensures { result ≡ self.now.expiry }
    {
        self.expiry
    }

    fn greatest_retention(&self) -> Option<Moment>
        ensures { result ≡ self.now.retention }
    {
        self.retention
    }

    fn node_lists(&self, alloc: Global) -> Result<Vec<&[Box<Node>]>, AllocError>
        ensures { IfOk result (λ lists. joined (map (λ nodes. seen_in nodes.now) lists.items) ≡ self.now.nodes) }
    {
        nodes_of(alloc, self.groups.as_slice())
    }
}

impl Group {
    fn stored_nodes(&self) -> &[Box<Node>]
        ensures { seen_in result.now ≡ self.now }
    {
        self.nodes.as_slice()
    }
}

fn nodes_of(alloc: Global, groups: &[Group]) -> Result<Vec<&[Box<Node>]>, AllocError>
    ensures { IfOk result (λ lists. map (λ nodes. seen_in nodes.now) lists.items ≡ groups.now) }
{
    let mut lists = Vec::with_capacity(alloc, groups.len())?;
    for at in 0..groups.len() {
        lists.push(groups[at].stored_nodes())?;
    }
    Ok(lists)
}
