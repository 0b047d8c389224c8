//! Computes hashes and orders of rows in advance. Without this, `row` computes them for each row that it reads.
ghost use Rattle.std.specs.Prelude.{◌≡◌};
ghost use Rattle.fleet_tables.specs.Groups.{joined, AreFilledOrOne, StandInOrder};

use crate::group::Group;
use crate::groups::{fill_starts, group_of};
use crate::state::State;
use crate::tables::Tables;
use fleet_rows::Entity;
use fleet_rows::json_tree::Text;
use kept_nodes::{prepare_node, prepare_nodes};
use std::alloc::{AllocError, Global};

// Resources and edges come first, because a catalog's hash is made from theirs.
const ALL: [Entity; 7] = [
    Entity::Resources,
    Entity::Edges,
    Entity::Catalogs,
    Entity::Facts,
    Entity::Factsets,
    Entity::Reports,
    Entity::Nodes,
];

impl Tables {
    /// Computes the hashes and the orders that rows of this entity need, as far as they are missing. Afterwards `row` only
    /// copies. The value of the tables is unchanged, even if memory runs out.
    pub fn prepare(&mut self, entity: Entity) -> Result<(), AllocError>
        ensures { self.new ≡ self.old }
    {
        self.state.prepare(self.alloc, entity)
    }

    /// Computes the hashes and the orders that the rows of one node of this entity need. The value of the tables is unchanged, even
    /// if memory runs out.
    pub fn prepare_node(&mut self, entity: Entity, certname: &Text) -> Result<(), AllocError>
        ensures { self.new ≡ self.old }
    {
        self.state
            .prepare_node(self.alloc, entity, certname.as_str())
    }

    /// Prepares all entities, like [`Tables::prepare`] for each.
    pub fn prepare_all(&mut self) -> Result<(), AllocError>
        ensures { self.new ≡ self.old }
    {
        'preparing: for i in 0..ALL.len() {
            self.prepare(ALL[i])?;
        }
        Ok(())
    }
}

impl State {
    fn prepare(&mut self, alloc: Global, entity: Entity) -> Result<(), AllocError>
        ensures { self.new ≡ self.old }
    {
        prepare_groups(&mut self.groups, alloc, entity)?;
        fill_starts(&mut self.starts, self.groups.as_slice())
    }

    fn prepare_node(
        &mut self,
        alloc: Global,
        entity: Entity,
        certname: &str,
    ) -> Result<(), AllocError>
        ensures { self.new ≡ self.old }
    {
        prepare_in_group(&mut self.groups, alloc, entity, certname)
    }
}

// Prepares the node with this certname, in the group that would have it.
fn prepare_in_group(
    groups: &mut Vec<Group>,
    alloc: Global,
    entity: Entity,
    certname: &str,
) -> Result<(), AllocError>
    requires order { StandInOrder (joined groups.old.items) }
    requires filled { AreFilledOrOne groups.old.items }
    ensures { groups.new.items ≡ groups.old.items }
{
    if groups.is_empty() {
        return Ok(());
    }
    let at = group_of(groups.as_slice(), certname);
    groups[at].prepare_node(alloc, entity, certname)
}

fn prepare_groups(groups: &mut Vec<Group>, alloc: Global, entity: Entity) -> Result<(), AllocError>
    ensures { groups.new.items ≡ groups.old.items }
{
    'preparing: for at in 0..groups.len() {
        groups[at].prepare(alloc, entity)?;
    }
    Ok(())
}

impl Group {
    fn prepare(&mut self, alloc: Global, entity: Entity) -> Result<(), AllocError>
        ensures { self.new ≡ self.old }
    {
        prepare_nodes(&mut self.nodes, alloc, entity)
    }

    fn prepare_node(
        &mut self,
        alloc: Global,
        entity: Entity,
        certname: &str,
    ) -> Result<(), AllocError>
        ensures { self.new ≡ self.old }
    {
        prepare_node(&mut self.nodes, alloc, entity, certname)
    }
}
