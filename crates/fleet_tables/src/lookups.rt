//! Looks rows up by the names that they show, without reading a row.
ghost use Rattle.std.specs.Prelude.{◌≡◌, ◌<◌, ◌≤◌, ◌+◌, length, filter, slice_get, slice_range, Some, IfOk, IfSome};
ghost use Rattle.std.specs.List.{find};
ghost use Rattle.std.specs.Option.{option_and_then};
ghost use Rattle.checkpoint_spec.specs.fleet_rows.declared.row.Entity.TheVariants as entities;
ghost use Rattle.checkpoint_spec.specs.history_spec.Trace.{Trace};
ghost use Rattle.checkpoint_spec.specs.table_machine.Rows.{table_rows};
ghost use Rattle.checkpoint_spec.specs.table_spec.Rows.{rows};
ghost use Rattle.fleet_tables.specs.Stands.{Stands};
ghost use Rattle.kept_nodes.specs.Spans.{places_of};
ghost use Rattle.kept_nodes.specs.Wanted.{has_own, is_fact, is_wanted, of_certname, of_name, of_resource, texts_of};

use crate::state::State;
use crate::tables::Tables;
use fleet_rows::Entity;
use fleet_rows::json_tree::Text;
use kept_nodes::{Span, Wanted, WantedResource};
use std::alloc::{AllocError, Global};
use std::marker::Model;

/// The places of the rows of an entity that show the sought names, in order. It borrows the tables and takes no memory. Each of its
/// calls looks into all nodes; `Tables::seek` makes a list of the places in one pass.
#[derive(Drop)]
pub struct Places<'t> {
    state: &'t State,
    entity: Entity,
    sought: Wanted<'t>,
}

impl<'t> Model for Places<'t> {
    ghost use Rattle.std.specs.Prelude.{ℕ, List};
    ghost use Rattle.std.specs.Coded.{coded_list, coded_ℕ};
    ghost use Rattle.checkpoint_spec.specs.table_machine.Rows.{table_rows};
    ghost use Rattle.kept_nodes.specs.Spans.{places_of};
    ghost use Rattle.kept_nodes.specs.Wanted.{has_own, texts_of};

    ghost Value = { List ℕ };

    ghost coded = { coded_list coded_ℕ };

    ghost view = { λ a. places_of (has_own a.entity (texts_of a.sought)) (table_rows a.entity a.state.now) };
}

impl Places<'_> {
    /// The number of the places.
    pub fn count(&self) -> usize
        ensures { result ≡ length self.now }
    {
        self.state.sought_number(self.entity, &self.sought)
    }

    /// Place i.
    pub fn at(&self, i: usize) -> usize
        requires { i < length self.now }
        ensures { slice_get self.now i ≡ Some result }
    {
        self.state.sought_at(self.entity, &self.sought, i)
    }
}

impl Tables {
    /// The rows of an entity that show the certname: neighbours, since rows are sorted by certname. It reads no row and takes no
    /// memory. Of a node that isn't there it finds no rows.
    pub fn of_node(&self, entity: Entity, certname: &Text) -> Span
        ensures within { result.from + result.count ≤ length (table_rows entity self.now) }
        ensures rows { slice_range (table_rows entity self.now) result.from (result.from + result.count)
            ≡ filter (is_wanted entity (of_certname certname.now)) (table_rows entity self.now) }
        ensures stands { (history : Trace) → Stands self.now history
            → slice_range (rows entity self.now.ttls history) result.from (result.from + result.count)
            ≡ filter (is_wanted entity (of_certname certname.now)) (rows entity self.now.ttls history) }
    {
        let certname = certname.as_str();
        let sought = Wanted {
            certname: Some(certname),
            name: None,
            resource: None,
        };
        self.state.sought_span(entity, certname, &sought)
    }

    /// The index of the row with a node's fact. It reads no row and takes no memory.
    pub fn fact_place(&self, certname: &str, name: &Text) -> Option<usize>
        ensures within { IfSome result (λ i. i < length (table_rows entities.Facts self.now)) }
        ensures row { option_and_then (slice_get (table_rows entities.Facts self.now)) result
            ≡ find (is_fact certname.now name.now) (table_rows entities.Facts self.now) }
    {
        let sought = Wanted {
            certname: None,
            name: Some(name),
            resource: None,
        };
        let span = self.state.sought_span(Entity::Facts, certname, &sought);
        if span.count == 0 {
            None
        } else {
            Some(span.from)
        }
    }

    /// The places of the facts with this name, of all nodes.
    pub fn of_fact<'t>(&'t self, name: &'t Text) -> Places<'t>
        ensures { result ≡ places_of (has_own entities.Facts (of_name name.now)) (table_rows entities.Facts self.now) }
    {
        Places {
            state: &self.state,
            entity: Entity::Facts,
            sought: Wanted {
                certname: None,
                name: Some(name),
                resource: None,
            },
        }
    }

    /// The places of the resources of this type and with this title, of all nodes.
    pub fn of_resource<'t>(&'t self, rtype: &'t Text, title: &'t Text) -> Places<'t>
        ensures { result ≡ places_of (has_own entities.Resources (of_resource rtype.now title.now)) (table_rows entities.Resources self.now) }
    {
        Places {
            state: &self.state,
            entity: Entity::Resources,
            sought: Wanted {
                certname: None,
                name: None,
                resource: Some(WantedResource {
                    rtype,
                    title: Some(title),
                }),
            },
        }
    }

    /// The places of the sought rows of an entity, in order. No row is read: each node is asked where its sought rows stand, and if
    /// a certname is sought, only the node with it.
    pub fn seek(
        &self,
        alloc: Global,
        entity: Entity,
        sought: &Wanted<'_>,
    ) -> Result<Vec<usize>, AllocError>
        ensures { IfOk result (λ places. places.items ≡ places_of (is_wanted entity (texts_of sought.now)) (table_rows entity self.now)) }
    {
        self.state.seek(alloc, entity, sought)
    }
}
