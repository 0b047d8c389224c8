//! Finds where the sought rows stand among the rows of one node.
ghost use Rattle.std.specs.Prelude.{◌≡◌, ℤ, length, Some, Option};
ghost use Rattle.checkpoint_spec.specs.fleet_rows.declared.row.Entity.TheVariants as entities;
ghost use Rattle.checkpoint_spec.specs.fleet_rows.declared.settings.Ttls.{Ttls};
ghost use Rattle.checkpoint_spec.specs.table_machine.Rows.{node_rows};
ghost use Rattle.kept_nodes.specs.Kept.{IsNode};
ghost use Rattle.kept_nodes.specs.Seen.{node_seen};
ghost use Rattle.kept_nodes.specs.Spans.{IsSpanOf};
ghost use Rattle.kept_nodes.specs.Wanted.{has_name, has_own, has_resource, text_in, texts_of, title_in, type_in};

use crate::node::Node;
use crate::wanted::{Span, Wanted, WantedResource};
use fleet_rows::Entity;
use fleet_rows::json_tree::Text;

impl Node {
    /// Where the sought rows stand among the node's rows of this entity.
    pub fn span(&self, entity: Entity, sought: &Wanted<'_>) -> Span
        requires { IsNode self.now }
        ensures { (ttls : Ttls) (expiry : Option ℤ)
            → IsSpanOf (has_own entity (texts_of sought.now)) (node_rows entity ttls expiry (node_seen self.now)) result }
    {
        match entity {
            Entity::Facts => self.facts_span(sought.name),
            Entity::Resources => self.resources_span(sought.resource),
            _ => self.whole(entity),
        }
    }

    /// The number of the node's rows of this entity.
    pub fn number_of(&self, entity: Entity) -> usize
        requires { IsNode self.now }
        ensures { (ttls : Ttls) (expiry : Option ℤ) → result ≡ length (node_rows entity ttls expiry (node_seen self.now)) }
    {
        self.counts().of(entity)
    }

    // All rows of this entity.
    fn whole(&self, entity: Entity) -> Span
        requires { IsNode self.now }
        ensures from { result.from ≡ 0 }
        ensures count { (ttls : Ttls) (expiry : Option ℤ) → result.count ≡ length (node_rows entity ttls expiry (node_seen self.now)) }
    {
        Span {
            from: 0,
            count: self.number_of(entity),
        }
    }

    fn facts_span(&self, name: Option<&Text>) -> Span
        requires { IsNode self.now }
        ensures { (ttls : Ttls) (expiry : Option ℤ)
            → IsSpanOf (has_name (text_in name.entry)) (node_rows entities.Facts ttls expiry (node_seen self.now)) result }
    {
        match name {
            Some(name) => self.named_facts(name.as_str()),
            None => self.whole(Entity::Facts),
        }
    }

    fn named_facts(&self, name: &str) -> Span
        requires { IsNode self.now }
        ensures { (ttls : Ttls) (expiry : Option ℤ)
            → IsSpanOf (has_name (Some name.now)) (node_rows entities.Facts ttls expiry (node_seen self.now)) result }
    {
        match &self.facts {
            Some(kept) => kept.named_span(name),
            None => Span::empty(),
        }
    }

    fn resources_span(&self, resource: Option<WantedResource<'_>>) -> Span
        requires { IsNode self.now }
        ensures { (ttls : Ttls) (expiry : Option ℤ)
            → IsSpanOf (has_resource (type_in resource.entry) (title_in resource.entry))
            (node_rows entities.Resources ttls expiry (node_seen self.now)) result }
    {
        match resource {
            Some(resource) => self.typed_resources(resource.rtype.as_str(), resource.title),
            None => self.whole(Entity::Resources),
        }
    }

    fn typed_resources(&self, rtype: &str, title: Option<&Text>) -> Span
        requires { IsNode self.now }
        ensures { (ttls : Ttls) (expiry : Option ℤ)
            → IsSpanOf (has_resource (Some rtype.now) (text_in title.entry)) (node_rows entities.Resources ttls expiry (node_seen self.now)) result }
    {
        match &self.catalog {
            Some(kept) => kept.typed_span(rtype, title),
            None => Span::empty(),
        }
    }
}
