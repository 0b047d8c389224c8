//! The names by which queries ask for entities.
ghost use Rattle.std.specs.Prelude.{◌≡◌};
ghost use Rattle.query_spec.specs.Answer.{entity_name};

use fleet_rows::Entity;

/// The name of the entity.
pub fn entity_name(entity: Entity) -> &'static str
    ensures { result.now ≡ entity_name entity }
{
    match entity {
        Entity::Nodes => "nodes",
        Entity::Factsets => "factsets",
        Entity::Facts => "facts",
        Entity::Catalogs => "catalogs",
        Entity::Resources => "resources",
        Entity::Edges => "edges",
        Entity::Reports => "reports",
        Entity::FactContents => "fact_contents",
        Entity::Inventory => "inventory",
        Entity::Events => "events",
        Entity::EventCounts => "event_counts",
    }
}
