//! Makes a core an inbox for posted commands.
ghost use Rattle.std.specs.Prelude.{◌≡◌};

use core_ends::{Core, Keeper};
use fleet_ports::Disk;
use fleet_rows::json_tree::Text;
use fleet_rows::{Command, Entity, Submitted};
use fleet_tables::Tables;
use link_serving::Inbox;
use std::alloc::AllocError;
use std::marker::Model;

/// A core that takes commands in. Contracts see the core.
#[derive(Drop)]
pub(crate) struct CoreInbox<D: Disk + Drop, K: Keeper + Drop> {
    core: Core<D, K>,
    // The bits of the entities that are prepared. No call changes the tables, so they stay prepared.
    prepared: u32,
}

// The bit of an entity in `prepared`.
fn bit_of(entity: Entity) -> u32 {
    match entity {
        Entity::Nodes => 1,
        Entity::Factsets => 2,
        Entity::Facts => 4,
        Entity::Catalogs => 8,
        Entity::Resources => 16,
        Entity::Edges => 32,
        Entity::Reports => 64,
        _ => 128,
    }
}

impl<D: Disk + Drop, K: Keeper + Drop> Model for CoreInbox<D, K> {
    ghost use Rattle.std.specs.Coded.{codes};
    ghost use Rattle.std.proofs.Props.{props};
    ghost use Rattle.core_ends.specs.text_spec.JsonCode.{coded_json};
    ghost use Rattle.core_ends.specs.fleet_tables.Seen.{coded_table};
    ghost use Rattle.core_ends.specs.core_state.declared.state.CoreState.{CoreState};

    ghost Value = { CoreState D K };

    ghost coded = { Prim.hlevel (codes, coded_json, coded_table (Prim.hlevel (codes, coded_json)) (Prim.hlevel (codes, props))) };

    ghost view = { λ inbox. inbox.core };
}

impl<D: Disk + Drop, K: Keeper + Drop> CoreInbox<D, K> {
    pub(crate) fn new(core: Core<D, K>) -> CoreInbox<D, K>
        ensures { result ≡ core }
    {
        CoreInbox { core, prepared: 0 }
    }

    pub(crate) fn into_core(self) -> Core<D, K>
        ensures { result ≡ self }
    {
        let CoreInbox { core, prepared: _ } = self;
        core
    }
}

impl<D: Disk + Drop, K: Keeper + Drop> Inbox for CoreInbox<D, K> {
    ghost use Rattle.core_ends.specs.core_course.Sight.{sight_of};
    ghost use Rattle.core_inbox.specs.Submits.{held_by, Does};

    ghost shown = { λ core. core.tables };

    ghost held = { held_by (sight_of D.Disk K.Keeper) };

    ghost does = { Does (sight_of D.Disk K.Keeper) };

    fn tables(&self) -> &Tables {
        self.core.tables()
    }

    fn prepare(&mut self, entity: Entity) -> Result<(), AllocError> {
        let bit = bit_of(entity);
        if self.prepared & bit == 0 {
            self.core.prepare_entity(entity)?;
            self.prepared |= bit;
        }
        Ok(())
    }

    fn prepare_node(&mut self, entity: Entity, certname: &Text) -> Result<(), AllocError> {
        if self.prepared & bit_of(entity) == 0 {
            self.core.prepare_node(entity, certname)?;
        }
        Ok(())
    }

    fn submit(&mut self, command: Command) -> Submitted {
        self.core.submit(command)
    }
}
