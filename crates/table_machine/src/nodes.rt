//! Laws on the nodes of the table.
ghost use Rattle.table_machine.specs.Laws.{NodesTellTheirDeactivation, NodesTellTheirExpiry, NodesTellWhetherTheyAreInactive};
ghost use Rattle.table_machine.specs.Laws.{NodesTellWhetherAPurgeTakesThem, NodesHaveTheNewest, NodesAreFound, NodesAreStrictlySorted};

/// A kept node tells the same as its commands: whether it is deactivated, expired or inactive, and whether a purge removes it.
pub fn a_node_tells_what_its_life_does()
    ensures deactivation { NodesTellTheirDeactivation }
    ensures expiry { NodesTellTheirExpiry }
    ensures inactive { NodesTellWhetherTheyAreInactive }
    ensures purge { NodesTellWhetherAPurgeTakesThem }
{}

/// A node has the newest of its facts, catalogs, deactivations and expiration commands.
pub fn a_node_has_the_newest()
    ensures { NodesHaveTheNewest }
{}

/// The nodes are those whose life has a command, strictly sorted by certname.
pub fn a_node_is_found_where_it_has_a_life()
    ensures sorted { NodesAreStrictlySorted }
    ensures found { NodesAreFound }
{}
