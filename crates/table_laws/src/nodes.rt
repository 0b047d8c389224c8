//! Laws on what the rows of one node show.
ghost use Rattle.table_laws.specs.ShownLaws.{NodesShowTheirState, NodesShowWhetherTheyAreInactive, NodesShowTheirGreatestReport};
ghost use Rattle.table_laws.specs.JoinLaws.{NodesHaveOneRow, RowsAreOfNodes, NodesShowTheirFactset, NodesShowTheirCatalog, NodesShowTheirLatestReport};

/// Each node has exactly one row, and each row of another entity belongs to such a node.
pub fn a_node_has_one_row()
    ensures one { NodesHaveOneRow }
    ensures others { RowsAreOfNodes }
{}

/// A node's row shows the environment and the timestamp of its factset's row and of its catalog's row, or null if it has none.
pub fn a_node_shows_its_factset_and_catalog()
    ensures factset { NodesShowTheirFactset }
    ensures catalog { NodesShowTheirCatalog }
{}

/// A node's row shows its latest report by hash, noop, status, environment and timestamp, or null if it has none. Of reports with
/// equal timestamps it is the one received last.
pub fn a_node_shows_its_latest_report()
    ensures latest { NodesShowTheirLatestReport }
    ensures greatest { NodesShowTheirGreatestReport }
{}

/// A node's row shows the moments from which it is deactivated and expired, each null if it isn't. It also shows the environments
/// and timestamps of its newest facts and catalog. The node is inactive exactly if one of the moments is shown.
pub fn a_node_shows_its_state()
    ensures state { NodesShowTheirState }
    ensures inactive { NodesShowWhetherTheyAreInactive }
{}
