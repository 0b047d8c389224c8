//! Counts the rows of each entity.
ghost use Rattle.std.specs.Prelude.{◌≡◌, ◌↔◌, ◌+◌, ◌≤◌, IsTrue};
ghost use Rattle.kept_nodes.specs.Counted.{none, plus, less, count_of, counts_changed, IsWithin, IsPart, limit};

use fleet_rows::{Change, Entity};

/// Numbers of rows, by entity.
#[derive(Clone, Copy, PartialEq, Eq, Debug)]
pub struct Counts {
    pub factsets: usize,
    pub facts: usize,
    pub catalogs: usize,
    pub resources: usize,
    pub edges: usize,
    pub reports: usize,
    pub nodes: usize,
}

impl Counts {
    pub fn none() -> Counts
        ensures { result ≡ none }
    {
        Counts {
            factsets: 0,
            facts: 0,
            catalogs: 0,
            resources: 0,
            edges: 0,
            reports: 0,
            nodes: 0,
        }
    }

    /// The rows of a change, and one row for its node, which may be new.
    pub fn of_change(change: &Change) -> Counts
        ensures { result ≡ counts_changed change.now }
    {
        let node = Counts {
            nodes: 1,
            ..Counts::none()
        };
        match change {
            Change::Facts(change) => Counts {
                factsets: 1,
                facts: change.values.len(),
                ..node
            },
            Change::Catalog(change) => Counts {
                catalogs: 1,
                resources: change.resources.as_slice().len(),
                edges: change.edges.as_slice().len(),
                ..node
            },
            Change::Report(_) => Counts { reports: 1, ..node },
            Change::Deactivate(_) | Change::Expiration(_) => node,
        }
    }

    /// The number of an entity's rows.
    pub fn of(&self, entity: Entity) -> usize
        ensures { result ≡ count_of entity self.now }
    {
        match entity {
            Entity::Nodes => self.nodes,
            Entity::Factsets => self.factsets,
            Entity::Facts => self.facts,
            Entity::Catalogs => self.catalogs,
            Entity::Resources => self.resources,
            Entity::Edges => self.edges,
            Entity::Reports => self.reports,
            _ => 0,
        }
    }

    /// Whether this many more rows can be counted.
    pub fn has_room(&self, more: &Counts) -> bool
        requires { IsWithin self.now }
        ensures { IsTrue result ↔ IsWithin (plus self.now more.now) }
    {
        fits(self.factsets, more.factsets)
            && fits(self.facts, more.facts)
            && fits(self.catalogs, more.catalogs)
            && fits(self.resources, more.resources)
            && fits(self.edges, more.edges)
            && fits(self.reports, more.reports)
            && fits(self.nodes, more.nodes)
    }

    pub fn plus(&self, other: &Counts) -> Counts
        requires within { IsWithin (plus self.now other.now) }
        ensures { result ≡ plus self.now other.now }
    {
        Counts {
            factsets: self.factsets + other.factsets,
            facts: self.facts + other.facts,
            catalogs: self.catalogs + other.catalogs,
            resources: self.resources + other.resources,
            edges: self.edges + other.edges,
            reports: self.reports + other.reports,
            nodes: self.nodes + other.nodes,
        }
    }

    /// The numbers minus those of a part.
    pub fn without(&self, part: &Counts) -> Counts
        requires part { IsPart part.now self.now }
        ensures { result ≡ less self.now part.now }
    {
        Counts {
            factsets: self.factsets - part.factsets,
            facts: self.facts - part.facts,
            catalogs: self.catalogs - part.catalogs,
            resources: self.resources - part.resources,
            edges: self.edges - part.edges,
            reports: self.reports - part.reports,
            nodes: self.nodes - part.nodes,
        }
    }
}

// The greatest number of rows of an entity that is counted, 2^62. No memory holds more.
const LIMIT: usize = 4_611_686_018_427_387_904;

fn fits(n: usize, more: usize) -> bool
    requires { n ≤ limit }
    ensures { IsTrue result ↔ n + more ≤ limit }
{
    more <= LIMIT - n
}
