//! Lists of a catalog's texts, resources and edges. Contracts see each as a list.
ghost use Rattle.std.specs.Prelude.{◌≡◌, [], ◌∷◌, ◌++◌, IfOk, OnOk, OnErr};

use crate::catalog::{Edge, Resource};
use json_tree::Text;
use std::alloc::{AllocError, Global};
use std::marker::Model;

/// Texts in order.
#[derive(Drop)]
pub struct Names {
    list: Vec<Text>,
}

impl Model for Names {
    ghost use Rattle.std.specs.Prelude.{ℕ, List};

    ghost Value = { List (List ℕ) };

    ghost view = { λ a. a.list.items };
}

impl Names {
    /// An empty list.
    pub fn new(alloc: Global) -> Names
        ensures { result ≡ [] }
    {
        Names {
            list: Vec::new(alloc),
        }
    }

    /// An empty list with room for this many texts, so that a list of just as many has no room to spare.
    pub fn with_capacity(alloc: Global, capacity: usize) -> Result<Names, AllocError>
        ensures { IfOk result (λ a. a ≡ []) }
    {
        Ok(Names {
            list: Vec::with_capacity(alloc, capacity)?,
        })
    }

    /// Appends a text. If memory runs out, the text is dropped and the list is unchanged.
    pub fn push(&mut self, name: Text) -> Result<(), AllocError>
        ensures ok { OnOk result (self.new ≡ self.old ++ name ∷ []) }
        ensures err { OnErr result (self.new ≡ self.old) }
    {
        self.list.push(name)?;
        Ok(())
    }

    /// The texts in order.
    pub fn as_slice(&self) -> &[Text]
        ensures { result.now ≡ self.now }
    {
        self.list.as_slice()
    }
}

/// The resources of a catalog in order.
#[derive(Drop)]
pub struct Resources {
    list: Vec<Resource>,
}

impl Model for Resources {
    ghost use Rattle.std.specs.Prelude.{List};
    ghost use Rattle.fleet_rows.specs.declared.catalog.Resource.{Resource};

    ghost Value = { List Resource };

    ghost use Rattle.std.specs.Coded.{codes};
    ghost use Rattle.json_tree.specs.text_spec.JsonCode.{coded_json};

    ghost coded = { Prim.hlevel (codes, coded_json) };

    ghost view = { λ a. a.list.items };
}

impl Resources {
    /// An empty list.
    pub fn new(alloc: Global) -> Resources
        ensures { result ≡ [] }
    {
        Resources {
            list: Vec::new(alloc),
        }
    }

    /// An empty list with room for this many resources, so that a list of just as many has no room to spare.
    pub fn with_capacity(alloc: Global, capacity: usize) -> Result<Resources, AllocError>
        ensures { IfOk result (λ a. a ≡ []) }
    {
        Ok(Resources {
            list: Vec::with_capacity(alloc, capacity)?,
        })
    }

    /// Appends a resource. If memory runs out, the resource is dropped and the list is unchanged.
    pub fn push(&mut self, resource: Resource) -> Result<(), AllocError>
        ensures ok { OnOk result (self.new ≡ self.old ++ resource ∷ []) }
        ensures err { OnErr result (self.new ≡ self.old) }
    {
        self.list.push(resource)?;
        Ok(())
    }

    /// The resources in order.
    pub fn as_slice(&self) -> &[Resource]
        ensures { result.now ≡ self.now }
    {
        self.list.as_slice()
    }
}

/// The edges of a catalog in order.
#[derive(Drop)]
pub struct Edges {
    list: Vec<Edge>,
}

impl Model for Edges {
    ghost use Rattle.std.specs.Prelude.{List};
    ghost use Rattle.fleet_rows.specs.declared.catalog.Edge.{Edge};

    ghost Value = { List Edge };

    ghost view = { λ a. a.list.items };
}

impl Edges {
    /// An empty list.
    pub fn new(alloc: Global) -> Edges
        ensures { result ≡ [] }
    {
        Edges {
            list: Vec::new(alloc),
        }
    }

    /// An empty list with room for this many edges, so that a list of just as many has no room to spare.
    pub fn with_capacity(alloc: Global, capacity: usize) -> Result<Edges, AllocError>
        ensures { IfOk result (λ a. a ≡ []) }
    {
        Ok(Edges {
            list: Vec::with_capacity(alloc, capacity)?,
        })
    }

    /// Appends an edge. If memory runs out, the edge is dropped and the list is unchanged.
    pub fn push(&mut self, edge: Edge) -> Result<(), AllocError>
        ensures ok { OnOk result (self.new ≡ self.old ++ edge ∷ []) }
        ensures err { OnErr result (self.new ≡ self.old) }
    {
        self.list.push(edge)?;
        Ok(())
    }

    /// The edges in order.
    pub fn as_slice(&self) -> &[Edge]
        ensures { result.now ≡ self.now }
    {
        self.list.as_slice()
    }
}
