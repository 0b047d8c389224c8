//! The content of a store, as lists.
ghost use Rattle.std.specs.Prelude.{◌≡◌, [], ◌∷◌, ◌++◌, OnOk, OnErr};

use crate::applied::Applied;
use crate::settings::Ttls;
use json_tree::Text;
use stamp_time::Moment;
use std::alloc::{AllocError, Global};
use std::marker::Model;

/// The content of a store, independent of the history that led to it. Checkpoints are written from it and read into it.
#[derive(Drop)]
pub struct StoreList {
    pub ttls: Ttls,
    /// The greatest moment of a sweep with `expire`; None if there was none.
    pub expire: Option<Moment>,
    /// The greatest moment of a sweep with `reports`; None if there was none.
    pub retain: Option<Moment>,
    /// What is known of each node beside its commands.
    pub marks: Marks,
    /// The commands that are kept: each node's newest of each kind except reports, and the retained reports.
    pub applied: Kepts,
}

/// What is known of a node beside its commands.
#[derive(Drop)]
pub struct Mark {
    /// The node. Not empty.
    pub certname: Text,
    /// The greatest stamp of its facts, catalogs and reports; None if none was applied.
    pub active: Option<Moment>,
    /// The greatest stamp of its deactivations; None if none was applied.
    pub deactivated: Option<Moment>,
}

/// A list of applied commands.
#[derive(Drop)]
pub struct Kepts {
    list: Vec<Applied>,
}

impl Model for Kepts {
    ghost use Rattle.std.specs.Prelude.{List};
    ghost use Rattle.fleet_rows.specs.declared.applied.Applied.{Applied};

    ghost Value = { List Applied };

    ghost use Rattle.std.specs.Coded.{codes};
    ghost use Rattle.json_tree.specs.text_spec.JsonCode.{coded_json};

    ghost coded = { Prim.hlevel (codes, coded_json) };

    ghost view = { λ a. a.list.items };
}

impl Kepts {
    /// An empty list.
    pub fn new(alloc: Global) -> Kepts
        ensures { result ≡ [] }
    {
        Kepts {
            list: Vec::new(alloc),
        }
    }

    /// Appends a command. If memory runs out, the command is dropped and the list is unchanged.
    pub fn push(&mut self, applied: Applied) -> Result<(), AllocError>
        ensures ok { OnOk result (self.new ≡ self.old ++ applied ∷ []) }
        ensures err { OnErr result (self.new ≡ self.old) }
    {
        self.list.push(applied)?;
        Ok(())
    }

    /// The commands in order.
    pub fn as_slice(&self) -> &[Applied]
        ensures { result.now ≡ self.now }
    {
        self.list.as_slice()
    }

    /// The commands in order, moved out.
    pub fn into_vec(self) -> Vec<Applied>
        ensures { result.items ≡ self }
    {
        self.list
    }
}

/// A list of marks.
#[derive(Drop)]
pub struct Marks {
    list: Vec<Mark>,
}

impl Model for Marks {
    ghost use Rattle.std.specs.Prelude.{List};
    ghost use Rattle.fleet_rows.specs.declared.store.Mark.{Mark};

    ghost Value = { List Mark };

    ghost view = { λ a. a.list.items };
}

impl Marks {
    /// An empty list.
    pub fn new(alloc: Global) -> Marks
        ensures { result ≡ [] }
    {
        Marks {
            list: Vec::new(alloc),
        }
    }

    /// Appends a mark. If memory runs out, the mark is dropped and the list is unchanged.
    pub fn push(&mut self, mark: Mark) -> Result<(), AllocError>
        ensures ok { OnOk result (self.new ≡ self.old ++ mark ∷ []) }
        ensures err { OnErr result (self.new ≡ self.old) }
    {
        self.list.push(mark)?;
        Ok(())
    }

    /// The marks in order.
    pub fn as_slice(&self) -> &[Mark]
        ensures { result.now ≡ self.now }
    {
        self.list.as_slice()
    }
}
