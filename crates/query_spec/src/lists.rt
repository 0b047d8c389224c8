//! Lists of query parts, which contracts see as plain lists.
ghost use Rattle.std.specs.Prelude.{◌≡◌, [], ◌∷◌, ◌++◌, OnOk, OnErr};

use crate::parts::{Field, Literal, Name, Order, Selected};
use std::alloc::{AllocError, Global};
use std::marker::Model;

/// Fields in order.
#[derive(Drop)]
pub struct Fields {
    list: Vec<Field>,
}

impl Model for Fields {
    ghost use Rattle.std.specs.Prelude.{List};
    ghost use Rattle.query_spec.specs.declared.parts.Field.{Field};

    ghost Value = { List Field };

    ghost use Rattle.std.specs.Coded.{codes};

    ghost coded = { Prim.hlevel codes };

    ghost view = { λ a. a.list.items };
}

impl Fields {
    /// An empty list. It allocates no memory.
    pub fn new(alloc: Global) -> Fields
        ensures { result ≡ [] }
    {
        Fields {
            list: Vec::new(alloc),
        }
    }

    /// Appends a field. On an error the list is unchanged and the field is dropped.
    pub fn push(&mut self, field: Field) -> Result<(), AllocError>
        ensures ok { OnOk result (self.new ≡ self.old ++ field ∷ []) }
        ensures err { OnErr result (self.new ≡ self.old) }
    {
        self.list.push(field)?;
        Ok(())
    }

    /// The fields in order.
    pub fn as_slice(&self) -> &[Field]
        ensures { result.now ≡ self.now }
    {
        self.list.as_slice()
    }
}

/// Names of columns in order.
#[derive(Drop)]
pub struct Columns {
    list: Vec<Name>,
}

impl Model for Columns {
    ghost use Rattle.std.specs.Prelude.{List};
    ghost use Rattle.query_spec.specs.declared.parts.Name.{Name};

    ghost Value = { List Name };

    ghost use Rattle.std.specs.Coded.{codes};

    ghost coded = { Prim.hlevel codes };

    ghost view = { λ a. a.list.items };
}

impl Columns {
    /// An empty list. It allocates no memory.
    pub fn new(alloc: Global) -> Columns
        ensures { result ≡ [] }
    {
        Columns {
            list: Vec::new(alloc),
        }
    }

    /// Appends a column. On an error the list is unchanged and the column is dropped.
    pub fn push(&mut self, column: Name) -> Result<(), AllocError>
        ensures ok { OnOk result (self.new ≡ self.old ++ column ∷ []) }
        ensures err { OnErr result (self.new ≡ self.old) }
    {
        self.list.push(column)?;
        Ok(())
    }

    /// The columns in order.
    pub fn as_slice(&self) -> &[Name]
        ensures { result.now ≡ self.now }
    {
        self.list.as_slice()
    }
}

/// Literals in order.
#[derive(Drop)]
pub struct Literals {
    list: Vec<Literal>,
}

impl Model for Literals {
    ghost use Rattle.std.specs.Prelude.{List};
    ghost use Rattle.query_spec.specs.declared.parts.Literal.{Literal};

    ghost Value = { List Literal };

    ghost use Rattle.std.specs.Coded.{codes};

    ghost coded = { Prim.hlevel codes };

    ghost view = { λ a. a.list.items };
}

impl Literals {
    /// An empty list. It allocates no memory.
    pub fn new(alloc: Global) -> Literals
        ensures { result ≡ [] }
    {
        Literals {
            list: Vec::new(alloc),
        }
    }

    /// Appends a literal. On an error the list is unchanged and the literal is dropped.
    pub fn push(&mut self, literal: Literal) -> Result<(), AllocError>
        ensures ok { OnOk result (self.new ≡ self.old ++ literal ∷ []) }
        ensures err { OnErr result (self.new ≡ self.old) }
    {
        self.list.push(literal)?;
        Ok(())
    }

    /// The literals in order.
    pub fn as_slice(&self) -> &[Literal]
        ensures { result.now ≡ self.now }
    {
        self.list.as_slice()
    }
}

/// What is shown, in order.
#[derive(Drop)]
pub struct Selection {
    list: Vec<Selected>,
}

impl Model for Selection {
    ghost use Rattle.std.specs.Prelude.{List};
    ghost use Rattle.query_spec.specs.declared.parts.Selected.{Selected};

    ghost Value = { List Selected };

    ghost use Rattle.std.specs.Coded.{codes};

    ghost coded = { Prim.hlevel codes };

    ghost view = { λ a. a.list.items };
}

impl Selection {
    /// An empty list. It allocates no memory.
    pub fn new(alloc: Global) -> Selection
        ensures { result ≡ [] }
    {
        Selection {
            list: Vec::new(alloc),
        }
    }

    /// Appends an output. On an error the list is unchanged and the output is dropped.
    pub fn push(&mut self, item: Selected) -> Result<(), AllocError>
        ensures ok { OnOk result (self.new ≡ self.old ++ item ∷ []) }
        ensures err { OnErr result (self.new ≡ self.old) }
    {
        self.list.push(item)?;
        Ok(())
    }

    /// The outputs in order.
    pub fn as_slice(&self) -> &[Selected]
        ensures { result.now ≡ self.now }
    {
        self.list.as_slice()
    }
}

/// The columns that rows are sorted by, the most significant first.
#[derive(Drop)]
pub struct Orders {
    list: Vec<Order>,
}

impl Model for Orders {
    ghost use Rattle.std.specs.Prelude.{List};
    ghost use Rattle.query_spec.specs.declared.parts.Order.{Order};

    ghost Value = { List Order };

    ghost use Rattle.std.specs.Coded.{codes};

    ghost coded = { Prim.hlevel codes };

    ghost view = { λ a. a.list.items };
}

impl Orders {
    /// An empty list. It allocates no memory.
    pub fn new(alloc: Global) -> Orders
        ensures { result ≡ [] }
    {
        Orders {
            list: Vec::new(alloc),
        }
    }

    /// Appends an order. On an error the list is unchanged and the order is dropped.
    pub fn push(&mut self, order: Order) -> Result<(), AllocError>
        ensures ok { OnOk result (self.new ≡ self.old ++ order ∷ []) }
        ensures err { OnErr result (self.new ≡ self.old) }
    {
        self.list.push(order)?;
        Ok(())
    }

    /// The orders, the most significant first.
    pub fn as_slice(&self) -> &[Order]
        ensures { result.now ≡ self.now }
    {
        self.list.as_slice()
    }
}
