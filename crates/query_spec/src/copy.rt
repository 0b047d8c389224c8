//! Copies the parts of queries. A copy shares no memory with its original.
ghost use Rattle.std.specs.Prelude.{◌≡◌, IfOk};

use crate::lists::{Columns, Fields, Literals, Orders, Selection};
use crate::parts::{Field, Literal, Name, Order, Paging, Pattern, Scalar, Selected};
use fleet_rows::json_tree::{Number, Text};
use std::alloc::{AllocError, Global};

fn copy_text(alloc: Global, text: &Text) -> Result<Text, AllocError>
    ensures { IfOk result (λ copied. copied ≡ text.now) }
{
    Text::from_str(alloc, text.as_str())
}

impl Name {
    /// A copy of the name.
    pub fn copy(&self, alloc: Global) -> Result<Name, AllocError>
        ensures { IfOk result (λ name. name ≡ self.now) }
    {
        Ok(Name {
            text: copy_text(alloc, &self.text)?,
            place: self.place.copy(alloc)?,
        })
    }
}

impl Pattern {
    /// A copy of the pattern.
    pub fn copy(&self, alloc: Global) -> Result<Pattern, AllocError>
        ensures { IfOk result (λ pattern. pattern ≡ self.now) }
    {
        Ok(Pattern {
            text: copy_text(alloc, &self.text)?,
            place: self.place.copy(alloc)?,
        })
    }
}

impl Scalar {
    /// A copy of the value.
    pub fn copy(&self, alloc: Global) -> Result<Scalar, AllocError>
        ensures { IfOk result (λ scalar. scalar ≡ self.now) }
    {
        match self {
            Scalar::Text(text) => Ok(Scalar::Text(copy_text(alloc, text)?)),
            Scalar::Num(number) => {
                let spelling = copy_text(alloc, number.spelling())?;
                Ok(Scalar::Num(Number::of(spelling)))
            }
            Scalar::Bool(value) => Ok(Scalar::Bool(*value)),
        }
    }
}

impl Literal {
    /// A copy of the literal.
    pub fn copy(&self, alloc: Global) -> Result<Literal, AllocError>
        ensures { IfOk result (λ literal. literal ≡ self.now) }
    {
        Ok(Literal {
            value: self.value.copy(alloc)?,
            place: self.place.copy(alloc)?,
        })
    }
}

impl Field {
    /// A copy of the field.
    pub fn copy(&self, alloc: Global) -> Result<Field, AllocError>
        ensures { IfOk result (λ field. field ≡ self.now) }
    {
        match self {
            Field::Column(name) => Ok(Field::Column(name.copy(alloc)?)),
            Field::Parameter(name) => Ok(Field::Parameter(name.copy(alloc)?)),
            Field::Fact(name) => Ok(Field::Fact(name.copy(alloc)?)),
            Field::Tag(place) => Ok(Field::Tag(place.copy(alloc)?)),
            Field::NodeState(place) => Ok(Field::NodeState(place.copy(alloc)?)),
        }
    }
}

impl Selected {
    /// A copy of the output.
    pub fn copy(&self, alloc: Global) -> Result<Selected, AllocError>
        ensures { IfOk result (λ selected. selected ≡ self.now) }
    {
        match self {
            Selected::Column(name) => Ok(Selected::Column(name.copy(alloc)?)),
            Selected::Rows => Ok(Selected::Rows),
            Selected::Function(function, name) => {
                Ok(Selected::Function(*function, name.copy(alloc)?))
            }
        }
    }
}

impl Order {
    /// A copy of the order.
    pub fn copy(&self, alloc: Global) -> Result<Order, AllocError>
        ensures { IfOk result (λ order. order ≡ self.now) }
    {
        Ok(Order {
            column: self.column.copy(alloc)?,
            descends: self.descends,
        })
    }
}

impl Paging {
    /// A copy of the paging.
    pub fn copy(&self, alloc: Global) -> Result<Paging, AllocError>
        ensures { IfOk result (λ paging. paging ≡ self.now) }
    {
        Ok(Paging {
            order: self.order.copy(alloc)?,
            offset: self.offset,
            limit: self.limit,
            include_total: self.include_total,
        })
    }
}

impl Fields {
    /// A copy of the list.
    pub fn copy(&self, alloc: Global) -> Result<Fields, AllocError>
        ensures { IfOk result (λ list. list ≡ self.now) }
    {
        let mut list = Fields::new(alloc);
        for field in self.as_slice() {
            list.push(field.copy(alloc)?)?;
        }
        Ok(list)
    }
}

impl Columns {
    /// A copy of the list.
    pub fn copy(&self, alloc: Global) -> Result<Columns, AllocError>
        ensures { IfOk result (λ list. list ≡ self.now) }
    {
        let mut list = Columns::new(alloc);
        for column in self.as_slice() {
            list.push(column.copy(alloc)?)?;
        }
        Ok(list)
    }
}

impl Literals {
    /// A copy of the list.
    pub fn copy(&self, alloc: Global) -> Result<Literals, AllocError>
        ensures { IfOk result (λ list. list ≡ self.now) }
    {
        let mut list = Literals::new(alloc);
        for literal in self.as_slice() {
            list.push(literal.copy(alloc)?)?;
        }
        Ok(list)
    }
}

impl Selection {
    /// A copy of the list.
    pub fn copy(&self, alloc: Global) -> Result<Selection, AllocError>
        ensures { IfOk result (λ list. list ≡ self.now) }
    {
        let mut list = Selection::new(alloc);
        for selected in self.as_slice() {
            list.push(selected.copy(alloc)?)?;
        }
        Ok(list)
    }
}

impl Orders {
    /// A copy of the list.
    pub fn copy(&self, alloc: Global) -> Result<Orders, AllocError>
        ensures { IfOk result (λ list. list ≡ self.now) }
    {
        let mut list = Orders::new(alloc);
        for order in self.as_slice() {
            list.push(order.copy(alloc)?)?;
        }
        Ok(list)
    }
}
