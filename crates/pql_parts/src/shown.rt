//! Collects what is shown, as it is read.
//!
//! Outputs have distinct names, except that a column may occur twice. So only names of functions can be refused, and there are
//! four functions. For each of them this file stores whether a shown function has its name, and whether any output has.
ghost use Rattle.std.specs.Prelude.{◌≡◌, List, [], ◌∷◌, ◌++◌, IfOk, false, true};
ghost use Rattle.std.specs.List.{list_any};
ghost use Rattle.query_spec.specs.declared.parts.Name.{Name};
ghost use Rattle.query_spec.specs.declared.parts.Selected.TheVariants as selected;
ghost use Rattle.query_spec.specs.declared.parts.Selected.{Selected};
ghost use Rattle.query_spec.specs.Parts as part;
ghost use Rattle.query_spec.specs.Parts.{clashes};
ghost use Rattle.query_spec.specs.Words as words;
ghost use Rattle.pql_parts.specs.Shown as spec;

use ast_tree::{Function, Name, Selected, Selection, is_function, output_name};
use std::alloc::{AllocError, Global};

/// A set of functions.
#[derive(Clone, Copy)]
pub(crate) struct Functions {
    count: bool,
    sum: bool,
    min: bool,
    max: bool,
}

const NONE: Functions = Functions {
    count: false,
    sum: false,
    min: false,
    max: false,
};

impl Functions {
    fn has(self, function: Function) -> bool
        ensures { result ≡ spec.has self function }
    {
        match function {
            Function::Count => self.count,
            Function::Sum => self.sum,
            Function::Min => self.min,
            Function::Max => self.max,
        }
    }

    fn with(self, function: Option<Function>) -> Functions
        ensures { result ≡ spec.with self function }
    {
        let mut all = self;
        match function {
            None => {}
            Some(Function::Count) => all.count = true,
            Some(Function::Sum) => all.sum = true,
            Some(Function::Min) => all.min = true,
            Some(Function::Max) => all.max = true,
        }
        all
    }
}

/// The function with this name.
#[tactic(auto, unfolding(query_spec::specs::Words::function_named))]
pub(crate) fn function_named(text: &str) -> Option<Function>
    ensures { result ≡ words.function_named text.now }
{
    if text == "count" {
        Some(Function::Count)
    } else if text == "sum" {
        Some(Function::Sum)
    } else if text == "min" {
        Some(Function::Min)
    } else if text == "max" {
        Some(Function::Max)
    } else {
        None
    }
}

// The shown functions after one more output. `named` is the function that has the output's name, if there is one.
fn marked(functions: Functions, item: &Selected, named: Option<Function>) -> Functions
    requires { named ≡ words.function_named (part.output_name item.now) }
    ensures { (cs : List Selected) → spec.AreTaken false cs functions → spec.AreTaken false (cs ++ item.now ∷ []) result }
{
    if is_function(item) {
        functions.with(named)
    } else {
        functions
    }
}

/// What is shown so far. It stores the functions among it, and the functions whose names are taken.
#[derive(Drop)]
pub struct Shown {
    pub list: Selection,
    functions: Functions,
    names: Functions,
    ghost functions_are: { spec.AreTaken false list functions },
    ghost names_are: { spec.AreTaken true list names },
}

impl Shown {
    pub fn new(alloc: Global) -> Shown
        ensures { result.list ≡ [] }
    {
        Shown {
            list: Selection::new(alloc),
            functions: NONE,
            names: NONE,
        }
    }

    /// Whether a shown function has this column's name.
    pub fn takes_column(&self, name: &Name) -> bool
        ensures { result ≡ list_any (clashes (selected.Column name.now)) self.now.list }
    {
        match function_named(name.text.as_str()) {
            None => false,
            Some(function) => self.functions.has(function),
        }
    }

    /// Whether an output has this function's name.
    pub fn takes_function(&self, function: Function) -> bool
        ensures { (c : Name) → result ≡ list_any (clashes (selected.Function function c)) self.now.list }
    {
        self.names.has(function)
    }

    /// Adds one output.
    pub fn with(self, item: Selected) -> Result<Shown, AllocError>
        ensures { IfOk result (λ s. s.list ≡ self.list ++ item ∷ []) }
    {
        let Shown {
            mut list,
            functions,
            names,
        } = self;
        let named = function_named(output_name(&item));
        let names = names.with(named);
        let functions = marked(functions, &item, named);
        list.push(item)?;
        Ok(Shown {
            list,
            functions,
            names,
        })
    }
}
