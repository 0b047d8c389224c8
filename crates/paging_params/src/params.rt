//! Stores the parameters of a request by name.
ghost use Rattle.std.specs.Prelude.{◌≡◌, [], ◌∷◌, ◌++◌, OnOk, OnErr};
ghost use Rattle.std.specs.Option.{option_map};
ghost use Rattle.paging_params.specs.Params.{value_of, pairs_of, last_under};

use json_read::json_tree::{Json, Text};
use std::alloc::{AllocError, Global};
use std::marker::Model;

/// The value of a parameter.
#[derive(Drop)]
pub enum Param {
    /// A text in a URL.
    Url(Text),
    /// A JSON value in a body.
    Body(Json),
}

/// Parameters with their names, in the order of the request. Contracts see the list. The last one with a name counts.
#[derive(Drop)]
pub struct Params {
    list: Vec<(Text, Param)>,
}

impl Model for Params {
    ghost use Rattle.std.specs.Prelude.{ℕ, List};
    ghost use Rattle.paging_params.specs.Params.{ParamValue, pairs_of};

    ghost Value = { List (List ℕ × ParamValue) };

    ghost use Rattle.std.specs.Coded.{coded_list, coded×, coded⊎, coded_ℕ};
    ghost use Rattle.json_read.specs.text_spec.JsonCode.{coded_json};

    ghost coded = { coded_list (coded× (coded_list coded_ℕ) (coded⊎ (coded_list coded_ℕ) coded_json)) };

    ghost view = { λ a. pairs_of a.list.items };
}

impl Params {
    /// No parameters. It allocates no memory.
    pub fn new(alloc: Global) -> Params
        ensures { result ≡ [] }
    {
        Params {
            list: Vec::new(alloc),
        }
    }

    /// Appends a parameter. On an error the list is unchanged and the parameter is dropped.
    pub fn push(&mut self, name: Text, value: Param) -> Result<(), AllocError>
        ensures ok { OnOk result (self.new ≡ self.old ++ (name, value_of value) ∷ []) }
        ensures err { OnErr result (self.new ≡ self.old) }
    {
        self.list.push((name, value))?;
        Ok(())
    }

    /// The parameters in order.
    pub fn as_slice(&self) -> &[(Text, Param)]
        ensures { pairs_of result.now ≡ self.now }
    {
        self.list.as_slice()
    }

    /// The last parameter with this name.
    pub(crate) fn last(&self, name: &str) -> Option<&Param>
        ensures { option_map (λ p. value_of p.now) result ≡ last_under name.now self.now }
    {
        last(self.list.as_slice(), name)
    }
}

fn last<'a>(list: &'a [(Text, Param)], name: &str) -> Option<&'a Param>
    ensures { option_map (λ p. value_of p.now) result ≡ last_under name.now (pairs_of list.now) }
{
    let mut found = None;
    for pair in list {
        if pair.0.as_str() == name {
            found = Some(&pair.1);
        }
    }
    found
}
