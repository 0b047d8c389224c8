//! Defines the tree of a query: filters within filters, levels within levels.
//!
//! A struct that contains a filter or a level is seen by contracts as a tree of `query_spec`. So two trees are equal wherever
//! their memory is. A recursive walk ends because sizes fall: the size is twice the height, with a level between two filters. A
//! new form of filter is added to `Filter` here, to `query_spec`, to its encoding there, and to `filter_of`.
ghost use Rattle.std.specs.Prelude.{◌≡◌, ◌≤◌, [], ◌∷◌, ◌++◌, OnOk, OnErr, IfOk, All, MatchOption};
ghost use Rattle.query_spec.specs.Query as spec;
ghost use Rattle.query_spec.specs.Query.{filters_of, height, heights};
ghost use Rattle.ast_tree.specs.Tree.{filter_of, filters};

use query_spec::{
    Columns, Field, Fields, Literal, Literals, Name, Op, Paging, Pattern, Place, Selection,
};
use std::alloc::{AllocError, Global};
use std::marker::Model;

/// The condition by which rows are chosen.
#[cycle(ast)]
#[derive(Drop)]
pub enum Filter {
    /// A comparison with a literal, including equality.
    Compare(Op, Field, Literal),
    /// The text matches the regular expression.
    Matches(Field, Pattern),
    /// True: the cell is null. False: it isn't.
    IsNull(Field, bool),
    /// `in` with literals: the left side, the place of the right side, and its literals.
    InList(Fields, Place, Literals),
    /// `in` with a selection: the left side, the place of the right side, and its level.
    InLevel(Fields, Place, Box<Level>),
    /// Some chosen row of the entity has the same certname.
    Subquery(Name, Clause),
    Not(Operand),
    All(Filters),
    Any(Filters),
}

/// Filters in order.
#[cycle(ast)]
#[derive(Drop)]
pub struct Filters {
    list: Vec<Filter>,
}

/// A filter within another filter.
#[cycle(ast)]
#[derive(Drop)]
pub struct Operand {
    filter: Box<Filter>,
}

/// A filter, or none.
#[cycle(ast)]
#[derive(Drop)]
pub struct Clause {
    filter: Option<Box<Filter>>,
}

/// A selection of an entity's rows.
#[cycle(ast)]
#[derive(Drop)]
pub struct Level {
    entity: Name,
    shown: Option<Selection>,
    clause: Clause,
    group: Columns,
    paging: Paging,
}

impl Model for Filters {
    ghost use Rattle.std.specs.Prelude.{List};
    ghost use Rattle.query_spec.specs.Query.{Filter};

    ghost Value = { List Filter };

    ghost use Rattle.std.specs.Coded.{codes, coded_list};
    ghost use Rattle.query_spec.specs.Code.{coded_filter};

    ghost coded = { coded_list (coded_filter (Prim.hlevel codes)) };

    ghost use Rattle.ast_tree.specs.Tree.{filters};
    ghost use Rattle.query_spec.specs.Query.{filters_of, heights};

    ghost view = { λ a. filters a.list.items };

    ghost use Rattle.std.specs.Prelude.{◌*◌};

    ghost size = { λ fs. 2 * heights (filters_of fs) };

    ghost use Rattle.ast_tree.specs.TreeFalls.{filters_fall};
    ghost use Rattle.std.proofs.Common.{arith};

    ghost size_decreases = { λ a h. Prim.omega (arith, filters_fall a.list.items) };
}

impl Model for Operand {
    ghost use Rattle.query_spec.specs.Query.{Filter};

    ghost Value = { Filter };

    ghost use Rattle.std.specs.Coded.{codes};
    ghost use Rattle.query_spec.specs.Code.{coded_filter};

    ghost coded = { coded_filter (Prim.hlevel codes) };

    ghost use Rattle.ast_tree.specs.Tree.{filter_of};
    ghost use Rattle.query_spec.specs.Query.{height};

    ghost view = { λ a. filter_of a.filter.value };

    ghost use Rattle.std.specs.Prelude.{◌*◌};

    ghost size = { λ f. 2 * height f };

    ghost use Rattle.ast_tree.specs.TreeFalls.{deep_le-height};
    ghost use Rattle.std.proofs.Common.{arith};

    ghost size_decreases = { λ a h. Prim.omega (arith, deep_le-height a.filter.value) };
}

impl Model for Clause {
    ghost use Rattle.query_spec.specs.Query.{Clause};

    ghost Value = { Clause };

    ghost use Rattle.std.specs.Coded.{codes};
    ghost use Rattle.query_spec.specs.Code.{coded_clause};

    ghost coded = { coded_clause (Prim.hlevel codes) };

    ghost use Rattle.ast_tree.specs.Tree.{clause_of};
    ghost use Rattle.query_spec.specs.Query.{clause_height};

    ghost view = { λ a. clause_of a.filter };

    ghost use Rattle.std.specs.Prelude.{◌*◌};

    ghost size = { λ k. 2 * clause_height k };

    ghost use Rattle.ast_tree.specs.TreeFalls.{clause_falls};
    ghost use Rattle.std.proofs.Common.{arith};

    ghost size_decreases = { λ a h. Prim.omega (arith, clause_falls a.filter) };
}

impl Model for Level {
    ghost use Rattle.query_spec.specs.Query.{Level, level};

    ghost Value = { Level };

    ghost use Rattle.std.specs.Coded.{codes};
    ghost use Rattle.query_spec.specs.Code.{coded_level};

    ghost coded = { coded_level (Prim.hlevel codes) };

    ghost use Rattle.query_spec.specs.Query.{level_height};
    ghost use Rattle.std.specs.Prelude.{suc, ◌*◌};

    ghost view = { λ a. level a.entity a.shown a.clause a.group a.paging };

    ghost size = { λ q. suc (2 * level_height q) };

    ghost use Rattle.std.proofs.Common.{arith};

    ghost size_decreases = { λ a h. Prim.omega (arith) };
}

impl Filters {
    /// An empty list of filters.
    pub fn new(alloc: Global) -> Filters
        ensures { result ≡ [] }
    {
        Filters {
            list: Vec::new(alloc),
        }
    }

    /// Appends a filter. On an error the list is unchanged and the filter is dropped.
    pub fn push(&mut self, filter: Filter) -> Result<(), AllocError>
        ensures ok { OnOk result (self.new ≡ self.old ++ filter_of filter ∷ []) }
        ensures err { OnErr result (self.new ≡ self.old) }
    {
        self.list.push(filter)?;
        Ok(())
    }

    /// The filters in order.
    #[tactic(auto, using(crate::proofs::HeightLaws::filters_within))]
    pub fn as_slice(&self) -> &[Filter]
        ensures filters { filters result.now ≡ self.now }

        // This fact proves that a walk over the tree ends.
        ensures within { All (λ f. height (filter_of f) ≤ heights (filters_of self.now)) result.now }
    {
        self.list.as_slice()
    }

    /// Removes and returns the last filter.
    pub fn pop(&mut self) -> Option<Filter>
        ensures { MatchOption result (self.old ≡ []) (λ f. self.old ≡ self.new ++ filter_of f ∷ []) }
    {
        self.list.pop()
    }
}

impl Operand {
    pub fn new(alloc: Global, filter: Filter) -> Result<Operand, AllocError>
        ensures { IfOk result (λ o. o ≡ filter_of filter) }
    {
        Ok(Operand {
            filter: Box::new(alloc, filter)?,
        })
    }

    pub fn filter(&self) -> &Filter
        ensures { filter_of result.now ≡ self.now }
    {
        &self.filter
    }
}

impl Clause {
    /// No filter.
    pub fn none() -> Clause
        ensures { result ≡ spec.no_clause }
    {
        Clause { filter: None }
    }

    pub fn of(alloc: Global, filter: Filter) -> Result<Clause, AllocError>
        ensures { IfOk result (λ k. k ≡ spec.clause (filter_of filter)) }
    {
        Ok(Clause {
            filter: Some(Box::new(alloc, filter)?),
        })
    }

    /// The filter, if there is one.
    pub fn filter(&self) -> Option<&Filter>
        ensures { MatchOption result (self.now ≡ spec.no_clause) (λ f. self.now ≡ spec.clause (filter_of f.now)) }
    {
        match &self.filter {
            None => None,
            Some(filter) => Some(filter),
        }
    }
}

impl Level {
    pub fn new(
        entity: Name,
        shown: Option<Selection>,
        clause: Clause,
        group: Columns,
        paging: Paging,
    ) -> Level
        ensures { result ≡ spec.level entity shown clause group paging }
    {
        Level {
            entity,
            shown,
            clause,
            group,
            paging,
        }
    }

    /// The level's entity, what it shows, its filter, the columns of its groups, and its paging.
    pub fn parts(&self) -> (&Name, &Option<Selection>, &Clause, &Columns, &Paging)
        ensures { self.now ≡ spec.level result.0.now result.1.now result.2.now result.3.now result.4.now }
    {
        (
            &self.entity,
            &self.shown,
            &self.clause,
            &self.group,
            &self.paging,
        )
    }
}
