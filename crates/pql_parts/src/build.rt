//! Builds filters and tracks how deep they nest. A height is exact up to 100; any greater height is stored as 101.
ghost use Rattle.std.specs.Prelude.{◌≡◌, ◌≤◌, ◌+◌, ◌==◌, ℕ, [], ◌∷◌, ◌++◌, IfOk, if◌then◌else◌, true, false};
ghost use Rattle.ast_tree.specs.Tree.{filter_of};
ghost use Rattle.query_spec.specs.Query as query;
ghost use Rattle.pql_spec.specs.Grammar as grammar;
ghost use Rattle.pql_machine.specs.Depth as depth;
ghost use Rattle.pql_machine.specs.Machine as machine;
ghost use Rattle.pql_parts.specs.Heights as spec;

use ast_tree::{Clause, Filter, Filters, Operand};
use query_spec::MOST_DEPTH;
use std::alloc::{AllocError, Global};

/// The stored height of every filter higher than 100.
pub(crate) const DEEP: usize = MOST_DEPTH + 1;

/// The height plus one, capped.
pub fn deeper(height: usize) -> usize
    ensures { result ≡ spec.deeper height }
{
    if height < DEEP { height + 1 } else { DEEP }
}

/// The height of joined filters: whether there are others, their greatest height, and the height of the last.
pub(crate) fn joined(others: bool, tallest: usize, last: usize) -> usize
    ensures { result ≡ spec.joined others tallest last }
{
    if others {
        deeper(tallest.max(last))
    } else {
        last
    }
}

/// A filter and its height.
#[derive(Drop)]
pub struct Built {
    pub filter: Filter,
    pub height: usize,
    pub ghost exact: { height ≡ spec.capped (query.height (filter_of filter)) },
}

/// Drops a filter.
pub fn let_built_go(_built: Built) {}

impl Built {
    /// A filter that contains no other.
    #[inline]
    pub fn leaf(filter: Filter) -> Built
        requires { query.height (filter_of filter) ≡ 1 }
        ensures { result.filter ≡ filter }
    {
        Built { filter, height: 1 }
    }

    pub fn negated(self, alloc: Global) -> Result<Built, AllocError>
        ensures { IfOk result (λ b. filter_of b.filter ≡ query.negation (filter_of self.filter)) }
    {
        let Built { filter, height } = self;
        Ok(Built {
            filter: Filter::Not(Operand::new(alloc, filter)?),
            height: deeper(height),
        })
    }
}

/// The filter under this many negations.
pub(crate) fn negate(alloc: Global, nots: usize, built: Built) -> Result<Built, AllocError>
    ensures { IfOk result (λ b. filter_of b.filter ≡ machine.negate nots (filter_of built.filter)) }
{
    let mut found = built;
    let mut left = nots;
    'nots: while left > 0 {
        found = found.negated(alloc)?;
        left -= 1;
    }
    Ok(found)
}

/// The arms of an `and` or an `or`, and the greatest of their heights.
#[derive(Drop)]
pub struct Arms {
    pub filters: Filters,
    pub tallest: usize,
    pub ghost exact: { tallest ≡ spec.capped (depth.tall filters) },
}

impl Arms {
    pub fn new(alloc: Global) -> Arms
        ensures { result.filters ≡ [] }
    {
        Arms {
            filters: Filters::new(alloc),
            tallest: 0,
        }
    }

    pub fn is_empty(&self) -> bool
        ensures { result ≡ spec.is_empty self.now.filters }
    {
        self.filters.as_slice().is_empty()
    }

    /// Adds a filter.
    #[tactic(auto, using(crate::proofs::Heights::tallest_more))]
    pub fn with(self, built: Built) -> Result<Arms, AllocError>
        ensures { IfOk result (λ g. g.filters ≡ self.filters ++ filter_of built.filter ∷ []) }
    {
        let Arms {
            mut filters,
            tallest,
        } = self;
        let Built { filter, height } = built;
        filters.push(filter)?;
        Ok(Arms {
            filters,
            tallest: tallest.max(height),
        })
    }

    /// The height of the filters once they are joined. A single filter is itself.
    fn joined_height(&self) -> usize
        ensures { result ≡ spec.joined_height self.now.filters self.now.tallest }
    {
        if self.filters.as_slice().len() == 1 {
            self.tallest
        } else {
            deeper(self.tallest)
        }
    }

    /// The conjunction of the filters.
    #[tactic(auto, using(crate::proofs::Heights::all_height))]
    pub fn join_all(self) -> Built
        ensures { filter_of result.filter ≡ grammar.join_all self.filters }
    {
        let height = self.joined_height();
        let Arms {
            filters,
            tallest: _,
        } = self;
        let filter = join_all(filters);
        Built { filter, height }
    }

    /// The disjunction of the filters.
    #[tactic(auto, using(crate::proofs::Heights::any_height))]
    pub fn join_any(self) -> Built
        ensures { filter_of result.filter ≡ grammar.join_any self.filters }
    {
        let height = self.joined_height();
        let Arms {
            filters,
            tallest: _,
        } = self;
        let filter = join_any(filters);
        Built { filter, height }
    }
}

fn join_all(mut list: Filters) -> Filter
    ensures { filter_of result ≡ grammar.join_all list }
{
    if list.as_slice().len() == 1 {
        match list.pop() {
            Some(filter) => filter,
            None => Filter::All(list),
        }
    } else {
        Filter::All(list)
    }
}

fn join_any(mut list: Filters) -> Filter
    ensures { filter_of result ≡ grammar.join_any list }
{
    if list.as_slice().len() == 1 {
        match list.pop() {
            Some(filter) => filter,
            None => Filter::Any(list),
        }
    } else {
        Filter::Any(list)
    }
}

/// The filters of the earlier groups, and the operands of the current group.
#[derive(Drop)]
pub struct Pending {
    pub any: Arms,
    pub all: Arms,
}

impl Pending {
    ghost use Rattle.pql_parts.specs.Parts.{pending_of};

    pub fn new(alloc: Global) -> Pending
        ensures { pending_of result ≡ machine.nothing }
    {
        Pending {
            any: Arms::new(alloc),
            all: Arms::new(alloc),
        }
    }

    /// Adds one more operand, under this many negations, to the group.
    pub fn with(self, alloc: Global, nots: usize, built: Built) -> Result<Pending, AllocError>
        ensures { IfOk result (λ p. pending_of p ≡ record {
          any = self.any.filters;
          all = self.all.filters
              ++ machine.negate nots (filter_of built.filter) ∷ [];
        }) }
    {
        let Pending { any, all } = self;
        let negated = negate(alloc, nots, built)?;
        Ok(Pending {
            any,
            all: all.with(negated)?,
        })
    }

    /// Ends the group at `or`, and begins the next.
    pub fn next_group(self, alloc: Global) -> Result<Pending, AllocError>
        ensures { IfOk result (λ p. pending_of p ≡ record { any = self.any.filters ++ grammar.join_all self.all.filters ∷ []; all = [] }) }
    {
        let Pending { any, all } = self;
        Ok(Pending {
            any: any.with(all.join_all())?,
            all: Arms::new(alloc),
        })
    }

    /// The filter of a region that ends here.
    pub fn region(self) -> Result<Built, AllocError>
        ensures { IfOk result (λ b. filter_of b.filter ≡ machine.region (pending_of self)) }
    {
        let Pending { any, all } = self;
        let any = any.with(all.join_all())?;
        Ok(any.join_any())
    }

    /// The height of the region's filter.
    pub fn region_height(&self) -> usize
        ensures { result ≡ spec.capped (query.height (machine.region (pending_of self.now))) }
    {
        joined(
            !self.any.is_empty(),
            self.any.tallest,
            self.all.joined_height(),
        )
    }

    /// The height of the region's filter after one more operand of this height under `nots` negations.
    #[tactic(auto, using(crate::proofs::Heights::put_height_told))]
    pub fn put_height(&self, nots: usize, height: usize) -> usize
        ensures { result ≡ spec.capped (depth.put_height (pending_of self.now) nots height) }
    {
        let last = nots.min(DEEP) + height.min(DEEP);
        let group = joined(!self.all.is_empty(), self.all.tallest, last.min(DEEP));
        joined(!self.any.is_empty(), self.any.tallest, group)
    }
}

/// The filter in braces, or none, and its height.
#[derive(Drop)]
pub struct Closed {
    pub clause: Clause,
    pub height: usize,
    pub ghost exact: { height ≡ spec.capped (query.clause_height clause) },
}

impl Closed {
    pub fn none() -> Closed
        ensures { result.clause ≡ query.no_clause }
    {
        Closed {
            clause: Clause::none(),
            height: 0,
        }
    }

    pub fn of(alloc: Global, built: Built) -> Result<Closed, AllocError>
        ensures { IfOk result (λ k. k.clause ≡ query.clause (filter_of built.filter)) }
    {
        let Built { filter, height } = built;
        Ok(Closed {
            clause: Clause::of(alloc, filter)?,
            height,
        })
    }
}
