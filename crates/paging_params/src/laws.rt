//! The law of the definition. The function has an empty body: its contract is the law.
ghost use Rattle.std.specs.Prelude.{◌≡◌, ℕ, List, Option, Result};
ghost use Rattle.ast_tree.specs.query_spec.declared.parts.Paging.{Paging};
ghost use Rattle.paging_params.specs.Params.{ParamValue};
ghost use Rattle.paging_params.specs.Paging.{IsPagingOf};

/// Parameters ask for exactly one paging, or have exactly one first bad name.
pub fn parameters_ask_for_one_paging()
    ensures { (names : List (List ℕ)) (under : List ℕ → Option ParamValue) (a b : Result Paging (List ℕ))
        → IsPagingOf names under a → IsPagingOf names under b → a ≡ b }
{}
