//! Laws of the answers.

ghost use Rattle.std.specs.Prelude.{◌≡◌};
ghost use Rattle.jsh_tree.specs.declared.library.Query.{Query};
ghost use Rattle.jsh_scope.specs.Scope.{Scope};
ghost use Rattle.jsh_scope.specs.Queries.{AgreeOn, DifferElsewhere, Reader, answer, footprint, given};

/// Who asks only queries that two environments answer alike is given the same by both, and asks the
/// same.
pub fn readers_agree<A>()
    ensures given { (reader : Reader A) (a b : Scope) → AgreeOn a b (footprint reader a) → given reader a ≡ given reader b }
    ensures asked { (reader : Reader A) (a b : Scope) → AgreeOn a b (footprint reader a) → footprint reader a ≡ footprint reader b }
{}

/// A query is answered as before, where the members that may matter to it are as before: whatever
/// other members are added, removed or declared anew.
pub fn answers_stay()
    ensures { (query : Query) (a b : Scope) → DifferElsewhere query a b → answer a query ≡ answer b query }
{}
