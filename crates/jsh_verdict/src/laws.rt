//! What holds of the verdicts themselves.

ghost use Rattle.std.specs.Prelude.{◌≡◌, ◌↔◌, ℕ, List, Some};
ghost use Rattle.std.specs.Str.{IsUtf8};
ghost use Rattle.jsh_tree.specs.declared.diagnostic.Diagnostic.{Diagnostic};
ghost use Rattle.jsh_tree.specs.declared.tree.Tree.{Tree};
ghost use Rattle.jsh_sum.specs.declared.sums.Sum.{Sum};
ghost use Rattle.jsh_verdict.specs.declared.verdict.Verdict.TheVariants.{Accepted, Rejected};
ghost use Rattle.jsh_verdict.specs.Verdict.{tree_of, verdict};
ghost use Rattle.jsh_verdict.specs.Causes.{IsAccepted, IsRejected, IsSourceOf};

/// A text has a tree exactly where that is the tree of a source, and it is accepted with a sum, or rejected with diagnostics, exactly where there is a cause of it.
pub fn verdicts_have_causes()
    ensures tree { (source : List ℕ) (tree : Tree) → (tree_of source ≡ Some tree) ↔ IsSourceOf source tree }
    ensures accepted { (source : List ℕ) (sum : Sum) → (verdict source ≡ Accepted sum) ↔ IsAccepted source sum }
    ensures rejected { (source : List ℕ) (ds : List Diagnostic) → IsUtf8 source → (verdict source ≡ Rejected ds) ↔ IsRejected source ds }
{}
