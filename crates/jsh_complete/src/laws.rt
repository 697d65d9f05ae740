//! What holds of the definition.

ghost use Rattle.std.specs.Prelude.{◌≡◌, List, Option, ℕ};
ghost use Rattle.jsh_tree.specs.declared.token.Token.{Token};
ghost use Rattle.jsh_lex.specs.declared.lexeme.LexFault.{LexFault};
ghost use Rattle.jsh_complete.specs.declared.completion.Completion.{Completion};
ghost use Rattle.jsh_complete.specs.Completeness.{IsCompletion};
ghost use Rattle.jsh_complete.specs.Completing.{completion};

/// A text has one completion, which the function gives.
pub fn one_completion()
    ensures one { (text : List ℕ) (ts : List Token) (fault : Option LexFault) (a b : Completion) → IsCompletion text ts fault a → IsCompletion text ts fault b → a ≡ b }
    ensures given { (text : List ℕ) (ts : List Token) (fault : Option LexFault) → IsCompletion text ts fault (completion text ts fault) }
{}
