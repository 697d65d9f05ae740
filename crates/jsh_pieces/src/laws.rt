//! What holds of the lexis of a text by pieces.

ghost use Rattle.std.specs.Prelude.{◌≡◌, true, List, [], ◌∷◌, ◌++◌, drop, ℕ, Some, None};
ghost use Rattle.std.specs.Str.{IsUtf8};
ghost use Rattle.jsh_tree.specs.declared.token.Token.{Token};
ghost use Rattle.jsh_lex.specs.declared.lexeme.LexFault.TheVariants.{OpenComment};
ghost use Rattle.jsh_lex.specs.Lexis.{tokens, behind_comment};
ghost use Rattle.jsh_pieces.specs.Pieces.{moved_lexed, joined, ends_line, CanResume};

/// Behind a token a text is lexed as if it began there.
pub fn behind_a_token()
    ensures rest { (text : List ℕ) (ps qs : List Token) (t : Token) → IsUtf8 text → (tokens text).tokens ≡ ps ++ t ∷ qs → tokens text ≡ joined (ps ++ t ∷ []) (moved_lexed t.span.to (tokens (drop t.span.to text))) }
{}

/// A text that goes on is lexed from the place where it can resume, and its tokens so far stay.
pub fn taken_up_again()
    ensures resumed { (text more : List ℕ) (p : ℕ) → IsUtf8 text → IsUtf8 more → CanResume text p → tokens (text ++ more) ≡ joined (tokens text).tokens (moved_lexed p (tokens (drop p text ++ more))) }
{}

/// A comment that isn't closed stays so where the text goes on without closing it, and nothing else changes.
pub fn still_open()
    ensures still { (text more : List ℕ) (p : ℕ) → IsUtf8 text → IsUtf8 more → (tokens text).fault ≡ Some (OpenComment, p) → ends_line text ≡ true → behind_comment more ≡ None → tokens (text ++ more) ≡ tokens text }
{}
