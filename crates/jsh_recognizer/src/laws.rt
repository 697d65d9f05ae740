//! What holds of the recognizer's definition.

ghost use Rattle.std.specs.Prelude.{◌≡◌, ◌↔◌, true, is_some, List, [], ◌∷◌, ℕ, MatchBool};
ghost use Rattle.jsh_tree.specs.declared.token.Token.{Token};
ghost use Rattle.jsh_tree.specs.declared.token.TokenKind.{TokenKind};
ghost use Rattle.jsh_grammar.specs.Productions.{Part, part};
ghost use Rattle.jsh_grammar.specs.Fronts.{IsPrefix, IsViable, IsWhole};
ghost use Rattle.jsh_grammar.specs.Leads.{Leads, Fulfils};
ghost use Rattle.jsh_recognizer.specs.Machine.{Frames, Runs, may_all_stop};
ghost use Rattle.jsh_recognizer.specs.Meanings.{Starts};
ghost use Rattle.jsh_recognizer.specs.Reach.{behind, goes_on, is_whole, reach};
ghost use Rattle.jsh_recognizer.specs.Reached.{IsReach};
ghost use Rattle.jsh_recognizer.specs.Recognizing.{first, kinds};
ghost use Rattle.jsh_recognizer.specs.Stops.{part_of};
ghost use Rattle.jsh_recognizer.specs.declared.frame.Frame.{Frame};
ghost use Rattle.jsh_recognizer.specs.declared.recognizer.Start.{Start};

/// The recognizer takes exactly the prefixes of an expression, a statement and a snippet, and knows which of them are whole.
pub fn recognizer_takes_prefixes()
    ensures taken { (n : Part) (f : Frame) (limit : ℕ) (ks : List TokenKind) (last : Frames) → Starts n f → Runs limit ((0, f) ∷ []) ks last → Leads ((limit, part n) ∷ []) ks }
    ensures all { (n : Part) (f : Frame) (limit : ℕ) (ks : List TokenKind) → Starts n f → Leads ((limit, part n) ∷ []) ks → (last : Frames) × Runs limit ((0, f) ∷ []) ks last }
    ensures whole { (n : Part) (f : Frame) (limit : ℕ) (ks : List TokenKind) (last : Frames) → Starts n f → Runs limit ((0, f) ∷ []) ks last → (may_all_stop last ≡ true) ↔ Fulfils ((limit, part n) ∷ []) ks }
{}

/// What the machine says as a function is what the table says: how far tokens are a prefix, whether they are one, a whole one, or go on.
pub fn functions_follow_table()
    ensures reach { (s : Start) (ts : List Token) → IsReach (part_of s) 256 ts (reach 256 (first s) (kinds ts)) }
    ensures prefix { (s : Start) (ks : List TokenKind) → MatchBool (is_some (behind (first s) ks)) ((room : ℕ) × IsPrefix (part_of s) room ks) ((room : ℕ) × IsPrefix (part_of s) room ks → ⊥) }
    ensures whole { (s : Start) (room : ℕ) (ks : List TokenKind) → MatchBool (is_whole (reach room (first s) ks)) (IsWhole (part_of s) room ks) (IsWhole (part_of s) room ks → ⊥) }
    ensures viable { (s : Start) (ks : List TokenKind) → MatchBool (goes_on (first s) ks) ((room : ℕ) × IsViable (part_of s) room ks) ((room : ℕ) × IsViable (part_of s) room ks → ⊥) }
{}
