//! What holds of the table.

ghost use Rattle.std.specs.Prelude.{◌≢◌, ◌++◌, ◌⊎◌, ◌↔◌, List, [], ℕ};
ghost use Rattle.jsh_tree.specs.declared.token.TokenKind.{TokenKind};
ghost use Rattle.jsh_grammar.specs.Productions.{Part, Symbol, IsProduction};
ghost use Rattle.jsh_grammar.specs.Fronts.{Derives, IsFront, IsWhole, IsViable};
ghost use Rattle.jsh_grammar.specs.Depths.{depths, NoneDeeper};
ghost use Rattle.jsh_grammar.specs.Leads.{in_room, Leads, Fulfils};

/// A list is viable exactly where more tokens make it whole.
pub fn fronts_go_on()
    ensures more { (n : Part) (room : ℕ) (ks : List TokenKind) → IsViable n room ks → (deeper : ℕ) × (rest : List TokenKind) × (rest ≢ []) × IsWhole n deeper (ks ++ rest) }
    ensures fewer { (n : Part) (room : ℕ) (ks rest : List TokenKind) → rest ≢ [] → IsWhole n room (ks ++ rest) → IsViable n room ks }
{}

/// A stack of symbols is used up by what they derive.
pub fn stacks_are_derivations()
    ensures whole { (room : ℕ) (ss : List Symbol) (ks : List TokenKind) → Fulfils (in_room room ss) ks ↔ Derives room ss ks }
{}

/// A stack of symbols leads over what they derive, and over their fronts.
pub fn stacks_are_prefixes()
    ensures prefixes { (room : ℕ) (ss : List Symbol) (ks : List TokenKind) → Leads (in_room room ss) ks ↔ (Derives room ss ks ⊎ IsFront room ss ks) }
{}

/// No token of a production is deeper than the room, and as much room as the deepest needs is enough.
pub fn rooms_bound_depths()
    ensures fits { (room : ℕ) (n : Part) (p : List Symbol) (ks : List TokenKind) (is : IsProduction n p) (d : Derives room p ks) → NoneDeeper room (depths 0 d) }
    ensures roomy { (room limit : ℕ) (n : Part) (p : List Symbol) (ks : List TokenKind) → IsProduction n p → (d : Derives room p ks) → NoneDeeper limit (depths 0 d) → Derives limit p ks }
{}
