//! What holds of the grammar itself.

ghost use Rattle.std.specs.Prelude.{◌≡◌, List, [], ℕ, Some};
ghost use Rattle.std.specs.Str.{IsUtf8};
ghost use Rattle.jsh_tree.specs.declared.token.Token.{Token};
ghost use Rattle.jsh_tree.specs.declared.tree.Tree.{Tree};
ghost use Rattle.jsh_grammar.specs.Productions.{snippet};
ghost use Rattle.jsh_grammar.specs.Fronts.{IsWhole};
ghost use Rattle.jsh_parse.specs.Reading.{AreTaken};
ghost use Rattle.jsh_recognizer.specs.Recognizing.{kinds};
ghost use Rattle.jsh_decl.specs.Declarations.{IsSnippet, IsSource};
ghost use Rattle.jsh_decl.specs.DeclarationReader.{snippet_at};

/// A list of tokens spells at most one snippet.
pub fn one_snippet()
    ensures unique { (text : List ℕ) (r s : ℕ) (ts : List Token) (a b : Tree) → IsSnippet text r ts a → IsSnippet text s ts b → a ≡ b }
{}

/// The reader of the definitions decides which lists of tokens are snippets, with the tree.
pub fn snippets_are_decided()
    ensures read { (text : List ℕ) (room : ℕ) (ts : List Token) (tree : Tree) → snippet_at text room ts ≡ Some (tree, []) → IsSnippet text room ts tree }
    ensures all { (text : List ℕ) (room : ℕ) (ts : List Token) (tree : Tree) → IsSnippet text room ts tree → snippet_at text room ts ≡ Some (tree, []) }
{}

/// The table of the grammar derives exactly the snippets: the kinds of their tokens, with as much
/// room.
pub fn snippets_are_in_the_table()
    ensures derived { (text : List ℕ) (room : ℕ) (ts : List Token) (tree : Tree) → IsSnippet text room ts tree → IsWhole snippet room (kinds ts) }
    // The tokens are those of a text, so that each literal has a value.
    ensures spelled { (text : List ℕ) (room : ℕ) (ts : List Token) → IsUtf8 text → AreTaken text ts → IsWhole snippet room (kinds ts) → (tree : Tree) × IsSnippet text room ts tree }
{}
