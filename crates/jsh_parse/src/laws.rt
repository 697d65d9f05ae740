//! What holds of the grammar itself.

ghost use Rattle.std.specs.Prelude.{◌≡◌, ◌↔◌, Bool, List, [], ℕ, Option, Some};
ghost use Rattle.std.specs.Str.{IsUtf8};
ghost use Rattle.jsh_tree.specs.declared.token.Token.{Token};
ghost use Rattle.jsh_tree.specs.declared.token.TokenKind.{TokenKind};
ghost use Rattle.jsh_tree.specs.declared.expression.Expr.{Expr};
ghost use Rattle.jsh_tree.specs.declared.statement.Stmt.{Stmt};
ghost use Rattle.jsh_grammar.specs.Productions.{expression, statement};
ghost use Rattle.jsh_grammar.specs.Fronts.{IsWhole};
ghost use Rattle.jsh_parse.specs.declared.error.ParseError.TheVariants.{Wanted, TooDeep};
ghost use Rattle.jsh_parse.specs.Grammar.{IsExpr};
ghost use Rattle.jsh_parse.specs.Statements.{IsStmt};
ghost use Rattle.jsh_parse.specs.Reader.{readers};
ghost use Rattle.jsh_parse.specs.Reading.{AreTaken};
ghost use Rattle.jsh_parse.specs.Refusals.{IsRefusal};
ghost use Rattle.jsh_recognizer.specs.declared.recognizer.Start.{Start};
ghost use Rattle.jsh_recognizer.specs.Stops.{part_of};
ghost use Rattle.jsh_recognizer.specs.Recognizing.{kinds};
ghost use Rattle.jsh_parse.specs.StatementReader.{statement_readers};

/// A list of tokens spells at most one expression.
pub fn one_tree()
    ensures unique { (text : List ℕ) (r s : ℕ) (ts : List Token) (a b : Expr) → IsExpr text r ts a → IsExpr text s ts b → a ≡ b }
{}

/// A list of tokens spells at most one statement.
pub fn one_statement()
    ensures unique { (text : List ℕ) (r s : ℕ) (c d : Bool) (ts : List Token) (a b : Stmt) → IsStmt text r c ts a → IsStmt text s d ts b → a ≡ b }
{}

/// The reader of the definitions decides which lists of tokens are expressions, with the tree.
pub fn expressions_are_decided()
    ensures decided { (text : List ℕ) (room : ℕ) (ts : List Token) (e : Expr) → ((readers text room).expr ts ≡ Some (e, [])) ↔ IsExpr text room ts e }
{}

/// The reader of the definitions decides which lists of tokens are statements, with the tree.
pub fn statements_are_decided()
    ensures read { (text : List ℕ) (room : ℕ) (ts : List Token) (s : Stmt) → (statement_readers text room).stmt ts ≡ Some (s, []) → (dangling : Bool) × IsStmt text room dangling ts s }
    ensures all { (text : List ℕ) (room : ℕ) (dangling : Bool) (ts : List Token) (s : Stmt) → IsStmt text room dangling ts s → (statement_readers text room).stmt ts ≡ Some (s, []) }
{}

/// The table of the grammar derives exactly the expressions: the kinds of their tokens, with as much room.
pub fn expressions_are_in_the_table()
    ensures derived { (text : List ℕ) (room : ℕ) (ts : List Token) (e : Expr) → IsExpr text room ts e → IsWhole expression room (kinds ts) }
    // The tokens are those of a text, so that each literal has a value.
    ensures spelled { (text : List ℕ) (room : ℕ) (ts : List Token) → IsUtf8 text → AreTaken text ts → IsWhole expression room (kinds ts) → (e : Expr) × IsExpr text room ts e }
{}

/// The table of the grammar derives exactly the statements: the kinds of their tokens, with as much
/// room.
pub fn statements_are_in_the_table()
    ensures derived { (text : List ℕ) (room : ℕ) (dangling : Bool) (ts : List Token) (s : Stmt) → IsStmt text room dangling ts s → IsWhole statement room (kinds ts) }
    // The tokens are those of a text, so that each literal has a value.
    ensures spelled { (text : List ℕ) (room : ℕ) (ts : List Token) → IsUtf8 text → AreTaken text ts → IsWhole statement room (kinds ts) → (dangling : Bool) × (s : Stmt) × IsStmt text room dangling ts s }
{}

/// Tokens are refused in one way, and at one place.
pub fn refusals_are_determined()
    ensures one_place { (s : Start) (text : List ℕ) (ts : List Token) (p q : ℕ) (v w : Option TokenKind) → IsRefusal (part_of s) text ts (Wanted p v) → IsRefusal (part_of s) text ts (Wanted q w) → p ≡ q }
    ensures one_limit { (s : Start) (text : List ℕ) (ts : List Token) (l m : ℕ) → IsRefusal (part_of s) text ts (TooDeep l) → IsRefusal (part_of s) text ts (TooDeep m) → l ≡ m }
    ensures one_way { (s : Start) (text : List ℕ) (ts : List Token) (p l : ℕ) (w : Option TokenKind) → IsRefusal (part_of s) text ts (Wanted p w) → IsRefusal (part_of s) text ts (TooDeep l) → ⊥ }
{}
