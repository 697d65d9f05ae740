//! The parser of expressions and statements: exactly the grammar, with at most 256 constructs in one
//! another.
#![tactic(auto)]

ghost use Rattle.std.specs.Prelude.{◌≢◌, ◌<◌, ◌^◌, length, Bool, IfOk, IfErr};
ghost use Rattle.jsh_tree.specs.declared.expression.Expr.{Expr};
ghost use Rattle.jsh_tree.specs.declared.statement.Stmt.{Stmt};
ghost use Rattle.jsh_grammar.specs.Productions.{expression, statement};
ghost use Rattle.jsh_parse.specs.declared.error.ParseError.TheVariants.{NoMemory};
ghost use Rattle.jsh_parse.specs.Grammar.{IsExpr};
ghost use Rattle.jsh_parse.specs.Reading.{AreTaken};
ghost use Rattle.jsh_parse.specs.Refusals.{IsRefusal};
ghost use Rattle.jsh_parse.specs.Statements.{IsStmt};

mod error;
mod expression;
mod forms;
mod heads;
mod input;
mod labels;
mod laws;
mod leaves;
mod list;
mod locals;
mod marks;
mod nodes;
mod operators;
mod path;
mod refusals;
mod runs;
mod simple;
mod statement;
mod statement_nodes;
mod word_input;
mod words;

pub use error::ParseError;
pub use forms::{Form, form_of};
use jsh_recognizer::Start;
use jsh_tree::{Expr, Stmt, Token};
pub use laws::{
    expressions_are_decided, expressions_are_in_the_table, one_statement, one_tree,
    refusals_are_determined, statements_are_decided, statements_are_in_the_table,
};
use std::alloc::Global;

// Readers of fronts, for the parser of declarations: each reads from the token at a place on, and gives
// the place behind what it read. With them come the tests of tokens, and the refusal of all of them.
pub use expression::expr;
pub use input::{
    Input, LIMIT, deeper, left_brace, left_paren, right_brace, right_paren, sees_comma,
    sees_left_paren, sees_right_brace,
};
pub use leaves::{brackets, identifier, identifier_of, type_name, type_use};
pub use list::arguments;
pub use locals::{final_word, variable};
pub use marks::{is_dot, is_identifier, is_primitive, is_super, is_this, names_type};
pub use refusals::refusal;
pub use statement::{block, statements, stmt};
pub use word_input::{sees_identifier, sees_right_paren, sees_semicolon, sees_var, semicolon};
pub use words::{is_semicolon, is_var};

/// The expression that the tokens of a text are.
pub fn parse_expr(alloc: Global, text: &str, tokens: &[Token]) -> Result<Expr, ParseError>
    // The tokens are tokens of the text, as the lexis gives them, perhaps with a semicolon that stands for its end.
    requires taken { AreTaken text.now tokens.now }
    // A place can count its bytes.
    requires short { length text.now < 2 ^ 32 }
    ensures ok { IfOk result (λ tree. IsExpr text.now 256 tokens.now tree) }
    ensures refused { IfErr result (λ e. e ≢ NoMemory → (tree : Expr) → IsExpr text.now 256 tokens.now tree → ⊥) }
    ensures refusal { IfErr result (IsRefusal expression text.now tokens.now) }
{
    let input = Input::new(alloc, text, tokens);
    match whole(&input) {
        Ok(tree) => Ok(tree),
        Err(error) => match error {
            ParseError::NoMemory => Err(ParseError::NoMemory),
            _ => Err(refusal(&input, Start::Expression)),
        },
    }
}

/// The expression that all tokens are.
fn whole(input: &Input) -> Result<Expr, ParseError>
    ensures ok { IfOk result (λ tree. IsExpr input.now.text.now 256 input.now.tokens.now tree) }
    ensures refused { IfErr result (λ e. e ≢ NoMemory → (tree : Expr) → IsExpr input.now.text.now 256 input.now.tokens.now tree → ⊥) }
{
    let (tree, end) = expr(input, 0, LIMIT)?;
    if end < input.tokens.len() {
        return Err(input.refuse(end, None));
    }
    Ok(tree.into_inner())
}

/// The statement that the tokens of a text are.
pub fn parse_stmt(alloc: Global, text: &str, tokens: &[Token]) -> Result<Stmt, ParseError>
    // The tokens are tokens of the text, as the lexis gives them, perhaps with a semicolon that stands for its end.
    requires taken { AreTaken text.now tokens.now }
    // A place can count its bytes.
    requires short { length text.now < 2 ^ 32 }
    ensures ok { IfOk result (λ tree. (dangling : Bool) × IsStmt text.now 256 dangling tokens.now tree) }
    ensures refused { IfErr result (λ e. e ≢ NoMemory → (dangling : Bool) → (tree : Stmt) → IsStmt text.now 256 dangling tokens.now tree → ⊥) }
    ensures refusal { IfErr result (IsRefusal statement text.now tokens.now) }
{
    let input = Input::new(alloc, text, tokens);
    match whole_statement(&input) {
        Ok(tree) => Ok(tree),
        Err(error) => match error {
            ParseError::NoMemory => Err(ParseError::NoMemory),
            _ => Err(refusal(&input, Start::Statement)),
        },
    }
}

/// The statement that all tokens are.
fn whole_statement(input: &Input) -> Result<Stmt, ParseError>
    ensures ok { IfOk result (λ tree. (dangling : Bool) × IsStmt input.now.text.now 256 dangling input.now.tokens.now tree) }
    ensures refused { IfErr result (λ e. e ≢ NoMemory → (dangling : Bool) → (tree : Stmt) → IsStmt input.now.text.now 256 dangling input.now.tokens.now tree → ⊥) }
{
    let (tree, behind) = stmt(input, 0, LIMIT)?;
    if behind < input.tokens.len() {
        return Err(input.refuse(behind, None));
    }
    Ok(tree.into_inner())
}

#[cfg(test)]
mod tests;
