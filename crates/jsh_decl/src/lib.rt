//! The parser of snippets: exactly the grammar, with at most 256 constructs in one another.
#![tactic(auto)]

ghost use Rattle.std.specs.Prelude.{◌≡◌, ◌≢◌, ◌^◌, ◌<◌, ◌++◌, ◌∷◌, [], length, IfOk, IfErr};
ghost use Rattle.jsh_lex.specs.Spelling.{AreTokensBehind};
ghost use Rattle.jsh_tree.specs.declared.tree.Tree.{Tree};
ghost use Rattle.jsh_grammar.specs.Productions as table;
ghost use Rattle.jsh_parse.specs.declared.error.ParseError.TheVariants.{NoMemory};
ghost use Rattle.jsh_parse.specs.Reading.{AreTaken, semicolon_at_end};
ghost use Rattle.jsh_parse.specs.Refusals.{IsRefusal};
ghost use Rattle.jsh_decl.specs.Declarations.{IsSnippet, IsSource};

mod heads;
mod laws;
mod members;
mod modifiers;
mod names;
mod snippet;
mod types;
mod word_input;
mod words;

use crate::snippet::snippet as read_snippet;
use jsh_parse::{Input, LIMIT, ParseError, refusal};
use jsh_recognizer::Start;
use jsh_tree::{Span, Token, TokenKind, Tree};
pub use laws::{one_snippet, snippets_are_decided, snippets_are_in_the_table};
use std::alloc::{AllocError, Global};

/// The snippet that the tokens of a text are.
pub fn parse_snippet(alloc: Global, text: &str, tokens: &[Token]) -> Result<Tree, ParseError>
    // The tokens are tokens of the text, as the lexis gives them, perhaps with a semicolon that
    // stands for its end.
    requires taken { AreTaken text.now tokens.now }
    // A place can count its bytes.
    requires short { length text.now < 2 ^ 32 }
    ensures ok { IfOk result (λ tree. IsSnippet text.now 256 tokens.now tree) }
    ensures refused { IfErr result (λ e. e ≢ NoMemory → (tree : Tree) → IsSnippet text.now 256 tokens.now tree → ⊥) }
    ensures refusal { IfErr result (IsRefusal table.snippet text.now tokens.now) }
{
    let input = Input::new(alloc, text, tokens);
    match whole(&input) {
        Ok(tree) => Ok(tree),
        Err(error) => match error {
            ParseError::NoMemory => Err(ParseError::NoMemory),
            _ => Err(refusal(&input, Start::Snippet)),
        },
    }
}

/// The snippet that all tokens are.
fn whole(input: &Input) -> Result<Tree, ParseError>
    ensures ok { IfOk result (λ tree. IsSnippet input.now.text.now 256 input.now.tokens.now tree) }
    ensures refused { IfErr result (λ e. e ≢ NoMemory → (tree : Tree) → IsSnippet input.now.text.now 256 input.now.tokens.now tree → ⊥) }
{
    let (tree, end) = read_snippet(input, 0, LIMIT)?;
    if end < input.tokens.len() {
        return Err(input.refuse(end, None));
    }
    Ok(tree.into_inner())
}

/// The snippet that the tokens of a source are, with a semicolon behind them where they are none
/// without.
pub fn parse_source(alloc: Global, text: &str, tokens: &[Token]) -> Result<Tree, ParseError>
    // The tokens are tokens of the text, as the lexis gives them, and a place can count its bytes.
    requires spelled { AreTokensBehind text.now 0 tokens.now }
    requires few { length text.now < 2 ^ 32 }
    ensures ok { IfOk result (λ tree. IsSource text.now 256 tokens.now tree) }
    ensures refused { IfErr result (λ e. e ≢ NoMemory → (tree : Tree) → IsSource text.now 256 tokens.now tree → ⊥) }
    // Where they are none with the semicolon either, the refusal is that of the tokens as they are.
    ensures refusal { IfErr result (IsRefusal table.snippet text.now tokens.now) }
{
    let first = match parse_snippet(alloc, text, tokens) {
        Err(first) => first,
        Ok(tree) => return Ok(tree),
    };
    if let ParseError::NoMemory = first {
        return Err(first);
    }
    let ended = with_semicolon(alloc, text, tokens)?;
    match parse_snippet(alloc, text, &ended) {
        Err(ParseError::NoMemory) => Err(ParseError::NoMemory),
        Err(_) => Err(first),
        Ok(tree) => Ok(tree),
    }
}

/// A copy of the tokens, with the semicolon behind them that the end of the text stands for.
fn with_semicolon(alloc: Global, text: &str, tokens: &[Token]) -> Result<Vec<Token>, AllocError>
    requires { length text.now < 2 ^ 32 }
    ensures { IfOk result (λ ended. ended.items ≡ tokens.now ++ semicolon_at_end text.now ∷ []) }
{
    let end = text.len() as u32;
    let mut ended = Vec::from_slice(alloc, tokens)?;
    ended.push(Token {
        kind: TokenKind::Semicolon,
        span: Span { from: end, to: end },
    })?;
    Ok(ended)
}

#[cfg(test)]
mod expression_shape;
#[cfg(test)]
mod expression_tests;
#[cfg(test)]
mod readers;
#[cfg(test)]
mod refused_tests;
#[cfg(test)]
mod shape;
#[cfg(test)]
mod spellings;
#[cfg(test)]
mod statement_shape;
#[cfg(test)]
mod tests;
