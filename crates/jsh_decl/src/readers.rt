//! What the tokens of a text are read as.

use crate::parse_source;
use jsh_lex::lex;
use jsh_parse::{ParseError, parse_expr, parse_stmt};
use jsh_recognizer::Start;
use jsh_tree::{Expr, Stmt, Tree};
use std::alloc::Global;
use std::process::Abort;

pub fn expression_of(rt: &impl Abort, alloc: Global, text: &str) -> Result<Expr, ParseError> {
    assert!(rt; text.len() < 0x1_0000_0000);
    match lex(alloc, text) {
        Ok(tokens) => parse_expr(alloc, text, &tokens),
        Err(_) => Err(ParseError::NoMemory),
    }
}

pub fn statement_of(rt: &impl Abort, alloc: Global, text: &str) -> Result<Stmt, ParseError> {
    assert!(rt; text.len() < 0x1_0000_0000);
    match lex(alloc, text) {
        Ok(tokens) => parse_stmt(alloc, text, &tokens),
        Err(_) => Err(ParseError::NoMemory),
    }
}

/// With a semicolon behind the tokens where they need one.
pub fn snippet_of(rt: &impl Abort, alloc: Global, text: &str) -> Result<Tree, ParseError> {
    assert!(rt; text.len() < 0x1_0000_0000);
    match lex(alloc, text) {
        Ok(tokens) => parse_source(alloc, text, &tokens),
        Err(_) => Err(ParseError::NoMemory),
    }
}

/// Whether a text is what is asked for.
pub fn is_taken(
    rt: &impl Abort,
    alloc: Global,
    start: Start,
    text: &str,
) -> Result<(), ParseError> {
    match start {
        Start::Expression => {
            let _tree = expression_of(rt, alloc, text)?;
        }
        Start::Statement => {
            let _tree = statement_of(rt, alloc, text)?;
        }
        Start::Snippet => {
            let _tree = snippet_of(rt, alloc, text)?;
        }
    }
    Ok(())
}
