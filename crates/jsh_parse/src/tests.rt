use crate::{ParseError, parse_expr, parse_stmt};
use jsh_lex::lex;
use jsh_tree::{Expr, Stmt};
use std::alloc::Global;
use std::process::Abort;

fn expression_of(rt: &impl Abort, alloc: Global, text: &str) -> Result<Expr, ParseError> {
    assert!(rt; text.len() < 0x1_0000_0000);
    match lex(alloc, text) {
        Ok(tokens) => parse_expr(alloc, text, &tokens),
        Err(_) => Err(ParseError::NoMemory),
    }
}

fn statement_of(rt: &impl Abort, alloc: Global, text: &str) -> Result<Stmt, ParseError> {
    assert!(rt; text.len() < 0x1_0000_0000);
    match lex(alloc, text) {
        Ok(tokens) => parse_stmt(alloc, text, &tokens),
        Err(_) => Err(ParseError::NoMemory),
    }
}

#[test]
fn an_expression_is_read(rt: HostRuntime) {
    let tree = expression_of(&rt, rt.alloc(), "a = f(b)[1] + 2");
    assert!(rt; matches!(&tree, Ok(Expr::Assign { .. })));
}

#[test]
fn a_statement_is_read(rt: HostRuntime) {
    let tree = statement_of(&rt, rt.alloc(), "if (a) b(); else { int c = 1; }");
    assert!(rt; matches!(&tree, Ok(Stmt::If { .. })));
}
