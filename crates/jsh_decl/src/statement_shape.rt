//! The shape of a statement as a text, with brackets about all that consists of several parts.

use crate::expression_shape::{expression, initial, literal, name, type_use};
use jsh_tree::{
    Block, BlockStatement, CatchClause, Expr, ForStart, Stmt, SwitchGroup, SwitchLabel, TypeUse,
    Variable,
};
use std::alloc::AllocError;

/// Statements that are deeper than this are written only so far.
const DEPTH: u32 = 60;

pub fn statement(out: &mut String, tree: &Stmt) -> Result<(), AllocError> {
    write(out, tree, DEPTH)
}

pub fn block(out: &mut String, tree: &Block) -> Result<(), AllocError> {
    braced(out, tree.statements.as_slice(), DEPTH)
}

pub fn body(out: &mut String, statements: &[BlockStatement]) -> Result<(), AllocError> {
    braced(out, statements, DEPTH)
}

fn written_type(out: &mut String, written: &Option<TypeUse>) -> Result<(), AllocError> {
    match written {
        Some(written) => type_use(out, written),
        None => out.push_str("var"),
    }
}

fn final_word(out: &mut String, is_final: bool) -> Result<(), AllocError> {
    if is_final {
        out.push_str("final ")
    } else {
        Ok(())
    }
}

/// A type, a name, and the value behind them.
pub fn variable(out: &mut String, tree: &Variable) -> Result<(), AllocError> {
    written_type(out, &tree.written)?;
    out.push_str(" ")?;
    name(out, &tree.name)?;
    match &tree.initial {
        Some(value) => {
            out.push_str(" = ")?;
            initial(out, value)
        }
        None => Ok(()),
    }
}

/// An expression behind a blank, where there is one.
fn optional(out: &mut String, tree: &Option<Expr>) -> Result<(), AllocError> {
    match tree {
        Some(tree) => {
            out.push_str(" ")?;
            expression(out, tree)
        }
        None => Ok(()),
    }
}

fn start(out: &mut String, tree: &ForStart) -> Result<(), AllocError> {
    match tree {
        ForStart::Nothing => Ok(()),
        ForStart::Local {
            is_final,
            variable: declared,
            ..
        } => {
            out.push_str(" ")?;
            final_word(out, *is_final)?;
            variable(out, declared)
        }
        ForStart::Expression(tree) => {
            out.push_str(" ")?;
            expression(out, tree)
        }
    }
}

fn label(out: &mut String, tree: &SwitchLabel) -> Result<(), AllocError> {
    match tree {
        SwitchLabel::Case {
            is_negative,
            literal: value,
            ..
        } => {
            out.push_str("case ")?;
            if *is_negative {
                out.push_str("-")?;
            }
            literal(out, value)?;
            out.push_str(":")
        }
        SwitchLabel::Default { .. } => out.push_str("default:"),
    }
}

#[cycle(write)]
fn write(out: &mut String, tree: &Stmt, left: u32) -> Result<(), AllocError> {
    if left == 0 {
        return Ok(());
    }
    match tree {
        Stmt::Block(inside) => braced(out, inside.statements.as_slice(), left - 1),
        Stmt::Empty { .. } => out.push_str(";"),
        Stmt::Expression(tree) => {
            expression(out, tree)?;
            out.push_str(";")
        }
        Stmt::If {
            condition,
            then,
            otherwise,
            ..
        } => {
            out.push_str("[if ")?;
            expression(out, condition)?;
            out.push_str(" ")?;
            write(out, then.get(), left - 1)?;
            if let Some(otherwise) = otherwise {
                out.push_str(" else ")?;
                write(out, otherwise.get(), left - 1)?;
            }
            out.push_str("]")
        }
        Stmt::While {
            condition,
            body,
            ..
        } => {
            out.push_str("[while ")?;
            expression(out, condition)?;
            out.push_str(" ")?;
            write(out, body.get(), left - 1)?;
            out.push_str("]")
        }
        Stmt::Do {
            body,
            condition,
            ..
        } => {
            out.push_str("[do ")?;
            write(out, body.get(), left - 1)?;
            out.push_str(" while ")?;
            expression(out, condition)?;
            out.push_str("]")
        }
        Stmt::For {
            start: first,
            condition,
            update,
            body,
            ..
        } => {
            out.push_str("[for")?;
            start(out, first)?;
            out.push_str(";")?;
            optional(out, condition)?;
            out.push_str(";")?;
            optional(out, update)?;
            out.push_str(" ")?;
            write(out, body.get(), left - 1)?;
            out.push_str("]")
        }
        Stmt::ForEach {
            is_final,
            written,
            name: element,
            array,
            body,
            ..
        } => {
            out.push_str("[each ")?;
            final_word(out, *is_final)?;
            written_type(out, written)?;
            out.push_str(" ")?;
            name(out, element)?;
            out.push_str(" : ")?;
            expression(out, array)?;
            out.push_str(" ")?;
            write(out, body.get(), left - 1)?;
            out.push_str("]")
        }
        Stmt::Switch {
            selector,
            groups,
            ..
        } => {
            out.push_str("[switch ")?;
            expression(out, selector)?;
            groups_to(out, groups.as_slice(), left - 1)?;
            out.push_str("]")
        }
        Stmt::Break { .. } => out.push_str("break;"),
        Stmt::Continue { .. } => out.push_str("continue;"),
        Stmt::Return { value, .. } => {
            out.push_str("return")?;
            optional(out, value)?;
            out.push_str(";")
        }
        Stmt::Throw { value, .. } => {
            out.push_str("throw ")?;
            expression(out, value)?;
            out.push_str(";")
        }
        Stmt::Try {
            block: inside,
            catches,
            ..
        } => {
            out.push_str("[try ")?;
            braced(out, inside.statements.as_slice(), left - 1)?;
            catches_to(out, catches.as_slice(), left - 1)?;
            out.push_str("]")
        }
    }
}

#[cycle(write)]
fn braced(out: &mut String, inside: &[BlockStatement], left: u32) -> Result<(), AllocError> {
    if left == 0 {
        return Ok(());
    }
    out.push_str("{")?;
    listed(out, inside, left - 1)?;
    out.push_str("}")
}

/// Statements with blanks between them.
#[cycle(write)]
fn listed(out: &mut String, inside: &[BlockStatement], left: u32) -> Result<(), AllocError> {
    if left == 0 {
        return Ok(());
    }
    for (place, further) in inside.iter().enumerate() {
        if place > 0 {
            out.push_str(" ")?;
        }
        match further {
            BlockStatement::Local {
                is_final,
                variable: declared,
                ..
            } => {
                final_word(out, *is_final)?;
                variable(out, declared)?;
                out.push_str(";")?;
            }
            BlockStatement::Statement(tree) => write(out, tree, left - 1)?,
        }
    }
    Ok(())
}

#[cycle(write)]
fn groups_to(out: &mut String, groups: &[SwitchGroup], left: u32) -> Result<(), AllocError> {
    if left == 0 {
        return Ok(());
    }
    for group in groups {
        out.push_str(" (")?;
        for further in group.labels.as_slice() {
            label(out, further)?;
            out.push_str(" ")?;
        }
        listed(out, group.statements.as_slice(), left - 1)?;
        out.push_str(")")?;
    }
    Ok(())
}

#[cycle(write)]
fn catches_to(out: &mut String, catches: &[CatchClause], left: u32) -> Result<(), AllocError> {
    if left == 0 {
        return Ok(());
    }
    for further in catches {
        out.push_str(" catch ")?;
        final_word(out, further.is_final)?;
        name(out, &further.class)?;
        out.push_str(" ")?;
        name(out, &further.name)?;
        out.push_str(" ")?;
        braced(out, further.block.statements.as_slice(), left - 1)?;
    }
    Ok(())
}
