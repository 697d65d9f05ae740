//! The shape of an expression as a text, with parentheses about every operation and path, `<` and
//! `>` in place of the text's own parentheses, and `!` behind a literal that needs a minus.

use jsh_tree::{
    BinaryOperator, Expr, Identifier, Initial, Literal, Operation, PathPart, PostfixOperator,
    TypeUse, UnaryOperator,
};
use std::alloc::AllocError;

/// Expressions that are deeper than this are written only so far.
const DEPTH: u32 = 60;

pub fn expression(out: &mut String, tree: &Expr) -> Result<(), AllocError> {
    write(out, tree, DEPTH)
}

pub fn initial(out: &mut String, value: &Initial) -> Result<(), AllocError> {
    match value {
        Initial::Value(value) => write(out, value, DEPTH),
        Initial::Array { values, .. } => initials(out, values.as_slice(), DEPTH),
    }
}

pub fn arguments(out: &mut String, values: &[Expr]) -> Result<(), AllocError> {
    for (place, value) in values.iter().enumerate() {
        if place > 0 {
            out.push_str(", ")?;
        }
        write(out, value, DEPTH)?;
    }
    Ok(())
}

fn binary(operator: BinaryOperator) -> &'static str {
    match operator {
        BinaryOperator::OrElse => "||",
        BinaryOperator::AndAlso => "&&",
        BinaryOperator::Or => "|",
        BinaryOperator::Xor => "^",
        BinaryOperator::And => "&",
        BinaryOperator::Equal => "==",
        BinaryOperator::NotEqual => "!=",
        BinaryOperator::Less => "<",
        BinaryOperator::Greater => ">",
        BinaryOperator::LessOrEqual => "<=",
        BinaryOperator::GreaterOrEqual => ">=",
        BinaryOperator::ShiftLeft => "<<",
        BinaryOperator::ShiftRight => ">>",
        BinaryOperator::UnsignedShiftRight => ">>>",
        BinaryOperator::Add => "+",
        BinaryOperator::Subtract => "-",
        BinaryOperator::Multiply => "*",
        BinaryOperator::Divide => "/",
        BinaryOperator::Remainder => "%",
    }
}

fn unary(operator: UnaryOperator) -> &'static str {
    match operator {
        UnaryOperator::Plus => "(+ ",
        UnaryOperator::Minus => "(- ",
        UnaryOperator::Not => "(! ",
        UnaryOperator::Complement => "(~ ",
        UnaryOperator::Increment => "(++ ",
        UnaryOperator::Decrement => "(-- ",
    }
}

fn assign(operator: Option<BinaryOperator>) -> &'static str {
    match operator {
        Some(operator) => binary(operator),
        None => "",
    }
}

fn mark(needs_minus: bool) -> &'static str {
    if needs_minus { "!" } else { "" }
}

pub fn literal(out: &mut String, value: &Literal) -> Result<(), AllocError> {
    match value {
        Literal::Int { value, needs_minus } => write!(out, "{}{}", *value, mark(*needs_minus)),
        Literal::Long { value, needs_minus } => write!(out, "{}L{}", *value, mark(*needs_minus)),
        Literal::Char(unit) => {
            out.push_str("'")?;
            unit_to(out, *unit)?;
            out.push_str("'")
        }
        Literal::Text(units) => {
            out.push_str("\"")?;
            for unit in units.as_slice() {
                unit_to(out, *unit)?;
            }
            out.push_str("\"")
        }
        Literal::Boolean(true) => out.push_str("true"),
        Literal::Boolean(false) => out.push_str("false"),
        Literal::Null => out.push_str("null"),
    }
}

fn unit_to(out: &mut String, unit: u16) -> Result<(), AllocError> {
    out.push(char::from_u32(u32::from(unit)).unwrap_or('?'))
}

pub fn name(out: &mut String, identifier: &Identifier) -> Result<(), AllocError> {
    out.push_str(identifier.name.as_str())
}

pub fn type_use(out: &mut String, written: &TypeUse) -> Result<(), AllocError> {
    out.push_str(written.written.name.as_str())?;
    for _ in 0..written.written.dims {
        out.push_str("[]")?;
    }
    Ok(())
}

#[cycle(write)]
fn write(out: &mut String, tree: &Expr, left: u32) -> Result<(), AllocError> {
    if left == 0 {
        return Ok(());
    }
    match tree {
        Expr::Assign {
            target,
            operator,
            value,
        } => {
            out.push_str("(")?;
            write(out, target.get(), left - 1)?;
            out.push_str(" ")?;
            out.push_str(assign(*operator))?;
            out.push_str("= ")?;
            write(out, value.get(), left - 1)?;
            out.push_str(")")
        }
        Expr::Conditional { condition, yes, no } => {
            out.push_str("(")?;
            write(out, condition.get(), left - 1)?;
            out.push_str(" ? ")?;
            write(out, yes.get(), left - 1)?;
            out.push_str(" : ")?;
            write(out, no.get(), left - 1)?;
            out.push_str(")")
        }
        Expr::Binary { first, rest } => {
            out.push_str("(")?;
            write(out, first.get(), left - 1)?;
            operations(out, rest.as_slice(), left - 1)?;
            out.push_str(")")
        }
        Expr::Unary {
            operator,
            operand,
            ..
        } => {
            out.push_str(unary(*operator))?;
            write(out, operand.get(), left - 1)?;
            out.push_str(")")
        }
        Expr::Cast {
            target,
            operand,
            ..
        } => {
            out.push_str("((")?;
            type_use(out, target)?;
            out.push_str(") ")?;
            write(out, operand.get(), left - 1)?;
            out.push_str(")")
        }
        Expr::Postfix { operand, operator } => {
            out.push_str("(")?;
            write(out, operand.get(), left - 1)?;
            match operator {
                PostfixOperator::Increment => out.push_str(" ++)"),
                PostfixOperator::Decrement => out.push_str(" --)"),
            }
        }
        Expr::Path { first, parts } => {
            out.push_str("(")?;
            write(out, first.get(), left - 1)?;
            path_parts(out, parts.as_slice(), left - 1)?;
            out.push_str(")")
        }
        Expr::Literal { literal: value, .. } => literal(out, value),
        Expr::This { .. } => out.push_str("this"),
        Expr::Parenthesized { inner, .. } => {
            out.push_str("<")?;
            write(out, inner.get(), left - 1)?;
            out.push_str(">")
        }
        Expr::Name(identifier) => name(out, identifier),
        Expr::Call {
            name: called,
            arguments,
        } => call(out, "", called, arguments.as_slice(), left - 1),
        Expr::SuperCall {
            name: called,
            arguments,
            ..
        } => { call(out, "super.", called, arguments.as_slice(), left - 1) }
        Expr::New {
            class,
            arguments,
            ..
        } => call(out, "new ", class, arguments.as_slice(), left - 1),
        Expr::NewArray { created, sizes, .. } => {
            out.push_str("new ")?;
            type_use(out, created)?;
            out.push_str(" of ")?;
            size_list(out, sizes.as_slice(), left - 1)
        }
        Expr::NewArrayOf {
            created,
            values,
            ..
        } => {
            out.push_str("new ")?;
            type_use(out, created)?;
            out.push_str(" ")?;
            initials(out, values.as_slice(), left - 1)
        }
    }
}

#[cycle(write)]
fn operations(out: &mut String, rest: &[Operation], left: u32) -> Result<(), AllocError> {
    if left == 0 {
        return Ok(());
    }
    for operation in rest {
        out.push_str(" ")?;
        match operation {
            Operation::Operator { operator, operand } => {
                out.push_str(binary(*operator))?;
                out.push_str(" ")?;
                write(out, operand, left - 1)?;
            }
            Operation::InstanceOf(target) => {
                out.push_str("instanceof ")?;
                type_use(out, target)?;
            }
        }
    }
    Ok(())
}

#[cycle(write)]
fn path_parts(out: &mut String, parts: &[PathPart], left: u32) -> Result<(), AllocError> {
    if left == 0 {
        return Ok(());
    }
    for part in parts {
        match part {
            PathPart::Field(field) => {
                out.push_str(" .")?;
                name(out, field)?;
            }
            PathPart::Call {
                name: called,
                arguments,
            } => {
                call(out, " .", called, arguments.as_slice(), left - 1)?;
            }
            PathPart::Index(index) => {
                out.push_str(" [")?;
                write(out, index, left - 1)?;
                out.push_str("]")?;
            }
        }
    }
    Ok(())
}

#[cycle(write)]
fn call(
    out: &mut String,
    front: &str,
    called: &Identifier,
    arguments: &[Expr],
    left: u32,
) -> Result<(), AllocError> {
    if left == 0 {
        return Ok(());
    }
    out.push_str(front)?;
    name(out, called)?;
    out.push_str("(")?;
    for (place, argument) in arguments.iter().enumerate() {
        if place > 0 {
            out.push_str(", ")?;
        }
        write(out, argument, left - 1)?;
    }
    out.push_str(")")
}

#[cycle(write)]
fn size_list(out: &mut String, sizes: &[Expr], left: u32) -> Result<(), AllocError> {
    if left == 0 {
        return Ok(());
    }
    for size in sizes {
        out.push_str("[")?;
        write(out, size, left - 1)?;
        out.push_str("]")?;
    }
    Ok(())
}

#[cycle(write)]
fn initials(out: &mut String, values: &[Initial], left: u32) -> Result<(), AllocError> {
    if left == 0 {
        return Ok(());
    }
    out.push_str("{")?;
    for (place, value) in values.iter().enumerate() {
        if place > 0 {
            out.push_str(", ")?;
        }
        match value {
            Initial::Value(value) => write(out, value, left - 1)?,
            Initial::Array { values, .. } => initials(out, values.as_slice(), left - 1)?,
        }
    }
    out.push_str("}")
}
