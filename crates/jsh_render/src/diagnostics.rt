//! Lines for a snippet that is rejected.

ghost use Rattle.std.specs.Prelude.{◌≡◌, IfOk};
ghost use Rattle.std.specs.String.{string_bytes};
ghost use Rattle.jsh_render.specs.Diagnostics.{code_text, name_of, error_text, error_line};

use crate::place::{Position, position_at};
use jsh_text::NoMemory;
use jsh_tree::{Code, Diagnostic};
use std::alloc::Global;

fn text(alloc: Global, words: &str) -> Result<String, NoMemory>
    ensures { IfOk result (λ text. string_bytes text ≡ words.now) }
{
    Ok(String::from_str(alloc, words)?)
}

// What is wrong, in words, with the name in question.
fn words_of(alloc: Global, code: Code, name: &str) -> Result<String, NoMemory>
    ensures { IfOk result (λ text. string_bytes text ≡ code_text code name.now) }
{
    match code {
        Code::NoSnippet => text(alloc, "one snippet is needed"),
        Code::BadToken => text(alloc, "bad token"),
        Code::Unexpected => text(alloc, "unexpected text"),
        Code::TooDeep => text(alloc, "nested too deep"),
        Code::NumberTooBig => text(alloc, "number too big"),
        Code::Unresolved => Ok(format!(in alloc; "cannot find {name}")?),
        Code::NoMember => Ok(format!(in alloc; "no member {name}")?),
        Code::Mismatch => text(alloc, "wrong type"),
        Code::BadOperand => text(alloc, "bad operand"),
        Code::NotApplicable => Ok(format!(in alloc; "no {name} fits the arguments")?),
        Code::Ambiguous => Ok(format!(in alloc; "call of {name} is ambiguous")?),
        Code::TextEquality => text(alloc, "texts are compared by equals"),
        Code::Duplicate => Ok(format!(in alloc; "{name} is declared twice")?),
        Code::BadModifier => Ok(format!(in alloc; "modifier {name} not allowed here")?),
        Code::SuperRule { number } => Ok(format!(in alloc; "super rule S{number} is broken")?),
        Code::BadImport => Ok(format!(in alloc; "{name} cannot be imported")?),
        Code::AbstractNew => Ok(format!(in alloc; "{name} is abstract")?),
        Code::Misplaced => text(alloc, "not allowed here"),
        Code::NotAssigned => Ok(format!(in alloc; "{name} might not be assigned")?),
        Code::Unreachable => text(alloc, "unreachable statement"),
        Code::MissingReturn => text(alloc, "missing return"),
        Code::NotYet => text(alloc, "not built yet"),
    }
}

// The name in question, and nothing where there is none.
fn name_in(diagnostic: &Diagnostic) -> &str
    ensures { result.now ≡ name_of diagnostic.now.name }
{
    match &diagnostic.name {
        None => "",
        Some(name) => name.as_str(),
    }
}

/// The line of a diagnostic in a source.
pub fn error_in(alloc: Global, source: &[u8], diagnostic: &Diagnostic) -> Result<String, NoMemory>
    ensures { IfOk result (λ text. string_bytes text ≡ error_line source.now diagnostic.now) }
{
    let at = position_at(source, diagnostic.place);
    let words = words_of(alloc, diagnostic.code, name_in(diagnostic))?;
    error_at(alloc, at, words.as_str())
}

fn error_at(alloc: Global, at: Position, words: &str) -> Result<String, NoMemory>
    ensures { IfOk result (λ text. string_bytes text ≡ error_text at words.now) }
{
    let line = at.line;
    let column = at.column;
    Ok(format!(in alloc; "|  Error at {line}:{column}: {words}\n")?)
}
