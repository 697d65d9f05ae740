//! Live snippets for the tests.

use jsh_tree::{Field, Header, Key, Member, Name, Seq, Signature, TypeWritten};
use std::alloc::Global;
use std::test::Fail;

/// A method of a type in a table: its name, its result and the types of its parameters.
#[derive(Clone, Copy)]
pub(crate) enum Own {
    Body(&'static str, &'static str, &'static [&'static str]),
    Abstract(&'static str, &'static str, &'static [&'static str]),
}

/// A snippet of a table.
#[derive(Clone, Copy)]
pub(crate) enum Row {
    /// An import on demand of the package with these parts.
    Import(&'static [&'static str]),
    /// Its name and the types of its fields.
    Data(&'static str, &'static [&'static str]),
    /// Its name, its superclass, its interfaces and its methods.
    Class(&'static str, &'static [&'static str], &'static [&'static str], &'static [Own]),
    AbstractClass(&'static str, &'static [&'static str], &'static [&'static str], &'static [Own]),
    /// Its name, its interfaces and its methods.
    Interface(&'static str, &'static [&'static str], &'static [Own]),
    /// Its name and its type.
    Var(&'static str, &'static str),
    /// Its name, its result and the types of its parameters.
    Method(&'static str, &'static str, &'static [&'static str]),
}

pub(crate) fn name(alloc: Global, text: &str) -> Result<Name, Fail> {
    Ok(Name::from_text(alloc, text)?)
}

fn names(alloc: Global, texts: &[&'static str]) -> Result<Seq<Name>, Fail> {
    let mut names = Vec::new(alloc);
    for text in texts {
        names.push(Name::from_text(alloc, text)?)?;
    }
    Ok(Seq::from_vec(names))
}

fn written(alloc: Global, text: &str) -> Result<TypeWritten, Fail> {
    Ok(TypeWritten {
        name: name(alloc, text)?,
        dims: 0,
    })
}

fn all_written(alloc: Global, texts: &[&'static str]) -> Result<Seq<TypeWritten>, Fail> {
    let mut all = Vec::new(alloc);
    for text in texts {
        all.push(written(alloc, text)?)?;
    }
    Ok(Seq::from_vec(all))
}

fn result_written(alloc: Global, text: &str) -> Result<Option<TypeWritten>, Fail> {
    if text == "void" {
        return Ok(None);
    }
    Ok(Some(written(alloc, text)?))
}

fn signature(
    alloc: Global,
    text: &str,
    result_type: &str,
    params: &[&'static str],
    is_abstract: bool,
) -> Result<Signature, Fail> {
    Ok(Signature {
        name: name(alloc, text)?,
        result: result_written(alloc, result_type)?,
        params: all_written(alloc, params)?,
        is_abstract,
    })
}

fn own_signature(alloc: Global, own: Own) -> Result<Signature, Fail> {
    match own {
        Own::Body(text, result_type, params) => signature(alloc, text, result_type, params, false),
        Own::Abstract(text, result_type, params) => {
            signature(alloc, text, result_type, params, true)
        }
    }
}

fn signatures(alloc: Global, owns: &[Own]) -> Result<Seq<Signature>, Fail> {
    let mut signatures = Vec::new(alloc);
    for own in owns {
        signatures.push(own_signature(alloc, *own)?)?;
    }
    Ok(Seq::from_vec(signatures))
}

fn field(alloc: Global, text: &str) -> Result<Field, Fail> {
    Ok(Field {
        written: written(alloc, text)?,
        name: name(alloc, "field")?,
    })
}

fn fields(alloc: Global, texts: &[&'static str]) -> Result<Seq<Field>, Fail> {
    let mut fields = Vec::new(alloc);
    for text in texts {
        fields.push(field(alloc, text)?)?;
    }
    Ok(Seq::from_vec(fields))
}

fn type_header(
    alloc: Global,
    (interface, is_abstract): (bool, bool),
    text: &str,
    (extends, implements): (&[&'static str], &[&'static str]),
    of_fields: &[&'static str],
    methods: &[Own],
) -> Result<Header, Fail> {
    Ok(Header::OfType {
        interface,
        is_abstract,
        name: name(alloc, text)?,
        extends: names(alloc, extends)?,
        implements: names(alloc, implements)?,
        fields: fields(alloc, of_fields)?,
        methods: signatures(alloc, methods)?,
        constructors: Seq::new(alloc),
    })
}

fn header(alloc: Global, row: Row) -> Result<Header, Fail> {
    match row {
        Row::Import(_) => Ok(Header::Empty),
        Row::Data(text, types) => {
            type_header(alloc, (false, false), text, (&[], &[]), types, &[])
        }
        Row::Class(text, extends, implements, methods) => {
            type_header(
                alloc,
                (false, false),
                text,
                (extends, implements),
                &[],
                methods,
            )
        }
        Row::AbstractClass(text, extends, implements, methods) => {
            type_header(
                alloc,
                (false, true),
                text,
                (extends, implements),
                &[],
                methods,
            )
        }
        Row::Interface(text, extends, methods) => {
            type_header(alloc, (true, false), text, (extends, &[]), &[], methods)
        }
        Row::Var(_, of) => Ok(Header::OfVar(written(alloc, of)?)),
        Row::Method(_, result_type, params) => Ok(Header::OfMethod {
            result: result_written(alloc, result_type)?,
            params: all_written(alloc, params)?,
        }),
    }
}

fn import_key(alloc: Global, parts: &[&'static str]) -> Result<Key, Fail> {
    Ok(Key::OfImport {
        is_static: false,
        parts: names(alloc, parts)?,
        on_demand: true,
    })
}

fn key(alloc: Global, row: Row) -> Result<Key, Fail> {
    match row {
        Row::Import(parts) => import_key(alloc, parts),
        Row::Data(text, _) => Ok(Key::OfType(name(alloc, text)?)),
        Row::Class(text, _, _, _) => Ok(Key::OfType(name(alloc, text)?)),
        Row::AbstractClass(text, _, _, _) => Ok(Key::OfType(name(alloc, text)?)),
        Row::Interface(text, _, _) => Ok(Key::OfType(name(alloc, text)?)),
        Row::Var(text, _) => Ok(Key::OfVar(name(alloc, text)?)),
        Row::Method(text, _, params) => Ok(Key::OfMethod {
            name: name(alloc, text)?,
            params: all_written(alloc, params)?,
        }),
    }
}

pub(crate) fn member(alloc: Global, id: u32, row: Row) -> Result<Member, Fail> {
    Ok(Member {
        id,
        key: key(alloc, row)?,
        header: header(alloc, row)?,
        link: None,
    })
}

/// Each with the id of its record.
pub(crate) fn members(alloc: Global, rows: &[(u32, Row)]) -> Result<Vec<Member>, Fail> {
    let mut members = Vec::new(alloc);
    for row in rows {
        members.push(member(alloc, row.0, row.1)?)?;
    }
    Ok(members)
}

/// By rising id.
pub(crate) fn live(alloc: Global, rows: &[Row]) -> Result<Vec<Member>, Fail> {
    let mut members = Vec::new(alloc);
    let mut id = 0u32;
    for row in rows {
        id = id.wrapping_add(1);
        members.push(member(alloc, id, *row)?)?;
    }
    Ok(members)
}
