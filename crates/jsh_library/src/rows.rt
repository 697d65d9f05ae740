//! What the rows of the table are made of, and what is made of them.

ghost use Rattle.std.specs.Prelude.{◌≡◌, List, map, option_map, IfOk};
ghost use Rattle.jsh_library.specs.Rows.{text_of as text_of_word, written, signature, throwable as throwable_row};
ghost use Rattle.jsh_library.specs.Made as spec;

use jsh_tree::{
    LibraryConstant, LibraryMethod, LibraryType, Literal, Name, Seq, Signature, TypeWritten,
};
use std::alloc::{AllocError, Global};

/// A type that a member of the library takes or gives.
#[derive(Clone, Copy, Debug, PartialEq, Eq)]
pub enum Word {
    Int,
    Long,
    Char,
    Boolean,
    String,
    Object,
    Runnable,
}

/// A method by its name and its parameters, and by its result where it has one.
#[derive(Clone, Copy)]
pub(crate) enum MethodRow {
    Own(&'static str, &'static [Word], Word),
    Void(&'static str, &'static [Word]),
    /// Without a result and without a body.
    Abstract(&'static str, &'static [Word]),
    Static(&'static str, &'static [Word], Word),
}

#[derive(Clone, Copy)]
pub(crate) enum ConstantRow {
    Int(&'static str, i32),
    Long(&'static str, i64),
}

/// A type, by what sets it apart.
#[derive(Clone, Copy)]
pub(crate) enum TypeRow {
    /// With its superclass, and the constructors that each throwable has.
    Throwable(&'static str, &'static str),
    /// A final class of `java.lang` below `Object`, without constructors.
    Final(&'static str, &'static [MethodRow], &'static [ConstantRow]),
    Other(OtherRow),
}

#[derive(Clone, Copy)]
pub(crate) struct OtherRow {
    /// Its package.
    pub(crate) qualifier: &'static str,
    pub(crate) name: &'static str,
    pub(crate) is_interface: bool,
    pub(crate) is_final: bool,
    pub(crate) is_abstract: bool,
    pub(crate) extends: Option<&'static str>,
    pub(crate) implements: &'static [&'static str],
    pub(crate) constructors: &'static [&'static [Word]],
    pub(crate) methods: &'static [MethodRow],
}

fn text_of(word: Word) -> &'static str
    ensures { result.now ≡ text_of_word word }
{
    match word {
        Word::Int => "int",
        Word::Long => "long",
        Word::Char => "char",
        Word::Boolean => "boolean",
        Word::String => "String",
        Word::Object => "Object",
        Word::Runnable => "Runnable",
    }
}

fn write(alloc: Global, word: Word) -> Result<TypeWritten, AllocError>
    ensures { IfOk result (λ one. one ≡ written word) }
{
    Ok(TypeWritten {
        name: Name::from_text(alloc, text_of(word))?,
        dims: 0,
    })
}

fn write_all(alloc: Global, words: &[Word]) -> Result<Seq<TypeWritten>, AllocError>
    ensures { IfOk result (λ all. all ≡ map written words.now) }
{
    let mut all = Vec::new(alloc);
    for word in words {
        all.push(write(alloc, *word)?)?;
    }
    Ok(Seq::from_vec(all))
}

fn write_lists(
    alloc: Global,
    lists: &[&'static [Word]],
) -> Result<Seq<Seq<TypeWritten>>, AllocError>
    ensures { IfOk result (λ all. all ≡ map spec.list_of lists.now) }
{
    let mut all = Vec::new(alloc);
    for list in lists {
        all.push(write_all(alloc, list)?)?;
    }
    Ok(Seq::from_vec(all))
}

pub(crate) fn names(alloc: Global, texts: &[&'static str]) -> Result<Vec<Name>, AllocError>
    ensures { IfOk result (λ names. names.items ≡ map spec.text texts.now) }
{
    let mut names = Vec::new(alloc);
    for text in texts {
        names.push(Name::from_text(alloc, text)?)?;
    }
    Ok(names)
}

fn sign(
    alloc: Global,
    name: &str,
    params: &[Word],
    gives: Option<Word>,
    is_abstract: bool,
) -> Result<Signature, AllocError>
    ensures { IfOk result (λ one. one ≡ record (signature name.now params.now gives) { is_abstract = is_abstract }) }
{
    let gives = match gives {
        Some(word) => Some(write(alloc, word)?),
        None => None,
    };
    Ok(Signature {
        name: Name::from_text(alloc, name)?,
        result: gives,
        params: write_all(alloc, params)?,
        is_abstract,
    })
}

fn method(alloc: Global, row: MethodRow) -> Result<LibraryMethod, AllocError>
    ensures { IfOk result (λ method. method ≡ spec.method_of row) }
{
    Ok(match row {
        MethodRow::Own(name, params, gives) => LibraryMethod {
            is_static: false,
            signature: sign(alloc, name, params, Some(gives), false)?,
        },
        MethodRow::Void(name, params) => LibraryMethod {
            is_static: false,
            signature: sign(alloc, name, params, None, false)?,
        },
        MethodRow::Abstract(name, params) => LibraryMethod {
            is_static: false,
            signature: sign(alloc, name, params, None, true)?,
        },
        MethodRow::Static(name, params, gives) => LibraryMethod {
            is_static: true,
            signature: sign(alloc, name, params, Some(gives), false)?,
        },
    })
}

fn methods(alloc: Global, rows: &[MethodRow]) -> Result<Seq<LibraryMethod>, AllocError>
    ensures { IfOk result (λ all. all ≡ map spec.method_of rows.now) }
{
    let mut all = Vec::new(alloc);
    for row in rows {
        all.push(method(alloc, *row)?)?;
    }
    Ok(Seq::from_vec(all))
}

pub(crate) fn signatures(alloc: Global, rows: &[MethodRow]) -> Result<Vec<Signature>, AllocError>
    ensures { IfOk result (λ all. all.items ≡ map spec.signature_of rows.now) }
{
    let mut all = Vec::new(alloc);
    for row in rows {
        let method = method(alloc, *row)?;
        all.push(method.signature)?;
    }
    Ok(all)
}

fn constant(alloc: Global, row: ConstantRow) -> Result<LibraryConstant, AllocError>
    ensures { IfOk result (λ constant. constant ≡ spec.constant_of row) }
{
    Ok(match row {
        ConstantRow::Int(name, value) => LibraryConstant {
            name: Name::from_text(alloc, name)?,
            written: write(alloc, Word::Int)?,
            value: Literal::Int {
                value,
                needs_minus: false,
            },
        },
        ConstantRow::Long(name, value) => LibraryConstant {
            name: Name::from_text(alloc, name)?,
            written: write(alloc, Word::Long)?,
            value: Literal::Long {
                value,
                needs_minus: false,
            },
        },
    })
}

fn constants(alloc: Global, rows: &[ConstantRow]) -> Result<Seq<LibraryConstant>, AllocError>
    ensures { IfOk result (λ all. all ≡ map spec.constant_of rows.now) }
{
    let mut all = Vec::new(alloc);
    for row in rows {
        all.push(constant(alloc, *row)?)?;
    }
    Ok(Seq::from_vec(all))
}

fn throwable(alloc: Global, name: &str, parent: &str) -> Result<LibraryType, AllocError>
    ensures { IfOk result (λ one. one ≡ throwable_row name.now parent.now) }
{
    Ok(LibraryType {
        package: Name::from_text(alloc, "java.lang")?,
        name: Name::from_text(alloc, name)?,
        is_interface: false,
        is_final: false,
        is_abstract: false,
        extends: Some(Name::from_text(alloc, parent)?),
        implements: Seq::new(alloc),
        constructors: write_lists(alloc, &[&[], &[Word::String]])?,
        methods: Seq::new(alloc),
        constants: Seq::new(alloc),
    })
}

fn final_class(
    alloc: Global,
    name: &str,
    own: &[MethodRow],
    fixed: &[ConstantRow],
) -> Result<LibraryType, AllocError>
    ensures { IfOk result (λ one. one ≡ spec.final_of name.now own.now fixed.now) }
{
    Ok(LibraryType {
        package: Name::from_text(alloc, "java.lang")?,
        name: Name::from_text(alloc, name)?,
        is_interface: false,
        is_final: true,
        is_abstract: false,
        extends: Some(Name::from_text(alloc, "Object")?),
        implements: Seq::new(alloc),
        constructors: Seq::new(alloc),
        methods: methods(alloc, own)?,
        constants: constants(alloc, fixed)?,
    })
}

fn other(alloc: Global, row: OtherRow) -> Result<LibraryType, AllocError>
    ensures { IfOk result (λ one. one ≡ spec.other_of row) }
{
    let extends = match row.extends {
        Some(parent) => Some(Name::from_text(alloc, parent)?),
        None => None,
    };
    Ok(LibraryType {
        package: Name::from_text(alloc, row.qualifier)?,
        name: Name::from_text(alloc, row.name)?,
        is_interface: row.is_interface,
        is_final: row.is_final,
        is_abstract: row.is_abstract,
        extends,
        implements: Seq::from_vec(names(alloc, row.implements)?),
        constructors: write_lists(alloc, row.constructors)?,
        methods: methods(alloc, row.methods)?,
        constants: Seq::new(alloc),
    })
}

fn class(alloc: Global, row: TypeRow) -> Result<LibraryType, AllocError>
    ensures { IfOk result (λ one. one ≡ spec.type_of row) }
{
    match row {
        TypeRow::Throwable(name, parent) => throwable(alloc, name, parent),
        TypeRow::Final(name, own, fixed) => final_class(alloc, name, own, fixed),
        TypeRow::Other(row) => other(alloc, row),
    }
}

pub(crate) fn types(alloc: Global, rows: &[TypeRow]) -> Result<Vec<LibraryType>, AllocError>
    ensures { IfOk result (λ all. all.items ≡ map spec.type_of rows.now) }
{
    let mut all = Vec::new(alloc);
    for row in rows {
        all.push(class(alloc, *row)?)?;
    }
    Ok(all)
}
