use crate::expression::Literal;
use crate::key::{Header, Key, Link, Signature};
use crate::name::{Name, TypeWritten};
use crate::seq::Seq;

/// What is asked of an environment about a simple name.
#[derive(Clone, Debug, PartialEq, Eq, PartialOrd, Ord, Drop)]
pub enum Query {
    /// Which type the name is (JLS 6.5.5).
    TypeNamed(Name),
    /// Which variable outside of methods the name is (JLS 6.5.6).
    VarNamed(Name),
    /// Which methods outside of types have the name (JLS 6.5.7).
    MethodsNamed(Name),
}

/// A live snippet, as other snippets see it.
#[derive(Clone, Debug, PartialEq, Eq, Drop)]
pub struct Member {
    /// The record's.
    pub id: u32,
    pub key: Key,
    /// Of the key's kind.
    pub header: Header,
    /// None where it is an import, or isn't visible.
    pub link: Option<Link>,
}

/// The types that snippets find without declaring them.
#[derive(Clone, Debug, PartialEq, Eq, Drop)]
pub struct Library {
    /// The packages that an import on demand may name, by their qualified names.
    pub packages: Seq<Name>,
    pub types: Seq<LibraryType>,
    /// What may be called on `System.out`, which can't be used in any other way.
    pub out: Seq<Signature>,
}

/// A type of the library.
#[derive(Clone, Debug, PartialEq, Eq, Drop)]
pub struct LibraryType {
    /// Its package's qualified name.
    pub package: Name,
    /// Its simple name.
    pub name: Name,
    pub is_interface: bool,
    pub is_final: bool,
    pub is_abstract: bool,
    /// None for `Object` and for an interface.
    pub extends: Option<Name>,
    pub implements: Seq<Name>,
    /// The parameter types of each constructor.
    pub constructors: Seq<Seq<TypeWritten>>,
    pub methods: Seq<LibraryMethod>,
    pub constants: Seq<LibraryConstant>,
}

/// A method of a library type.
#[derive(Clone, Debug, PartialEq, Eq, Drop)]
pub struct LibraryMethod {
    pub is_static: bool,
    pub signature: Signature,
}

/// A static field of a library type that is a constant (JLS 4.12.4).
#[derive(Clone, Debug, PartialEq, Eq, Drop)]
pub struct LibraryConstant {
    pub name: Name,
    pub written: TypeWritten,
    pub value: Literal,
}
