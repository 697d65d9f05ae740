//! What an environment answers.

ghost use Rattle.std.specs.Prelude.{◌≡◌, IfOk};

use crate::env::Env;
use jsh_text::NoMemory;
use jsh_tree::{Header, LibraryConstant, LibraryMethod, LibraryType, Link};
use std::alloc::Global;
use std::marker::Model;

/// A visible declaration.
#[derive(Drop)]
pub struct Linked<'a> {
    pub(crate) link: &'a Link,
    pub(crate) header: &'a Header,
}

impl<'a> Model for Linked<'a> {
    ghost use Rattle.jsh_scope.specs.Reached as spec;

    ghost Value = { spec.Linked };

    ghost view = { λ seen. record { link = seen.link.now; header = seen.header.now } };
}

impl<'a> Linked<'a> {
    pub fn link(&self) -> &'a Link
        ensures { result.now ≡ self.now.link }
    {
        self.link
    }

    pub fn header(&self) -> &'a Header
        ensures { result.now ≡ self.now.header }
    {
        self.header
    }
}

/// A visible declaration. Contracts see it with the headers of all types that its header reaches.
#[derive(Drop)]
pub struct Visible<'a> {
    pub(crate) link: &'a Link,
    pub(crate) header: &'a Header,
    pub(crate) env: &'a Env,
}

impl<'a> Model for Visible<'a> {
    ghost use Rattle.jsh_scope.specs.Reached as spec;

    ghost Value = { spec.Visible };

    ghost view = { λ seen. record { link = seen.link.now; header = seen.header.now; reached = spec.reached seen.env.now.members seen.header.now } };
}

impl<'a> Visible<'a> {
    pub fn link(&self) -> &'a Link
        ensures { result.now ≡ self.now.link }
    {
        self.link
    }

    pub fn header(&self) -> &'a Header
        ensures { result.now ≡ self.now.header }
    {
        self.header
    }

    /// The visible types that its header reaches, each once, by rising id.
    pub fn reached(&self, alloc: Global) -> Result<Vec<Linked<'a>>, NoMemory>
        ensures { IfOk result (λ found. found.items ≡ self.now.reached) }
    {
        self.env.reached(alloc, self.header)
    }
}

/// A type of the library.
#[derive(Drop)]
pub struct LibraryAnswer<'a> {
    pub(crate) found: &'a LibraryType,
}

impl<'a> Model for LibraryAnswer<'a> {
    ghost use Rattle.jsh_tree.specs.declared.library.LibraryType.{LibraryType};

    ghost Value = { LibraryType };

    ghost view = { λ answer. answer.found.now };
}

impl<'a> LibraryAnswer<'a> {
    pub fn found(&self) -> &'a LibraryType
        ensures { result.now ≡ self.now }
    {
        self.found
    }
}

/// A constant of a type of the library.
#[derive(Drop)]
pub struct StaticConstant<'a> {
    pub(crate) of: &'a LibraryType,
    pub(crate) constant: &'a LibraryConstant,
}

impl<'a> StaticConstant<'a> {
    /// The type that has it.
    pub fn of(&self) -> &'a LibraryType
        ensures { result.now ≡ self.now.of }
    {
        self.of
    }

    pub fn constant(&self) -> &'a LibraryConstant
        ensures { result.now ≡ self.now.constant }
    {
        self.constant
    }
}

impl<'a> Model for StaticConstant<'a> {
    ghost use Rattle.jsh_scope.specs.Statics as spec;

    ghost Value = { spec.StaticConstant };

    ghost view = { λ answer. record { of = answer.of.now; constant = answer.constant.now } };
}

/// A static method of a type of the library.
#[derive(Drop)]
pub struct StaticMethod<'a> {
    pub(crate) of: &'a LibraryType,
    pub(crate) method: &'a LibraryMethod,
}

impl<'a> StaticMethod<'a> {
    /// The type that has it.
    pub fn of(&self) -> &'a LibraryType
        ensures { result.now ≡ self.now.of }
    {
        self.of
    }

    pub fn method(&self) -> &'a LibraryMethod
        ensures { result.now ≡ self.now.method }
    {
        self.method
    }
}

impl<'a> Model for StaticMethod<'a> {
    ghost use Rattle.jsh_scope.specs.Statics as spec;

    ghost Value = { spec.StaticMethod };

    ghost view = { λ answer. record { of = answer.of.now; method = answer.method.now } };
}

/// What a type's name means.
#[derive(Drop)]
pub enum TypeAnswer<'a> {
    Live(Visible<'a>),
    /// A live type that isn't visible.
    NotVisible,
    Library(LibraryAnswer<'a>),
}

/// What the name of a variable outside of methods means.
#[derive(Drop)]
pub enum VarAnswer<'a> {
    Live(Visible<'a>),
    Library(StaticConstant<'a>),
}

/// A method outside of types.
#[derive(Drop)]
pub enum MethodAnswer<'a> {
    Live(Visible<'a>),
    Library(StaticMethod<'a>),
}
