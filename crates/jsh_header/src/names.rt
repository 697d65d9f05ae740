//! Where the types stand that names mean.

ghost use Rattle.std.specs.Prelude.{◌≡◌, ◌+◌, ◌<◌, ◌^◌, length, IfOk};
ghost use Rattle.std.specs.Option.{is_none};
ghost use Rattle.jsh_scope.specs.Imports.{is_named};
ghost use Rattle.jsh_scope.specs.Answers.{type_named};
ghost use Rattle.jsh_header.specs.Outlines as spec;
ghost use Rattle.jsh_header.specs.SuperRules.{is_library_name};

use jsh_scope::{Env, TypeAnswer};
use jsh_text::NoMemory;
use jsh_tree::{Library, LibraryType, Member, Name};
use std::alloc::Global;
use std::marker::Model;

/// What names of types mean: each type has a place, those of the library behind the live snippets.
/// Contracts see the live snippets and the library.
#[derive(Drop)]
pub(crate) struct Names<'a> {
    env: Env,
    library: &'a Library,
    /// How many live snippets there are.
    behind: usize,
}

impl<'a> Model for Names<'a> {
    ghost use Rattle.jsh_scope.specs.Scope.{Scope};
    ghost use Rattle.jsh_header.specs.Tables.{AreNames};

    ghost Value = { Scope };

    ghost view = { λ names. names.env };

    ghost invariant = { λ names. AreNames names.env names.library.now names.behind };
}

impl<'a> Names<'a> {
    pub(crate) fn new(
        alloc: Global,
        live: &[Member],
        library: &'a Library,
    ) -> Result<Names<'a>, NoMemory>
        ensures { IfOk result (λ names. names ≡ record { members = live.now; library = library.now }) }
    {
        let behind = live.len();
        if behind.checked_add(library.types.len()).is_none() {
            return Err(NoMemory);
        }
        Ok(Names {
            env: Env::new(alloc, live, library)?,
            library,
            behind,
        })
    }

    pub(crate) fn library(&self) -> &'a Library
        ensures { result.now ≡ self.now.library }
    {
        self.library
    }

    /// Whether nothing gives a type of this name.
    pub(crate) fn lacks_type(&self, name: &Name) -> bool
        ensures { result ≡ is_none (type_named self.now name.now) }
    {
        self.env.type_named(name).is_none()
    }

    pub(crate) fn type_place(&self, name: &Name) -> Option<usize>
        ensures { result ≡ spec.type_place self.now name.now }
    {
        type_place(&self.env, self.library, self.behind, name)
    }

    pub(crate) fn object_place(&self) -> Option<usize>
        ensures { result ≡ spec.object_place self.now.library (length self.now.members) }
    {
        object_place(self.library, self.behind)
    }

    pub(crate) fn library_place(&self, name: &Name) -> Option<usize>
        ensures { result ≡ spec.library_place self.now.library (length self.now.members) name.now }
    {
        library_place(self.library, self.behind, name)
    }

    pub(crate) fn is_library_name(&self, name: &Name) -> bool
        ensures { result ≡ is_library_name self.now.library.types name.now }
    {
        is_library_name(self.library.types.as_slice(), name)
    }
}

#[tactic(auto, unfolding(crate::specs::Outlines::type_place))]
fn type_place(env: &Env, library: &Library, behind: usize, name: &Name) -> Option<usize>
    requires library { library.now ≡ env.now.library }
    requires behind { behind ≡ length env.now.members }
    requires fits { behind + length library.now.types < 2 ^ 64 }
    ensures { result ≡ spec.type_place env.now name.now }
{
    match env.type_place(name) {
        Some(place) => Some(place),
        None => answered_place(library, behind, env.imported_type(name)),
    }
}

fn answered_place(library: &Library, behind: usize, answer: Option<TypeAnswer<'_>>) -> Option<usize>
    requires { behind + length library.now.types < 2 ^ 64 }
    ensures { result ≡ spec.answered_place library.now behind answer.entry }
{
    match answer {
        Some(TypeAnswer::Library(answer)) => {
            let of = answer.found();
            named_place(library, behind, of.package.as_str(), of.name.as_str())
        }
        _ => None,
    }
}

#[tactic(auto, unfolding(crate::specs::Outlines::object_place))]
fn object_place(library: &Library, behind: usize) -> Option<usize>
    requires { behind + length library.now.types < 2 ^ 64 }
    ensures { result ≡ spec.object_place library.now behind }
{
    named_place(library, behind, "java.lang", "Object")
}

fn named_place(library: &Library, behind: usize, qualifier: &str, name: &str) -> Option<usize>
    requires { behind + length library.now.types < 2 ^ 64 }
    ensures { result ≡ spec.place_named library.now behind (is_named qualifier.now name.now) }
{
    let types = library.types.as_slice();
    for (place, found) in types.iter().enumerate() {
        if is_named(found, qualifier, name) {
            return Some(behind + place);
        }
    }
    None
}

fn is_named(found: &LibraryType, qualifier: &str, name: &str) -> bool
    ensures { result ≡ is_named qualifier.now name.now found.now }
{
    found.package.as_str() == qualifier && found.name.as_str() == name
}

#[tactic(auto, unfolding(crate::specs::Outlines::library_place))]
fn library_place(library: &Library, behind: usize, name: &Name) -> Option<usize>
    requires { behind + length library.now.types < 2 ^ 64 }
    ensures { result ≡ spec.library_place library.now behind name.now }
{
    let types = library.types.as_slice();
    for (place, found) in types.iter().enumerate() {
        if found.name == *name {
            return Some(behind + place);
        }
    }
    None
}

fn is_library_name(types: &[LibraryType], name: &Name) -> bool
    ensures { result ≡ is_library_name types.now name.now }
{
    types.iter().any(|found| found.name == *name)
}
