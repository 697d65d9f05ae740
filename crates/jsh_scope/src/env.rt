//! An environment and its three queries.

ghost use Rattle.std.specs.Prelude.{◌≡◌, ◌++◌, IfOk, OnOk};
ghost use Rattle.std.specs.Option.{option_copied, option_to_list};
ghost use Rattle.std.specs.List.{find, flat_map, filter};
ghost use Rattle.jsh_closure.specs.Closure.{places_at};
ghost use Rattle.jsh_scope.specs.Scope.{is_type, is_visible_variable, is_visible_method};
ghost use Rattle.jsh_scope.specs.Reached.{reached, visible_types, first_place};
ghost use Rattle.jsh_scope.specs.Imports as imports;
ghost use Rattle.jsh_scope.specs.Answers as spec;

use crate::answers::{Linked, MethodAnswer, TypeAnswer, VarAnswer, Visible};
use crate::copies::{copied, library_copy};
use crate::imported::{Imported, imports_of};
use crate::indexes::{method_places, type_places, variable_places};
use crate::library::{imported_constant, imported_methods, imported_type};
use crate::reached::VisibleTypes;
use jsh_text::NoMemory;
use jsh_tree::{Header, Library, Link, Member, Name, Seq};
use std::alloc::Global;
use std::collections::BTreeMap;
use std::marker::Model;

/// What simple names mean. Contracts see the live snippets and the library.
#[derive(Drop)]
pub struct Env {
    members: Seq<Member>,
    library: Library,
    imports: Seq<Imported>,
    types: BTreeMap<Name, usize>,
    variables: BTreeMap<Name, usize>,
    methods: BTreeMap<Name, Seq<usize>>,
    visible: VisibleTypes,
}

impl Model for Env {
    ghost use Rattle.std.specs.Prelude.{◌≡◌};
    ghost use Rattle.jsh_scope.specs.Scope.{Scope};
    ghost use Rattle.jsh_scope.specs.Reached.{visible_types};
    ghost use Rattle.jsh_scope.specs.Indexes.{AreIndexes};

    ghost Value = { Scope };

    ghost view = { λ env. record { members = env.members; library = env.library } };

    ghost invariant = { λ env. AreIndexes env.members env.imports env.types env.variables env.methods × (env.visible ≡ visible_types env.members) };
}

impl Env {
    /// The members stand by rising id, and no two have one key.
    pub fn new(alloc: Global, members: &[Member], library: &Library) -> Result<Env, NoMemory>
        ensures { IfOk result (λ env. env ≡ record { members = members.now; library = library.now }) }
    {
        Ok(Env {
            members: copied(alloc, members)?,
            library: library_copy(library)?,
            imports: imports_of(alloc, members)?,
            types: type_places(alloc, members)?,
            variables: variable_places(alloc, members)?,
            methods: method_places(alloc, members)?,
            visible: VisibleTypes::new(alloc, members)?,
        })
    }

    /// The visible types that a header reaches, each once, by rising id.
    pub(crate) fn reached(
        &self,
        alloc: Global,
        header: &Header,
    ) -> Result<Vec<Linked<'_>>, NoMemory>
        ensures { IfOk result (λ found. found.items ≡ reached self.now.members header.now) }
    {
        self.visible.reached(alloc, header)
    }

    /// Which type the name is. It takes no memory.
    #[tactic(auto, unfolding(crate::specs::Answers::type_named))]
    pub fn type_named(&self, name: &Name) -> Option<TypeAnswer<'_>>
        ensures { result ≡ spec.type_named self.now name.now }
    {
        match self.type_of(self.live_type(name)) {
            Some(answer) => Some(answer),
            None => imported_type(&self.library, name, self.imports.as_slice()),
        }
    }

    /// The place among the members of the live type of this name. It takes no memory.
    pub fn type_place(&self, name: &Name) -> Option<usize>
        ensures { result ≡ first_place (is_type name.now) self.now.members }
    {
        self.types.get(name).copied()
    }

    /// Which type the imports and `java.lang` give to the name. It takes no memory.
    pub fn imported_type(&self, name: &Name) -> Option<TypeAnswer<'_>>
        ensures { result ≡ imports.imported_type self.now.library name.now (imports.imports_of self.now.members) }
    {
        imported_type(&self.library, name, self.imports.as_slice())
    }

    /// Which variable outside of methods the name is. It takes no memory.
    #[tactic(auto, unfolding(crate::specs::Answers::var_named))]
    pub fn var_named(&self, name: &Name) -> Option<VarAnswer<'_>>
        ensures { result ≡ spec.var_named self.now name.now }
    {
        match self.variable_of(self.visible_variable(name)) {
            Some(answer) => Some(answer),
            None => imported_constant(&self.library, name, self.imports.as_slice()),
        }
    }

    /// Which methods outside of types have the name.
    #[tactic(auto, unfolding(crate::specs::Answers::methods_named))]
    pub fn methods_named(
        &self,
        alloc: Global,
        name: &Name,
    ) -> Result<Vec<MethodAnswer<'_>>, NoMemory>
        ensures { IfOk result (λ answers. answers.items ≡ spec.methods_named self.now name.now) }
    {
        let live = self.live_methods(alloc, name)?;
        if live.is_empty() {
            return imported_methods(alloc, &self.library, name, self.imports.as_slice());
        }
        Ok(live)
    }

    fn live_type(&self, name: &Name) -> Option<&Member>
        ensures { option_copied result ≡ find (is_type name.now) self.now.members }
    {
        self.member_at(self.types.get(name))
    }

    fn visible_variable(&self, name: &Name) -> Option<&Member>
        ensures { option_copied result ≡ find (is_visible_variable name.now) self.now.members }
    {
        self.member_at(self.variables.get(name))
    }

    fn member_at(&self, place: Option<&usize>) -> Option<&Member>
        ensures { option_copied result ≡ spec.member_at self.now.members (option_copied place.entry) }
    {
        match place {
            None => None,
            Some(place) => self.members.get(*place),
        }
    }

    fn type_of<'a>(&'a self, member: Option<&'a Member>) -> Option<TypeAnswer<'a>>
        ensures { result ≡ spec.type_of (visible_types self.now.members) (option_copied member.entry) }
    {
        match member {
            None => None,
            Some(member) => match &member.link {
                None => Some(TypeAnswer::NotVisible),
                Some(link) => Some(TypeAnswer::Live(self.visible(&member.header, link))),
            },
        }
    }

    fn variable_of<'a>(&'a self, member: Option<&'a Member>) -> Option<VarAnswer<'a>>
        ensures { result ≡ spec.variable_of (visible_types self.now.members) (option_copied member.entry) }
    {
        match member {
            None => None,
            Some(member) => match &member.link {
                None => None,
                Some(link) => Some(VarAnswer::Live(self.visible(&member.header, link))),
            },
        }
    }

    fn visible<'a>(&'a self, header: &'a Header, link: &'a Link) -> Visible<'a>
        ensures { result ≡ spec.visible (visible_types self.now.members) header.now link.now }
    {
        Visible {
            link,
            header,
            env: self,
        }
    }

    fn live_methods(&self, alloc: Global, name: &Name) -> Result<Vec<MethodAnswer<'_>>, NoMemory>
        ensures { IfOk result (λ answers. answers.items ≡ flat_map (spec.method_of (visible_types self.now.members)) (filter (is_visible_method name.now) self.now.members)) }
    {
        let places = places_found(self.methods.get(name));
        let methods = self.methods_at(alloc, places)?;
        Ok(methods)
    }

    fn methods_at(&self, alloc: Global, places: &[usize]) -> Result<Vec<MethodAnswer<'_>>, NoMemory>
        ensures { IfOk result (λ answers. answers.items ≡ flat_map (spec.method_at (visible_types self.now.members) self.now.members) places.now) }
    {
        let mut answers = Vec::new(alloc);
        for place in places {
            self.push_method(&mut answers, self.members.get(*place))?;
        }
        Ok(answers)
    }

    fn push_method<'a>(
        &'a self,
        answers: &mut Vec<MethodAnswer<'a>>,
        member: Option<&'a Member>,
    ) -> Result<(), NoMemory>
        ensures { OnOk result (answers.new.items ≡ answers.old.items ++ flat_map (spec.method_of (visible_types self.now.members)) (option_to_list (option_copied member.entry))) }
    {
        if let Some(member) = member {
            if let Some(link) = &member.link {
                answers.push(MethodAnswer::Live(self.visible(&member.header, link)))?;
            }
        }
        Ok(())
    }
}

fn places_found(found: Option<&Seq<usize>>) -> &[usize]
    ensures { result.now ≡ places_at (option_copied found.entry) }
{
    match found {
        Some(places) => places.as_slice(),
        None => &[],
    }
}
