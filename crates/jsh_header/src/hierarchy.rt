//! All types with their supertypes, looked up once.

ghost use Rattle.std.specs.Prelude.{◌≡◌, [], ◌∷◌, ◌++◌, map, slice_get, IfOk, OnOk};
ghost use Rattle.std.specs.Option.{option_copied};
ghost use Rattle.jsh_closure.specs.Closure.{is_among};
ghost use Rattle.jsh_header.specs.Outlines.{outlines};
ghost use Rattle.jsh_header.specs.SuperRules as spec;
ghost use Rattle.jsh_header.specs.Tables.{AreAlike, direct_of};

use crate::names::Names;
use crate::outlines::{Method, Outline, edges_of, outlines};
use jsh_closure::Finder;
use jsh_text::NoMemory;
use jsh_tree::{Library, Member, Seq};
use std::alloc::Global;
use std::marker::Model;

/// The types of an environment. Contracts see the environment.
#[derive(Drop)]
pub(crate) struct Hierarchy<'a> {
    names: Names<'a>,
    types: Seq<Outline<'a>>,
    finder: Finder,
}

impl<'a> Model for Hierarchy<'a> {
    ghost use Rattle.jsh_scope.specs.Scope.{Scope};
    ghost use Rattle.jsh_header.specs.Tables.{AreTypes};

    ghost Value = { Scope };

    ghost view = { λ hierarchy. hierarchy.names };

    ghost invariant = { λ hierarchy. AreTypes hierarchy.names hierarchy.types hierarchy.finder };
}

impl<'a> Hierarchy<'a> {
    pub(crate) fn new(
        alloc: Global,
        live: &'a [Member],
        library: &'a Library,
    ) -> Result<Hierarchy<'a>, NoMemory>
        ensures { IfOk result (λ hierarchy. hierarchy ≡ record { members = live.now; library = library.now }) }
    {
        let names = Names::new(alloc, live, library)?;
        let types = outlines(alloc, &names, live)?;
        let edges = edges_of(alloc, types.as_slice())?;
        Ok(Hierarchy {
            names,
            types,
            finder: Finder::new(alloc, edges),
        })
    }

    pub(crate) fn names(&self) -> &Names<'a>
        ensures { result.now ≡ self.now }
    {
        &self.names
    }

    pub(crate) fn type_at(&self, place: Option<usize>) -> Option<&Outline<'a>>
        ensures { option_copied result ≡ spec.type_at (outlines self.now) place }
    {
        type_at(self.types.as_slice(), place)
    }

    /// The methods of all supertypes of the type at a place, in any order. The cost grows with these
    /// supertypes and their methods.
    pub(crate) fn inherited(
        &mut self,
        alloc: Global,
        place: usize,
    ) -> Result<Vec<Method<'a>>, NoMemory>
        ensures kept { self.new ≡ self.old }
        ensures methods { IfOk result (λ methods. AreAlike methods.items (spec.inherited (outlines self.old) place)) }
    {
        inherited(alloc, self.types.as_slice(), &mut self.finder, place)
    }

    /// Whether the type at the last place is that at the other or above it.
    pub(crate) fn is_above(
        &mut self,
        alloc: Global,
        other: usize,
        place: usize,
    ) -> Result<bool, NoMemory>
        ensures kept { self.new ≡ self.old }
        ensures above { IfOk result (λ above. above ≡ is_among (spec.above (outlines self.old) (other ∷ [])) place) }
    {
        is_above(alloc, self.types.as_slice(), &mut self.finder, other, place)
    }

    /// The methods of the class at a place, then those of its superclass, and so on up.
    pub(crate) fn class_methods(
        &self,
        alloc: Global,
        place: usize,
    ) -> Result<Vec<Method<'a>>, NoMemory>
        ensures { IfOk result (λ methods. methods.items ≡ spec.class_methods (outlines self.now) place) }
    {
        class_methods(alloc, self.types.as_slice(), place)
    }
}

fn type_at<'t, 'a>(types: &'t [Outline<'a>], place: Option<usize>) -> Option<&'t Outline<'a>>
    ensures { option_copied result ≡ spec.type_at types.now place }
{
    match place {
        None => None,
        Some(place) => types.get(place),
    }
}

fn inherited<'a>(
    alloc: Global,
    types: &[Outline<'a>],
    finder: &mut Finder,
    place: usize,
) -> Result<Vec<Method<'a>>, NoMemory>
    requires { finder.old ≡ map direct_of types.now }
    ensures kept { finder.new ≡ finder.old }
    ensures methods { IfOk result (λ methods. AreAlike methods.items (spec.inherited types.now place)) }
{
    let above = finder.found(alloc, direct_at(types, place))?;
    let methods = methods_at_all(alloc, types, above.as_slice())?;
    Ok(methods)
}

fn is_above(
    alloc: Global,
    types: &[Outline<'_>],
    finder: &mut Finder,
    other: usize,
    place: usize,
) -> Result<bool, NoMemory>
    requires { finder.old ≡ map direct_of types.now }
    ensures kept { finder.new ≡ finder.old }
    ensures above { IfOk result (λ above. above ≡ is_among (spec.above types.now (other ∷ [])) place) }
{
    let above = finder.found(alloc, &[other])?;
    Ok(is_among(above.as_slice(), place))
}

fn is_among(places: &[usize], place: usize) -> bool
    ensures { result ≡ is_among places.now place }
{
    places.iter().any(|found| place == *found)
}

fn outline_at<'t, 'a>(types: &'t [Outline<'a>], place: usize) -> Option<&'t Outline<'a>>
    ensures { option_copied result ≡ slice_get types.now place }
{
    types.get(place)
}

fn direct_at<'t>(types: &'t [Outline<'_>], place: usize) -> &'t [usize]
    ensures { result.now ≡ spec.direct_at (slice_get types.now place) }
{
    match types.get(place) {
        None => &[],
        Some(of) => of.direct.as_slice(),
    }
}

fn superclass_at(types: &[Outline<'_>], place: usize) -> Option<usize>
    ensures { result ≡ spec.superclass_at (slice_get types.now place) }
{
    match types.get(place) {
        None => None,
        Some(of) => of.superclass,
    }
}

fn methods_at_all<'a>(
    alloc: Global,
    types: &[Outline<'a>],
    places: &[usize],
) -> Result<Vec<Method<'a>>, NoMemory>
    ensures { IfOk result (λ methods. methods.items ≡ spec.methods_of types.now places.now) }
{
    let mut methods = Vec::new(alloc);
    for place in places {
        push_methods_at(&mut methods, outline_at(types, *place))?;
    }
    Ok(methods)
}

fn push_methods_at<'a>(
    methods: &mut Vec<Method<'a>>,
    of: Option<&Outline<'a>>,
) -> Result<(), NoMemory>
    ensures { OnOk result (methods.new.items ≡ methods.old.items ++ spec.methods_at (option_copied of.entry)) }
{
    match of {
        None => Ok(()),
        Some(of) => push_methods(methods, of.methods.as_slice()),
    }
}

fn push_methods<'a>(methods: &mut Vec<Method<'a>>, more: &[Method<'a>]) -> Result<(), NoMemory>
    ensures { OnOk result (methods.new.items ≡ methods.old.items ++ more.now) }
{
    for method in more {
        methods.push(Method::new(method.signature()))?;
    }
    Ok(())
}

#[tactic(auto, unfolding(crate::specs::SuperRules::class_methods))]
fn class_methods<'a>(
    alloc: Global,
    types: &[Outline<'a>],
    place: usize,
) -> Result<Vec<Method<'a>>, NoMemory>
    ensures { IfOk result (λ methods. methods.items ≡ spec.class_methods types.now place) }
{
    let mut methods = Vec::new(alloc);
    let mut next = Some(place);
    for _step in 0..types.len() {
        let Some(place) = next else {
            return Ok(methods);
        };
        push_methods_at(&mut methods, outline_at(types, place))?;
        next = superclass_at(types, place);
    }
    Ok(methods)
}
