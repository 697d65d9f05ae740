//! What the rules on supertypes ask of a type.

ghost use Rattle.std.specs.Prelude.{◌≡◌, ◌++◌, length, map, IfOk, OnOk};
ghost use Rattle.std.specs.Option.{option_to_list};
ghost use Rattle.std.specs.List.{flat_map};
ghost use Rattle.jsh_tree.specs.declared.library.Member.{Member};
ghost use Rattle.jsh_header.specs.Outlines as spec;
ghost use Rattle.jsh_header.specs.Tables.{direct_of};

use crate::names::Names;
use jsh_text::NoMemory;
use jsh_tree::{Header, LibraryMethod, LibraryType, Member, Name, Seq, Signature};
use std::alloc::Global;
use std::marker::Model;

/// A method of a type. Contracts see its signature.
#[derive(Drop)]
pub(crate) struct Method<'a> {
    signature: &'a Signature,
}

impl<'a> Model for Method<'a> {
    ghost use Rattle.jsh_tree.specs.declared.key.Signature.{Signature};

    ghost Value = { Signature };

    ghost view = { λ method. method.signature.now };
}

impl<'a> Method<'a> {
    pub(crate) fn new(signature: &'a Signature) -> Method<'a>
        ensures { result ≡ signature.now }
    {
        Method { signature }
    }

    pub(crate) fn signature(&self) -> &'a Signature
        ensures { result.now ≡ self.now }
    {
        self.signature
    }
}

/// A type, live or of the library.
#[derive(Drop)]
pub(crate) struct Outline<'a> {
    pub(crate) interface: bool,
    pub(crate) is_final: bool,
    pub(crate) is_abstract: bool,
    /// The place of the superclass, where it has one that there is. An interface has none.
    pub(crate) superclass: Option<usize>,
    /// The places of its direct supertypes (JLS 4.10.2), `Object` among those of an interface.
    pub(crate) direct: Seq<usize>,
    /// Those that it declares itself and that objects have.
    pub(crate) methods: Seq<Method<'a>>,
}

/// All types at their places.
#[tactic(auto, unfolding(crate::specs::Outlines::outlines))]
pub(crate) fn outlines<'a>(
    alloc: Global,
    names: &Names<'a>,
    live: &'a [Member],
) -> Result<Seq<Outline<'a>>, NoMemory>
    requires { live.now ≡ names.now.members }
    ensures { IfOk result (λ types. types ≡ spec.outlines names.now) }
{
    let mut types = Vec::new(alloc);
    push_members(&mut types, alloc, names, live)?;
    push_library(&mut types, alloc, names, names.library().types.as_slice())?;
    Ok(Seq::from_vec(types))
}

fn push_members<'a>(
    types: &mut Vec<Outline<'a>>,
    alloc: Global,
    names: &Names<'a>,
    live: &'a [Member],
) -> Result<(), NoMemory>
    ensures { OnOk result (types.new.items ≡ types.old.items ++ map (λ (member : Member). spec.header_outline names.now member.header) live.now) }
{
    for member in live {
        types.push(header_outline(alloc, names, &member.header)?)?;
    }
    Ok(())
}

fn push_library<'a>(
    types: &mut Vec<Outline<'a>>,
    alloc: Global,
    names: &Names<'a>,
    library: &'a [LibraryType],
) -> Result<(), NoMemory>
    ensures { OnOk result (types.new.items ≡ types.old.items ++ map (spec.library_outline names.now.library (length names.now.members)) library.now) }
{
    for of in library {
        types.push(library_outline(alloc, names, of)?)?;
    }
    Ok(())
}

fn header_outline<'a>(
    alloc: Global,
    names: &Names<'a>,
    header: &'a Header,
) -> Result<Outline<'a>, NoMemory>
    ensures { IfOk result (λ outline. outline ≡ spec.header_outline names.now header.now) }
{
    match header {
        Header::OfType {
            interface: false,
            is_abstract,
            extends,
            implements,
            methods,
            ..
        } => class_outline(
            alloc,
            names,
            *is_abstract,
            extends.as_slice(),
            implements.as_slice(),
            methods.as_slice(),
        ),
        Header::OfType {
            interface: true,
            is_abstract,
            extends,
            methods,
            ..
        } => interface_outline(
            alloc,
            names,
            *is_abstract,
            extends.as_slice(),
            methods.as_slice(),
        ),
        _ => Ok(no_outline(alloc)),
    }
}

fn no_outline<'a>(alloc: Global) -> Outline<'a>
    ensures { result ≡ spec.no_outline }
{
    Outline {
        interface: false,
        is_final: false,
        is_abstract: false,
        superclass: None,
        direct: Seq::new(alloc),
        methods: Seq::new(alloc),
    }
}

fn class_outline<'a>(
    alloc: Global,
    names: &Names<'a>,
    is_abstract: bool,
    extends: &[Name],
    implements: &[Name],
    methods: &'a [Signature],
) -> Result<Outline<'a>, NoMemory>
    ensures { IfOk result (λ outline. outline ≡ spec.class_outline names.now is_abstract extends.now implements.now methods.now) }
{
    let superclass = superclass_of(names, extends);
    let mut direct = Vec::new(alloc);
    push_place(&mut direct, superclass)?;
    push_places(&mut direct, names, implements)?;
    Ok(Outline {
        interface: false,
        is_final: false,
        is_abstract,
        superclass,
        direct: Seq::from_vec(direct),
        methods: methods_of(alloc, methods)?,
    })
}

fn interface_outline<'a>(
    alloc: Global,
    names: &Names<'a>,
    is_abstract: bool,
    extends: &[Name],
    methods: &'a [Signature],
) -> Result<Outline<'a>, NoMemory>
    ensures { IfOk result (λ outline. outline ≡ spec.interface_outline names.now is_abstract extends.now methods.now) }
{
    let mut direct = Vec::new(alloc);
    push_place(&mut direct, names.object_place())?;
    push_places(&mut direct, names, extends)?;
    Ok(Outline {
        interface: true,
        is_final: false,
        is_abstract,
        superclass: None,
        direct: Seq::from_vec(direct),
        methods: methods_of(alloc, methods)?,
    })
}

fn library_outline<'a>(
    alloc: Global,
    names: &Names<'a>,
    of: &'a LibraryType,
) -> Result<Outline<'a>, NoMemory>
    ensures { IfOk result (λ outline. outline ≡ spec.library_outline names.now.library (length names.now.members) of.now) }
{
    let superclass = library_superclass(names, &of.extends);
    let mut direct = Vec::new(alloc);
    push_place(&mut direct, superclass)?;
    push_library_places(&mut direct, names, of.implements.as_slice())?;
    Ok(Outline {
        interface: of.is_interface,
        is_final: of.is_final,
        is_abstract: of.is_abstract,
        superclass,
        direct: Seq::from_vec(direct),
        methods: object_methods(alloc, of.methods.as_slice())?,
    })
}

/// The written superclass, else `Object`.
fn superclass_of(names: &Names<'_>, extends: &[Name]) -> Option<usize>
    ensures { result ≡ spec.superclass_of names.now extends.now }
{
    match extends {
        [] => names.object_place(),
        [name, ..] => names.type_place(name),
    }
}

fn library_superclass(names: &Names<'_>, extends: &Option<Name>) -> Option<usize>
    ensures { result ≡ spec.library_superclass names.now.library (length names.now.members) extends.now }
{
    match extends {
        None => None,
        Some(name) => names.library_place(name),
    }
}

fn push_places(places: &mut Vec<usize>, names: &Names<'_>, written: &[Name]) -> Result<(), NoMemory>
    ensures { OnOk result (places.new.items ≡ places.old.items ++ spec.places_of names.now written.now) }
{
    for name in written {
        push_place(places, names.type_place(name))?;
    }
    Ok(())
}

fn push_library_places(
    places: &mut Vec<usize>,
    names: &Names<'_>,
    written: &[Name],
) -> Result<(), NoMemory>
    ensures { OnOk result (places.new.items ≡ places.old.items ++ spec.library_places names.now.library (length names.now.members) written.now) }
{
    for name in written {
        push_place(places, names.library_place(name))?;
    }
    Ok(())
}

fn push_place(places: &mut Vec<usize>, place: Option<usize>) -> Result<(), NoMemory>
    ensures { OnOk result (places.new.items ≡ places.old.items ++ option_to_list place) }
{
    if let Some(place) = place {
        places.push(place)?;
    }
    Ok(())
}

pub(crate) fn methods_of<'a>(
    alloc: Global,
    signatures: &'a [Signature],
) -> Result<Seq<Method<'a>>, NoMemory>
    ensures { IfOk result (λ methods. methods ≡ signatures.now) }
{
    let mut methods = Vec::with_capacity(alloc, signatures.len())?;
    for signature in signatures {
        methods.push(Method::new(signature))?;
    }
    Ok(Seq::from_vec(methods))
}

/// The methods that aren't static.
fn object_methods<'a>(
    alloc: Global,
    methods: &'a [LibraryMethod],
) -> Result<Seq<Method<'a>>, NoMemory>
    ensures { IfOk result (λ found. found ≡ flat_map spec.object_method methods.now) }
{
    let mut found = Vec::new(alloc);
    for method in methods {
        push_object_method(&mut found, method)?;
    }
    Ok(Seq::from_vec(found))
}

fn push_object_method<'a>(
    found: &mut Vec<Method<'a>>,
    method: &'a LibraryMethod,
) -> Result<(), NoMemory>
    ensures { OnOk result (found.new.items ≡ found.old.items ++ spec.object_method method.now) }
{
    if !method.is_static {
        found.push(Method::new(&method.signature))?;
    }
    Ok(())
}

/// The direct supertypes of each type.
pub(crate) fn edges_of(alloc: Global, types: &[Outline<'_>]) -> Result<Seq<Seq<usize>>, NoMemory>
    ensures { IfOk result (λ edges. edges ≡ map direct_of types.now) }
{
    let mut edges = Vec::with_capacity(alloc, types.len())?;
    for of in types {
        edges.push(Seq::from_slice(alloc, of.direct.as_slice())?)?;
    }
    Ok(Seq::from_vec(edges))
}
