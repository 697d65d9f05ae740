//! The diagnostics of broken rules on supertypes.

ghost use Rattle.std.specs.Prelude.{◌≡◌, [], ◌∷◌, ◌++◌, None, map, slice_get, IfOk};
ghost use Rattle.std.specs.Option.{option_copied, option_to_list};
ghost use Rattle.jsh_header.specs.Diagnostics as spec;

use crate::rules::Breach;
use jsh_text::NoMemory;
use jsh_tree::{Code, Diagnostic, Identifier, Seq, Tree};
use std::alloc::Global;

/// What to say of the rules that a class or an interface breaks, in their order: each at the supertype
/// where it is broken, or at the type's name.
pub fn diagnostics(
    alloc: Global,
    tree: &Tree,
    breaches: &[Breach],
) -> Result<Seq<Diagnostic>, NoMemory>
    ensures { IfOk result (λ diagnostics. diagnostics ≡ spec.diagnostics tree.now breaches.now) }
{
    match tree {
        Tree::Class(class) => diagnostics_of(
            alloc,
            &class.name,
            class.extends.as_ref(),
            class.implements.as_slice(),
            breaches,
        ),
        Tree::Interface(interface) => diagnostics_of(
            alloc,
            &interface.name,
            None,
            interface.extends.as_slice(),
            breaches,
        ),
        _ => Ok(Seq::new(alloc)),
    }
}

fn diagnostics_of(
    alloc: Global,
    own: &Identifier,
    superclass: Option<&Identifier>,
    others: &[Identifier],
    breaches: &[Breach],
) -> Result<Seq<Diagnostic>, NoMemory>
    ensures { IfOk result (λ diagnostics. diagnostics ≡ map (spec.diagnostic own.now (option_copied superclass.entry) others.now) breaches.now) }
{
    let mut diagnostics = Vec::with_capacity(alloc, breaches.len())?;
    for breach in breaches {
        diagnostics.push(diagnostic(own, superclass, others, *breach))?;
    }
    Ok(Seq::from_vec(diagnostics))
}

fn diagnostic(
    own: &Identifier,
    superclass: Option<&Identifier>,
    others: &[Identifier],
    breach: Breach,
) -> Diagnostic
    ensures { result ≡ spec.diagnostic own.now (option_copied superclass.entry) others.now breach }
{
    Diagnostic {
        code: Code::SuperRule {
            number: breach.rule,
        },
        place: place_of(own, superclass, others, breach.supertype),
        name: None,
    }
}

/// The first byte of the supertype of this index, else of the type's name.
fn place_of(
    own: &Identifier,
    superclass: Option<&Identifier>,
    others: &[Identifier],
    supertype: Option<usize>,
) -> u32
    ensures { result ≡ spec.place_of own.now (option_copied superclass.entry) others.now supertype }
{
    match supertype {
        None => own.span.from,
        Some(index) => match written_at(superclass, others, index) {
            None => own.span.from,
            Some(written) => written.span.from,
        },
    }
}

/// The supertype of this index, where the superclass comes first, if there is one.
fn written_at<'t>(
    superclass: Option<&'t Identifier>,
    others: &'t [Identifier],
    index: usize,
) -> Option<&'t Identifier>
    ensures { option_copied result ≡ slice_get (option_to_list (option_copied superclass.entry) ++ others.now) index }
{
    match superclass {
        None => others.get(index),
        Some(first) => behind(first, others, index),
    }
}

fn behind<'t>(
    first: &'t Identifier,
    others: &'t [Identifier],
    index: usize,
) -> Option<&'t Identifier>
    ensures { option_copied result ≡ slice_get (first.now ∷ others.now) index }
{
    if index == 0 {
        Some(first)
    } else {
        others.get(index - 1)
    }
}
