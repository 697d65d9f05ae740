//! Methods that contradict one another, and abstract methods without a body.

ghost use Rattle.std.specs.Prelude.{◌≡◌, ◌||◌, ◌&&◌, not};
ghost use Rattle.std.specs.List.{find};
ghost use Rattle.std.specs.Option.{option_copied};
ghost use Rattle.std.specs.Cmp.Lexicographic.{pointwise};
ghost use Rattle.jsh_header.specs.SuperRules as spec;

use crate::outlines::Method;
use jsh_tree::{Signature, TypeWritten};

fn same_written(a: &TypeWritten, b: &TypeWritten) -> bool
    ensures { result ≡ spec.same_written a.now b.now }
{
    a.name == b.name && a.dims == b.dims
}

fn same_result(a: &Option<TypeWritten>, b: &Option<TypeWritten>) -> bool
    ensures { result ≡ spec.same_result a.now b.now }
{
    match (a, b) {
        (None, None) => true,
        (Some(a), Some(b)) => same_written(a, b),
        _ => false,
    }
}

fn same_params(a: &[TypeWritten], b: &[TypeWritten]) -> bool
    ensures { result ≡ pointwise spec.same_written a.now b.now }
{
    a == b
}

fn same_signature(a: &Signature, b: &Signature) -> bool
    ensures { result ≡ spec.same_signature a.now b.now }
{
    a.name == b.name && same_params(a.params.as_slice(), b.params.as_slice())
}

fn contradicts(a: &Signature, b: &Signature) -> bool
    ensures { result ≡ spec.contradicts a.now b.now }
{
    same_signature(a, b) && !same_result(&a.result, &b.result)
}

fn contradicts_any(methods: &[Method<'_>], method: &Signature) -> bool
    ensures { result ≡ spec.contradicts_any methods.now method.now }
{
    methods
        .iter()
        .any(|other| contradicts(method, other.signature()))
}

fn contradicts_either(own: &[Method<'_>], others: &[Method<'_>], method: &Signature) -> bool
    ensures { result ≡ (spec.contradicts_any own.now method.now || spec.contradicts_any others.now method.now) }
{
    contradicts_any(own, method) || contradicts_any(others, method)
}

pub(crate) fn has_contradiction(own: &[Method<'_>], others: &[Method<'_>]) -> bool
    ensures { result ≡ spec.has_contradiction own.now others.now }
{
    others.iter().any(|method| contradicts_either(own, others, method.signature()))
}

fn first_of<'t, 'a>(methods: &'t [Method<'a>], method: &Signature) -> Option<&'t Method<'a>>
    ensures { option_copied result ≡ find (spec.same_signature method.now) methods.now }
{
    methods
        .iter()
        .find(|other| same_signature(method, other.signature()))
}

fn is_implemented(methods: &[Method<'_>], method: &Signature) -> bool
    ensures { result ≡ spec.is_implemented methods.now method.now }
{
    match first_of(methods, method) {
        None => false,
        Some(found) => !found.signature().is_abstract,
    }
}

fn lacks(of_classes: &[Method<'_>], method: &Signature) -> bool
    ensures { result ≡ (method.now.is_abstract && not (spec.is_implemented of_classes.now method.now)) }
{
    method.is_abstract && !is_implemented(of_classes, method)
}

fn lacks_body(of_classes: &[Method<'_>], methods: &[Method<'_>]) -> bool
    ensures { result ≡ spec.lacks_body of_classes.now methods.now }
{
    methods
        .iter()
        .any(|method| lacks(of_classes, method.signature()))
}

fn has_abstract(methods: &[Method<'_>]) -> bool
    ensures { result ≡ spec.has_abstract methods.now }
{
    methods.iter().any(|method| method.signature().is_abstract)
}

pub(crate) fn lacks_body_of(
    of_classes: &[Method<'_>],
    own: &[Method<'_>],
    others: &[Method<'_>],
) -> bool
    ensures { result ≡ spec.lacks_body_of of_classes.now own.now others.now }
{
    has_abstract(own) || lacks_body(of_classes, others)
}
