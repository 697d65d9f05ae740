ghost use Rattle.std.specs.Prelude.{◌≡◌, IfOk};
ghost use Rattle.jsh_typed.specs.Conversions as spec;

use crate::hierarchy::{HierarchyEntry, is_subclass};
use crate::types::{ClassName, Element, Numeric, Promoted, ResolvedType};
use jsh_text::Value;
use std::alloc::{AllocError, Global};

/// What `==` and `!=` compare (JLS 15.21).
#[derive(Clone, Copy, Debug, PartialEq, Eq)]
pub enum ComparedAs {
    Numbers(Promoted),
    Booleans,
    References,
}

/// The type of `?:`, by its two branches (JLS 15.25).
#[derive(Clone, Copy, Debug, PartialEq, Eq)]
pub enum BranchType {
    /// The type of the first branch.
    First,
    /// The type of the second branch.
    Second,
    /// The type that both are promoted to.
    Numbers(Promoted),
}

/// Whether a type is the other, or widens to it (JLS 5.1.2, 5.1.5). Arguments take no other
/// conversion.
pub fn widens(
    alloc: Global,
    hierarchy: &[HierarchyEntry],
    from: &ResolvedType,
    to: &ResolvedType,
) -> Result<bool, AllocError>
    ensures { IfOk result (λ answer. answer ≡ spec.widens hierarchy.now from.now to.now) }
{
    match (from, to) {
        (ResolvedType::Null, _) => Ok(to.is_reference()),
        (_, ResolvedType::Null) => Ok(false),
        (
            ResolvedType::Of { element, dims },
            ResolvedType::Of {
                element: wide,
                dims: wide_dims,
            },
        ) => {
            if *dims != *wide_dims {
                return Ok(*wide_dims < *dims && wide.is_object());
            }
            if element.is(wide) || (*dims == 0 && number_widens(element, wide)) {
                return Ok(true);
            }
            reference_widens(alloc, hierarchy, element, wide)
        }
    }
}

fn number_widens(from: &Element, to: &Element) -> bool
    ensures { result ≡ spec.element_widens from.now to.now }
{
    match (from.numeric(), to.numeric()) {
        (Some(from), Some(to)) => from.widens_to(to),
        _ => false,
    }
}

// Between types that are no arrays, apart from `String` to itself.
fn reference_widens(
    alloc: Global,
    hierarchy: &[HierarchyEntry],
    from: &Element,
    to: &Element,
) -> Result<bool, AllocError>
    ensures { IfOk result (λ answer. answer ≡ spec.reference_widens hierarchy.now from.now to.now) }
{
    match (from, to) {
        (Element::Class(class), Element::Class(other)) => {
            is_subclass(alloc, hierarchy, class, other)
        }
        (Element::Text, Element::Class(other)) => Ok(other.is_object()),
        _ => Ok(false),
    }
}

/// Whether an expression of a type, with its value where it is constant, may be assigned to the
/// other type (JLS 5.2).
pub fn assigns(
    alloc: Global,
    hierarchy: &[HierarchyEntry],
    from: &ResolvedType,
    constant: &Option<Value>,
    to: &ResolvedType,
) -> Result<bool, AllocError>
    ensures { IfOk result (λ answer. answer ≡ spec.assigns hierarchy.now from.now constant.now to.now) }
{
    if to.is_char() && fits_char(constant) {
        return Ok(true);
    }
    widens(alloc, hierarchy, from, to)
}

/// Whether an expression is a constant `int` whose value a `char` has.
pub fn fits_char(constant: &Option<Value>) -> bool
    ensures { result ≡ spec.fits_char constant.now }
{
    match constant {
        Some(Value::Int(number)) => 0 <= *number && *number <= 65535,
        _ => false,
    }
}

/// Whether a type may be cast to the other (JLS 5.5).
pub fn casts(
    alloc: Global,
    hierarchy: &[HierarchyEntry],
    from: &ResolvedType,
    to: &ResolvedType,
) -> Result<bool, AllocError>
    ensures { IfOk result (λ answer. answer ≡ spec.casts hierarchy.now from.now to.now) }
{
    match (from, to) {
        (ResolvedType::Null, _) => Ok(to.is_reference()),
        (_, ResolvedType::Null) => Ok(from.is_reference()),
        (
            ResolvedType::Of { element, dims },
            ResolvedType::Of {
                element: target,
                dims: target_dims,
            },
        ) => {
            if *dims < *target_dims {
                return Ok(element.is_object());
            }
            if *target_dims < *dims {
                return Ok(target.is_object());
            }
            if element.is(target) || (*dims == 0 && are_numbers(element, target)) {
                return Ok(true);
            }
            reference_casts(alloc, hierarchy, element, target)
        }
    }
}

fn are_numbers(element: &Element, other: &Element) -> bool
    ensures { result ≡ spec.are_numbers element.now other.now }
{
    match (element.numeric(), other.numeric()) {
        (Some(_), Some(_)) => true,
        _ => false,
    }
}

fn reference_casts(
    alloc: Global,
    hierarchy: &[HierarchyEntry],
    from: &Element,
    to: &Element,
) -> Result<bool, AllocError>
    ensures { IfOk result (λ answer. answer ≡ spec.reference_casts hierarchy.now from.now to.now) }
{
    if is_interface(hierarchy, from) && is_open(hierarchy, to) {
        return Ok(true);
    }
    if is_interface(hierarchy, to) && is_open(hierarchy, from) {
        return Ok(true);
    }
    if reference_widens(alloc, hierarchy, from, to)? {
        return Ok(true);
    }
    reference_widens(alloc, hierarchy, to, from)
}

fn is_interface(hierarchy: &[HierarchyEntry], element: &Element) -> bool
    ensures { result ≡ spec.is_interface hierarchy.now element.now }
{
    match element {
        Element::Class(class) => has_interface(hierarchy, class),
        _ => false,
    }
}

fn has_interface(hierarchy: &[HierarchyEntry], class: &ClassName) -> bool
    ensures { result ≡ spec.has_interface hierarchy.now class.now }
{
    hierarchy
        .iter()
        .any(|entry| entry.is_interface && entry.class.is(class))
}

// A reference type that may have subtypes: no final class, and not `String`.
fn is_open(hierarchy: &[HierarchyEntry], element: &Element) -> bool
    ensures { result ≡ spec.is_open hierarchy.now element.now }
{
    match element {
        Element::Class(class) => !has_final(hierarchy, class),
        _ => false,
    }
}

fn has_final(hierarchy: &[HierarchyEntry], class: &ClassName) -> bool
    ensures { result ≡ spec.has_final hierarchy.now class.now }
{
    hierarchy
        .iter()
        .any(|entry| entry.is_final && entry.class.is(class))
}

/// Whether `instanceof` takes an operand of a type, and the other type (JLS 15.20.2).
pub fn may_be_instance(
    alloc: Global,
    hierarchy: &[HierarchyEntry],
    from: &ResolvedType,
    of: &ResolvedType,
) -> Result<bool, AllocError>
    ensures { IfOk result (λ answer. answer ≡ spec.may_be_instance hierarchy.now from.now of.now) }
{
    if from.is_reference() && of.is_reference() {
        casts(alloc, hierarchy, from, of)
    } else {
        Ok(false)
    }
}

/// What `==` and `!=` compare between operands of two types, or None where they don't take them. Two
/// texts aren't compared.
pub fn compared(
    alloc: Global,
    hierarchy: &[HierarchyEntry],
    left: &ResolvedType,
    right: &ResolvedType,
) -> Result<Option<ComparedAs>, AllocError>
    ensures { IfOk result (λ found. found ≡ spec.compared hierarchy.now left.now right.now) }
{
    if let Some(operands) = common_number(left, right) {
        return Ok(Some(ComparedAs::Numbers(operands)));
    }
    if left.is_boolean() && right.is_boolean() {
        return Ok(Some(ComparedAs::Booleans));
    }
    if left.is_text() && right.is_text() {
        return Ok(None);
    }
    if may_be_instance(alloc, hierarchy, left, right)? {
        Ok(Some(ComparedAs::References))
    } else {
        Ok(None)
    }
}

/// The type that two types of numbers are promoted to together (JLS 5.6.2).
pub fn common_number(left: &ResolvedType, right: &ResolvedType) -> Option<Promoted>
    ensures { result ≡ spec.common_number left.now right.now }
{
    match (left.numeric(), right.numeric()) {
        (Some(left), Some(right)) => Some(left.promoted_with(right)),
        _ => None,
    }
}

/// The type of `?:` over branches of two types, each with its value where it is constant, or None
/// where they don't go together.
pub fn branches(
    alloc: Global,
    hierarchy: &[HierarchyEntry],
    yes: &ResolvedType,
    yes_constant: &Option<Value>,
    no: &ResolvedType,
    no_constant: &Option<Value>,
) -> Result<Option<BranchType>, AllocError>
    ensures { IfOk result (λ found. found ≡ spec.branches hierarchy.now yes.now yes_constant.now no.now no_constant.now) }
{
    if yes.is(no) {
        return Ok(Some(BranchType::First));
    }
    match (yes.numeric(), no.numeric()) {
        (Some(yes), Some(no)) => Ok(Some(number_branches(yes, yes_constant, no, no_constant))),
        _ => reference_branches(alloc, hierarchy, yes, no),
    }
}

fn number_branches(
    yes: Numeric,
    yes_constant: &Option<Value>,
    no: Numeric,
    no_constant: &Option<Value>,
) -> BranchType
    ensures { result ≡ spec.number_branches yes yes_constant.now no no_constant.now }
{
    match (yes, no) {
        (Numeric::Char, Numeric::Int) => {
            if fits_char(no_constant) {
                BranchType::First
            } else {
                BranchType::Numbers(Promoted::Int)
            }
        }
        (Numeric::Int, Numeric::Char) => {
            if fits_char(yes_constant) {
                BranchType::Second
            } else {
                BranchType::Numbers(Promoted::Int)
            }
        }
        _ => BranchType::Numbers(yes.promoted_with(no)),
    }
}

fn reference_branches(
    alloc: Global,
    hierarchy: &[HierarchyEntry],
    yes: &ResolvedType,
    no: &ResolvedType,
) -> Result<Option<BranchType>, AllocError>
    ensures { IfOk result (λ found. found ≡ spec.reference_branches hierarchy.now yes.now no.now) }
{
    if !yes.is_reference() || !no.is_reference() {
        return Ok(None);
    }
    if widens(alloc, hierarchy, yes, no)? {
        return Ok(Some(BranchType::Second));
    }
    if widens(alloc, hierarchy, no, yes)? {
        Ok(Some(BranchType::First))
    } else {
        Ok(None)
    }
}
