//! Pairs of types, and which converts to which. A type is written as in Java.

use super::*;
use jsh_text::Value;
use jsh_tree::{Name, Seq};
use std::alloc::{AllocError, Global};
use std::test::Fail;

/// Two types, and whether the first widens to the second and may be cast to it.
const CONVERSIONS: [(&str, &str, bool, bool); 42] = [
    ("char", "int", true, true),
    ("char", "long", true, true),
    ("int", "long", true, true),
    ("int", "char", false, true),
    ("long", "char", false, true),
    ("long", "int", false, true),
    ("boolean", "int", false, false),
    ("char", "boolean", false, false),
    ("boolean", "boolean", true, true),
    ("null", "String", true, true),
    ("null", "int[]", true, true),
    ("null", "int", false, false),
    ("int", "Object", false, false),
    // a diamond of interfaces
    ("Both", "Left", true, true),
    ("Both", "Right", true, true),
    ("Both", "Top", true, true),
    ("Last", "Top", true, true),
    ("Left", "Top", true, true),
    ("Top", "Both", false, true),
    ("Top", "Last", false, true),
    ("Left", "Right", false, true),
    ("Top", "Object", true, true),
    ("Object", "Top", false, true),
    // an interface that a class hasn't
    ("Both", "Apart", false, true),
    ("Apart", "Both", false, true),
    ("Last", "Apart", false, false),
    ("Apart", "Last", false, false),
    ("String", "Object", true, true),
    ("Object", "String", false, true),
    ("String", "Apart", false, false),
    // arrays
    ("int[]", "int[]", true, true),
    ("int[]", "long[]", false, false),
    ("char[]", "int[]", false, false),
    ("int[]", "Object", true, true),
    ("int[]", "Object[]", false, false),
    ("int[][]", "Object[]", true, true),
    ("Object[]", "int[][]", false, true),
    ("Object", "int[][]", false, true),
    ("Last[][]", "Top[][]", true, true),
    ("Top[]", "Last[]", false, true),
    ("Last[]", "Apart[]", false, false),
    ("Top[][]", "Top[]", false, false),
];

fn class(alloc: Global, name: &str) -> Result<ClassName, AllocError> {
    Ok(ClassName::Library(Name::from_text(alloc, name)?))
}

fn element(alloc: Global, name: &str) -> Result<Element, AllocError> {
    match name {
        "int" => Ok(Element::Int),
        "long" => Ok(Element::Long),
        "char" => Ok(Element::Char),
        "boolean" => Ok(Element::Boolean),
        "String" => Ok(Element::Text),
        _ => Ok(Element::Class(class(alloc, name)?)),
    }
}

/// The type that a text names.
fn named(alloc: Global, text: &str) -> Result<ResolvedType, AllocError> {
    if text == "null" {
        return Ok(ResolvedType::Null);
    }
    let (name, dims) = match (text.strip_suffix("[][]"), text.strip_suffix("[]")) {
        (Some(name), _) => (name, 2),
        (_, Some(name)) => (name, 1),
        _ => (text, 0),
    };
    Ok(ResolvedType::Of {
        element: element(alloc, name)?,
        dims,
    })
}

fn classes(alloc: Global, names: &[&str]) -> Result<Seq<ClassName>, AllocError> {
    let mut listed = Vec::new(alloc);
    for name in names {
        listed.push(class(alloc, name)?)?;
    }
    Ok(Seq::from_vec(listed))
}

fn entry(
    alloc: Global,
    name: &str,
    is_interface: bool,
    supertypes: &[&str],
) -> Result<HierarchyEntry, AllocError> {
    let supertypes = classes(alloc, supertypes)?;
    Ok(HierarchyEntry {
        class: class(alloc, name)?,
        is_interface,
        is_final: name == "Last",
        is_abstract: is_interface,
        supertypes,
    })
}

/// Classes and interfaces with their supertypes.
const ENTRIES: [(&str, bool, &[&str]); 6] = [
    ("Last", false, &["Both"]),
    ("Both", false, &["Left", "Right"]),
    ("Left", true, &["Top"]),
    ("Right", true, &["Top"]),
    ("Top", true, &[]),
    ("Apart", true, &[]),
];

/// A diamond of interfaces above a class, a final subclass of it, and an interface apart.
fn hierarchy(alloc: Global) -> Result<Vec<HierarchyEntry>, AllocError> {
    let mut entries = Vec::new(alloc);
    for (name, is_interface, supertypes) in &ENTRIES {
        entries.push(entry(alloc, name, *is_interface, supertypes)?)?;
    }
    Ok(entries)
}

fn converts(
    alloc: Global,
    entries: &[HierarchyEntry],
    from: &str,
    to: &str,
) -> Result<(bool, bool), AllocError> {
    let from = named(alloc, from)?;
    let to = named(alloc, to)?;
    Ok((
        widens(alloc, entries, &from, &to)?,
        casts(alloc, entries, &from, &to)?,
    ))
}

#[test]
fn types_convert(rt: HostRuntime) -> Result<(), Fail> {
    let alloc = rt.alloc();
    let entries = hierarchy(alloc)?;
    for (from, to, wide, castable) in &CONVERSIONS {
        let found = converts(alloc, entries.as_slice(), from, to)?;
        assert_eq!(rt; found, (*wide, *castable), "{from} to {to}");
    }
    Ok(())
}

/// Two types, and what their numbers are promoted to together, if they are numbers.
const PROMOTIONS: [(&str, &str, Option<Promoted>); 16] = [
    ("char", "char", Some(Promoted::Int)),
    ("char", "int", Some(Promoted::Int)),
    ("char", "long", Some(Promoted::Long)),
    ("char", "boolean", None),
    ("int", "char", Some(Promoted::Int)),
    ("int", "int", Some(Promoted::Int)),
    ("int", "long", Some(Promoted::Long)),
    ("int", "boolean", None),
    ("long", "char", Some(Promoted::Long)),
    ("long", "int", Some(Promoted::Long)),
    ("long", "long", Some(Promoted::Long)),
    ("long", "boolean", None),
    ("boolean", "char", None),
    ("boolean", "int", None),
    ("boolean", "long", None),
    ("boolean", "boolean", None),
];

fn promoted(alloc: Global, left: &str, right: &str) -> Result<Option<Promoted>, AllocError> {
    let left = named(alloc, left)?;
    let right = named(alloc, right)?;
    Ok(common_number(&left, &right))
}

#[test]
fn numbers_are_promoted(rt: HostRuntime) -> Result<(), Fail> {
    for (left, right, wanted) in &PROMOTIONS {
        let found = promoted(rt.alloc(), left, right)?;
        assert!(rt; found == *wanted, "{left} and {right}");
    }
    Ok(())
}

/// A type with the value of a constant `int`, if it is one, and a type that it is assigned to.
const ASSIGNMENTS: [(&str, Option<i32>, &str, bool); 10] = [
    ("int", Some(65_535), "char", true),
    ("int", Some(0), "char", true),
    ("int", Some(65_536), "char", false),
    ("int", Some(-1), "char", false),
    ("int", None, "char", false),
    ("char", None, "int", true),
    ("long", None, "int", false),
    ("int", Some(1), "long", true),
    ("int", Some(1), "boolean", false),
    ("Both", None, "Top", true),
];

fn assigned(
    alloc: Global,
    from: &str,
    constant: Option<i32>,
    to: &str,
) -> Result<bool, AllocError> {
    let entries = hierarchy(alloc)?;
    let from = named(alloc, from)?;
    let to = named(alloc, to)?;
    assigns(
        alloc,
        entries.as_slice(),
        &from,
        &constant.map(Value::Int),
        &to,
    )
}

#[test]
fn constants_are_assigned(rt: HostRuntime) -> Result<(), Fail> {
    for (from, constant, to, wanted) in &ASSIGNMENTS {
        let found = assigned(rt.alloc(), from, *constant, to)?;
        assert!(rt; found == *wanted, "{from} to {to}");
    }
    Ok(())
}

/// The types of two branches, the second with the value of a constant `int`, if it is one, and the
/// type of `?:`.
const BRANCHES: [(&str, &str, Option<i32>, Option<BranchType>); 10] = [
    ("char", "int", Some(97), Some(BranchType::First)),
    (
        "char",
        "int",
        Some(65_536),
        Some(BranchType::Numbers(Promoted::Int)),
    ),
    (
        "char",
        "int",
        None,
        Some(BranchType::Numbers(Promoted::Int)),
    ),
    (
        "char",
        "long",
        None,
        Some(BranchType::Numbers(Promoted::Long)),
    ),
    ("int", "int", None, Some(BranchType::First)),
    ("boolean", "int", None, None),
    ("Both", "Top", None, Some(BranchType::Second)),
    ("Top", "Both", None, Some(BranchType::First)),
    ("null", "String", None, Some(BranchType::Second)),
    ("Left", "Right", None, None),
];

fn branched(
    alloc: Global,
    yes: &str,
    no: &str,
    constant: Option<i32>,
) -> Result<Option<BranchType>, AllocError> {
    let entries = hierarchy(alloc)?;
    let yes = named(alloc, yes)?;
    let no = named(alloc, no)?;
    branches(
        alloc,
        entries.as_slice(),
        &yes,
        &None,
        &no,
        &constant.map(Value::Int),
    )
}

#[test]
fn branches_have_a_type(rt: HostRuntime) -> Result<(), Fail> {
    for (yes, no, constant, wanted) in &BRANCHES {
        let found = branched(rt.alloc(), yes, no, *constant)?;
        assert!(rt; found == *wanted, "{yes} and {no}");
    }
    Ok(())
}
