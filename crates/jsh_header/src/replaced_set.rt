//! The replaced set.

ghost use Rattle.std.specs.Prelude.{◌≡◌, false, length, slice_index_or, IfOk};
ghost use Rattle.std.specs.List.{filter, range_with_len};
ghost use Rattle.std.specs.Option.{option_copied};
ghost use Rattle.jsh_closure.specs.Closure.{IsSmallest};
ghost use Rattle.jsh_header.specs.Replaced as spec;

use crate::places::{member_at, push_if};
use crate::units::Units;
use jsh_closure::closure_back;
use jsh_scope::mentioned_types;
use jsh_text::NoMemory;
use jsh_tree::{Header, Key, Member};
use std::alloc::Global;

/// For each new unit whether it is in the smallest set that holds each one whose key no old unit has,
/// each one whose header is another than that of the old unit with its key, each variable whose record
/// is new, and each one whose header mentions a type in the set. A unit is a visible type, method or
/// variable.
pub fn replaced(alloc: Global, old: &[Member], new: &[Member]) -> Result<Vec<bool>, NoMemory>
    ensures marks { IfOk result (λ marks. marks.items ≡ spec.replaced old.now new.now) }
    ensures smallest { IfOk result (λ marks. IsSmallest (length new.now) (spec.is_new_place old.now new.now) (spec.carries old.now new.now) (λ place. slice_index_or marks.items place false)) }
{
    let units = Units::new(alloc, old)?;
    let first = new_places(alloc, &units, new)?;
    let edges = mentioned_types(alloc, new)?;
    let marks = closure_back(alloc, first.as_slice(), edges.as_slice())?;
    Ok(marks)
}

fn new_places(alloc: Global, old: &Units<'_>, new: &[Member]) -> Result<Vec<usize>, NoMemory>
    ensures { IfOk result (λ places. places.items ≡ filter (spec.is_new_place old.now new.now) (range_with_len 0 (length new.now))) }
{
    let mut places = Vec::new(alloc);
    for place in 0..new.len() {
        let is_new = is_new_at(old, member_at(new, place));
        push_if(&mut places, place, is_new)?;
    }
    Ok(places)
}

fn is_new_at(old: &Units<'_>, unit: Option<&Member>) -> bool
    ensures { result ≡ spec.is_new_at old.now (option_copied unit.entry) }
{
    match unit {
        None => false,
        Some(unit) => is_new(old, unit),
    }
}

fn is_new(old: &Units<'_>, unit: &Member) -> bool
    ensures { result ≡ spec.is_new old.now unit.now }
{
    has_new_shape(&unit.header, old.of_key(&unit.key))
        || (is_variable(&unit.key) && !old.has_record(unit.id))
}

fn has_new_shape(header: &Header, unit: Option<&Member>) -> bool
    ensures { result ≡ spec.has_new_shape header.now (option_copied unit.entry) }
{
    match unit {
        None => true,
        Some(unit) => unit.header != *header,
    }
}

fn is_variable(key: &Key) -> bool
    ensures { result ≡ spec.is_variable key.now }
{
    matches!(key, Key::OfVar(_))
}
