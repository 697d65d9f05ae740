//! The units before a change, by name and by record.

ghost use Rattle.std.specs.Prelude.{◌≡◌, [], ◌∷◌, ℕ, List, slice_get, IfOk, OnOk};
ghost use Rattle.std.specs.List.{find, flat_map};
ghost use Rattle.std.specs.Option.{option_copied, option_to_list};
ghost use Rattle.jsh_tree.specs.declared.library.Member.{Member};
ghost use Rattle.jsh_scope.specs.Indexes.{IsIndexOfAll, AppendsPlace};
ghost use Rattle.jsh_closure.specs.Closure.{places_at};
ghost use Rattle.jsh_header.specs.Replaced as spec;
ghost use Rattle.jsh_header.specs.Units.{has_name, name_of, HasRecords};

use crate::places::member_at;
use jsh_scope::append_place;
use jsh_text::NoMemory;
use jsh_tree::{Key, Member, Name, Seq};
use std::alloc::Global;
use std::collections::{BTreeMap, BTreeSet};
use std::marker::Model;

/// Units. Contracts see their list.
#[derive(Drop)]
pub(crate) struct Units<'a> {
    units: &'a [Member],
    /// The places of those whose key has the name.
    places: BTreeMap<Name, Seq<usize>>,
    records: BTreeSet<u32>,
}

impl<'a> Model for Units<'a> {
    ghost use Rattle.std.specs.Prelude.{List};
    ghost use Rattle.jsh_tree.specs.declared.library.Member.{Member};
    ghost use Rattle.jsh_header.specs.Units.{AreUnits};

    ghost Value = { List Member };

    ghost view = { λ units. units.units.now };

    ghost invariant = { λ units. AreUnits units.units.now units.places units.records };
}

impl<'a> Units<'a> {
    pub(crate) fn new(alloc: Global, units: &'a [Member]) -> Result<Units<'a>, NoMemory>
        ensures { IfOk result (λ all. all ≡ units.now) }
    {
        Ok(Units {
            units,
            places: places_by_name(alloc, units)?,
            records: records(alloc, units)?,
        })
    }

    /// The first one with this key.
    pub(crate) fn of_key(&self, wanted: &Key) -> Option<&'a Member>
        ensures { option_copied result ≡ spec.of_key wanted.now self.now }
    {
        of_key(self.units, &self.places, wanted)
    }

    pub(crate) fn has_record(&self, id: u32) -> bool
        ensures { result ≡ spec.has_record id self.now }
    {
        self.records.contains(&id)
    }
}

fn places_by_name(alloc: Global, units: &[Member]) -> Result<BTreeMap<Name, Seq<usize>>, NoMemory>
    ensures { IfOk result (λ places. IsIndexOfAll has_name units.now units.now places) }
{
    let mut places = BTreeMap::new(alloc);
    for (at, unit) in units.iter().enumerate() {
        append_unit(&mut places, alloc, unit, at)?;
    }
    Ok(places)
}

fn append_unit(
    places: &mut BTreeMap<Name, Seq<usize>>,
    alloc: Global,
    unit: &Member,
    at: usize,
) -> Result<(), NoMemory>
    ensures { OnOk result (AppendsPlace (λ name. has_name name unit.now) at places.old places.new) }
{
    match &unit.key {
        Key::OfType(name) => append_place(places, alloc, name, at),
        Key::OfVar(name) => append_place(places, alloc, name, at),
        Key::OfMethod { name, .. } => append_place(places, alloc, name, at),
        _ => Ok(()),
    }
}

fn name_of(key: &Key) -> Option<&Name>
    ensures { option_copied result ≡ name_of key.now }
{
    match key {
        Key::OfType(name) => Some(name),
        Key::OfVar(name) => Some(name),
        Key::OfMethod { name, .. } => Some(name),
        _ => None,
    }
}

fn records(alloc: Global, units: &[Member]) -> Result<BTreeSet<u32>, NoMemory>
    ensures { IfOk result (λ records. HasRecords units.now records) }
{
    let mut records = BTreeSet::new(alloc);
    for unit in units {
        records.insert(unit.id)?;
    }
    Ok(records)
}

fn of_key<'a>(
    units: &'a [Member],
    places: &BTreeMap<Name, Seq<usize>>,
    wanted: &Key,
) -> Option<&'a Member>
    requires { IsIndexOfAll has_name units.now units.now places.now }
    ensures { option_copied result ≡ spec.of_key wanted.now units.now }
{
    match name_of(wanted) {
        None => first_of(units, wanted),
        Some(name) => first_among(units, places_found(places.get(name)), wanted),
    }
}

fn first_of<'a>(units: &'a [Member], wanted: &Key) -> Option<&'a Member>
    ensures { option_copied result ≡ spec.of_key wanted.now units.now }
{
    units.iter().find(|unit| unit.key == *wanted)
}

fn first_among<'a>(units: &'a [Member], places: &[usize], wanted: &Key) -> Option<&'a Member>
    ensures { option_copied result ≡ spec.of_key wanted.now (flat_map (λ (place : ℕ). option_to_list (slice_get units.now place)) places.now) }
{
    for place in places {
        if let Some(unit) = with_key(member_at(units, *place), wanted) {
            return Some(unit);
        }
    }
    None
}

fn with_key<'a>(unit: Option<&'a Member>, wanted: &Key) -> Option<&'a Member>
    ensures { option_copied result ≡ spec.of_key wanted.now (option_to_list (option_copied unit.entry)) }
{
    match unit {
        None => None,
        Some(unit) => {
            if unit.key == *wanted {
                Some(unit)
            } else {
                None
            }
        }
    }
}

fn places_found(found: Option<&Seq<usize>>) -> &[usize]
    ensures { result.now ≡ places_at (option_copied found.entry) }
{
    match found {
        Some(places) => places.as_slice(),
        None => &[],
    }
}
