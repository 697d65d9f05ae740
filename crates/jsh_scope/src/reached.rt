//! Which types a header reaches.

ghost use Rattle.std.specs.Prelude.{◌≡◌, [], ◌++◌, if◌then◌else◌, IfOk, OnOk};
ghost use Rattle.std.specs.Option.{option_copied};
ghost use Rattle.jsh_scope.specs.Reached as spec;

use crate::answers::Linked;
use crate::indexes::{edges_of, places_in, type_places, visible_types};
use jsh_closure::closure;
use jsh_text::NoMemory;
use jsh_tree::{Header, Member, Name, Seq};
use std::alloc::Global;
use std::collections::BTreeMap;
use std::marker::Model;

/// The visible types. Contracts see their list.
#[derive(Drop)]
pub(crate) struct VisibleTypes {
    types: Seq<Member>,
    places: BTreeMap<Name, usize>,
    /// For each type the places of those that its header mentions.
    edges: Seq<Seq<usize>>,
}

impl Model for VisibleTypes {
    ghost use Rattle.std.specs.Prelude.{List};
    ghost use Rattle.jsh_tree.specs.declared.library.Member.{Member};
    ghost use Rattle.jsh_scope.specs.Indexes.{AreTypes};

    ghost Value = { List Member };

    ghost view = { λ visible. visible.types };

    ghost invariant = { λ visible. AreTypes visible.types visible.places visible.edges };
}

impl VisibleTypes {
    pub(crate) fn new(alloc: Global, members: &[Member]) -> Result<VisibleTypes, NoMemory>
        ensures { IfOk result (λ visible. visible ≡ spec.visible_types members.now) }
    {
        let types = visible_types(alloc, members)?;
        let places = type_places(alloc, types.as_slice())?;
        let edges = edges_of(alloc, &places, types.as_slice())?;
        Ok(VisibleTypes {
            types,
            places,
            edges,
        })
    }

    /// Those that a header reaches, each once, in their order.
    #[tactic(auto, unfolding(crate::specs::Reached::reached_types))]
    pub(crate) fn reached(
        &self,
        alloc: Global,
        header: &Header,
    ) -> Result<Vec<Linked<'_>>, NoMemory>
        ensures { IfOk result (λ found. found.items ≡ spec.reached_types self.now header.now) }
    {
        let first = places_in(alloc, &self.places, self.types.as_slice(), header)?;
        let marks = closure(alloc, first.as_slice(), self.edges.as_slice())?;
        let found = self.marked(alloc, marks.as_slice())?;
        Ok(found)
    }

    fn marked(&self, alloc: Global, marks: &[bool]) -> Result<Vec<Linked<'_>>, NoMemory>
        ensures { IfOk result (λ found. found.items ≡ spec.marked_types self.now marks.now) }
    {
        let mut found = Vec::new(alloc);
        for (place, mark) in marks.iter().enumerate() {
            push_marked(&mut found, *mark, self.types.get(place))?;
        }
        Ok(found)
    }
}

fn push_marked<'a>(
    found: &mut Vec<Linked<'a>>,
    mark: bool,
    member: Option<&'a Member>,
) -> Result<(), NoMemory>
    ensures { OnOk result (found.new.items ≡ found.old.items ++ (if mark then spec.linked_at (option_copied member.entry) else [])) }
{
    if mark {
        push_linked(found, member)?;
    }
    Ok(())
}

fn push_linked<'a>(found: &mut Vec<Linked<'a>>, member: Option<&'a Member>) -> Result<(), NoMemory>
    ensures { OnOk result (found.new.items ≡ found.old.items ++ spec.linked_at (option_copied member.entry)) }
{
    if let Some(member) = member {
        if let Some(link) = &member.link {
            found.push(Linked {
                link,
                header: &member.header,
            })?;
        }
    }
    Ok(())
}
