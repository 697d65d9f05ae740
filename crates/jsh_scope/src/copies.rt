//! Copies of members and of the library.

ghost use Rattle.std.specs.Prelude.{◌≡◌, IfOk};

use jsh_text::NoMemory;
use jsh_tree::{Library, Member, Seq};
use std::alloc::Global;

pub(crate) fn copied(alloc: Global, members: &[Member]) -> Result<Seq<Member>, NoMemory>
    ensures { IfOk result (λ copies. copies ≡ members.now) }
{
    let mut copies = Vec::with_capacity(alloc, members.len())?;
    for member in members {
        copies.push(member_copy(member)?)?;
    }
    Ok(Seq::from_vec(copies))
}

pub(crate) fn member_copy(member: &Member) -> Result<Member, NoMemory>
    ensures { IfOk result (λ copy. copy ≡ member.now) }
{
    let copy = member.clone()?;
    Ok(copy)
}

pub(crate) fn library_copy(library: &Library) -> Result<Library, NoMemory>
    ensures { IfOk result (λ copy. copy ≡ library.now) }
{
    let copy = library.clone()?;
    Ok(copy)
}
