//! Members by their places.

ghost use Rattle.std.specs.Prelude.{◌≡◌, [], ◌∷◌, ◌++◌, if◌then◌else◌, slice_get, OnOk};
ghost use Rattle.std.specs.Option.{option_copied};

use jsh_text::NoMemory;
use jsh_tree::Member;

pub(crate) fn member_at(members: &[Member], place: usize) -> Option<&Member>
    ensures { option_copied result ≡ slice_get members.now place }
{
    members.get(place)
}

pub(crate) fn push_if(places: &mut Vec<usize>, place: usize, passes: bool) -> Result<(), NoMemory>
    ensures { OnOk result (places.new.items ≡ places.old.items ++ (if passes then place ∷ [] else [])) }
{
    if passes {
        places.push(place)?;
    }
    Ok(())
}
