//! Supertypes as a header writes them.

ghost use Rattle.std.specs.Prelude.{◌≡◌, ◌++◌, map, IfOk, OnOk};
ghost use Rattle.jsh_header.specs.SuperRules as spec;

use jsh_text::NoMemory;
use jsh_tree::Name;
use std::alloc::Global;

/// A supertype that a header writes: a superclass, or an interface that is implemented or extended.
#[derive(Drop)]
pub(crate) struct Written {
    pub(crate) is_superclass: bool,
    pub(crate) name: Name,
}

/// In the order of the text.
pub(crate) fn written_supertypes(
    alloc: Global,
    interface: bool,
    extends: &[Name],
    implements: &[Name],
) -> Result<Vec<Written>, NoMemory>
    ensures { IfOk result (λ supertypes. supertypes.items ≡ spec.written_supertypes interface extends.now implements.now) }
{
    let mut supertypes = Vec::new(alloc);
    if interface {
        push_interfaces(&mut supertypes, extends)?;
        Ok(supertypes)
    } else {
        push_superclasses(&mut supertypes, extends)?;
        push_interfaces(&mut supertypes, implements)?;
        Ok(supertypes)
    }
}

fn push_superclasses(supertypes: &mut Vec<Written>, names: &[Name]) -> Result<(), NoMemory>
    ensures { OnOk result (supertypes.new.items ≡ supertypes.old.items ++ map spec.superclass_named names.now) }
{
    for name in names {
        supertypes.push(Written {
            is_superclass: true,
            name: name.clone()?,
        })?;
    }
    Ok(())
}

fn push_interfaces(supertypes: &mut Vec<Written>, names: &[Name]) -> Result<(), NoMemory>
    ensures { OnOk result (supertypes.new.items ≡ supertypes.old.items ++ map spec.interface_named names.now) }
{
    for name in names {
        supertypes.push(Written {
            is_superclass: false,
            name: name.clone()?,
        })?;
    }
    Ok(())
}
