//! The library: the types that a snippet finds without declaring them, as a table.
#![tactic(auto)]

mod data;
mod rows;

ghost use Rattle.std.specs.Prelude.{◌≡◌, IfOk};
ghost use Rattle.jsh_library.specs.Table as spec;

use data::{OUT, PACKAGES, TYPES};
use jsh_tree::{Library, Seq};
pub use rows::Word;
use rows::{names, signatures, types};
use std::alloc::{AllocError, Global};

/// The table of the library. Of its methods only `run` of `Runnable` is abstract.
pub fn table(alloc: Global) -> Result<Library, AllocError>
    ensures { IfOk result (λ library. library ≡ spec.table) }
{
    Ok(Library {
        packages: Seq::from_vec(names(alloc, &PACKAGES)?),
        types: Seq::from_vec(types(alloc, &TYPES)?),
        out: Seq::from_vec(signatures(alloc, &OUT)?),
    })
}

#[cfg(test)]
mod tests;
