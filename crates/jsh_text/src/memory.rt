ghost use Rattle.std.specs.Prelude.{Some, codes};

use std::alloc::{AllocError, AllocFailed};
use std::error::Error;
use std::fmt;

/// Want of memory, where that is all that can go wrong. Any call that may allocate can answer it. An
/// error with further causes, as that of the lexis, has a variant of the same name.
#[derive(Clone, Copy, Debug, PartialEq, Eq)]
pub struct NoMemory;

impl From<AllocError> for NoMemory {
    fn from(_refused: AllocError) -> NoMemory {
        NoMemory
    }
}

/// So that `list.push(item)?` converts. The item is dropped.
impl<T: Drop> From<AllocFailed<T>> for NoMemory {
    fn from(_refused: AllocFailed<T>) -> NoMemory {
        NoMemory
    }
}

impl fmt::Display for NoMemory {
    ghost output = { λ _. Some (codes "out of memory") };

    fn fmt<W: fmt::Write>(&self, f: &mut fmt::Formatter<W>) -> fmt::Result {
        f.write_str("out of memory")
    }
}

impl Error for NoMemory {}
