use crate::name::{Name, TypeWritten};
use crate::seq::Seq;

/// What a new declaration replaces: the live one with the same key.
#[derive(Clone, Debug, PartialEq, Eq, Drop)]
pub enum Key {
    OfType(Name),
    /// The name is `$` and the id for a temporary.
    OfVar(Name),
    /// Parameter types as they are written, by simple name and dimensions.
    OfMethod {
        name: Name,
        params: Seq<TypeWritten>,
    },
    OfImport {
        is_static: bool,
        parts: Seq<Name>,
        on_demand: bool,
    },
    /// The code of a run, by the id of its record.
    OfRun(u32),
}

/// A key with the number of the generation that gave it its meaning.
#[derive(Clone, Debug, PartialEq, Eq, Drop)]
pub struct Link {
    pub key: Key,
    pub generation: u64,
}

/// What of a declaration other code depends on.
#[derive(Clone, Debug, PartialEq, Eq, Drop)]
pub enum Header {
    OfType {
        interface: bool,
        is_abstract: bool,
        name: Name,
        extends: Seq<Name>,
        implements: Seq<Name>,
        fields: Seq<Field>,
        methods: Seq<Signature>,
        constructors: Seq<Seq<TypeWritten>>,
    },
    OfMethod {
        /// None is `void`.
        result: Option<TypeWritten>,
        params: Seq<TypeWritten>,
    },
    OfVar(TypeWritten),
    Empty,
}

/// A field as a header has it.
#[derive(Clone, Debug, PartialEq, Eq, Drop)]
pub struct Field {
    pub written: TypeWritten,
    pub name: Name,
}

/// A method as a header has it.
#[derive(Clone, Debug, PartialEq, Eq, Drop)]
pub struct Signature {
    pub name: Name,
    /// None is `void`.
    pub result: Option<TypeWritten>,
    pub params: Seq<TypeWritten>,
    pub is_abstract: bool,
}
