use crate::name::Name;

/// What is wrong with a snippet, and where.
#[derive(Clone, Debug, PartialEq, Eq, Drop)]
pub struct Diagnostic {
    pub code: Code,
    /// The byte of the source at which the smallest expression, name or statement in question begins.
    pub place: u32,
    /// The name in question, where the code has one.
    pub name: Option<Name>,
}

/// What can be wrong with a snippet.
#[derive(Clone, Copy, Debug, PartialEq, Eq)]
pub enum Code {
    /// The source has no token. Its place is 0.
    NoSnippet,
    /// A fault of the lexis other than a number that is too big, at the first byte of what is at fault.
    BadToken,
    /// The tokens aren't a snippet. Its place is where they stop being the beginning of one.
    Unexpected,
    /// The tokens begin a snippet, but the next one is nested too deep. Its place is 0.
    TooDeep,
    /// An integer literal whose value its type doesn't have, at its first byte.
    NumberTooBig,
    /// A simple name that nothing has, so that the snippet may still come to be valid (JLS 6.5).
    Unresolved,
    /// A member that the type doesn't have (JLS 15.11, 15.12).
    NoMember,
    /// A type that doesn't go with the place (JLS 5).
    Mismatch,
    /// An operator that doesn't take its operands' types (JLS 15.15 to 15.26).
    BadOperand,
    /// No method or constructor of the name takes the arguments (JLS 15.12.2).
    NotApplicable,
    /// Several take them, and none is the most specific (JLS 15.12.2.5).
    Ambiguous,
    /// `==` or `!=` between two texts.
    TextEquality,
    /// A second declaration of a name in one scope (JLS 6.4, 8.2).
    Duplicate,
    /// A modifier that may not stand here (JLS 8.1.1, 8.3.1, 8.4.3).
    BadModifier,
    /// A type breaks the rule of this number, from 1 to 6, on its supertypes.
    SuperRule { number: u8 },
    /// An import of what there isn't (JLS 7.5).
    BadImport,
    /// A new object of an abstract class, or a call of a method without a body (JLS 15.9.1, 15.12.3).
    AbstractNew,
    /// A `return`, `break`, `continue`, `this` or `super` where it may not stand (JLS 14.15 to 14.17, 15.8.3).
    Misplaced,
    /// A local that is read where it might not be assigned (JLS 16).
    NotAssigned,
    /// A statement that can't be reached (JLS 14.22).
    Unreachable,
    /// A method with a result whose body can complete (JLS 8.4.7).
    MissingReturn,
    /// The engine doesn't evaluate such a snippet yet. Its place is 0.
    NotYet,
}
