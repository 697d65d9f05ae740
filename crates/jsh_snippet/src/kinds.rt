/// What a snippet is (`jdk.jshell.Snippet.Kind`).
#[derive(Clone, Copy)]
pub enum Kind {
    Import,
    TypeDecl,
    Method,
    Var,
    Expression,
    Statement,
    /// Every rejected snippet.
    Erroneous,
}

/// What a snippet is more exactly (`jdk.jshell.Snippet.SubKind`).
#[derive(Clone, Copy)]
pub enum Subkind {
    SingleTypeImport,
    TypeImportOnDemand,
    SingleStaticImport,
    StaticImportOnDemand,
    Class,
    Interface,
    Method,
    VarDeclaration,
    VarDeclarationWithInitializer,
    /// An expression whose value a new temporary variable takes.
    TempVarExpression,
    /// An expression that is one simple name.
    VarValue,
    /// `name = expression`
    Assignment,
    /// An expression of the null type.
    OtherExpression,
    /// A void call, and any statement.
    Statement,
    /// Every rejected snippet.
    Unknown,
}

/// How it stands with a snippet (`jdk.jshell.Snippet.Status`).
#[derive(Clone, Copy)]
pub enum Status {
    Valid,
    /// Declared, but a name in its body is unresolved.
    RecoverableDefined,
    /// Not declared, since a name in its header is unresolved.
    RecoverableNotDefined,
    Dropped,
    Overwritten,
    Rejected,
    /// Before its entry.
    Nonexistent,
}

/// What became of a record.
#[derive(Clone, Copy)]
pub enum Fate {
    /// A declaration that is in force.
    Live,
    /// An expression or a statement, which declares nothing.
    Done,
    /// A declaration with the same key came later.
    Overwritten,
    Dropped,
    Rejected,
}
