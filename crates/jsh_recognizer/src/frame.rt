//! What may still come: the states of the recognizer.

use jsh_tree::TokenKind;

/// Where an operand stands, which says what may follow it.
#[derive(Clone, Copy, Debug, PartialEq, Eq)]
pub enum Context {
    /// First in an expression, which may be assigned to it.
    Expression,
    /// Among operators.
    Operand,
    /// Behind `++` or `--`: it has to be a target.
    Target,
    /// First in a statement: it has to be an assignment, a step, a call or a new object.
    Effect,
}

/// How an operand ends, as far as it is read.
#[derive(Clone, Copy, Debug, PartialEq, Eq)]
pub enum Ending {
    /// In a name that may be called.
    Name,
    /// In a field or an element.
    Place,
    /// In a call or a new object.
    Call,
    Other,
}

/// What may still come.
#[derive(Clone, Copy, Debug, Default, PartialEq, Eq)]
pub enum Frame {
    /// This token.
    Expect(TokenKind),

    Expression,
    /// Behind the colon of a conditional.
    Conditional,
    Operand,
    /// An operand that doesn't begin with a sign or a step.
    Unsigned,
    /// Behind `++` or `--`.
    Target,
    /// A statement's expression.
    Effect,
    /// Behind an operand among operators. Behind a type, only operators that bind no tighter than `instanceof`.
    Operators {
        behind_type: bool,
    },
    /// Behind an operand.
    Path {
        context: Context,
        ending: Ending,
    },
    /// Behind a dot.
    Member(Context),
    /// Behind a parenthesis that may begin a cast.
    Opened(Context),
    /// Behind that and a name.
    OpenedName(Context),
    /// Behind these and a bracket.
    OpenedPair(Context),
    /// Behind the type of a cast.
    CastType {
        is_primitive: bool,
        context: Context,
    },
    /// Behind a name in parentheses.
    Enclosed(Context),
    /// Behind `new`.
    New(Context),
    /// Behind `new` and a name.
    NewNamed(Context),
    /// Behind `new` and the name of a primitive type.
    NewPrimitive(Context),
    /// Behind the first bracket of a new array.
    NewOpened(Context),
    /// Behind empty brackets of a new array whose values follow.
    NewFilled(Context),
    /// Behind brackets with a size in them.
    NewSized(Context),
    /// Behind these and one more bracket.
    NewSizedOpened(Context),
    /// Behind sizes and empty brackets.
    NewUnsized(Context),
    /// Behind these and one more bracket.
    NewUnsizedOpened(Context),
    /// A parenthesis and arguments.
    OpenArguments,
    /// Behind the parenthesis of arguments.
    Arguments,
    /// Behind an argument.
    MoreArguments,
    /// Behind the brace of an array initializer, or a comma in it.
    Values,
    /// Behind a value in it.
    MoreValues,
    Initial,
    Type,
    Brackets,

    Statement,
    Condition,
    /// Behind the branch of an `if`.
    Else,
    Block,
    /// Behind the brace of a block, or a statement in it.
    Statements,
    /// Behind a name that begins a statement of a block.
    Named,
    /// Behind that and a bracket.
    NamedPair,
    /// Behind `final`.
    Variable,
    /// Behind the name of a variable.
    Initialized,
    /// Behind `return`.
    Returned,
    For,
    ForStart,
    ForVariable,
    ForInferred,
    ForTyped,
    ForNamed,
    ForPair,
    ForCondition,
    ForUpdate,
    Switch,
    /// Before any label.
    Groups,
    /// Behind a label or a statement.
    Group,
    CaseValue,
    NegativeValue,
    Catches,
    MoreCatches,
    CatchType,

    #[default]
    Snippet,
    Import,
    DottedName,
    MoreDotted,
    /// Behind a modifier.
    Declaration,
    /// Behind a type and a name.
    MethodOrVariable,
    /// Behind a name that begins a snippet.
    NamedSnippet,
    /// Behind that and a bracket.
    NamedSnippetPair,
    Superclass,
    /// A word and names, or nothing.
    NamesBehind(TokenKind),
    Names,
    MoreNames,
    Parameters,
    /// Behind the parenthesis of parameters.
    ParametersInside,
    Parameter,
    MoreParameters,
    ClassBody,
    Members,
    /// Behind a modifier of a member.
    ClassMember,
    NamedMember,
    FieldOrMethod,
    MethodBody,
    ConstructorBody,
    FirstCall,
    ThisFirst,
    SuperFirst,
    InterfaceBody,
    Signatures,
    Signature,
}
