//! Classes of tokens.

ghost use Rattle.std.specs.Prelude.{◌≡◌};
ghost use Rattle.jsh_grammar.specs.Classes as classes;
ghost use Rattle.jsh_recognizer.specs.Machine as machine;

use jsh_tree::TokenKind;

/// Whether a token is a literal (JLS 15.8.1).
pub fn is_literal(kind: TokenKind) -> bool
    ensures { result ≡ classes.is_literal kind }
{
    matches!(
        kind,
        TokenKind::IntLiteral
            | TokenKind::LongLiteral
            | TokenKind::CharLiteral
            | TokenKind::StringLiteral
            | TokenKind::True
            | TokenKind::False
            | TokenKind::Null
    )
}

/// Whether a token names a primitive type (JLS 4.2).
pub fn is_primitive(kind: TokenKind) -> bool
    ensures { result ≡ classes.is_primitive kind }
{
    matches!(
        kind,
        TokenKind::Int | TokenKind::Long | TokenKind::Char | TokenKind::Boolean
    )
}

/// Whether a token is an operator that assigns (JLS 15.26).
pub fn is_assignment(kind: TokenKind) -> bool
    ensures { result ≡ classes.is_assignment kind }
{
    matches!(
        kind,
        TokenKind::Assign
            | TokenKind::PlusAssign
            | TokenKind::MinusAssign
            | TokenKind::StarAssign
            | TokenKind::SlashAssign
            | TokenKind::AmpersandAssign
            | TokenKind::BarAssign
            | TokenKind::CaretAssign
            | TokenKind::PercentAssign
            | TokenKind::ShiftLeftAssign
            | TokenKind::ShiftRightAssign
            | TokenKind::UnsignedShiftRightAssign
    )
}

/// Whether a token is an operator in front of an operand that it doesn't change (JLS 15.15).
pub fn is_prefix(kind: TokenKind) -> bool
    ensures { result ≡ classes.is_prefix kind }
{
    matches!(
        kind,
        TokenKind::Plus | TokenKind::Minus | TokenKind::Bang | TokenKind::Tilde
    )
}

/// Whether a token is `++` or `--`.
pub fn is_step(kind: TokenKind) -> bool
    ensures { result ≡ classes.is_step kind }
{
    matches!(kind, TokenKind::PlusPlus | TokenKind::MinusMinus)
}

/// Whether the value of a `case` may be written as this token.
pub fn is_case_value(kind: TokenKind) -> bool
    ensures { result ≡ classes.is_case_value kind }
{
    matches!(kind, TokenKind::IntLiteral | TokenKind::CharLiteral)
}

/// Whether a token is a modifier of a snippet.
pub fn is_modifier(kind: TokenKind) -> bool
    ensures { result ≡ classes.is_modifier kind }
{
    matches!(
        kind,
        TokenKind::Public
            | TokenKind::Protected
            | TokenKind::Private
            | TokenKind::Static
            | TokenKind::Final
            | TokenKind::Volatile
            | TokenKind::Abstract
    )
}

/// Whether a token is a modifier of a member of a class.
pub fn is_member_modifier(kind: TokenKind) -> bool
    ensures { result ≡ classes.is_member_modifier kind }
{
    matches!(
        kind,
        TokenKind::Public
            | TokenKind::Protected
            | TokenKind::Private
            | TokenKind::Final
            | TokenKind::Volatile
            | TokenKind::Abstract
    )
}

/// Whether a token is a modifier of a method of an interface.
pub fn is_interface_modifier(kind: TokenKind) -> bool
    ensures { result ≡ classes.is_interface_modifier kind }
{
    matches!(kind, TokenKind::Public | TokenKind::Abstract)
}

/// Whether a token is an operator between two operands that binds no tighter than `instanceof`.
pub fn is_loose_operator(kind: TokenKind) -> bool
    ensures { result ≡ machine.is_loose_operator kind }
{
    matches!(
        kind,
        TokenKind::OrOr
            | TokenKind::AndAnd
            | TokenKind::Bar
            | TokenKind::Caret
            | TokenKind::Ampersand
            | TokenKind::EqualTo
            | TokenKind::NotEqual
            | TokenKind::LessThan
            | TokenKind::GreaterThan
            | TokenKind::LessOrEqual
            | TokenKind::GreaterOrEqual
    )
}

/// Whether a token is an operator that binds tighter than `instanceof`.
pub fn is_tight_operator(kind: TokenKind) -> bool
    ensures { result ≡ machine.is_tight_operator kind }
{
    matches!(
        kind,
        TokenKind::ShiftLeft
            | TokenKind::ShiftRight
            | TokenKind::UnsignedShiftRight
            | TokenKind::Plus
            | TokenKind::Minus
            | TokenKind::Star
            | TokenKind::Slash
            | TokenKind::Percent
    )
}

/// Whether only a statement begins with this token that is no expression.
pub fn begins_statement(kind: TokenKind) -> bool
    ensures { result ≡ machine.begins_statement kind }
{
    matches!(
        kind,
        TokenKind::LeftBrace
            | TokenKind::Semicolon
            | TokenKind::If
            | TokenKind::While
            | TokenKind::Do
            | TokenKind::For
            | TokenKind::Switch
            | TokenKind::Break
            | TokenKind::Continue
            | TokenKind::Return
            | TokenKind::Throw
            | TokenKind::Try
    )
}

/// Whether a token is a sign, or `++` or `--`.
pub fn is_sign(kind: TokenKind) -> bool
    ensures { result ≡ machine.is_sign kind }
{
    matches!(kind, TokenKind::Plus | TokenKind::Minus) || is_step(kind)
}

/// Whether the operand of a cast to a named type may begin with this token.
pub fn begins_unsigned(kind: TokenKind) -> bool
    ensures { result ≡ machine.begins_unsigned kind }
{
    matches!(
        kind,
        TokenKind::Identifier
            | TokenKind::LeftParen
            | TokenKind::This
            | TokenKind::Super
            | TokenKind::New
            | TokenKind::Bang
            | TokenKind::Tilde
    ) || is_literal(kind)
}

/// Whether only a declaration of a snippet begins with this token.
pub fn begins_declaration(kind: TokenKind) -> bool
    ensures { result ≡ machine.begins_declaration kind }
{
    matches!(
        kind,
        TokenKind::Class | TokenKind::Interface | TokenKind::Void | TokenKind::Var
    ) || is_modifier(kind)
        || is_primitive(kind)
}

/// Whether one of these words may introduce names, and the token is that word.
pub fn is_same_word(word: TokenKind, kind: TokenKind) -> bool
    ensures { result ≡ machine.is_same_word word kind }
{
    match word {
        TokenKind::Implements => matches!(kind, TokenKind::Implements),
        TokenKind::Extends => matches!(kind, TokenKind::Extends),
        TokenKind::Throws => matches!(kind, TokenKind::Throws),
        _ => false,
    }
}
