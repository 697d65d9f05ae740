//! Single tokens that the parser of statements looks for.

ghost use Rattle.std.specs.Prelude.{◌≡◌};
ghost use Rattle.jsh_parse.specs.Forms as spec;

use jsh_tree::TokenKind;

pub fn is_semicolon(kind: TokenKind) -> bool
    ensures { result ≡ spec.is_semicolon kind }
{
    matches!(kind, TokenKind::Semicolon)
}

pub fn is_assign(kind: TokenKind) -> bool
    ensures { result ≡ spec.is_assign kind }
{
    matches!(kind, TokenKind::Assign)
}

pub fn is_else(kind: TokenKind) -> bool
    ensures { result ≡ spec.is_else kind }
{
    matches!(kind, TokenKind::Else)
}

pub fn is_while(kind: TokenKind) -> bool
    ensures { result ≡ spec.is_while kind }
{
    matches!(kind, TokenKind::While)
}

pub fn is_final(kind: TokenKind) -> bool
    ensures { result ≡ spec.is_final kind }
{
    matches!(kind, TokenKind::Final)
}

pub fn is_var(kind: TokenKind) -> bool
    ensures { result ≡ spec.is_var kind }
{
    matches!(kind, TokenKind::Var)
}

pub fn is_case(kind: TokenKind) -> bool
    ensures { result ≡ spec.is_case kind }
{
    matches!(kind, TokenKind::Case)
}

pub fn is_default(kind: TokenKind) -> bool
    ensures { result ≡ spec.is_default kind }
{
    matches!(kind, TokenKind::Default)
}

pub fn is_minus(kind: TokenKind) -> bool
    ensures { result ≡ spec.is_minus kind }
{
    matches!(kind, TokenKind::Minus)
}

pub fn is_catch(kind: TokenKind) -> bool
    ensures { result ≡ spec.is_catch kind }
{
    matches!(kind, TokenKind::Catch)
}

/// Whether a label of a `switch` begins with this token.
pub fn begins_label(kind: TokenKind) -> bool
    ensures { result ≡ spec.begins_label kind }
{
    matches!(kind, TokenKind::Case | TokenKind::Default)
}

/// Whether this token ends the statements of a block or of labels.
pub fn ends_statements(kind: TokenKind) -> bool
    ensures { result ≡ spec.ends_statements kind }
{
    matches!(
        kind,
        TokenKind::RightBrace | TokenKind::Case | TokenKind::Default
    )
}

/// Whether the value of a `case` is written as this token.
pub fn is_case_value(kind: TokenKind) -> bool
    ensures { result ≡ spec.is_case_value kind }
{
    matches!(kind, TokenKind::IntLiteral | TokenKind::CharLiteral)
}
