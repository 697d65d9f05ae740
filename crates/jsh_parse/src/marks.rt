//! Single tokens that the parser looks for.

ghost use Rattle.std.specs.Prelude.{◌≡◌};
ghost use Rattle.jsh_parse.specs.Marks as spec;
ghost use Rattle.jsh_parse.specs.Leaves as leaves;

use jsh_tree::TokenKind;

pub fn is_left_paren(kind: TokenKind) -> bool
    ensures { result ≡ spec.is_left_paren kind }
{
    matches!(kind, TokenKind::LeftParen)
}

pub fn is_right_paren(kind: TokenKind) -> bool
    ensures { result ≡ spec.is_right_paren kind }
{
    matches!(kind, TokenKind::RightParen)
}

pub fn is_left_bracket(kind: TokenKind) -> bool
    ensures { result ≡ spec.is_left_bracket kind }
{
    matches!(kind, TokenKind::LeftBracket)
}

pub fn is_right_bracket(kind: TokenKind) -> bool
    ensures { result ≡ spec.is_right_bracket kind }
{
    matches!(kind, TokenKind::RightBracket)
}

pub fn is_left_brace(kind: TokenKind) -> bool
    ensures { result ≡ spec.is_left_brace kind }
{
    matches!(kind, TokenKind::LeftBrace)
}

pub fn is_right_brace(kind: TokenKind) -> bool
    ensures { result ≡ spec.is_right_brace kind }
{
    matches!(kind, TokenKind::RightBrace)
}

pub fn is_dot(kind: TokenKind) -> bool
    ensures { result ≡ spec.is_dot kind }
{
    matches!(kind, TokenKind::Dot)
}

pub fn is_comma(kind: TokenKind) -> bool
    ensures { result ≡ spec.is_comma kind }
{
    matches!(kind, TokenKind::Comma)
}

pub fn is_question(kind: TokenKind) -> bool
    ensures { result ≡ spec.is_question kind }
{
    matches!(kind, TokenKind::Question)
}

pub fn is_colon(kind: TokenKind) -> bool
    ensures { result ≡ spec.is_colon kind }
{
    matches!(kind, TokenKind::Colon)
}

pub fn is_identifier(kind: TokenKind) -> bool
    ensures { result ≡ spec.is_identifier kind }
{
    matches!(kind, TokenKind::Identifier)
}

pub fn is_instanceof(kind: TokenKind) -> bool
    ensures { result ≡ spec.is_instanceof kind }
{
    matches!(kind, TokenKind::Instanceof)
}

pub fn is_this(kind: TokenKind) -> bool
    ensures { result ≡ spec.is_this kind }
{
    matches!(kind, TokenKind::This)
}

pub fn is_super(kind: TokenKind) -> bool
    ensures { result ≡ spec.is_super kind }
{
    matches!(kind, TokenKind::Super)
}

pub fn is_new(kind: TokenKind) -> bool
    ensures { result ≡ spec.is_new kind }
{
    matches!(kind, TokenKind::New)
}

/// Whether the operand of a cast to a class may begin with this token.
pub fn begins_operand(kind: TokenKind) -> bool
    ensures { result ≡ spec.begins_operand kind }
{
    matches!(
        kind,
        TokenKind::Bang
            | TokenKind::Tilde
            | TokenKind::LeftParen
            | TokenKind::Identifier
            | TokenKind::IntLiteral
            | TokenKind::LongLiteral
            | TokenKind::CharLiteral
            | TokenKind::StringLiteral
            | TokenKind::True
            | TokenKind::False
            | TokenKind::Null
            | TokenKind::This
            | TokenKind::Super
            | TokenKind::New
    )
}

pub fn is_primitive(kind: TokenKind) -> bool
    ensures { result ≡ leaves.is_primitive kind }
{
    matches!(
        kind,
        TokenKind::Int | TokenKind::Long | TokenKind::Char | TokenKind::Boolean
    )
}

pub fn names_type(kind: TokenKind) -> bool
    ensures { result ≡ leaves.names_type kind }
{
    is_primitive(kind) || is_identifier(kind)
}
