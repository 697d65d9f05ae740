ghost use Rattle.std.specs.Prelude.{◌≡◌};
ghost use Rattle.jsh_parse.specs.Forms as spec;

use jsh_tree::TokenKind;

/// The forms of statements, by the token that each begins with.
#[derive(Clone, Copy, Debug, PartialEq, Eq)]
pub enum Form {
    Block,
    Empty,
    If,
    While,
    Do,
    For,
    Switch,
    Break,
    Continue,
    Return,
    Throw,
    Try,
    /// Any other begins with its expression.
    Expression,
}

/// The form of a statement that begins with this token.
pub fn form_of(kind: TokenKind) -> Form
    ensures { result ≡ spec.form_of kind }
{
    match kind {
        TokenKind::LeftBrace => Form::Block,
        TokenKind::Semicolon => Form::Empty,
        TokenKind::If => Form::If,
        TokenKind::While => Form::While,
        TokenKind::Do => Form::Do,
        TokenKind::For => Form::For,
        TokenKind::Switch => Form::Switch,
        TokenKind::Break => Form::Break,
        TokenKind::Continue => Form::Continue,
        TokenKind::Return => Form::Return,
        TokenKind::Throw => Form::Throw,
        TokenKind::Try => Form::Try,
        _ => Form::Expression,
    }
}
