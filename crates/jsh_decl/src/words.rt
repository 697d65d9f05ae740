//! Single tokens that the parser of declarations looks for.

ghost use Rattle.std.specs.Prelude.{◌≡◌, ◌||◌};
ghost use Rattle.jsh_parse.specs.Marks as marks;
ghost use Rattle.jsh_decl.specs.Words as spec;
ghost use Rattle.jsh_decl.specs.Declarations as grammar;
ghost use Rattle.jsh_decl.specs.DeclarationReading as read;

use jsh_parse::{is_super, is_this};
use jsh_tree::{Modifier, TokenKind};

/// A word that a list of names stands behind.
#[derive(Clone, Copy, Debug, PartialEq, Eq)]
pub enum ListWord {
    Extends,
    Implements,
    Throws,
}

/// Whether a token is this word.
pub fn is_word(word: ListWord, kind: TokenKind) -> bool
    ensures { result ≡ read.test_of word kind }
{
    match word {
        ListWord::Extends => is_extends(kind),
        ListWord::Implements => is_implements(kind),
        ListWord::Throws => is_throws(kind),
    }
}

pub fn is_import(kind: TokenKind) -> bool
    ensures { result ≡ spec.is_import kind }
{
    matches!(kind, TokenKind::Import)
}

pub fn is_static(kind: TokenKind) -> bool
    ensures { result ≡ spec.is_static kind }
{
    matches!(kind, TokenKind::Static)
}

pub fn is_star(kind: TokenKind) -> bool
    ensures { result ≡ spec.is_star kind }
{
    matches!(kind, TokenKind::Star)
}

pub fn is_class(kind: TokenKind) -> bool
    ensures { result ≡ spec.is_class kind }
{
    matches!(kind, TokenKind::Class)
}

pub fn is_interface(kind: TokenKind) -> bool
    ensures { result ≡ spec.is_interface kind }
{
    matches!(kind, TokenKind::Interface)
}

pub fn is_void(kind: TokenKind) -> bool
    ensures { result ≡ spec.is_void kind }
{
    matches!(kind, TokenKind::Void)
}

pub fn is_extends(kind: TokenKind) -> bool
    ensures { result ≡ spec.is_extends kind }
{
    matches!(kind, TokenKind::Extends)
}

fn is_implements(kind: TokenKind) -> bool
    ensures { result ≡ spec.is_implements kind }
{
    matches!(kind, TokenKind::Implements)
}

fn is_throws(kind: TokenKind) -> bool
    ensures { result ≡ spec.is_throws kind }
{
    matches!(kind, TokenKind::Throws)
}

/// Whether the call of another constructor begins with this token.
pub fn calls_constructor(kind: TokenKind) -> bool
    ensures { result ≡ (marks.is_this kind || marks.is_super kind) }
{
    is_this(kind) || is_super(kind)
}

/// The modifier that a token is.
pub fn modifier_of(kind: TokenKind) -> Option<Modifier>
    ensures { result ≡ grammar.modifier_of kind }
{
    match kind {
        TokenKind::Public => Some(Modifier::Public),
        TokenKind::Protected => Some(Modifier::Protected),
        TokenKind::Private => Some(Modifier::Private),
        TokenKind::Static => Some(Modifier::Static),
        TokenKind::Final => Some(Modifier::Final),
        TokenKind::Volatile => Some(Modifier::Volatile),
        TokenKind::Abstract => Some(Modifier::Abstract),
        _ => None,
    }
}
