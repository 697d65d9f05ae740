//! Identifiers and reserved words.

ghost use Rattle.std.specs.Prelude.{◌≡◌, map};
ghost use Rattle.std.specs.List.{list_all};
ghost use Rattle.std.specs.Str.{chars};
ghost use Rattle.jsh_lex.specs.Chars.{is_identifier_part};
ghost use Rattle.jsh_lex.specs.Spelling.{is_word, is_identifier_kind, is_identifier};
ghost use Rattle.jsh_lex.specs.Table as spec;

use crate::chars::{is_identifier_part, is_identifier_start, split_first};
use jsh_tree::TokenKind;

/// The reserved words (JLS 3.9), with the literals `true`, `false` and `null` and the word `_`.
const RESERVED_WORDS: [(&[u8], TokenKind); 55] = [
    (b"abstract", TokenKind::Abstract),
    (b"assert", TokenKind::Assert),
    (b"boolean", TokenKind::Boolean),
    (b"break", TokenKind::Break),
    (b"byte", TokenKind::Byte),
    (b"case", TokenKind::Case),
    (b"catch", TokenKind::Catch),
    (b"char", TokenKind::Char),
    (b"class", TokenKind::Class),
    (b"const", TokenKind::Const),
    (b"continue", TokenKind::Continue),
    (b"default", TokenKind::Default),
    (b"do", TokenKind::Do),
    (b"double", TokenKind::Double),
    (b"else", TokenKind::Else),
    (b"enum", TokenKind::Enum),
    (b"extends", TokenKind::Extends),
    (b"final", TokenKind::Final),
    (b"finally", TokenKind::Finally),
    (b"float", TokenKind::Float),
    (b"for", TokenKind::For),
    (b"goto", TokenKind::Goto),
    (b"if", TokenKind::If),
    (b"implements", TokenKind::Implements),
    (b"import", TokenKind::Import),
    (b"instanceof", TokenKind::Instanceof),
    (b"int", TokenKind::Int),
    (b"interface", TokenKind::Interface),
    (b"long", TokenKind::Long),
    (b"native", TokenKind::Native),
    (b"new", TokenKind::New),
    (b"package", TokenKind::Package),
    (b"private", TokenKind::Private),
    (b"protected", TokenKind::Protected),
    (b"public", TokenKind::Public),
    (b"return", TokenKind::Return),
    (b"short", TokenKind::Short),
    (b"static", TokenKind::Static),
    (b"strictfp", TokenKind::Strictfp),
    (b"super", TokenKind::Super),
    (b"switch", TokenKind::Switch),
    (b"synchronized", TokenKind::Synchronized),
    (b"this", TokenKind::This),
    (b"throw", TokenKind::Throw),
    (b"throws", TokenKind::Throws),
    (b"transient", TokenKind::Transient),
    (b"try", TokenKind::Try),
    (b"void", TokenKind::Void),
    (b"volatile", TokenKind::Volatile),
    (b"while", TokenKind::While),
    (b"true", TokenKind::True),
    (b"false", TokenKind::False),
    (b"null", TokenKind::Null),
    (b"var", TokenKind::Var),
    (b"_", TokenKind::Underscore),
];

fn kind_in(mut table: &[(&[u8], TokenKind)], word: &[u8]) -> TokenKind
    ensures { result ≡ spec.kind_in (map (λ entry. (entry.0.now, entry.1)) table.entry.now) word.now }
{
    while let [entry, rest @ ..] = table {
        if entry.0 == word {
            return entry.1;
        }
        table = rest;
    }
    TokenKind::Identifier
}

/// The reserved word that a word is, or an identifier.
#[tactic(auto, unfolding(crate::specs::Table::word_kind))]
pub fn word_kind(word: &[u8]) -> TokenKind
    ensures { result ≡ spec.word_kind word.now }
{
    kind_in(&RESERVED_WORDS, word)
}

fn are_identifier_parts(mut text: &str) -> bool
    ensures { result ≡ list_all is_identifier_part (chars text.entry.now) }
{
    while let Some((c, rest)) = split_first(text) {
        if !is_identifier_part(c) {
            return false;
        }
        text = rest;
    }
    true
}

fn is_word(text: &str) -> bool
    ensures { result ≡ is_word (chars text.now) }
{
    match split_first(text) {
        None => false,
        Some((first, rest)) => is_identifier_start(first) && are_identifier_parts(rest),
    }
}

fn is_identifier_kind(kind: TokenKind) -> bool
    ensures { result ≡ is_identifier_kind kind }
{
    matches!(kind, TokenKind::Identifier)
}

/// Whether a text is an identifier (JLS 3.8), by the characters and the reserved words of this lexis.
#[tactic(auto, unfolding(crate::specs::Spelling::is_identifier))]
pub fn is_identifier(text: &str) -> bool
    ensures { result ≡ is_identifier text.now }
{
    is_word(text) && is_identifier_kind(word_kind(text.as_bytes()))
}
