//! The modifiers before a declaration.

ghost use Rattle.std.specs.Prelude.{◌≡◌, ◌<◌, length, drop, OnSome};
ghost use Rattle.jsh_parse.specs.Reading.{Reads};
ghost use Rattle.jsh_decl.specs.DeclarationReading as read;

use crate::words::modifier_of;
use jsh_parse::{Input, ParseError};
use jsh_tree::{Modifier, ModifierUse, Seq};

/// Where a declaration stands.
#[derive(Clone, Copy, Debug, PartialEq, Eq)]
pub enum Place {
    Snippet,
    /// In a class.
    Member,
    /// In an interface.
    Interface,
}

/// Whether a modifier may stand before a declaration at a place of this kind.
fn allows(place: Place, modifier: Modifier) -> bool
    ensures { result ≡ read.allowed place modifier }
{
    match place {
        Place::Snippet => true,
        Place::Member => modifier != Modifier::Static,
        Place::Interface => matches!(modifier, Modifier::Public | Modifier::Abstract),
    }
}

/// The modifier at a place, where one that may stand there does.
fn modifier(input: &Input, at: usize, place: Place) -> Option<ModifierUse>
    ensures value { result ≡ read.modifier_at (read.allowed place) (drop at input.now.tokens.now) }
    ensures inside { OnSome result (at < length input.now.tokens.now) }
{
    let token = input.token(at)?;
    let modifier = modifier_of(token.kind)?;
    if !allows(place, modifier) {
        return None;
    }
    Some(ModifierUse {
        modifier,
        span: token.span,
    })
}

/// The modifiers from a place on, as far as they may stand there.
pub fn modifiers(
    input: &Input,
    from: usize,
    place: Place,
) -> Result<(Seq<ModifierUse>, usize), ParseError>
    ensures { Reads input.now.tokens.now from (read.modifiers_at (read.allowed place) (drop from input.now.tokens.now)) result }
{
    let mut modifiers = Vec::new(input.alloc);
    let mut at = from;
    while let Some(further) = modifier(input, at, place) {
        modifiers.push(further)?;
        at += 1;
    }
    Ok((Seq::from_vec(modifiers), at))
}
