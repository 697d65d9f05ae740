//! What is left of a text whose snippets are cut off one by one.

ghost use Rattle.std.specs.Prelude.{◌≡◌, ◌^◌, ◌<◌, length, drop, IfOk};
ghost use Rattle.std.specs.String.{string_bytes};
ghost use Rattle.jsh_cut.specs.Commands as spec;
ghost use Rattle.jsh_cut.specs.Scans.{IsScanOf};
ghost use Rattle.jsh_cut.specs.Remainders.{IsRemainder, Finds, Splits};

use crate::rest::{beginning_of, first_source, rest_source, tokens_behind};
use crate::scan::Scan;
use jsh_complete::Completeness;
use jsh_tree::SrcText;
use std::alloc::{AllocError, Global};
use std::marker::Model;

/// What is left of a text. The text is lexed once. Contracts see it as what is left.
#[derive(Drop)]
pub struct Remainder {
    text: String,
    scan: Scan,
    /// How many bytes are cut off.
    base: usize,
    /// And how many tokens.
    read: usize,
}

impl Model for Remainder {
    ghost use Rattle.std.specs.Prelude.{List, ℕ, drop};
    ghost use Rattle.std.specs.String.{string_bytes};

    ghost Value = { List ℕ };

    ghost use Rattle.jsh_cut.specs.Remainders.{IsRemainder};

    ghost view = { λ r. drop r.base (string_bytes r.text) };

    ghost invariant = { λ r. IsRemainder (string_bytes r.text) r.scan r.base r.read };
}

/// How a text begins.
#[derive(Drop)]
pub enum Split {
    /// With a whole snippet, which has this source, and this is left behind it.
    First(SrcText, Remainder),
    /// With none: this kind of text is left as it was.
    Other(Completeness, Remainder),
}

/// How what is left of a text begins.
#[derive(Drop)]
pub enum Found {
    /// With a whole snippet.
    First {
        source: SrcText,
        /// Where it ends in the whole text.
        end: usize,
        /// How many tokens of the whole text end there.
        read: usize,
    },
    /// With none.
    Other(Completeness),
}

/// Reads the tokens behind so many, as far as the first snippet needs.
fn find(
    alloc: Global,
    text: &str,
    scan: &Scan,
    base: usize,
    read: usize,
) -> Result<Found, AllocError>
    requires { IsRemainder text.now scan.now base read }
    ensures { IfOk result (Finds text.now scan.now base) }
{
    let rest = &text[base..];
    let tokens = tokens_behind(scan.tokens.as_slice(), read);
    let beginning = beginning_of(rest, base, tokens, scan.fault);
    match beginning.kind {
        Completeness::Complete => {
            let source = first_source(rest, base, tokens, beginning.end);
            Ok(Found::First {
                source: SrcText::from_text(alloc, source)?,
                end: beginning.end,
                read: read + beginning.count,
            })
        }
        kind => Ok(Found::Other(kind)),
    }
}

/// The source that is left.
fn source_left<'a>(text: &'a str, scan: &Scan, base: usize, read: usize) -> &'a str
    requires { IsRemainder text.now scan.now base read }
    ensures { result.now ≡ spec.source_of (drop base text.now) }
{
    let tokens = tokens_behind(scan.tokens.as_slice(), read);
    rest_source(&text[base..], base, tokens, scan.fault)
}

impl Remainder {
    /// A text of which nothing is cut off, with its tokens and its fault.
    pub fn whole(text: String, scan: Scan) -> Remainder
        requires short { length (string_bytes text) < 2 ^ 32 }
        requires scanned { IsScanOf (string_bytes text) scan }
        ensures { result ≡ string_bytes text }
    {
        Remainder {
            text,
            scan,
            base: 0,
            read: 0,
        }
    }

    pub fn as_str(&self) -> &str
        ensures value { result.now ≡ self.now }
        ensures short { length result.now < 2 ^ 32 }
    {
        &self.text.as_str()[self.base..]
    }

    /// The source that it submits.
    pub fn source(&self) -> &str
        ensures { result.now ≡ spec.source_of self.now }
    {
        source_left(self.text.as_str(), &self.scan, self.base, self.read)
    }

    /// Cuts off the snippet that it begins with.
    pub fn split(self, alloc: Global) -> Result<Split, AllocError>
        ensures { IfOk result (Splits self) }
    {
        let Remainder {
            text,
            scan,
            base,
            read,
        } = self;
        match find(alloc, text.as_str(), &scan, base, read)? {
            Found::First { source, end, read } => Ok(Split::First(
                source,
                Remainder {
                    text,
                    scan,
                    base: end,
                    read,
                },
            )),
            Found::Other(kind) => Ok(Split::Other(
                kind,
                Remainder {
                    text,
                    scan,
                    base,
                    read,
                },
            )),
        }
    }
}
