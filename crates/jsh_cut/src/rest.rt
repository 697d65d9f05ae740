//! What is left of a text whose snippets are cut off one by one. The text is lexed once, so the tokens of a rest have their places in the whole text.

ghost use Rattle.std.specs.Prelude.{◌≡◌, ◌+◌, ◌-◌, ◌≤◌, ◌^◌, ◌<◌, length, take, drop, slice_range};
ghost use Rattle.std.specs.Str.{IsCharBoundary};
ghost use Rattle.jsh_complete.specs.Completeness.{end_of};
ghost use Rattle.jsh_complete.specs.declared.completion.Completeness.TheVariants as completeness;
ghost use Rattle.jsh_cut.specs.Commands as spec;
ghost use Rattle.jsh_cut.specs.Rests.{placed, IsRest};

use crate::scan::{last_end, part};
use jsh_complete::{Completeness, Reader};
use jsh_lex::LexFault;
use jsh_lines::{Edge, first_place, last_place};
use jsh_tree::Token;

/// How a rest begins.
#[derive(Clone, Copy, Debug)]
pub struct Beginning {
    /// Whether it is whole.
    pub kind: Completeness,
    /// Where its first snippet ends in the whole text, where the kind is `Complete`.
    pub end: usize,
    /// And how many tokens that snippet has.
    pub count: usize,
}

/// Reads the tokens of the rest as far as its first snippet needs.
pub fn beginning_of(rest: &str, base: usize, tokens: &[Token], fault: Option<LexFault>) -> Beginning
    requires short { length rest.now < 2 ^ 32 }
    requires rest { IsRest base rest.now tokens.now fault }
    ensures kind { result.kind ≡ (spec.completion rest.now).kind }
    ensures end { result.kind ≡ completeness.Complete → result.end ≡ base + (spec.completion rest.now).end }
    ensures between { result.kind ≡ completeness.Complete → IsCharBoundary rest.now (spec.completion rest.now).end }
    ensures some { result.kind ≡ completeness.Complete → 0 < (spec.completion rest.now).end }
    ensures count { result.kind ≡ completeness.Complete → (0 < result.count) × (result.end ≡ end_of (take result.count tokens.now)) }
    ensures few { result.count ≤ length tokens.now }
{
    let mut reader = Reader::new();
    let completion = reader.analyze(rest, tokens, fault);
    Beginning {
        kind: completion.kind,
        end: completion.end as usize,
        count: reader.longest,
    }
}

/// The tokens behind so many.
pub fn tokens_behind(tokens: &[Token], count: usize) -> &[Token]
    requires { count ≤ length tokens.now }
    ensures { result.now ≡ drop count tokens.now }
{
    &tokens[count..]
}

/// Where the source of the rest begins in it.
fn begin(rest: &str, base: usize, tokens: &[Token]) -> usize
    requires { tokens.now ≡ placed base rest.now }
    ensures value { result ≡ spec.begin_of rest.now }
    ensures between { IsCharBoundary rest.now result }
{
    match tokens {
        [first, ..] => first.span.from as usize - base,
        [] => first_place(Edge::White, rest),
    }
}

/// Where the source of the rest ends in it.
fn end(rest: &str, base: usize, tokens: &[Token], fault: Option<LexFault>) -> usize
    requires { IsRest base rest.now tokens.now fault }
    ensures value { result ≡ spec.end_of rest.now }
    ensures between { IsCharBoundary rest.now result }
{
    match fault {
        Some(_) => last_place(Edge::White, rest),
        None => match tokens {
            [_, ..] => last_end(tokens) as usize - base,
            [] => 0,
        },
    }
}

/// The source that the rest submits.
pub fn rest_source<'a>(
    rest: &'a str,
    base: usize,
    tokens: &[Token],
    fault: Option<LexFault>,
) -> &'a str
    requires { IsRest base rest.now tokens.now fault }
    ensures { result.now ≡ spec.source_of rest.now }
{
    part(
        rest,
        begin(rest, base, tokens),
        end(rest, base, tokens, fault),
    )
}

/// The source of the snippet that the rest begins with, and that ends at this place of the whole text.
pub fn first_source<'a>(rest: &'a str, base: usize, tokens: &[Token], end: usize) -> &'a str
    requires tokens { tokens.now ≡ placed base rest.now }
    requires behind { base ≤ end }
    requires to { IsCharBoundary rest.now (end - base) }
    ensures { result.now ≡ slice_range rest.now (spec.begin_of rest.now) (end - base) }
{
    part(rest, begin(rest, base, tokens), end - base)
}
