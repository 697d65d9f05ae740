//! A line that is cut command by command.

ghost use Rattle.std.specs.Prelude.{◌≡◌, ◌≢◌, ◌<◌, ℕ, List, length, nat_lt, IfOk};
ghost use Rattle.jsh_tree.specs.Text.{most_source};
ghost use Rattle.jsh_complete.specs.declared.completion.Completeness.TheVariants as completeness;
ghost use Rattle.jsh_cut.specs.Commands as commands;
ghost use Rattle.jsh_cut.specs.Commands.{Gives};
ghost use Rattle.jsh_cut.specs.Cuttings as spec;

use crate::held::Held;
use crate::next::Next;
use crate::remainder::{Remainder, Split};
use crate::waiting::Waiting;
use jsh_complete::Completeness;
use jsh_snippet::Act;
use jsh_tree::{MOST_SOURCE, SrcText};
use std::alloc::{AllocError, Global};

/// What a line gives of which no text is left.
#[derive(Drop)]
pub enum Tail {
    Nothing,
    Slash(Act),
    Exit,
}

/// What a line gives, as far as it isn't cut yet.
#[derive(Drop)]
pub enum Cutting {
    /// This text is submitted, and then comes the rest of the line.
    Ends(Waiting, Tail),
    /// The text that was held, with the line behind it.
    Grown(Waiting),
    /// What snippets of that were cut off from.
    Left(Remainder),
    Last(Tail),
}

impl Tail {
    fn next(self) -> Next
        ensures { spec.given result ≡ spec.by_tail self }
    {
        match self {
            Tail::Nothing => Next::Waits(Held::Nothing),
            Tail::Slash(act) => Next::Slash(act, Cutting::Last(Tail::Nothing)),
            Tail::Exit => Next::Exit,
        }
    }
}

/// A source is submitted, and nothing is left.
fn submit(alloc: Global, source: &str) -> Result<Next, AllocError>
    ensures { IfOk result (λ next. spec.given next ≡ commands.submits source.now) }
{
    let source = SrcText::from_text(alloc, source)?;
    Ok(Next::Eval(source, Cutting::Last(Tail::Nothing)))
}

/// Whether the source of a text is too long to be held.
fn is_too_long(text: &Waiting) -> bool
    ensures { result ≡ nat_lt most_source (length (commands.source_of text.now)) }
{
    MOST_SOURCE < text.source().len()
}

/// What a text gives that doesn't begin with a whole snippet.
fn settle(alloc: Global, text: Waiting, kind: Completeness) -> Result<Next, AllocError>
    requires { kind ≢ completeness.Complete }
    ensures { IfOk result (λ next. (onward : List ℕ → Gives) → spec.given next ≡ commands.by_kind text onward kind) }
{
    match kind {
        Completeness::Empty => Ok(Next::Waits(Held::Nothing)),
        Completeness::ConsideredIncomplete => {
            if is_too_long(&text) {
                submit(alloc, text.source())
            } else {
                Ok(Next::Waits(Held::MayEnd(text)))
            }
        }
        Completeness::DefinitelyIncomplete => {
            if is_too_long(&text) {
                submit(alloc, text.source())
            } else {
                Ok(Next::Waits(Held::MustGoOn(text)))
            }
        }
        Completeness::Complete | Completeness::CompleteWithSemi | Completeness::Unknown => {
            submit(alloc, text.source())
        }
    }
}

/// The same of what is left of a text, which is copied only where it waits.
fn settle_left(alloc: Global, text: Remainder, kind: Completeness) -> Result<Next, AllocError>
    requires { kind ≢ completeness.Complete }
    ensures { IfOk result (λ next. (onward : List ℕ → Gives) → spec.given next ≡ commands.by_kind text onward kind) }
{
    match kind {
        Completeness::Empty => Ok(Next::Waits(Held::Nothing)),
        Completeness::ConsideredIncomplete | Completeness::DefinitelyIncomplete => {
            settle(alloc, Waiting::of(alloc, text.as_str())?, kind)
        }
        Completeness::Complete | Completeness::CompleteWithSemi | Completeness::Unknown => {
            submit(alloc, text.source())
        }
    }
}

/// What comes next of a text.
fn next_grown(alloc: Global, mut text: Waiting) -> Result<Next, AllocError>
    ensures { IfOk result (λ next. spec.given next ≡ commands.by_text text) }
{
    let completion = text.analyze();
    match completion.kind {
        Completeness::Complete => next_left(alloc, text.into_remainder()),
        kind => settle(alloc, text, kind),
    }
}

/// What comes next of what is left of a text.
fn next_left(alloc: Global, text: Remainder) -> Result<Next, AllocError>
    ensures { IfOk result (λ next. spec.given next ≡ commands.by_text text) }
{
    match text.split(alloc)? {
        Split::First(source, left) => Ok(Next::Eval(source, Cutting::Left(left))),
        Split::Other(kind, text) => settle_left(alloc, text, kind),
    }
}

impl Cutting {
    /// Cuts the next command. Nothing behind it is cut before it is asked for.
    pub fn next(self, alloc: Global) -> Result<Next, AllocError>
        ensures { IfOk result (λ next. spec.given next ≡ spec.coming self) }
    {
        match self {
            Cutting::Ends(text, behind) => {
                let source = SrcText::from_text(alloc, text.source())?;
                Ok(Next::Eval(source, Cutting::Last(behind)))
            }
            Cutting::Grown(text) => next_grown(alloc, text),
            Cutting::Left(text) => next_left(alloc, text),
            Cutting::Last(behind) => Ok(behind.next()),
        }
    }
}
