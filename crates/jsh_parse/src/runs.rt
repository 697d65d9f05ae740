//! Operators with their operands, from the level that binds most on. What waits for a right operand lies
//! in memory and not in frames, so that the parser calls itself only for what stands one deeper.

ghost use Rattle.std.specs.Prelude.{◌≡◌, ℕ, ◌+◌, ◌<◌, ◌≤◌, [], length, drop, IfOk};
ghost use Rattle.jsh_parse.specs.Reading.{Reads};
ghost use Rattle.jsh_parse.specs.Runs as runs;
ghost use Rattle.jsh_parse.specs.Runs.{Leaves, after, after_turn, resumed, risen, work, GoesOn, TurnGoesOn};

use crate::error::ParseError;
use crate::input::{Input, operator_at};
use crate::leaves::type_use;
use crate::nodes::{add, instance_of, joined, with_operations};
use jsh_tree::{BinaryOperator, Boxed, Expr, Operation, Seq};
use std::alloc::{AllocError, Global};

/// Operands with the operators of a level between them, as far as they have been read.
#[derive(Drop)]
pub struct Run {
    pub first: Boxed<Expr>,
    pub rest: Seq<Operation>,
    /// How many levels below it bind more.
    pub lower: u32,
    /// How many levels are read in all.
    pub height: u32,
}

/// A run whose last operator waits for its right operand.
#[derive(Drop)]
pub struct Waiting {
    pub run: Run,
    pub operator: BinaryOperator,
}

/// What is read next, behind an operand.
#[derive(Drop)]
pub enum Next {
    /// Nothing: all is read, up to a place.
    Whole(Boxed<Expr>, usize),
    /// The right operand of an operator, from a place on, of so many levels.
    Operand(usize, u32),
}

/// What a turn comes to.
#[derive(Drop)]
pub enum Turn {
    /// A run, and the place behind it.
    Onward(Run, usize),
    Ends(Next),
}

/// Goes on behind an operand until one more is wanted, or none.
#[inline(never)]
pub fn settle(
    input: &Input,
    waiting: &mut Vec<Waiting>,
    operand: Boxed<Expr>,
    from: usize,
    height: u32,
) -> Result<Next, ParseError>
    ensures value { (room : ℕ) → Leaves (after input.now.text.now room input.now.tokens.now waiting.new.items) (resumed input.now.text.now room waiting.old.items (risen input.now.text.now room (runs.begun operand height) (drop from input.now.tokens.now))) result }
    ensures forward { IfOk result (GoesOn (length input.now.tokens.now) from) }
{
    let mut run = begun(input.alloc, operand, height);
    let mut at = from;
    'turns: loop {
        let turn = step(input, waiting, run, at)?;
        match turn {
            Turn::Ends(next) => return Ok(next),
            Turn::Onward(further, behind) => {
                run = further;
                at = behind;
            }
        }
    }
}

/// One step: an operator, a type, the next level, or the end of an operand.
fn step(input: &Input, waiting: &mut Vec<Waiting>, run: Run, at: usize) -> Result<Turn, ParseError>
    ensures value { (room : ℕ) → Leaves (after_turn input.now.text.now room input.now.tokens.now waiting.new.items) (resumed input.now.text.now room waiting.old.items (risen input.now.text.now room run (drop at input.now.tokens.now))) result }
    ensures forward { IfOk result (TurnGoesOn (length input.now.tokens.now) at (work (length input.now.tokens.now) waiting.old.items run at) waiting.new.items) }
{
    if run.height <= run.lower {
        return completed(input.alloc, waiting, run, at);
    }
    let Some(found) = operator_at(input, at, run.lower) else {
        return Ok(Turn::Onward(raised(input.alloc, run)?, at));
    };
    let Some(operator) = found else {
        let (further, end) = tested(input, at + 1)?;
        return Ok(Turn::Onward(with_further(run, further)?, end));
    };
    let height = run.lower;
    waiting.push(Waiting { run, operator })?;
    Ok(Turn::Ends(Next::Operand(at + 1, height)))
}

/// The end of an operand: of the one that is waited for, or of all.
fn completed(
    alloc: Global,
    waiting: &mut Vec<Waiting>,
    run: Run,
    at: usize,
) -> Result<Turn, ParseError>
    ensures { runs.Completes waiting.old.items waiting.new.items run at result }
{
    let operand = run.first;
    match waiting.pop() {
        None => Ok(Turn::Ends(Next::Whole(operand, at))),
        Some(last) => Ok(Turn::Onward(continued(alloc, last, operand)?, at)),
    }
}

/// Nothing but an operand, of which so many levels are to be read.
fn begun(alloc: Global, operand: Boxed<Expr>, height: u32) -> Run
    ensures { result ≡ runs.begun operand height }
{
    Run {
        first: operand,
        rest: Seq::new(alloc),
        lower: 0,
        height,
    }
}

/// A run with the right operand that it waits for.
fn continued(alloc: Global, waiting: Waiting, operand: Boxed<Expr>) -> Result<Run, AllocError>
    ensures { IfOk result (λ longer. longer ≡ runs.with_operand waiting operand) }
{
    let Waiting { run, operator } = waiting;
    let further = joined(alloc, operator, operand)?;
    with_further(run, further)
}

/// A run of the next level, of which this one is the first operand.
fn raised(alloc: Global, run: Run) -> Result<Run, AllocError>
    requires { run.lower < run.height }
    ensures { IfOk result (λ higher. higher ≡ runs.raised run) }
{
    let Run {
        first,
        rest,
        lower,
        height,
    } = run;
    let first = with_operations(alloc, first, rest)?;
    Ok(Run {
        first,
        rest: Seq::new(alloc),
        lower: lower + 1,
        height,
    })
}

/// What the value so far may be an instance of, from behind the word.
fn tested(input: &Input, at: usize) -> Result<(Boxed<Operation>, usize), ParseError>
    ensures { Reads input.now.tokens.now at (runs.type_tested input.now.text.now (drop at input.now.tokens.now)) result }
{
    let (target, end) = type_use(input, at)?;
    Ok((instance_of(input.alloc, target)?, end))
}

/// A run with one operation more.
fn with_further(run: Run, further: Boxed<Operation>) -> Result<Run, AllocError>
    ensures { IfOk result (λ longer. longer ≡ runs.with_further run further) }
{
    let Run {
        first,
        rest,
        lower,
        height,
    } = run;
    let mut rest = rest.into_vec();
    add(&mut rest, further)?;
    Ok(Run {
        first,
        rest: Seq::from_vec(rest),
        lower,
        height,
    })
}
